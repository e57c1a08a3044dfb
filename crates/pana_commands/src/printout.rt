ghost use Rattle.std.specs.Prelude.{◌≡◌, ℕ, List, Some, IfOk, string_bytes};
ghost use Rattle.pana_commands.specs.Answered.{Prints, Reports};

use std::alloc::{AllocError, Global};
use std::fmt;

/// What a command has to say, and its exit status.
pub struct Printout {
    /// For standard output: lines, each with its newline.
    pub out: String,
    /// For standard error: a line with its newline, or nothing.
    pub err: String,
    /// The exit status.
    pub status: u8,
}

impl Drop for Printout {
    fn drop(self) {
        let Printout {
            out: _,
            err: _,
            status: _,
        } = self;
    }
}

impl Printout {
    /// This text for standard output, and status 0. Takes no memory.
    pub fn printed(alloc: Global, out: String) -> Printout
        ensures { Prints (string_bytes out) result }
    {
        Printout {
            out,
            err: String::new(alloc),
            status: 0,
        }
    }

    /// One line for standard error that says so, and status 1. Fails only where memory runs out.
    pub fn reported<D: fmt::Display>(alloc: Global, what: &D) -> Result<Printout, AllocError>
        ensures { IfOk result (λ answer. (text : List ℕ) → D.output what.now ≡ Some text → Reports text answer) }
    {
        let err = format!(in alloc; "panad: {what}\n")?;
        Ok(Printout {
            out: String::new(alloc),
            err,
            status: 1,
        })
    }
}
