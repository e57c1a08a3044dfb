//! Whether a copy may be overwritten, as it is said.
ghost use Rattle.std.specs.Prelude.{◌≡◌, IfOk, string_bytes};
ghost use Rattle.pana_ask.specs.Verdict.{line_naming, verdict_line, verdict_status};

use crate::naming::place_name;
use pana_copies::Place;
use std::alloc::{AllocError, Global};

/// Whether a copy may be overwritten with another one.
#[derive(Clone, Copy)]
pub enum Verdict {
    /// It may: the other has all of its changes.
    Yes,
    /// It has changes that the other lacks, and the other has none that it lacks.
    Newer,
    /// Each has changes that the other lacks.
    Conflict,
    /// The two are copies of two files.
    Unrelated,
}

impl Verdict {
    /// The line that says so of the copies at these places, with its newline. Fails only where memory runs out.
    pub fn line(self, alloc: Global, target: &Place, source: &Place) -> Result<String, AllocError>
        ensures { IfOk result (λ line. string_bytes line ≡ verdict_line self target.now source.now) }
    {
        let copy = place_name(alloc, target)?;
        let other = place_name(alloc, source)?;
        self.line_naming(alloc, copy.as_str(), other.as_str())
    }

    /// The line that says so of copies that are named so.
    fn line_naming(self, alloc: Global, copy: &str, other: &str) -> Result<String, AllocError>
        ensures { IfOk result (λ line. string_bytes line ≡ line_naming self copy.now other.now) }
    {
        match self {
            Verdict::Yes => String::from_str(alloc, "yes\n"),
            Verdict::Newer => {
                format!(in alloc; "newer: {copy} has changes that {other} lacks\n")
            }
            Verdict::Conflict => {
                format!(in alloc; "conflict: {copy} has changes that {other} lacks\n")
            }
            Verdict::Unrelated => {
                format!(in alloc; "unrelated: {copy} and {other} are copies of two files\n")
            }
        }
    }

    /// The exit status that says so: 0 where it may be overwritten, else 1. Takes no memory.
    pub fn status(self) -> u8
        ensures { result ≡ verdict_status self }
    {
        match self {
            Verdict::Yes => 0,
            _ => 1,
        }
    }
}
