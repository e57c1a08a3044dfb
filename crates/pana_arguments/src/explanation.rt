//! What is printed in place of doing what a command line asks for.
ghost use Rattle.std.specs.Prelude.{◌≡◌, IfOk, true, false};

use crate::command::panad_command;
use clap::error::{Error, ErrorKind};
use std::alloc::{AllocError, Global};

/// Help, the version, or why words are refused.
#[derive(Drop)]
pub struct Explanation {
    /// What is printed, with the newline at its end.
    pub text: String,
    /// Whether the words are refused; the text goes to standard error then, and else to standard output.
    pub is_refusal: bool,
}

/// Why there is no command line to obey.
#[derive(Drop)]
pub enum Unread {
    /// This is to be printed.
    Explained(Explanation),
    /// An allocation failed.
    OutOfMemory,
}

impl From<AllocError> for Unread {
    fn from(_error: AllocError) -> Unread {
        Unread::OutOfMemory
    }
}

impl Explanation {
    fn of(alloc: Global, error: &Error) -> Result<Explanation, AllocError> {
        let text = format!(in alloc; "{error}")?;
        Ok(Explanation {
            text,
            is_refusal: error.use_stderr(),
        })
    }

    /// The status that the program ends with.
    pub fn status(&self) -> u8
        ensures refused { self.now.is_refusal ≡ true → result ≡ 2 }
        ensures shown { self.now.is_refusal ≡ false → result ≡ 0 }
    {
        if self.is_refusal { 2 } else { 0 }
    }
}

impl Unread {
    /// What comes of an error of `clap`.
    pub(crate) fn of(alloc: Global, error: &Error) -> Unread {
        if matches!(error.kind(), ErrorKind::OutOfMemory) {
            return Unread::OutOfMemory;
        }
        match Explanation::of(alloc, error) {
            Ok(explanation) => Unread::Explained(explanation),
            Err(_) => Unread::OutOfMemory,
        }
    }
}

/// The error by which `clap` refuses words for this reason.
fn error_of(alloc: Global, reason: &str) -> Result<Error, AllocError> {
    let mut command = panad_command(alloc)?;
    let error = command.error(ErrorKind::InvalidValue, reason);
    drop(command);
    error
}

/// Refuses the words for a reason that `clap` doesn't look at.
pub fn refusal(alloc: Global, reason: &str) -> Result<Explanation, AllocError>
    ensures { IfOk result (λ explanation. explanation.is_refusal ≡ true) }
{
    let error = error_of(alloc, reason)?;
    let text = format!(in alloc; "{error}")?;
    Ok(Explanation {
        text,
        is_refusal: true,
    })
}
