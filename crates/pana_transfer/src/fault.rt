use std::error::Error;
use std::fmt;

/// Why a journal isn't made at a session, or not all of it.
#[derive(Clone, Copy, Debug, PartialEq, Eq)]
pub enum TransferFault {
    /// The session has entries.
    NotEmpty,
    /// The entry with this number isn't the next one there: others report too, or it is none of a journal.
    NotNext { number: u64 },
    /// A call has no answer, or what was made isn't kept.
    NoAnswer,
    /// Memory ran out.
    OutOfMemory,
}

impl fmt::Display for TransferFault {
    fn fmt<W: fmt::Write>(&self, f: &mut fmt::Formatter<W>) -> fmt::Result {
        match self {
            TransferFault::NotEmpty => f.write_str("not empty"),
            TransferFault::NotNext { number } => write!(f, "entry {number} isn't the next one"),
            TransferFault::NoAnswer => f.write_str("no answer"),
            TransferFault::OutOfMemory => f.write_str("out of memory"),
        }
    }
}

impl Error for TransferFault {}
