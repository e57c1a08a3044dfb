use std::error::Error;
use std::fmt;

/// Why a shared log isn't read.
#[derive(Clone, Copy, Debug, PartialEq, Eq)]
pub enum ReadFault {
    /// What keeps it doesn't answer. It may, later.
    NoAnswer,
    /// What stands at this number, from 1, is no record.
    Foreign { number: u64 },
    /// Memory ran out.
    OutOfMemory,
}

impl fmt::Display for ReadFault {
    fn fmt<W: fmt::Write>(&self, f: &mut fmt::Formatter<W>) -> fmt::Result {
        match self {
            ReadFault::NoAnswer => f.write_str("no answer"),
            ReadFault::Foreign { number } => write!(f, "entry {number}: not a record"),
            ReadFault::OutOfMemory => f.write_str("out of memory"),
        }
    }
}

impl Error for ReadFault {}
