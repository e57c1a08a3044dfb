use pana_shared::ReadFault;
use std::error::Error;
use std::fmt;

/// Why the entries of a journal aren't put into a log, or not all of them.
#[derive(Clone, Copy, Debug)]
pub enum FillFault {
    /// The log has entries.
    NotEmpty,
    /// Another record stands where the entry with this number was to be put.
    NotNext { number: u64 },
    /// The log takes no more.
    Full,
    /// The log isn't read, so it isn't known whether the next ones were put; or memory ran out.
    Unread(ReadFault),
}

impl fmt::Display for FillFault {
    fn fmt<W: fmt::Write>(&self, f: &mut fmt::Formatter<W>) -> fmt::Result {
        match self {
            FillFault::NotEmpty => f.write_str("not empty"),
            FillFault::NotNext { number } => write!(f, "entry {number} isn't the next one"),
            FillFault::Full => f.write_str("full"),
            FillFault::Unread(fault) => write!(f, "{fault}"),
        }
    }
}

impl Error for FillFault {}
