ghost use Rattle.std.specs.Prelude.{◌↔◌, IsTrue};
ghost use Rattle.pana_sums.specs.Times.{IsSettled};

use crate::file_time::{FileTime, nanoseconds_of};

/// How many nanoseconds before a scan a file may still have been in change: two seconds.
const RACY_NANOSECONDS: i128 = 2_000_000_000;

/// What a system says of a file without reading it. A file whose signature is that of the last scan has the bytes that it
/// had then, if the signature was settled.
#[derive(Clone, Copy, PartialEq, Eq, Hash)]
pub struct Signature {
    pub device: u64,
    pub inode: u64,
    pub size: u64,
    pub modified: FileTime,
    pub changed: FileTime,
}

impl Signature {
    /// Whether both times are two seconds or more before a scan began. A file that was changed later than that may change
    /// again and have the same times, so its sum isn't to be kept.
    pub fn is_settled(&self, begun: FileTime) -> bool
        ensures { IsTrue result ↔ IsSettled self.now begun }
    {
        let latest = nanoseconds_of(&begun) - RACY_NANOSECONDS;
        nanoseconds_of(&self.modified) <= latest && nanoseconds_of(&self.changed) <= latest
    }
}
