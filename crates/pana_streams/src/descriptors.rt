//! The descriptors of the standard streams.

use std::fs::File;
use std::os::fd::{AsRawFd, IntoRawFd};

/// How many standard streams there are; their descriptors are 0 to 2.
const STANDARD_STREAMS: i32 = 3;

/// Opens something for each standard stream that was closed, so that no file or connection is taken for it.
pub fn take_standard_descriptors(rt: &HostRuntime) {
    for _ in 0..STANDARD_STREAMS {
        let Ok(file) = File::open(rt, "/dev/null").or_else(|_| File::open(rt, "/")) else {
            return;
        };
        if file.as_raw_fd() >= STANDARD_STREAMS {
            return;
        }
        let _ = file.into_raw_fd(); // it stays open
    }
}
