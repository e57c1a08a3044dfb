use std::alloc::AllocError;

/// Why the daemon hasn't begun.
#[derive(Clone, Copy)]
pub enum DaemonFault {
    /// An allocation failed.
    OutOfMemory,
    /// Where it listens can't be printed.
    Write,
    /// No descriptor is left.
    NoDescriptor,
    /// Not as many threads can be made as it takes.
    NoThreads,
}

impl From<AllocError> for DaemonFault {
    fn from(_error: AllocError) -> DaemonFault {
        DaemonFault::OutOfMemory
    }
}

/// What has gone wrong while the daemon ran.
#[derive(Clone, Copy)]
pub enum LateFault {
    /// Threads can't be made after all: not all began within ten seconds that are to run at once, and no connection was
    /// taken, and no folder read.
    NoThreads,
    /// A call had no answer, since the store has failed.
    Unanswered,
}
