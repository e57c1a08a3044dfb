//! What follows a scan while it goes on.

/// Follows a scan, as one does that shows how far it is. Several threads may follow one scan by it.
pub trait Watch {
    /// The folders are listed, and so many files will be looked at.
    fn files_listed(&self, count: usize);

    /// Another file is looked at.
    fn file_begun(&self);

    /// So many more bytes of it were read.
    fn bytes_read(&self, count: usize);
}

/// Follows no scan.
#[derive(Clone, Copy, Drop)]
pub struct Unwatched;

impl Watch for Unwatched {
    fn files_listed(&self, _count: usize) {}

    fn file_begun(&self) {}

    fn bytes_read(&self, _count: usize) {}
}
