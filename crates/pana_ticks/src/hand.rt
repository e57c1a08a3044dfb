use crate::count::Count;

/// What a share knows: the one that counts what it has counted, and one that watches what it has seen last. The one that
/// counts may know both, once it has met one that watches, which then knows nothing more. No value of it is made.
pub enum Hand {
    Counter(Count),
    Watcher(Count),
    Both(Count, Count),
    Spent,
}
