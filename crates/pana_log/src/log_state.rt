/// What a log may be asked next.
#[derive(Clone, Copy, PartialEq, Eq)]
pub enum LogState {
    /// To read its file.
    Unread,
    /// To repair its file.
    Read,
    /// To take lines.
    Open,
    /// Nothing: a call failed that may have changed the file. Open the file again.
    Broken,
}
