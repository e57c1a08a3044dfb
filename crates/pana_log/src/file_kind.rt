/// What a file is, to who would open it as a journal.
#[derive(Clone, Copy, Debug, PartialEq, Eq)]
pub enum FileKind {
    /// What a journal leaves, also where a crash ended it.
    Journal,
    /// Its last line begins as one of a journal does and has no newline: it was cut, or somebody has written to it.
    Unended,
    /// Something else.
    Foreign,
}
