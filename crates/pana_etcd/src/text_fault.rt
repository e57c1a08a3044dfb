/// Why a text isn't read, or isn't written.
#[derive(Clone, Copy)]
pub enum TextFault {
    /// It isn't the text of what it was to be.
    Other,
    /// An allocation failed.
    OutOfMemory,
}
