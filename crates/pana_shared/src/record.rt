use pana_journal::Entry;

/// An entry as a shared log has it, and who put it there. One report may be made twice, so an entry doesn't say whose it is.
#[derive(Drop)]
pub struct Record {
    pub entry: Entry,
    /// The writer, by a number that no other has.
    pub writer: u64,
    /// The how many-th call of the writer it comes of.
    pub turn: u64,
}
