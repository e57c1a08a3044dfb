//! How many copies relate so or so to one.

/// How many other copies of a table are newer than a copy, older, equal to it, and in conflict with it.
#[derive(Clone, Copy, Debug, PartialEq, Eq)]
pub struct Counts {
    /// Those that are newer than this one.
    pub above: u64,
    /// Those that are older.
    pub below: u64,
    pub equal: u64,
    pub conflict: u64,
}

/// How each copy of a table relates to the others, which are the newest, and whether two of these are in conflict.
#[derive(Drop)]
pub struct PairBoard {
    /// For each copy, by rising number.
    pub counts: Vec<Counts>,
    /// The copies to which none is newer, by rising number.
    pub newest: Vec<u64>,
    pub split: bool,
}
