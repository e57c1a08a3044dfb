//! Families in an answer.

/// A family with a living copy: how many it has, how many of them are newest, and whether it is split.
#[derive(Clone, Copy, PartialEq, Eq)]
pub struct FamilyRow {
    pub family: u64,
    pub copies: u64,
    pub newest: u64,
    pub split: bool,
}
