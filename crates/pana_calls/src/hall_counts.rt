//! How much a hall has.

/// How many copies live, and on how many devices.
#[derive(Clone, Copy, PartialEq, Eq)]
pub struct HallCounts {
    pub copies: u64,
    pub devices: u64,
}
