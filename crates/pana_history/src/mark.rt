//! What stands in a lane of a row.

/// What is drawn over a lane's line.
#[derive(Clone, Copy)]
pub enum Sign {
    /// Nothing.
    Plain,
    /// The row names the lane.
    Named,
    /// The row's entry makes or changes the lane's copy.
    Touched,
    /// It did so, and is withdrawn.
    Struck,
}

/// What stands in a lane of a row.
#[derive(Clone, Copy)]
pub struct Mark {
    /// Whether the lane's copy lives before the row's entry.
    pub lives_before: bool,
    /// Whether it lives behind it.
    pub lives_after: bool,
    pub sign: Sign,
}
