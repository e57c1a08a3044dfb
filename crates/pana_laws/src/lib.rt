//! What follows of the crates together: functions that do nothing, whose contracts are the laws.
#![tactic(auto)]

pub mod laws;
