//! What follows for stores that share a log: functions that do nothing, whose contracts are the laws.
#![tactic(auto)]

pub mod laws;
