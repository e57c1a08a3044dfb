//! A hall whose journal is a log that others append to as well: each store answers as if it were the only one.
#![tactic(auto)]

mod asking;
mod committing;
mod fill_fault;
mod filling;
mod following;
mod gathering;
mod grouping;
mod making;
mod placing;
mod remaking;
mod same;
mod store;
mod trying;

pub use crate::fill_fault::FillFault;
pub use crate::filling::fill;
pub use crate::store::{SharedStore, read_hall};
