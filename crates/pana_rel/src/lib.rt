//! How the copies of one family relate: the relation of each ordered pair.
#![tactic(auto)]

mod counts;
pub mod laws;
mod pair_table;
mod row;
mod rows;

pub use crate::counts::{Counts, PairBoard};
pub use crate::pair_table::PairTable;
