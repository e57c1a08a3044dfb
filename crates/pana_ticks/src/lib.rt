//! Ticks that one share counts and others wait for: each sees how many there are, and whether no more come.
#![tactic(auto)]

mod count;
mod hand;
mod plays;
mod rule;
mod shares;
mod sight;
mod ticks;

pub use crate::count::Count;
pub use crate::hand::Hand;
pub use crate::rule::Ticking;
pub use crate::shares::{Counter, Watcher};
pub use crate::ticks::Ticks;
