//! Stamps of Interval Tree Clocks (P. Almeida, C. Baquero, V. Fonte, OPODIS 2008): fork, event and join.
//!
//! A `Stamp` is an id, the points that a copy owns, and an event, the updates that it knows. `fill` and `grow`
//! raise an event at points of an id, and `laws` is for the proofs of those who keep stamps.
//!
//! Proved: an event raises points that the id owns, at least one, and no others; growing adds one at the place of
//! the id that costs least, of several the rightmost, and at no other point; a fork parts the id and a join adds
//! up both; every tree that a call gives is normal, at most 256 deep, with levels below 2 ^ 64.
//! Only tested: that a call which takes memory succeeds where there is enough.
#![tactic(auto)]

mod cost;
mod filling;
mod growing;
pub mod laws;
mod stamp;

pub use crate::cost::Cost;
pub use crate::filling::fill;
pub use crate::growing::grow;
pub use crate::stamp::Stamp;
