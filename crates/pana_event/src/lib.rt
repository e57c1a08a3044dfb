//! Event trees of Interval Tree Clocks (P. Almeida, C. Baquero, V. Fonte, OPODIS 2008), and how two copies relate.
//!
//! An event gives each point, a list of 256 choices between left and right, a level. `EventTree` keeps one in
//! normal form; `Node` is for crates that walk or build one, and `laws` for their proofs.
//!
//! Proved: `leq` and `join` go by the levels at all points, and `compare` follows; two normal trees that agree at
//! all points are one tree; every tree that a call gives is normal, at most 256 deep, with levels below 2 ^ 64.
//! Only tested: that a call which takes memory succeeds where there is enough.
#![tactic(auto)]

mod joining;
pub mod laws;
mod node;
mod rel;
mod tree;

pub use crate::node::{Halves, Node};
pub use crate::rel::Rel;
pub use crate::tree::EventTree;
