//! Id trees of Interval Tree Clocks: who owns which points, and how an id is divided and joined.
//!
//! The clock is that of Almeida, Baquero and Fonte, "Interval Tree Clocks", OPODIS 2008.
//! An id owns points of the line from 0 to 1. `IdTree` is one in normal form and at most 256 deep.
//! `Node` is the plain tree in it, for crates that walk ids or build them.
#![tactic(auto)]

mod id_fault;
mod id_tree;
pub mod laws;
mod node;

pub use crate::id_fault::IdFault;
pub use crate::id_tree::IdTree;
pub use crate::node::{Halves, Node};
