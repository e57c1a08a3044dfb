//! Patterns of paths that are passed over, in gitignore's language.
#![tactic(auto)]

mod byte_class;
pub mod laws;
mod lines;
mod name;
mod part;
mod path;
mod pattern;
mod patterns;
mod patterns_fault;
mod piece;
mod reading;
mod set;
mod set_item;
mod split;

pub use crate::patterns::Patterns;
pub use crate::patterns_fault::PatternsFault;
