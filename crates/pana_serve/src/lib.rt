//! What the words of `serve` make the daemon do, and what the program says at the end.
#![tactic(auto)]

mod serving;
mod system;

pub use crate::serving::{Outcome, Wishes, serve_on};
pub use crate::system::System;
