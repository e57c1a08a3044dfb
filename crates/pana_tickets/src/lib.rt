//! Tickets, so many of them, which threads draw: each is drawn once, and who finds none left knows that all were drawn.
#![tactic(auto)]

mod hand;
mod plays;
mod rule;
mod tickets;

pub use crate::hand::Hand;
pub use crate::rule::Drawing;
pub use crate::tickets::{Share, Tickets};
