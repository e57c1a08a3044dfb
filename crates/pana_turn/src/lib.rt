//! A desk: one machine for many threads. Calls take turns at it, one at a time, each once, in each caller's order.
#![tactic(auto)]

mod closing;
mod dealing;
mod desk;
mod finished_call;
pub mod laws;
mod machine;
mod pass;
mod plays;
mod queue;
mod turn;
mod turns;
mod view;
mod waits;

pub use crate::desk::{CloseRefused, Closed, Desk, Spent};
pub use crate::finished_call::FinishedCall;
pub use crate::machine::Machine;
pub use crate::pass::{Note, Pass};
