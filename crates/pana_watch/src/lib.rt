//! The entries of a session's journal as they come, and the families that become split or whole.
#![tactic(auto)]

mod beginning;
mod family_change;
mod family_of;
mod lines;
mod pages;
mod watch;
mod watch_fault;

pub use crate::family_change::{FamilyChange, change_line};
pub use crate::lines::entry_lines;
pub use crate::watch::Watch;
pub use crate::watch_fault::WatchFault;
