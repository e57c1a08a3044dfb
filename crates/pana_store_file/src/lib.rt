//! The stores of journals' files and of logs in etcd, and halls that are only read.
#![tactic(auto)]

mod journal_file;
mod journals;
mod log_place;
mod log_store;
mod shared;

pub use crate::journals::{NoStore, open_hall, open_store};
pub use crate::log_place::LogPlace;
pub use crate::log_store::LogStore;
pub use crate::shared::{fault_of_address, log_at, open_shared, read_shared};
