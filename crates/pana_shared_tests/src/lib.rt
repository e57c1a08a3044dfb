//! A log in memory that others append to by a plan, and the tests of stores over it.
#![tactic(auto)]

#[cfg(test)]
mod groups;
pub mod life;
pub mod memory;
pub mod one_list;
#[cfg(test)]
mod stores;
#[cfg(test)]
mod two_stores;
