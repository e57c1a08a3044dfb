//! A list that contracts see as plain data.
#![tactic(auto)]

mod plain_list;

pub use crate::plain_list::PlainList;
