//! A session of one kind or of another.
#![tactic(auto)]

mod either;

pub use crate::either::EitherSession;
