//! Calls and their answers: what a session or a scanner says to a hall and what comes back, and the trait of what answers calls.
#![tactic(auto)]

mod answer;
mod board;
mod call;
mod cause;
mod copy_stamp;
mod family_row;
mod hall_counts;
mod holding;
mod message;
mod reply;
mod session;
mod standing;

pub use crate::answer::{Answer, NoAnswer};
pub use crate::board::{BoardRow, BoardView};
pub use crate::call::{Call, Query, Sighting};
pub use crate::cause::Cause;
pub use crate::copy_stamp::CopyStamp;
pub use crate::family_row::FamilyRow;
pub use crate::hall_counts::HallCounts;
pub use crate::holding::{Holding, HoldingList};
pub use crate::message::Message;
pub use crate::reply::Reply;
pub use crate::session::Session;
pub use crate::standing::{CopyStanding, CopyState, PlacedCopy, StatusRow};
