//! Who keeps the reports, and how commands print what they answer, what is wrong, and why words are refused.
#![tactic(auto)]

mod asking;
mod client;
mod faults;
mod inquiry;
mod keeper;
mod options;
mod printing;
mod refusing;

pub use crate::asking::asker;
pub use crate::client::{DaemonClient, connect};
pub use crate::faults::{FAULT, report, report_no_daemon, report_refusal};
pub use crate::inquiry::{Inquiry, Sessions};
pub use crate::keeper::Keeper;
pub use crate::options::{form_of, keeper_of, place_of};
pub use crate::printing::{print_line, print_out, print_out_tables, print_reported};
pub use crate::refusing::{explain, fault_of_log, refuse};
