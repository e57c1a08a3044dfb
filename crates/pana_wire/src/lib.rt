//! Lines: what a line of bytes asks, the text of each reply, and a session from bytes to bytes.
#![tactic(auto)]

mod answer_buffer;
mod board_writing;
mod cutting;
mod dump;
mod entry_reading;
mod entry_writing;
mod fault;
mod field;
mod flat_object;
mod flushing;
mod json_writing;
mod line_buffer;
mod line_fault;
mod object;
mod open_line;
mod reading;
mod report_writing;
mod round;
mod serving;
mod standing_writing;
mod tap;
mod together;
mod word;
mod writing;

pub use crate::cutting::split_lines;
pub use crate::dump::{decode_dump, decode_dump_lines};
pub use crate::fault::WireFault;
pub use crate::field::Field;
pub use crate::line_fault::LineFault;
pub use crate::open_line::OpenLine;
pub use crate::reading::{LineReader, decode};
pub use crate::report_writing::encode_call;
pub use crate::serving::{ServeFault, Served, serve, serve_groups};
pub use crate::tap::Tap;
pub use crate::writing::{encode, encode_answer};
