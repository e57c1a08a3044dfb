//! The standard streams of the program, and why it ends with a fault.
#![tactic(auto)]

mod colour;
mod descriptors;
mod fault;
mod printing;
mod terminal;

pub use crate::colour::Tables;
pub use crate::descriptors::take_standard_descriptors;
pub use crate::fault::ProgramFault;
pub use crate::printing::{Output, complain, output, print_tables, print_text};
pub use crate::terminal::terminal_width;
