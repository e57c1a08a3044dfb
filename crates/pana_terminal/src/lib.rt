//! Texts as a terminal may show them: with a code in the place of each character that would act on the terminal, or on
//! how the text around it is read.
#![tactic(auto)]

mod screen;
mod showing;

pub use crate::screen::Screen;
pub use crate::showing::{is_printable, shown};
