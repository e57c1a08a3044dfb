//! Colour, on a terminal whose user wants it.

use std::alloc::{AllocError, Global};
use std::env;

const RED: &str = "\u{1b}[31m";

const YELLOW: &str = "\u{1b}[33m";

const PLAIN: &str = "\u{1b}[0m";

/// What the state and the counts take at the end of a board's row.
const BEHIND_PLACE: usize = 39;

/// Where the rows of tables have the state of their copy.
#[derive(Clone, Copy)]
pub enum Tables {
    /// At the front, as `status` and `track` print them.
    Status,
    /// Behind its place, as `show` and `load` do.
    Boards,
}

/// Whether the user wants colour: `NO_COLOR` isn't there, or is empty.
pub fn is_wanted(rt: &HostRuntime) -> bool {
    match env::var(rt, "NO_COLOR") {
        Ok(value) => value.is_empty(),
        Err(_) => true,
    }
}

/// The colour of what begins with a state: red of a copy in conflict, yellow of an obsolete one.
fn colour_of(text: &[u8]) -> Option<&'static str> {
    if text.starts_with(b"conflict ") {
        Some(RED)
    } else if text.starts_with(b"obsolete ") {
        Some(YELLOW)
    } else {
        None
    }
}

/// Whether the line is that of a family of which two newest copies are in conflict.
fn is_of_split(line: &str) -> bool {
    line.starts_with("family ") && line.ends_with(", split yes")
}

/// The colour of a line of a board's table: that of its copy's state, and red of a family that is split.
fn board_colour(line: &str) -> Option<&'static str> {
    if is_of_split(line) {
        return Some(RED);
    }
    let bytes = line.as_bytes();
    let place = bytes.len().checked_sub(BEHIND_PLACE)?;
    colour_of(bytes.get(place..)?)
}

/// Appends a line in a colour, and a newline.
fn push_line(text: &mut String, line: &str, colour: Option<&str>) -> Result<(), AllocError> {
    match colour {
        Some(colour) => {
            text.push_str(colour)?;
            text.push_str(line)?;
            text.push_str(PLAIN)?;
        }
        None => text.push_str(line)?,
    }
    text.push('\n')
}

/// The lines of such tables, each in its colour. Fails only where memory runs out; O(n) in the text.
pub fn coloured(alloc: Global, tables: Tables, text: &str) -> Result<String, AllocError> {
    let mut out = String::with_capacity(alloc, text.len())?;
    for line in text.lines() {
        let colour = match tables {
            Tables::Status => colour_of(line.as_bytes()),
            Tables::Boards => board_colour(line),
        };
        push_line(&mut out, line, colour)?;
    }
    Ok(out)
}
