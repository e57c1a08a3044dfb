//! Rows of a history.
ghost use Rattle.std.specs.Prelude.{◌≡◌, string_bytes};

use crate::mark::Mark;
use std::marker::Model;

/// A mark for each lane, a text, and whether the text is struck.
#[derive(Drop)]
pub(crate) struct Row {
    marks: Vec<Mark>,
    text: String,
    is_struck: bool,
}

impl Model for Row {
    ghost use Rattle.std.specs.Prelude.{string_bytes};
    ghost use Rattle.pana_history.specs.Row.{Drawn};

    ghost Value = { Drawn };

    ghost view = { λ row. record { marks = row.marks.items; text = string_bytes row.text; is_struck = row.is_struck } };
}

impl Row {
    /// The row of these parts. Takes no memory.
    pub(crate) fn new(marks: Vec<Mark>, text: String, is_struck: bool) -> Row
        ensures { result ≡ record { marks = marks.items; text = string_bytes text; is_struck = is_struck } }
    {
        Row {
            marks,
            text,
            is_struck,
        }
    }

    /// A mark for each lane.
    pub(crate) fn marks(&self) -> &[Mark]
        ensures { result.now ≡ self.now.marks }
    {
        self.marks.as_slice()
    }

    pub(crate) fn text(&self) -> &str
        ensures { result.now ≡ self.now.text }
    {
        self.text.as_str()
    }

    pub(crate) fn is_struck(&self) -> bool
        ensures { result ≡ self.now.is_struck }
    {
        self.is_struck
    }
}
