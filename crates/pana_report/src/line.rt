//! A line of a board's table: seven cells, two blanks between each two, and a newline.
ghost use Rattle.std.specs.Prelude.{◌≡◌, ◌++◌, OnOk, string_bytes};
ghost use Rattle.pana_report.specs.inner.Lines.{line_of};

use crate::cell::{Alignment, write_cell, write_next};
use crate::widths::{CONFLICT, COUNT, STATE, Widths};
use std::alloc::AllocError;

/// The texts of a line, one for each column.
#[derive(Drop)]
pub(crate) struct Texts<'a> {
    pub copy: &'a str,
    pub place: &'a str,
    pub state: &'a str,
    pub newer: &'a str,
    pub older: &'a str,
    pub equal: &'a str,
    pub conflict: &'a str,
}

/// Appends a line with these texts in its columns.
#[tactic(auto, using(crate::proofs::Pieces::line_pieces))]
pub(crate) fn write_line(
    text: &mut String,
    widths: &Widths,
    texts: &Texts,
) -> Result<(), AllocError>
    ensures { OnOk result (string_bytes text.new ≡ string_bytes text.old
        ++ line_of widths.now texts.now.copy.now texts.now.place.now texts.now.state.now
        texts.now.newer.now texts.now.older.now texts.now.equal.now texts.now.conflict.now) }
{
    write_cell(text, Alignment::Right, widths.copy, texts.copy)?;
    write_next(text, Alignment::Left, widths.place, texts.place)?;
    write_next(text, Alignment::Left, STATE, texts.state)?;
    write_next(text, Alignment::Right, COUNT, texts.newer)?;
    write_next(text, Alignment::Right, COUNT, texts.older)?;
    write_next(text, Alignment::Right, COUNT, texts.equal)?;
    write_next(text, Alignment::Right, CONFLICT, texts.conflict)?;
    text.push_str("\n")
}
