//! How many columns of a terminal a text takes.
ghost use Rattle.std.specs.Prelude.{◌≡◌};
ghost use Rattle.pana_report.specs.Columns.{width};

use pana_terminal::is_printable;
use unicode_width::UnicodeWidthStr;

/// The columns that the text takes. Where each of its bytes is printable these are its bytes, and no table is looked at. Takes no
/// memory.
#[tactic(auto, using(crate::proofs::Printable::printable_width))]
pub(crate) fn text_width(text: &str) -> usize
    ensures { result ≡ width text.now }
{
    if is_printable(text) {
        text.len()
    } else {
        text.width()
    }
}
