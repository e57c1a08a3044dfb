//! The text of a place, and its width.
ghost use Rattle.std.specs.Prelude.{◌≡◌, ◌≤◌, ◌↔◌, IfOk, IfSome, IsTrue, string_bytes};
ghost use Rattle.pana_report.specs.Columns.{place_text, width};
ghost use Rattle.pana_report.specs.Fitted.{fitted};

use crate::fitting::fitted;
use crate::width::text_width;
use pana_copies::Place;
use pana_terminal::{is_printable, shown};
use std::alloc::{AllocError, Global};

/// The text of a place, as `usb:plan.txt`, and as a terminal may show it.
fn place_text(alloc: Global, place: &Place) -> Result<String, AllocError>
    ensures { IfOk result (λ text. string_bytes text ≡ place_text place.now) }
{
    let mut text = String::from_str(alloc, place.device.as_str())?;
    text.push_str(":")?;
    text.push_str(place.path.as_str())?;
    shown(alloc, text.as_str())
}

/// The text of a place in at most so many columns of a terminal.
pub(crate) fn fitted_place(
    alloc: Global,
    most: Option<usize>,
    place: &Place,
) -> Result<String, AllocError>
    ensures { IfOk result (λ text. string_bytes text ≡ fitted most (place_text place.now)) }
{
    let text = place_text(alloc, place)?;
    fitted(alloc, text, most)
}

/// The columns that the text of a place takes, where each of its bytes is printable. Takes no memory.
#[tactic(auto, using(crate::proofs::Printable::place_printable))]
fn printable_width(place: &Place) -> Option<usize>
    ensures { IfSome result (λ columns. columns ≡ width (place_text place.now)) }
{
    let device = place.device.as_str();
    let path = place.path.as_str();
    if is_printable(device) && is_printable(path) {
        device.len().checked_add(1)?.checked_add(path.len())
    } else {
        None
    }
}

/// Whether so many columns are at most those that there may be.
fn is_within(columns: usize, most: Option<usize>) -> bool
    ensures { IsTrue result ↔ IfSome most (λ most. columns ≤ most) }
{
    match most {
        Some(most) => columns <= most,
        None => true,
    }
}

/// The columns that a text of a place takes, at most so many of a terminal. Takes memory only where it has to be made.
#[tactic(auto, using(crate::proofs::Printable::fitted_within))]
pub(crate) fn place_width(
    alloc: Global,
    most: Option<usize>,
    place: &Place,
) -> Result<usize, AllocError>
    ensures { IfOk result (λ columns. columns ≡ width (fitted most (place_text place.now))) }
{
    match printable_width(place) {
        Some(columns) if is_within(columns, most) => Ok(columns),
        _ => Ok(text_width(fitted_place(alloc, most, place)?.as_str())),
    }
}
