//! The texts of stamps.
ghost use Rattle.std.specs.Prelude.{◌≡◌, ◌++◌, ◌^◌, ◌<◌, IfOk, OnOk, decimal, string_bytes};
ghost use Rattle.pana_id.specs.{Id.pair, Node.tree as id_of};
ghost use Rattle.pana_event.specs.Event.{greatest};
ghost use Rattle.pana_event.specs.Shape.{tree as event_of};
ghost use Rattle.pana_text.specs.Text.{event_text, id_text, stamp_text};

use itoa::Buffer;
use pana_stamp::Stamp;
use std::alloc::{AllocError, Global};

/// How many bytes a text has room for at first. Few texts are longer.
const FIRST_ROOM: usize = 128;

/// Appends the text of an id.
#[cycle(ids)]
fn write_id(text: &mut String, id: &pana_id::Node) -> Result<(), AllocError>
    ensures { OnOk result (string_bytes text.new ≡ string_bytes text.old ++ id_text (id_of id.now)) }
{
    match id {
        pana_id::Node::Zero => text.push('0'),
        pana_id::Node::One => text.push('1'),
        pana_id::Node::Single(number) => write_pair(text, &pana_id::Halves::of_single(*number)),
        pana_id::Node::Pair(halves) => write_pair(text, halves),
    }
}

/// Appends the text of the id with these halves.
#[cycle(ids)]
#[tactic(auto, using(crate::proofs::Appends::appends))]
fn write_pair(text: &mut String, halves: &pana_id::Halves) -> Result<(), AllocError>
    ensures { OnOk result (string_bytes text.new ≡ string_bytes text.old ++ id_text (pair (id_of halves.now.left) (id_of halves.now.right))) }
{
    text.push('(')?;
    write_id(text, &halves.left)?;
    text.push(',')?;
    write_id(text, &halves.right)?;
    text.push(')')
}

/// Appends the digits of any number: apart, since most have one digit and need no buffer.
#[inline(never)]
fn write_digits(text: &mut String, number: u64) -> Result<(), AllocError>
    ensures { OnOk result (string_bytes text.new ≡ string_bytes text.old ++ decimal number) }
{
    let mut digits = Buffer::new();
    text.push_str(digits.format(number))
}

/// Appends the digits of a number.
#[tactic(auto, using(std::proofs::lemmas::Fmt::decimal_digit))]
#[inline(always)]
fn write_number(text: &mut String, number: u64) -> Result<(), AllocError>
    ensures { OnOk result (string_bytes text.new ≡ string_bytes text.old ++ decimal number) }
{
    if number < 10 {
        return text.push((b'0' + number as u8) as char);
    }
    write_digits(text, number)
}

/// Appends the text of an event.
#[tactic(auto, using(crate::proofs::Appends::appends))]
fn write_event(text: &mut String, event: &pana_event::Node) -> Result<(), AllocError>
    ensures { OnOk result (string_bytes text.new ≡ string_bytes text.old ++ event_text (event_of event.now)) }
{
    match event {
        pana_event::Node::Leaf(number) => write_number(text, *number),
        pana_event::Node::Fork(number, halves) => {
            text.push('(')?;
            write_number(text, *number)?;
            text.push(',')?;
            write_event(text, &halves.left)?;
            text.push(',')?;
            write_event(text, &halves.right)?;
            text.push(')')
        }
    }
}

/// The one text of the stamp, appended piece by piece to one `String`. Visits each node once. A text of up to 128 bytes takes one
/// allocation.
///
/// # Errors
///
/// `AllocError` where an allocation failed.
#[tactic(auto, using(crate::proofs::Appends::appends))]
pub fn write(alloc: Global, stamp: &Stamp) -> Result<String, AllocError>
    ensures { IfOk result (λ text. string_bytes text ≡ stamp_text stamp.now.id stamp.now.event) }
{
    let mut text = String::with_capacity(alloc, FIRST_ROOM)?;
    text.push('(')?;
    write_id(&mut text, stamp.id().node())?;
    text.push(',')?;
    write_event(&mut text, stamp.event_tree().node())?;
    text.push(')')?;
    Ok(text)
}
