//! Reports as texts.
ghost use Rattle.std.specs.Prelude.{◌≡◌, ◌++◌, true, Some, None, codes, IfOk, IfSome, OnOk, option_copied, option_map, string_bytes};
ghost use Rattle.json.specs.Tree.{json_tokens};
ghost use Rattle.serde_json.specs.Written.{outline};
ghost use Rattle.pana_copies.specs.Names.{is_device, is_path};
ghost use Rattle.pana_wire.specs.Line.{line_says};
ghost use Rattle.pana_wire.specs.Report.{report_text, report_word};
ghost use Rattle.pana_wire.specs.Word.{word_name};
ghost use Rattle.pana_wire.specs.inner.LongLine.{IsReadable};
ghost use Rattle.pana_wire.specs.inner.Names.{HasNames};
ghost use Rattle.pana_wire.specs.inner.Pieces.{text_tokens};
ghost use Rattle.pana_wire.specs.inner.ReportTokens.{given_place, numbers_of, object_of, with_copy, with_entry, with_pair};

use crate::json_writing::{
    begun_text, first_room, write_number_if_given, write_sum, write_text, written_text,
};
use json::Writer;
use pana_calls::Call;
use pana_copies::{DeviceName, Place};
use pana_journal::Report;
use std::alloc::{AllocError, Global};

/// The line that makes a device's report, without its newline: an object in JSON with no blank, its names in byte
/// order. `decode` reads it back as the report.
///
/// It takes memory for its text, and fails only where that runs out.
pub fn encode_call(alloc: Global, by: &DeviceName, report: &Report) -> Result<String, AllocError>
    ensures text { IfOk result (λ text. string_bytes text ≡ report_text by.now report.now) }
    ensures back { IfOk result (λ text. line_says (string_bytes text) ≡ Ok (record { by = by.now; call = Call.Report report.now })) }
{
    let mut out = begun_text(first_room(alloc)?);
    write_report::<false>(&mut out, by, report, None)?;
    Ok(written_text(out))
}

/// Writes the object of a device's report, with a number where it is that of an entry. Fails only where memory runs out.
// Each word has an arm of its own, so that what its reports lack costs nothing where they are written. Pages have a copy of the
// function for themselves (`IN_PAGE`, which changes nothing else): with one caller it is inlined in the loop over a page, and the
// kit's `key` in it, which spares a third of what a page costs.
pub(crate) fn write_report<'a, const IN_PAGE: bool>(
    out: &mut Writer<Global>,
    by: &'a DeviceName,
    report: &'a Report,
    number: Option<u64>,
) -> Result<(), AllocError>
    ensures tokens { OnOk result (out.new.tokens ≡ out.old.tokens ++ json_tokens (outline (object_of by.now report.now number))) }
    ensures before { OnOk result (out.new.before ≡ out.old.before) }
    ensures by { OnOk result (is_device by.now ≡ true) }
    ensures names { OnOk result (HasNames report.now) }
    ensures reads { OnOk result (IsReadable (object_of by.now report.now number)) }
{
    match report {
        Report::Register { place, .. } => {
            write_parts(out, by, report, "register", NO_NUMBERS, Some(place), number)
        }
        Report::Duplicate { copy, place, .. } => {
            write_parts(
                out,
                by,
                report,
                "duplicate",
                of_copy(*copy),
                Some(place),
                number,
            )
        }
        Report::Edit { copy, .. } => {
            write_parts(out, by, report, "edit", of_copy(*copy), None, number)
        }
        Report::Reconcile { a, b, .. } => {
            write_parts(out, by, report, "reconcile", of_two(*a, *b), None, number)
        }
        Report::Merge { a, b, .. } => {
            write_parts(out, by, report, "merge", of_two(*a, *b), None, number)
        }
        Report::Relocate { copy, place } => {
            write_parts(
                out,
                by,
                report,
                "relocate",
                of_copy(*copy),
                Some(place),
                number,
            )
        }
        Report::Remove { copy, heir } => {
            write_parts(
                out,
                by,
                report,
                "remove",
                of_heir(*copy, *heir),
                None,
                number,
            )
        }
        Report::Note { copy, .. } => {
            write_parts(out, by, report, "note", of_copy(*copy), None, number)
        }
        Report::Confirm { entry } => {
            write_parts(out, by, report, "confirm", of_entry(*entry), None, number)
        }
        Report::Withdraw { entry } => {
            write_parts(out, by, report, "withdraw", of_entry(*entry), None, number)
        }
    }
}

/// Writes the object of a device's report, which has this word, these numbers and this place.
#[inline(always)]
fn write_parts<'a>(
    out: &mut Writer<Global>,
    by: &'a DeviceName,
    report: &'a Report,
    word: &str,
    numbers: Numbers,
    place: Option<&'a Place>,
    number: Option<u64>,
) -> Result<(), AllocError>
    requires word { word.now ≡ word_name (report_word report.now) }
    requires numbers { numbers ≡ numbers_of report.now }
    requires place { option_copied place ≡ given_place report.now }
    ensures tokens { OnOk result (out.new.tokens ≡ out.old.tokens ++ json_tokens (outline (object_of by.now report.now number))) }
    ensures before { OnOk result (out.new.before ≡ out.old.before) }
    ensures by { OnOk result (is_device by.now ≡ true) }
    ensures names { OnOk result (HasNames report.now) }
    ensures reads { OnOk result (IsReadable (object_of by.now report.now number)) }
{
    out.begin_object()?;
    write_number_if_given(out, "a", numbers.a)?;
    write_number_if_given(out, "b", numbers.b)?;
    write_text(out, "by", by.as_str())?;
    write_number_if_given(out, "copy", numbers.copy)?;
    write_device(out, place)?;
    write_text(out, "do", word)?;
    write_number_if_given(out, "entry", numbers.entry)?;
    write_number_if_given(out, "heir", numbers.heir)?;
    write_number_if_given(out, "number", number)?;
    write_path(out, place)?;
    write_sum(out, "sum", report.sum())?;
    out.end_object()?;
    Ok(())
}

/// Writes the member of a place's device where the place is given, and else nothing.
#[inline(always)]
fn write_device(out: &mut Writer<Global>, place: Option<&Place>) -> Result<(), AllocError>
    ensures tokens { OnOk result (out.new.tokens ≡ out.old.tokens ++ text_tokens (codes "device") (option_map (λ p. p.device) (option_copied place.entry))) }
    ensures before { OnOk result (out.new.before ≡ out.old.before) }
    ensures device { OnOk result (IfSome (option_copied place.entry) (λ p. is_device p.device ≡ true)) }
{
    match place {
        Some(place) => write_text(out, "device", place.device.as_str()),
        None => Ok(()),
    }
}

/// Writes that of its path.
#[inline(always)]
fn write_path(out: &mut Writer<Global>, place: Option<&Place>) -> Result<(), AllocError>
    ensures tokens { OnOk result (out.new.tokens ≡ out.old.tokens ++ text_tokens (codes "path") (option_map (λ p. p.path) (option_copied place.entry))) }
    ensures before { OnOk result (out.new.before ≡ out.old.before) }
    ensures path { OnOk result (IfSome (option_copied place.entry) (λ p. is_path p.path ≡ true)) }
{
    match place {
        Some(place) => write_text(out, "path", place.path.as_str()),
        None => Ok(()),
    }
}

/// The numbers in a report, by the names of their members.
#[derive(Clone, Copy)]
pub(crate) struct Numbers {
    a: Option<u64>,
    b: Option<u64>,
    copy: Option<u64>,
    entry: Option<u64>,
    heir: Option<u64>,
}

const NO_NUMBERS: Numbers = Numbers {
    a: None,
    b: None,
    copy: None,
    entry: None,
    heir: None,
};

fn of_copy(copy: u64) -> Numbers
    ensures { result ≡ with_copy (Some copy) None }
{
    of_heir(copy, None)
}

fn of_heir(copy: u64, heir: Option<u64>) -> Numbers
    ensures { result ≡ with_copy (Some copy) heir }
{
    Numbers {
        copy: Some(copy),
        heir,
        ..NO_NUMBERS
    }
}

fn of_two(a: u64, b: u64) -> Numbers
    ensures { result ≡ with_pair a b }
{
    Numbers {
        a: Some(a),
        b: Some(b),
        ..NO_NUMBERS
    }
}

fn of_entry(entry: u64) -> Numbers
    ensures { result ≡ with_entry entry }
{
    Numbers {
        entry: Some(entry),
        ..NO_NUMBERS
    }
}
