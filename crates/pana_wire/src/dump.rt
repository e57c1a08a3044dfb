//! Dumps: lines with entries of a journal.
ghost use Rattle.std.specs.Prelude.{◌≡◌, IfErr, IfOk, MatchResult, map};
ghost use Rattle.serde_json.specs.View.{view};
ghost use Rattle.pana_wire.specs.Line.{Gives, Shows};
ghost use Rattle.pana_wire.specs.DumpLines.{Say, HasFault};
ghost use Rattle.pana_wire.specs.Lines.{texts};
ghost use Rattle.pana_wire.specs.Dump.{IsDumpText, are_objects, objects_in, entries_in, dump_says};

use crate::entry_reading::{entry_in, flat_entries};
use crate::fault::WireFault;
use crate::field::Field;
use crate::line_fault::LineFault;
use crate::reading::{LineReader, check_object, text_within, value_in};
use pana_journal::EntryList;
use serde_json::Value;
use std::alloc::{AllocError, Global};

/// The longest line of a dump that is read, in bytes.
const LONGEST_DUMP: usize = 1_048_576;

/// The entries that a line of a dump has, or its first fault.
///
/// The faults are those of `WireFault`, in its order. `entries` must be a list of objects, and the whole list is looked
/// at before its first entry is read; then the fields of each entry are tried in the order `number`, `by`, `do`, and
/// those of the word, which must be one for a report. It takes memory as `decode` does, and for the entries.
pub fn decode_dump(alloc: Global, line: &[u8]) -> Result<EntryList, WireFault>
    ensures exact { Gives result (dump_says line.now) }
    ensures memory { IfErr result (λ fault. fault ≡ WireFault.OutOfMemory → IsDumpText line.now) }
{
    let mut reader = LineReader::new(alloc);
    reader.read_dump(line)
}

impl LineReader {
    /// The entries that a line of a dump has, or its first fault, as `decode_dump` returns them.
    ///
    /// It keeps as many bytes as the longest line that it has read.
    #[tactic(auto, unfolding(crate::specs::Dump::dump_says))]
    pub fn read_dump(&mut self, line: &[u8]) -> Result<EntryList, WireFault>
        ensures exact { Gives result (dump_says line.now) }
        ensures memory { IfErr result (λ fault. fault ≡ WireFault.OutOfMemory → IsDumpText line.now) }
    {
        let LineReader { alloc, scratch, .. } = self;
        let text = text_within(line, LONGEST_DUMP)?;
        if let Some(entries) = flat_entries(*alloc, text, scratch) {
            return Ok(entries);
        }
        let value = value_in(*alloc, text)?;
        check_object(&value)?;
        let objects = objects_in(&value)?;
        entries_in(*alloc, objects)
    }
}

/// The entries in the lines of a dump, one line after another, or the first line that has a fault.
///
/// # Errors
///
/// `AllocError` where memory runs out for the list; where it runs out for a line, that is the line's fault.
pub fn decode_dump_lines(
    alloc: Global,
    lines: &[&[u8]],
) -> Result<Result<EntryList, LineFault>, AllocError>
    ensures { IfOk result (λ read. MatchResult read (Say (texts lines.now)) (HasFault (texts lines.now))) }
{
    let mut reader = LineReader::new(alloc);
    let mut entries = EntryList::new(alloc);
    for (index, line) in lines.iter().enumerate() {
        match reader.read_dump(line) {
            Ok(more) => entries.append(more)?,
            Err(fault) => {
                let line = index as u64 + 1;
                return Ok(Err(LineFault { line, fault }));
            }
        }
    }
    Ok(Ok(entries))
}

#[tactic(auto, unfolding(crate::specs::Dump::objects_in))]
fn objects_in(value: &Value) -> Result<&[Value], WireFault>
    ensures { Shows (λ objects. map view objects.now) result (objects_in (view value.now)) }
{
    let Some(values) = value.get(Field::Entries.name()).and_then(Value::as_array) else {
        return Err(WireFault::BadField(Field::Entries));
    };
    if are_objects(values.as_slice()) {
        Ok(values.as_slice())
    } else {
        Err(WireFault::BadField(Field::Entries))
    }
}

fn are_objects(values: &[Value]) -> bool
    ensures { result ≡ are_objects (map view values.now) }
{
    values.iter().all(|value| value.is_object())
}

fn entries_in(alloc: Global, objects: &[Value]) -> Result<EntryList, WireFault>
    ensures { Gives result (entries_in (map view objects.now)) }
{
    let mut entries = Vec::new(alloc);
    for object in objects {
        let entry = entry_in(alloc, object)?;
        if entries.push(entry).is_err() {
            return Err(WireFault::OutOfMemory);
        }
    }
    Ok(EntryList::from_vec(entries))
}
