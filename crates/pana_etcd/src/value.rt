//! Records as values of keys: lines of a dump, each with one entry and two members more.
ghost use Rattle.std.specs.Prelude.{◌≡◌, IfOk, IsTrue, Some, option_map};
ghost use Rattle.serde_json.specs.View.{view};
ghost use Rattle.pana_etcd.specs.Says.{Gives, Shows};
ghost use Rattle.pana_etcd.specs.Value.{data_said, entry_said, one_entry, record_of, text_in, text_said, turn_in, value_says, writer_in};

use crate::text_fault::TextFault;
use hex::FromHex;
use pana_journal::{Entry, EntryList};
use pana_shared::Record;
use pana_wire::{OpenLine, WireFault, decode_dump};
use serde_json::Value;
use std::alloc::Global;
use std::str;

/// How long a value is at most, in bytes: as long as a line of a dump.
const LONGEST: usize = 1_048_576;

/// The value that says a record. It takes 1 MB of memory while it works, and memory for the value twice.
///
/// The value is read back before it is returned.
///
/// # Errors
///
/// `OutOfMemory`, also where the entry has more than 60,000 bytes, which none that was read has; `Other` where the value isn't
/// read back as this record, which none is known to meet.
pub fn encode_value(alloc: Global, wanted: &Record) -> Result<Vec<u8>, TextFault>
    ensures { IfOk result (λ text. value_says text.items ≡ Some wanted.now) }
{
    let text = text_of(alloc, wanted)?;
    if says(alloc, text.as_slice(), wanted)? {
        Ok(text)
    } else {
        Err(TextFault::Other)
    }
}

/// Whether the value is read as this record.
fn says(alloc: Global, text: &[u8], wanted: &Record) -> Result<bool, TextFault>
    ensures { IfOk result (λ says. IsTrue says → value_says text.now ≡ Some wanted.now) }
{
    let read = decode_value(alloc, text)?;
    let says = is_same(&read, wanted);
    drop(read);
    Ok(says)
}

fn is_same(read: &Record, wanted: &Record) -> bool
    ensures { IsTrue result → read.now ≡ wanted.now }
{
    read.entry == wanted.entry && read.writer == wanted.writer && read.turn == wanted.turn
}

/// The text that is to say the record.
fn text_of(alloc: Global, record: &Record) -> Result<Vec<u8>, TextFault> {
    let Ok(mut line) = OpenLine::new(alloc) else {
        return Err(TextFault::OutOfMemory);
    };
    let text = text_by(alloc, &mut line, record);
    drop(line);
    text
}

/// The same, which an open line is filled with first.
fn text_by(alloc: Global, line: &mut OpenLine, record: &Record) -> Result<Vec<u8>, TextFault> {
    if line.add(alloc, true, &record.entry, None).is_err() {
        return Err(TextFault::OutOfMemory);
    }
    line.close();
    let tail = tail_of(alloc, record)?;
    if tail.len() > LONGEST - line.len() {
        return Err(TextFault::Other);
    }
    line.push(tail.as_bytes());
    match Vec::from_slice(alloc, line.as_slice()) {
        Ok(text) => Ok(text),
        Err(_) => Err(TextFault::OutOfMemory),
    }
}

/// What stands behind the list of entries.
fn tail_of(alloc: Global, record: &Record) -> Result<String, TextFault> {
    let turn = record.turn;
    let writer = record.writer;
    match format!(in alloc; ",\"turn\":{turn},\"writer\":\"{writer:016x}\"}}") {
        Ok(tail) => Ok(tail),
        Err(_) => Err(TextFault::OutOfMemory),
    }
}

/// The record that a value says. It takes memory for the value's JSON twice, and for the entry.
///
/// # Errors
///
/// `Other` where the value says no record: it isn't a line of a dump, has no entry or several, or no writer of 16 hexadecimal
/// digits or no turn beside them. `OutOfMemory`.
#[tactic(auto, unfolding(crate::specs::Value::value_says))]
pub fn decode_value(alloc: Global, text: &[u8]) -> Result<Record, TextFault>
    ensures { Gives result (value_says text.now) }
{
    let entry = entry_said(alloc, text)?;
    match value_said(alloc, text) {
        Ok(value) => {
            let (writer, turn) = (writer_in(&value), turn_in(&value));
            drop(value);
            record_of(entry, writer, turn)
        }
        Err(fault) => {
            drop(entry);
            Err(fault)
        }
    }
}

/// The record of an entry, if its writer and its turn are known.
fn record_of(entry: Entry, writer: Option<u64>, turn: Option<u64>) -> Result<Record, TextFault>
    ensures { Gives result (record_of entry writer turn) }
{
    match (writer, turn) {
        (Some(writer), Some(turn)) => Ok(Record {
            entry,
            writer,
            turn,
        }),
        _ => {
            drop(entry);
            Err(TextFault::Other)
        }
    }
}

/// The one entry of a line.
fn entry_said(alloc: Global, text: &[u8]) -> Result<Entry, TextFault>
    ensures { Gives result (entry_said text.now) }
{
    match decode_dump(alloc, text) {
        Ok(entries) => one_entry(entries),
        Err(WireFault::OutOfMemory) => Err(TextFault::OutOfMemory),
        Err(_) => Err(TextFault::Other),
    }
}

fn one_entry(entries: EntryList) -> Result<Entry, TextFault>
    ensures { Gives result (one_entry entries) }
{
    let mut entries = entries.into_vec();
    if entries.len() > 1 {
        drop(entries);
        return Err(TextFault::Other);
    }
    let last = entries.pop();
    drop(entries);
    match last {
        Some(entry) => Ok(entry),
        None => Err(TextFault::Other),
    }
}

/// The value in JSON that bytes are.
#[tactic(auto, unfolding(crate::specs::Value::data_said))]
pub(crate) fn value_said(alloc: Global, bytes: &[u8]) -> Result<Value, TextFault>
    ensures { Shows view result (data_said bytes.now) }
{
    let text = text_said(bytes)?;
    match Value::from_str(alloc, text) {
        Ok(value) => Ok(value),
        Err(error) if error.is_memory() => Err(TextFault::OutOfMemory),
        Err(_) => Err(TextFault::Other),
    }
}

fn text_said(bytes: &[u8]) -> Result<&str, TextFault>
    ensures { Shows (λ text. text.now) result (text_said bytes.now) }
{
    match str::from_utf8(bytes) {
        Ok(text) => Ok(text),
        Err(_) => Err(TextFault::Other),
    }
}

/// The text of a member, where it is one.
pub(crate) fn text_in<'a>(value: &'a Value, name: &str) -> Option<&'a str>
    ensures { option_map (λ text. text.now) result ≡ text_in name.now (view value.now) }
{
    value.get(name).and_then(Value::as_str)
}

fn writer_in(value: &Value) -> Option<u64>
    ensures { result ≡ writer_in (view value.now) }
{
    let digits = text_in(value, "writer")?;
    let Ok(bytes) = <[u8; 8] as FromHex>::from_hex(digits) else {
        return None;
    };
    Some(u64::from_be_bytes(bytes))
}

fn turn_in(value: &Value) -> Option<u64>
    ensures { result ≡ turn_in (view value.now) }
{
    value.get("turn").and_then(Value::as_u64)
}
