//! Answers, read from their lines.
ghost use Rattle.std.specs.Prelude.{◌≡◌, IfOk, IsTrue};
ghost use Rattle.pana_wire.specs.Answer.{answer_text};

use crate::own_paths::holding_list;
use crate::row_reading::{Row, member, number_in, number_or_none, rows_in, text_in, truth_in};
use pana_calls::{Answer, BoardView, Cause, CopyStanding, HallCounts, Reply};
use pana_event::Rel;
use pana_journal::ReportKind;
use pana_list::PlainList;
use pana_wire::{WireFault, decode_dump, encode_answer};
use serde_json::{Map, Value};
use std::alloc::Global;
use std::str;

/// Why a line has no answer.
#[derive(Clone, Copy, Debug, PartialEq, Eq)]
pub enum AnswerFault {
    /// The line is the text of no answer.
    NoAnswer,
    /// An allocation failed.
    OutOfMemory,
}

/// The answer whose text this line is.
///
/// It takes memory for the value that the line is, for the answer, and for the answer's text, by which the answer is
/// checked.
///
/// # Errors
///
/// `NoAnswer` where the line is the text of no answer: the line of a fault, too, is none. `OutOfMemory`.
pub fn read_answer(alloc: Global, line: &[u8]) -> Result<Answer, AnswerFault>
    ensures { IfOk result (λ answer. answer_text answer ≡ line.now) }
{
    let answer = answer_in(alloc, line)?;
    match is_text_of(alloc, line, &answer) {
        Ok(true) => Ok(answer),
        Ok(false) => {
            drop(answer);
            Err(AnswerFault::NoAnswer)
        }
        Err(fault) => {
            drop(answer);
            Err(fault)
        }
    }
}

/// Whether the line is the answer's text.
fn is_text_of(alloc: Global, line: &[u8], answer: &Answer) -> Result<bool, AnswerFault>
    ensures { IfOk result (λ is. IsTrue is → answer_text answer.now ≡ line.now) }
{
    match encode_answer(alloc, answer) {
        Ok(text) => Ok(text.as_bytes() == line),
        Err(_) => Err(AnswerFault::OutOfMemory),
    }
}

/// What the line's text may be that of: what it says in other words, or says beside, is for `is_text_of` to find.
fn answer_in(alloc: Global, line: &[u8]) -> Result<Answer, AnswerFault> {
    let value = value_in(alloc, line)?;
    let answer = answer_of(alloc, line, &value);
    drop(value);
    answer
}

/// The same of the value that the line is.
fn answer_of(alloc: Global, line: &[u8], value: &Value) -> Result<Answer, AnswerFault> {
    match first_name(value)? {
        "code" => refusal_in(value),
        "entries" => Ok(Answer::Given(journal_in(alloc, line)?)),
        name => Ok(Answer::Given(reply_in(alloc, name, value)?)),
    }
}

fn value_in(alloc: Global, line: &[u8]) -> Result<Value, AnswerFault> {
    let Ok(text) = str::from_utf8(line) else {
        return Err(AnswerFault::NoAnswer);
    };
    match Value::from_str(alloc, text) {
        Ok(value) => Ok(value),
        Err(error) if error.is_memory() => Err(AnswerFault::OutOfMemory),
        Err(_) => Err(AnswerFault::NoAnswer),
    }
}

/// The first name of an object, in byte order: no two kinds of answers have the same one.
fn first_name(value: &Value) -> Result<&str, AnswerFault> {
    match value.as_object().and_then(Map::first_key_value) {
        Some((name, _)) => Ok(name.as_str()),
        None => Err(AnswerFault::NoAnswer),
    }
}

fn refusal_in(value: &Value) -> Result<Answer, AnswerFault> {
    let name = text_in(value, "refused")?;
    if name == "NotKept" {
        return Ok(Answer::NotKept);
    }
    Ok(Answer::Given(Reply::Refused(cause_in(name, value)?)))
}

fn cause_in(name: &str, value: &Value) -> Result<Cause, AnswerFault> {
    match name {
        "JournalFull" => Ok(Cause::JournalFull),
        "UnknownCopy" => Ok(Cause::UnknownCopy(number_in(value, "copy")?)),
        "SameCopy" => Ok(Cause::SameCopy),
        "OtherFamily" => Ok(Cause::OtherFamily),
        "PlaceTaken" => Ok(Cause::PlaceTaken(number_in(value, "copy")?)),
        "FamilyFull" => Ok(Cause::FamilyFull),
        "TooDeep" => Ok(Cause::TooDeep),
        "OutOfMemory" => Ok(Cause::OutOfMemory),
        "UnknownEntry" => Ok(Cause::UnknownEntry),
        "NotYours" => Ok(Cause::NotYours),
        "Settled" => Ok(Cause::Settled),
        "UnknownFamily" => Ok(Cause::UnknownFamily),
        _ => Err(AnswerFault::NoAnswer),
    }
}

fn journal_in(alloc: Global, line: &[u8]) -> Result<Reply, AnswerFault> {
    match decode_dump(alloc, line) {
        Ok(entries) => Ok(Reply::Journal(entries)),
        Err(WireFault::OutOfMemory) => Err(AnswerFault::OutOfMemory),
        Err(_) => Err(AnswerFault::NoAnswer),
    }
}

fn reply_in(alloc: Global, name: &str, value: &Value) -> Result<Reply, AnswerFault> {
    match name {
        "did" => did_in(value),
        "done" => Ok(Reply::Done {
            entry: number_in(value, name)?,
        }),
        "known" => Ok(Reply::Known {
            copy: number_or_none(value, name),
        }),
        "pair" => Ok(Reply::Pair(rel_named(text_in(value, name)?)?)),
        "at" => at_in(alloc, value),
        "board" => board_in(alloc, value),
        "counts" => counts_in(value),
        _ => list_in(alloc, name, value),
    }
}

fn rel_named(name: &str) -> Result<Rel, AnswerFault> {
    match name {
        "Equal" => Ok(Rel::Equal),
        "Older" => Ok(Rel::Older),
        "Newer" => Ok(Rel::Newer),
        "Conflict" => Ok(Rel::Conflict),
        _ => Err(AnswerFault::NoAnswer),
    }
}

fn did_in(value: &Value) -> Result<Reply, AnswerFault> {
    let kind = ReportKind::named(text_in(value, "did")?).ok_or(AnswerFault::NoAnswer)?;
    let entry = number_in(value, "done")?;
    Ok(Reply::Did { kind, entry })
}

fn at_in(alloc: Global, value: &Value) -> Result<Reply, AnswerFault> {
    let standing = member(value, "at")?;
    if standing.is_null() {
        return Ok(Reply::At(None));
    }
    let standing = CopyStanding::read(alloc, standing)?;
    Ok(Reply::At(Some(standing)))
}

fn counts_in(value: &Value) -> Result<Reply, AnswerFault> {
    let counts = member(value, "counts")?;
    Ok(Reply::Counts(HallCounts {
        copies: number_in(counts, "copies")?,
        devices: number_in(counts, "devices")?,
    }))
}

fn board_in(alloc: Global, value: &Value) -> Result<Reply, AnswerFault> {
    let board = member(value, "board")?;
    Ok(Reply::Board(BoardView {
        family: number_in(board, "family")?,
        rows: PlainList::from_vec(rows_in(alloc, board, "copies")?),
        newest: PlainList::from_vec(rows_in(alloc, board, "newest")?),
        split: truth_in(board, "split")?,
    }))
}

fn list_in(alloc: Global, name: &str, value: &Value) -> Result<Reply, AnswerFault> {
    match name {
        "families" => Ok(Reply::Families(PlainList::from_vec(rows_in(alloc, value, name)?))),
        "stamps" => Ok(Reply::Stamps(PlainList::from_vec(rows_in(alloc, value, name)?))),
        "holdings" => Ok(Reply::Holdings(holding_list(alloc, rows_in(alloc, value, name)?)?)),
        "status" => Ok(Reply::Status(PlainList::from_vec(rows_in(alloc, value, name)?))),
        _ => Err(AnswerFault::NoAnswer),
    }
}
