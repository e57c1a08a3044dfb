//! The rows of lists in answers, and what stands in their members.

use crate::answer_reading::AnswerFault;
use pana_calls::{
    BoardRow, CopyStamp, CopyStanding, CopyState, FamilyRow, Holding, PlacedCopy, StatusRow,
};
use pana_copies::{CopyPath, DeviceName, NameFault, Place, Sum};
use serde_json::Value;
use std::alloc::Global;

/// What stands in an answer as one value.
pub(crate) trait Row {
    /// What the value may stand for; what it says beside is passed over.
    fn read(alloc: Global, value: &Value) -> Result<Self, AnswerFault>;
}

/// The rows in the list that this member is.
pub(crate) fn rows_in<T: Row + Drop>(
    alloc: Global,
    value: &Value,
    name: &str,
) -> Result<Vec<T>, AnswerFault> {
    let Some(values) = member(value, name)?.as_array() else {
        return Err(AnswerFault::NoAnswer);
    };
    let mut rows = Vec::new(alloc);
    for value in values {
        let row = T::read(alloc, value)?;
        if let Err(failed) = rows.push(row) {
            drop(failed);
            return Err(AnswerFault::OutOfMemory);
        }
    }
    Ok(rows)
}

/// The member with this name.
pub(crate) fn member<'a>(value: &'a Value, name: &str) -> Result<&'a Value, AnswerFault> {
    value.get(name).ok_or(AnswerFault::NoAnswer)
}

pub(crate) fn number_in(value: &Value, name: &str) -> Result<u64, AnswerFault> {
    member(value, name)?.as_u64().ok_or(AnswerFault::NoAnswer)
}

pub(crate) fn truth_in(value: &Value, name: &str) -> Result<bool, AnswerFault> {
    member(value, name)?.as_bool().ok_or(AnswerFault::NoAnswer)
}

pub(crate) fn text_in<'a>(value: &'a Value, name: &str) -> Result<&'a str, AnswerFault> {
    member(value, name)?.as_str().ok_or(AnswerFault::NoAnswer)
}

/// The number that this member is, where it is one.
pub(crate) fn number_or_none(value: &Value, name: &str) -> Option<u64> {
    value.get(name).and_then(Value::as_u64)
}

fn path_in(alloc: Global, value: &Value) -> Result<CopyPath, AnswerFault> {
    CopyPath::new(alloc, text_in(value, "path")?).map_err(answer_fault)
}

fn place_in(alloc: Global, value: &Value) -> Result<Place, AnswerFault> {
    let device = DeviceName::new(text_in(value, "device")?).map_err(answer_fault)?;
    let path = path_in(alloc, value)?;
    Ok(Place { device, path })
}

fn sum_or_none(alloc: Global, value: &Value) -> Result<Option<Sum>, AnswerFault> {
    let Some(text) = value.get("sum").and_then(Value::as_str) else {
        return Ok(None);
    };
    let sum = Sum::new(alloc, text).map_err(answer_fault)?;
    Ok(Some(sum))
}

fn answer_fault(fault: NameFault) -> AnswerFault {
    match fault {
        NameFault::OutOfMemory => AnswerFault::OutOfMemory,
        _ => AnswerFault::NoAnswer,
    }
}

fn state_in(value: &Value) -> Result<CopyState, AnswerFault> {
    match text_in(value, "state")? {
        "newest" => Ok(CopyState::Newest),
        "obsolete" => Ok(CopyState::Obsolete),
        "conflict" => Ok(CopyState::Conflict),
        _ => Err(AnswerFault::NoAnswer),
    }
}

/// How many other copies of its family are newer than a copy, older, equal and in conflict.
#[derive(Clone, Copy)]
struct Others {
    newer: u64,
    older: u64,
    equal: u64,
    conflict: u64,
}

fn others_in(value: &Value) -> Result<Others, AnswerFault> {
    Ok(Others {
        newer: number_in(value, "newer")?,
        older: number_in(value, "older")?,
        equal: number_in(value, "equal")?,
        conflict: number_in(value, "conflict")?,
    })
}

impl Row for u64 {
    fn read(alloc: Global, value: &Value) -> Result<Self, AnswerFault> {
        let _ = alloc;
        value.as_u64().ok_or(AnswerFault::NoAnswer)
    }
}

impl Row for FamilyRow {
    fn read(alloc: Global, value: &Value) -> Result<Self, AnswerFault> {
        let _ = alloc;
        Ok(FamilyRow {
            family: number_in(value, "family")?,
            copies: number_in(value, "copies")?,
            newest: number_in(value, "newest")?,
            split: truth_in(value, "split")?,
        })
    }
}

impl Row for BoardRow {
    fn read(alloc: Global, value: &Value) -> Result<Self, AnswerFault> {
        let copy = number_in(value, "copy")?;
        let place = place_in(alloc, value)?;
        let others = others_in(value)?;
        Ok(BoardRow {
            copy,
            place,
            newer: others.newer,
            older: others.older,
            equal: others.equal,
            conflict: others.conflict,
        })
    }
}

impl Row for CopyStamp {
    fn read(alloc: Global, value: &Value) -> Result<Self, AnswerFault> {
        let copy = number_in(value, "copy")?;
        match String::from_str(alloc, text_in(value, "stamp")?) {
            Ok(text) => Ok(CopyStamp { copy, text }),
            Err(_) => Err(AnswerFault::OutOfMemory),
        }
    }
}

impl Row for Holding {
    fn read(alloc: Global, value: &Value) -> Result<Self, AnswerFault> {
        Ok(Holding {
            copy: number_in(value, "copy")?,
            family: number_in(value, "family")?,
            path: path_in(alloc, value)?,
            sum: sum_or_none(alloc, value)?,
            touch: number_in(value, "touch")?,
        })
    }
}

impl Row for CopyStanding {
    fn read(alloc: Global, value: &Value) -> Result<Self, AnswerFault> {
        let copy = number_in(value, "copy")?;
        let family = number_in(value, "family")?;
        let others = others_in(value)?;
        let state = state_in(value)?;
        Ok(CopyStanding {
            copy,
            family,
            newer: others.newer,
            older: others.older,
            equal: others.equal,
            conflict: others.conflict,
            state,
            sum: sum_or_none(alloc, value)?,
        })
    }
}

impl Row for PlacedCopy {
    fn read(alloc: Global, value: &Value) -> Result<Self, AnswerFault> {
        Ok(PlacedCopy {
            copy: number_in(value, "copy")?,
            place: place_in(alloc, value)?,
        })
    }
}

impl Row for StatusRow {
    fn read(alloc: Global, value: &Value) -> Result<Self, AnswerFault> {
        Ok(StatusRow {
            copy: number_in(value, "copy")?,
            place: place_in(alloc, value)?,
            state: state_in(value)?,
            with: PlacedCopy::read(alloc, member(value, "with")?)?,
        })
    }
}
