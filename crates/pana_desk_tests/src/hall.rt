//! The hall and the journals that it loads, with memory there. The hall is held by few functions that may end early, since the
//! prover takes it apart at each of their ends.

use crate::places::place;
use pana_calls::{Call, Message, Query, Reply};
use pana_copies::DeviceName;
use pana_hall::Hall;
use pana_journal::Report;
use pana_wire::{decode, decode_dump, encode, encode_call};
use std::alloc::Global;
use std::collections::VecDeque;
use std::test::Fail;

/// A new file at this path on the laptop.
fn registered(alloc: Global, path: &str) -> Result<Report, Fail> {
    Ok(Report::Register {
        place: place(alloc, "laptop", path)?,
        sum: None,
    })
}

/// Calls of a device: a file is registered, copied and edited, and its board is asked for.
fn four_calls(alloc: Global, by: &DeviceName) -> Result<VecDeque<(DeviceName, Call)>, Fail> {
    let mut calls = VecDeque::new(alloc);
    calls.push_back((by.copy_of(), Call::Report(registered(alloc, "a")?)))?;
    let duplicate = Report::Duplicate {
        copy: 1,
        place: place(alloc, "usb", "a")?,
        sum: None,
    };
    calls.push_back((by.copy_of(), Call::Report(duplicate)))?;
    let edit = Report::Edit { copy: 2, sum: None };
    calls.push_back((by.copy_of(), Call::Report(edit)))?;
    let board = Query::Board { family: 1 };
    calls.push_back((by.copy_of(), Call::Query(board)))?;
    Ok(calls)
}

/// The replies of a new hall to these calls.
fn replies(alloc: Global, calls: VecDeque<(DeviceName, Call)>) -> Result<Vec<Reply>, Fail> {
    let mut hall = Hall::new(alloc)?;
    let replies = hall.apply_all(calls)?;
    Ok(replies)
}

/// Whether a report was accepted as the entry with this number.
fn is_done(reply: &Reply, number: u64) -> bool {
    match reply {
        Reply::Done { entry } => *entry == number,
        _ => false,
    }
}

/// Whether these are three entries, and then a board on which the second copy is newest.
fn are_four(replies: &[Reply]) -> bool {
    let [first, second, third, Reply::Board(board)] = replies else {
        return false;
    };
    let are_done = is_done(first, 1) && is_done(second, 2) && is_done(third, 3);
    are_done && board.newest.as_slice() == [2].as_slice() && !board.split
}

#[test]
fn calls_on_a_hall(rt: HostRuntime) -> Result<(), Fail> {
    let by = DeviceName::new("laptop")?;
    let replies = replies(rt.alloc(), four_calls(rt.alloc(), &by)?)?;
    assert!(rt; are_four(replies.as_slice()));
    Ok(())
}

/// The hall's answer to a line.
fn answer(alloc: Global, hall: &mut Hall, line: &str) -> Result<String, Fail> {
    let Message { by, call } = decode(alloc, line.as_bytes())?;
    let reply = hall.apply(&by, call);
    Ok(encode(alloc, &reply)?)
}

const JOURNAL: &str = "{\"by\":\"x\",\"do\":\"journal\",\"from\":1}";

/// What a new hall answers to a line of this report, and then to the question for its journal.
fn dump_of(alloc: Global, by: &DeviceName, report: Report) -> Result<(String, String), Fail> {
    let line = encode_call(alloc, by, &report)?;
    let mut hall = Hall::new(alloc)?;
    let done = answer(alloc, &mut hall, line.as_str())?;
    let dump = answer(alloc, &mut hall, JOURNAL)?;
    Ok((done, dump))
}

/// What a hall that a dump is loaded into answers to the question for its journal.
fn dumped_again(alloc: Global, dump: &str) -> Result<String, Fail> {
    let entries = decode_dump(alloc, dump.as_bytes())?;
    let Ok(mut hall) = Hall::load(alloc, entries) else {
        return Err(Fail::from("the hall's own entries were not loaded"));
    };
    answer(alloc, &mut hall, JOURNAL)
}

#[test]
fn a_dump_is_loaded(rt: HostRuntime) -> Result<(), Fail> {
    let by = DeviceName::new("usb")?;
    let report = registered(rt.alloc(), "a")?;
    let (done, dump) = dump_of(rt.alloc(), &by, report)?;
    assert_eq!(rt; done.as_str(), "{\"done\":1}");
    let again = dumped_again(rt.alloc(), dump.as_str())?;
    assert_eq!(rt; again, dump);
    Ok(())
}
