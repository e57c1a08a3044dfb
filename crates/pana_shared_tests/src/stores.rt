//! Stores over a log in memory: that calls are answered, and what they are answered where others append, and answers are lost. What is
//! expected follows from the rules: a report is the next entry, if nothing stands against it behind all that the log has.
ghost use Rattle.std.specs.Prelude.{IfOk};
ghost use Rattle.pana_shared_store.specs.Store.{IsFresh};
ghost use Rattle.pana_shared_tests.specs.Memory.{seen_of};

use crate::life::live;
use crate::memory::{Fate, MemoryShared, Moment};
use pana_calls::{Message, NoAnswer, Session};
use pana_shared::{ReadFault, Record};
use pana_shared_store::SharedStore;
use pana_wire::{decode, decode_dump, encode_answer};
use std::alloc::Global;
use std::collections::VecDeque;
use std::test::Fail;

/// The writer of the store, and the one that appends otherwise.
const WRITER: u64 = 1;

const OTHER: u64 = 2;

/// A moment at which nobody appends; and one at which the group that was asked for last lands.
pub(crate) const QUIET: &str = "";

pub(crate) const LANDS: &str = "lands";

pub(crate) const REGISTER_P: &str =
    "{\"by\":\"a\",\"device\":\"a\",\"do\":\"register\",\"path\":\"p\"}";

pub(crate) const REGISTER_Q: &str =
    "{\"by\":\"a\",\"device\":\"a\",\"do\":\"register\",\"path\":\"q\"}";

pub(crate) const EDIT: &str = "{\"by\":\"a\",\"copy\":2,\"do\":\"edit\"}";

const DUPLICATE: &str =
    "{\"by\":\"b\",\"copy\":1,\"device\":\"b\",\"do\":\"duplicate\",\"path\":\"p\"}";

pub(crate) const JOURNAL: &str = "{\"by\":\"a\",\"do\":\"journal\",\"from\":1}";

pub(crate) const DUMP_P: &str =
    "{\"entries\":[{\"by\":\"a\",\"device\":\"a\",\"do\":\"register\",\"number\":1,\"path\":\"p\"}]}";

pub(crate) const DUMP_Q: &str =
    "{\"entries\":[{\"by\":\"a\",\"device\":\"a\",\"do\":\"register\",\"number\":1,\"path\":\"q\"}]}";

const DUMP_DUPLICATE: &str =
    "{\"entries\":[{\"by\":\"b\",\"copy\":1,\"device\":\"b\",\"do\":\"duplicate\",\"number\":2,\"path\":\"p\"}]}";

const DUMP_EDIT: &str = "{\"entries\":[{\"by\":\"a\",\"copy\":2,\"do\":\"edit\",\"number\":3}]}";

/// An entry that no hall makes: there is no copy 7.
const DUMP_FOREIGN: &str = "{\"entries\":[{\"by\":\"b\",\"copy\":7,\"do\":\"edit\",\"number\":1}]}";

pub(crate) const TAKEN: &str = "{\"code\":6,\"copy\":1,\"refused\":\"PlaceTaken\"}\n";

/// The entries of a dump as another writer's records.
fn records_of(alloc: Global, dump: &str) -> Result<Vec<Record>, Fail> {
    let mut records = Vec::new(alloc);
    if dump.is_empty() || dump == LANDS {
        return Ok(records);
    }
    let entries = decode_dump(alloc, dump.as_bytes())?;
    for entry in entries.as_slice() {
        records.push(Record {
            entry: entry.copy_of(alloc)?,
            writer: OTHER,
            turn: 1,
        })?;
    }
    Ok(records)
}

/// A log on which others' records stand already, with a moment for each of the calls to come, and what comes of its appends.
pub(crate) fn log_of(
    alloc: Global,
    before: &str,
    moments: &[&str],
    fates: &[Fate],
) -> Result<MemoryShared, Fail>
    ensures { IfOk result (λ log. IsFresh (seen_of log)) }
{
    let mut plan = VecDeque::new(alloc);
    for moment in moments {
        plan.push_back(Moment {
            others: records_of(alloc, moment)?,
            lands: *moment == LANDS,
        })?;
    }
    let mut ends = VecDeque::new(alloc);
    for fate in fates {
        ends.push_back(*fate)?;
    }
    let others = records_of(alloc, before)?;
    Ok(MemoryShared::new(alloc, WRITER, others, plan, ends, 2))
}

/// The answer to a line.
fn answer(
    alloc: Global,
    store: &mut SharedStore<MemoryShared>,
    line: &str,
) -> Result<String, Fail> {
    let Message { by, call } = decode(alloc, line.as_bytes())?;
    match store.call(&by, call) {
        Ok(answer) => Ok(encode_answer(alloc, &answer)?),
        Err(NoAnswer) => Ok(String::from_str(alloc, "no answer")?),
    }
}

/// Appends the answers to lines, each with a newline.
fn answer_all(
    alloc: Global,
    store: &mut SharedStore<MemoryShared>,
    lines: &[&str],
    text: &mut String,
) -> Result<(), Fail> {
    for line in lines {
        let next = answer(alloc, store, line)?;
        text.push_str(next.as_str())?;
        text.push_str("\n")?;
    }
    Ok(())
}

/// The answers to lines of a store that is opened on a log, and the number of what is no entry, if it has met that.
fn answers(alloc: Global, log: MemoryShared, lines: &[&str]) -> Result<(String, Option<u64>), Fail>
    requires { IsFresh (seen_of log) }
{
    let mut text = String::new(alloc);
    let mut store = SharedStore::open(alloc, log, false)?;
    answer_all(alloc, &mut store, lines, &mut text)?;
    Ok((text, store.foreign()))
}

/// The same, on a new log.
fn answers_by(
    alloc: Global,
    moments: &[&str],
    fates: &[Fate],
    lines: &[&str],
) -> Result<String, Fail> {
    let log = log_of(alloc, QUIET, moments, fates)?;
    let (text, _) = answers(alloc, log, lines)?;
    Ok(text)
}

#[test]
fn a_call_is_made_once_where_its_answer_is_lost(rt: HostRuntime) -> Result<(), Fail> {
    let expected = format!(in rt.alloc(); "{{\"done\":1}}\n{DUMP_P}\n")?;
    for fate in [Fate::PutUnanswered, Fate::PutTwice] {
        let text = answers_by(rt.alloc(), &[], &[fate], &[REGISTER_P, JOURNAL])?;
        assert_eq!(rt; text.as_str(), expected.as_str());
    }
    Ok(())
}

#[test]
fn a_call_without_an_answer_may_be_made_late(rt: HostRuntime) -> Result<(), Fail> {
    // One moment for the opening, for the append, and for the look behind it; then one for the first question.
    let moments = [QUIET, QUIET, QUIET, QUIET, LANDS];
    let lines = [REGISTER_P, JOURNAL, JOURNAL, REGISTER_P, JOURNAL];
    let text = answers_by(rt.alloc(), &moments, &[Fate::NotPut], &lines)?;
    let expected = format!(in rt.alloc();
        "no answer\n{{\"entries\":[]}}\n{DUMP_P}\n{TAKEN}{DUMP_P}\n"
    )?;
    assert_eq!(rt; text, expected);
    Ok(())
}

#[test]
fn a_later_report_takes_its_place(rt: HostRuntime) -> Result<(), Fail> {
    let moments = [QUIET, QUIET, QUIET, QUIET, LANDS];
    let lines = [REGISTER_P, REGISTER_Q, JOURNAL];
    let text = answers_by(rt.alloc(), &moments, &[Fate::NotPut], &lines)?;
    let expected = format!(in rt.alloc(); "no answer\n{{\"done\":1}}\n{DUMP_Q}\n")?;
    assert_eq!(rt; text, expected);
    Ok(())
}

#[test]
fn others_are_faster(rt: HostRuntime) -> Result<(), Fail> {
    let text = answers_by(rt.alloc(), &[QUIET, DUMP_Q], &[], &[REGISTER_P])?;
    assert_eq!(rt; text.as_str(), "{\"done\":2}\n");
    let text = answers_by(rt.alloc(), &[QUIET, DUMP_P], &[], &[REGISTER_P, JOURNAL])?;
    let expected = format!(in rt.alloc(); "{TAKEN}{DUMP_P}\n")?;
    assert_eq!(rt; text, expected);
    Ok(())
}

#[test]
fn a_full_log_keeps_nothing(rt: HostRuntime) -> Result<(), Fail> {
    let lines = [REGISTER_P, JOURNAL, REGISTER_P, REGISTER_P];
    let text = answers_by(rt.alloc(), &[], &[Fate::Full], &lines)?;
    let expected = format!(in rt.alloc();
        "{{\"code\":14,\"refused\":\"NotKept\"}}\n{{\"entries\":[]}}\n{{\"done\":1}}\n{TAKEN}"
    )?;
    assert_eq!(rt; text, expected);
    Ok(())
}

#[test]
fn what_is_no_entry_ends_a_store(rt: HostRuntime) -> Result<(), Fail> {
    let log = log_of(rt.alloc(), QUIET, &[QUIET, DUMP_FOREIGN], &[])?;
    let (text, foreign) = answers(rt.alloc(), log, &[JOURNAL, JOURNAL, REGISTER_P])?;
    assert_eq!(rt; text.as_str(), "no answer\nno answer\nno answer\n");
    assert_eq!(rt; foreign, Some(1));
    Ok(())
}

/// Whether a store isn't opened for what stands in its log.
fn is_refused(alloc: Global, log: MemoryShared) -> bool
    requires { IsFresh (seen_of log) }
{
    matches!(
        SharedStore::open(alloc, log, false),
        Err(ReadFault::Foreign { number: 1 })
    )
}

#[test]
fn what_is_no_entry_opens_no_store(rt: HostRuntime) -> Result<(), Fail> {
    let log = log_of(rt.alloc(), DUMP_FOREIGN, &[], &[])?;
    assert!(rt; is_refused(rt.alloc(), log));
    Ok(())
}

#[test]
fn two_stores_have_one_journal(rt: HostRuntime) -> Result<(), Fail> {
    let alloc = rt.alloc();
    // The first registers a file, and edits the copy that the second has made meanwhile: it learns of it when it is called.
    let moments = [QUIET, QUIET, DUMP_DUPLICATE];
    let fates = [Fate::Answered, Fate::PutUnanswered];
    let first = answers_by(alloc, &moments, &fates, &[REGISTER_P, EDIT, JOURNAL])?;
    // The second is opened behind the file's entry, makes its copy, and asks once the edit is there.
    let log = log_of(
        alloc,
        DUMP_P,
        &[QUIET, QUIET, QUIET, QUIET, DUMP_EDIT],
        &[Fate::PutUnanswered],
    )?;
    let (second, _) = answers(alloc, log, &[DUPLICATE, JOURNAL])?;
    let journal =
        "{\"entries\":[{\"by\":\"a\",\"device\":\"a\",\"do\":\"register\",\"number\":1,\"path\":\"p\"},\
{\"by\":\"b\",\"copy\":1,\"device\":\"b\",\"do\":\"duplicate\",\"number\":2,\"path\":\"p\"},\
{\"by\":\"a\",\"copy\":2,\"do\":\"edit\",\"number\":3}]}";
    let of_first = format!(in alloc; "{{\"done\":1}}\n{{\"done\":3}}\n{journal}\n")?;
    assert_eq!(rt; first, of_first);
    let of_second = format!(in alloc; "{{\"done\":2}}\n{journal}\n")?;
    assert_eq!(rt; second, of_second);
    Ok(())
}

/// How many entries a store has that is opened on a log and makes the call of a line.
fn entries_after(alloc: Global, log: MemoryShared, is_stale: bool, line: &str) -> Result<u64, Fail>
    requires { IsFresh (seen_of log) }
{
    let Message { by, call } = decode(alloc, line.as_bytes())?;
    let mut calls = Vec::new(alloc);
    calls.push((by, call))?;
    let store = live(alloc, log, is_stale, calls)?;
    Ok(store.entries())
}

#[test]
fn a_store_lives(rt: HostRuntime) -> Result<(), Fail> {
    for is_stale in [false, true] {
        let log = log_of(rt.alloc(), DUMP_Q, &[], &[Fate::PutUnanswered])?;
        assert_eq!(rt; entries_after(rt.alloc(), log, is_stale, REGISTER_P)?, 2);
    }
    Ok(())
}
