//! Lists of calls over a log in memory: several are put at once where nobody else's entry comes first, and else they are made one by one.
ghost use Rattle.pana_shared_store.specs.Store.{IsFresh};
ghost use Rattle.pana_shared_tests.specs.Memory.{seen_of};

use crate::memory::{Fate, MemoryShared};
use crate::stores::{
    DUMP_P, DUMP_Q, EDIT, JOURNAL, LANDS, QUIET, REGISTER_P, REGISTER_Q, TAKEN, log_of,
};
use pana_calls::{Message, Session};
use pana_shared_store::SharedStore;
use pana_wire::{decode, encode_answer};
use std::alloc::Global;
use std::test::Fail;

const COUNTS: &str = "{\"by\":\"a\",\"do\":\"counts\"}";

const DUPLICATE_P: &str =
    "{\"by\":\"b\",\"copy\":1,\"device\":\"b\",\"do\":\"duplicate\",\"path\":\"p\"}";

/// The calls of lines.
fn messages(alloc: Global, lines: &[&str]) -> Result<Vec<Message>, Fail> {
    let mut calls = Vec::new(alloc);
    for line in lines {
        calls.push(decode(alloc, line.as_bytes())?)?;
    }
    Ok(calls)
}

/// Appends the answers to a list of lines, each with a newline, and whether one had none.
fn answer_list(
    alloc: Global,
    store: &mut SharedStore<MemoryShared>,
    lines: &[&str],
    text: &mut String,
) -> Result<(), Fail> {
    let calls = messages(alloc, lines)?;
    let mut answers = Vec::with_capacity(alloc, calls.len())?;
    let is_done = store.call_all(calls, &mut answers).is_ok();
    for answer in answers.as_slice() {
        text.push_str(encode_answer(alloc, answer)?.as_str())?;
        text.push_str("\n")?;
    }
    if !is_done {
        text.push_str("no answer\n")?;
    }
    Ok(())
}

/// The answers to lists of lines, of a store that is opened on a log.
fn answers(alloc: Global, log: MemoryShared, lists: &[&[&str]]) -> Result<String, Fail>
    requires { IsFresh (seen_of log) }
{
    let mut text = String::new(alloc);
    let mut store = SharedStore::open(alloc, log, false)?;
    for lines in lists {
        answer_list(alloc, &mut store, lines, &mut text)?;
    }
    Ok(text)
}

/// The same, on a new log.
fn answers_by(
    alloc: Global,
    moments: &[&str],
    fates: &[Fate],
    lists: &[&[&str]],
) -> Result<String, Fail> {
    let log = log_of(alloc, QUIET, moments, fates)?;
    answers(alloc, log, lists)
}

/// Three reports and a question, and what is answered to them.
const THREE: [&str; 4] = [REGISTER_P, COUNTS, DUPLICATE_P, EDIT];

const THREE_DONE: &str =
    "{\"done\":1}\n{\"counts\":{\"copies\":1,\"devices\":1}}\n{\"done\":2}\n{\"done\":3}\n";

#[test]
fn a_list_is_put_at_once(rt: HostRuntime) -> Result<(), Fail> {
    // The second append isn't put: the list took one.
    for fate in [Fate::Answered, Fate::PutTwice, Fate::PutUnanswered] {
        let fates = [fate, Fate::NotPut];
        let text = answers_by(rt.alloc(), &[], &fates, &[&THREE, &[EDIT], &[EDIT]])?;
        let expected = format!(in rt.alloc(); "{THREE_DONE}no answer\n{{\"done\":4}}\n")?;
        assert_eq!(rt; text, expected);
    }
    Ok(())
}

#[test]
fn a_list_that_comes_second_is_made_one_by_one(rt: HostRuntime) -> Result<(), Fail> {
    // One moment for the opening, and one for the append of the list.
    let moments = [QUIET, DUMP_Q];
    let lists: [&[&str]; 2] = [&[REGISTER_P, REGISTER_Q], &[JOURNAL]];
    let text = answers_by(rt.alloc(), &moments, &[], &lists)?;
    let expected = format!(in rt.alloc();
        "{{\"done\":2}}\n{TAKEN}{{\"entries\":[{{\"by\":\"a\",\"device\":\"a\",\"do\":\"register\",\"number\":1,\"path\":\"q\"}},{{\"by\":\"a\",\"device\":\"a\",\"do\":\"register\",\"number\":2,\"path\":\"p\"}}]}}\n"
    )?;
    assert_eq!(rt; text, expected);
    Ok(())
}

#[test]
fn a_list_without_an_answer_is_seen_whole(rt: HostRuntime) -> Result<(), Fail> {
    // It isn't put at first, and lands behind the look for it.
    let moments = [QUIET, QUIET, QUIET, LANDS];
    let text = answers_by(rt.alloc(), &moments, &[Fate::NotPut], &[&THREE, &[EDIT]])?;
    assert_eq!(rt; text.as_str(), "no answer\n{\"done\":4}\n");
    // It never lands, and its place is taken by the next report.
    let text = answers_by(rt.alloc(), &[], &[Fate::NotPut], &[&THREE, &[REGISTER_Q]])?;
    assert_eq!(rt; text.as_str(), "no answer\n{\"done\":1}\n");
    Ok(())
}

#[test]
fn a_full_log_takes_no_list(rt: HostRuntime) -> Result<(), Fail> {
    let fates = [Fate::Full, Fate::Full];
    let lists: [&[&str]; 2] = [&[REGISTER_P, REGISTER_Q], &[REGISTER_P, REGISTER_P]];
    let text = answers_by(rt.alloc(), &[], &fates, &lists)?;
    let expected = format!(in rt.alloc();
        "{{\"code\":14,\"refused\":\"NotKept\"}}\n{{\"done\":1}}\n{{\"done\":2}}\n{{\"code\":6,\"copy\":2,\"refused\":\"PlaceTaken\"}}\n"
    )?;
    assert_eq!(rt; text, expected);
    Ok(())
}

#[test]
fn a_list_of_questions_is_answered_behind_all(rt: HostRuntime) -> Result<(), Fail> {
    let moments = [QUIET, DUMP_P];
    let text = answers_by(rt.alloc(), &moments, &[], &[&[COUNTS, JOURNAL]])?;
    let expected = format!(in rt.alloc();
        "{{\"counts\":{{\"copies\":1,\"devices\":1}}}}\n{DUMP_P}\n"
    )?;
    assert_eq!(rt; text, expected);
    Ok(())
}

/// So many lines that register files, and the answers to them.
fn many(alloc: Global, count: u64) -> Result<(Vec<String>, String), Fail> {
    let mut lines = Vec::new(alloc);
    let mut text = String::new(alloc);
    for number in 1..=count {
        lines.push(format!(in alloc;
            "{{\"by\":\"a\",\"device\":\"a\",\"do\":\"register\",\"path\":\"{number}\"}}"
        )?)?;
        text.push_str(format!(in alloc; "{{\"done\":{number}}}\n")?.as_str())?;
    }
    Ok((lines, text))
}

/// The answers to a list of lines, and to one line more, whose append isn't put if two were before it.
fn long_answers(alloc: Global, lines: &[&str]) -> Result<String, Fail> {
    let fates = [Fate::Answered, Fate::Answered, Fate::NotPut];
    let log = log_of(alloc, QUIET, &[], &fates)?;
    let mut text = String::new(alloc);
    let mut store = SharedStore::open(alloc, log, false)?;
    answer_list(alloc, &mut store, lines, &mut text)?;
    answer_list(alloc, &mut store, &[REGISTER_P], &mut text)?;
    Ok(text)
}

#[test]
fn a_long_list_is_cut(rt: HostRuntime) -> Result<(), Fail> {
    let alloc = rt.alloc();
    let (lines, done) = many(alloc, 150)?;
    let mut texts = Vec::new(alloc);
    for line in lines.as_slice() {
        texts.push(line.as_str())?;
    }
    let text = long_answers(alloc, texts.as_slice())?;
    let expected = format!(in alloc; "{done}no answer\n")?;
    assert_eq!(rt; text, expected);
    Ok(())
}
