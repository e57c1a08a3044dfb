//! Two stores over one list: whatever becomes of their appends, they have one journal, with each report that was answered, once. A stale one
//! answers questions from what it has followed.

use crate::memory::Fate;
use crate::one_list::{ListLog, OneList};
use pana_calls::{Message, NoAnswer, Session};
use pana_shared_store::SharedStore;
use pana_wire::{decode, encode_answer};
use std::alloc::Global;
use std::cell::RefCell;
use std::collections::VecDeque;
use std::test::Fail;

const REGISTER: &str = "{\"by\":\"a\",\"device\":\"a\",\"do\":\"register\",\"path\":\"p\"}";

const DUPLICATE: &str =
    "{\"by\":\"b\",\"copy\":1,\"device\":\"b\",\"do\":\"duplicate\",\"path\":\"p\"}";

const EDIT: &str = "{\"by\":\"a\",\"copy\":2,\"do\":\"edit\"}";

const JOURNAL: &str = "{\"by\":\"a\",\"do\":\"journal\",\"from\":2}";

const COUNTS: &str = "{\"by\":\"a\",\"do\":\"counts\"}";

/// What a stale store answers of the first entry: unread, until a report of its own is made behind it; read on to; and known before, where
/// nothing else is answered.
const FOLLOWED: &str =
    "{\"counts\":{\"copies\":0,\"devices\":0}}\n{\"done\":2}\n{\"counts\":{\"copies\":2,\"devices\":2}}\n";

const READ: &str = "{\"counts\":{\"copies\":1,\"devices\":1}}\n";

const ALONE: &str = "{\"counts\":{\"copies\":1,\"devices\":1}}\nno answer\n";

/// A store of a list, for a writer whose appends have these fates.
fn store_of<'a>(
    alloc: Global,
    list: &'a RefCell<OneList>,
    writer: u64,
    fates: &[Fate],
) -> Result<SharedStore<ListLog<'a>>, Fail> {
    let mut ends = VecDeque::new(alloc);
    for fate in fates {
        ends.push_back(*fate)?;
    }
    let log = ListLog::new(alloc, list, writer, ends, true);
    Ok(SharedStore::open(alloc, log, false)?)
}

/// A stale store of a list, whose log says that it is time to read on, or that it isn't.
fn stale_store_of<'a>(
    alloc: Global,
    list: &'a RefCell<OneList>,
    is_due: bool,
) -> Result<SharedStore<ListLog<'a>>, Fail> {
    let log = ListLog::new(alloc, list, 2, VecDeque::new(alloc), is_due);
    Ok(SharedStore::open(alloc, log, true)?)
}

/// Appends the answer to a line, and a newline.
fn answer(
    alloc: Global,
    store: &mut SharedStore<ListLog<'_>>,
    line: &str,
    text: &mut String,
) -> Result<(), Fail> {
    let Message { by, call } = decode(alloc, line.as_bytes())?;
    match store.call(&by, call) {
        Ok(answer) => text.push_str(encode_answer(alloc, &answer)?.as_str())?,
        Err(NoAnswer) => text.push_str("no answer")?,
    }
    text.push_str("\n")?;
    Ok(())
}

/// Puts the groups that are late, where their places are free.
fn land(alloc: Global, list: &RefCell<OneList>) -> Result<(), Fail> {
    if let Ok(mut list) = list.try_borrow_mut() {
        list.land(alloc)?;
    }
    Ok(())
}

#[test]
fn two_stores_write_one_list(rt: HostRuntime) -> Result<(), Fail> {
    let alloc = rt.alloc();
    let list = RefCell::new(OneList::new(alloc));
    let fates = [Fate::Answered, Fate::NotPut, Fate::NotPut, Fate::PutTwice];
    let mut first = store_of(alloc, &list, 1, &fates)?;
    let mut second = store_of(alloc, &list, 2, &[Fate::PutUnanswered])?;
    let mut text = String::new(alloc);
    answer(alloc, &mut first, REGISTER, &mut text)?;
    answer(alloc, &mut second, DUPLICATE, &mut text)?;
    // The first edit is late, and its place is taken when it arrives.
    answer(alloc, &mut first, EDIT, &mut text)?;
    answer(alloc, &mut second, EDIT, &mut text)?;
    land(alloc, &list)?;
    // The next one is late too, and it arrives.
    answer(alloc, &mut first, EDIT, &mut text)?;
    land(alloc, &list)?;
    answer(alloc, &mut second, EDIT, &mut text)?;
    answer(alloc, &mut first, EDIT, &mut text)?;
    let replies =
        "{\"done\":1}\n{\"done\":2}\nno answer\n{\"done\":3}\nno answer\n{\"done\":5}\n{\"done\":6}\n";
    assert_eq!(rt; text.as_str(), replies);
    let mut journals = String::new(alloc);
    answer(alloc, &mut first, JOURNAL, &mut journals)?;
    answer(alloc, &mut second, JOURNAL, &mut journals)?;
    let journal =
        "{\"entries\":[{\"by\":\"b\",\"copy\":1,\"device\":\"b\",\"do\":\"duplicate\",\"number\":2,\"path\":\"p\"},\
{\"by\":\"a\",\"copy\":2,\"do\":\"edit\",\"number\":3},{\"by\":\"a\",\"copy\":2,\"do\":\"edit\",\"number\":4},\
{\"by\":\"a\",\"copy\":2,\"do\":\"edit\",\"number\":5},{\"by\":\"a\",\"copy\":2,\"do\":\"edit\",\"number\":6}]}";
    let both = format!(in alloc; "{journal}\n{journal}\n")?;
    assert_eq!(rt; journals, both);
    Ok(())
}

/// Has another store make the first entry of a list.
fn begin(alloc: Global, list: &RefCell<OneList>) -> Result<(), Fail> {
    let mut text = String::new(alloc);
    let mut first = store_of(alloc, list, 1, &[])?;
    answer(alloc, &mut first, REGISTER, &mut text)
}

/// The answers to lines, each with a newline.
fn answers(
    alloc: Global,
    store: &mut SharedStore<ListLog<'_>>,
    lines: &[&str],
) -> Result<String, Fail> {
    let mut text = String::new(alloc);
    for line in lines {
        answer(alloc, store, line, &mut text)?;
    }
    Ok(text)
}

/// What a stale store answers to lines, which is opened on a list, and asked once another has made the first entry.
fn stale_answers(
    alloc: Global,
    list: &RefCell<OneList>,
    is_due: bool,
    lines: &[&str],
) -> Result<String, Fail> {
    let mut stale = stale_store_of(alloc, list, is_due)?;
    begin(alloc, list)?;
    answers(alloc, &mut stale, lines)
}

/// What one answers that has followed the first entry, while the list isn't read, nor written.
fn lone_answers(alloc: Global, list: &RefCell<OneList>, lines: &[&str]) -> Result<String, Fail> {
    begin(alloc, list)?;
    let mut stale = stale_store_of(alloc, list, true)?;
    let held = list.try_borrow_mut();
    let text = answers(alloc, &mut stale, lines);
    drop(held);
    text
}

#[test]
fn a_stale_store_answers_what_it_has_followed(rt: HostRuntime) -> Result<(), Fail> {
    let list = RefCell::new(OneList::new(rt.alloc()));
    // The list has more by then, and a report is made behind all of it.
    let text = stale_answers(rt.alloc(), &list, false, &[COUNTS, DUPLICATE, COUNTS])?;
    assert_eq!(rt; text.as_str(), FOLLOWED);
    Ok(())
}

#[test]
fn a_stale_store_reads_on_where_it_is_time_to(rt: HostRuntime) -> Result<(), Fail> {
    let list = RefCell::new(OneList::new(rt.alloc()));
    let text = stale_answers(rt.alloc(), &list, true, &[COUNTS])?;
    assert_eq!(rt; text.as_str(), READ);
    Ok(())
}

#[test]
fn a_stale_store_answers_where_the_log_does_not(rt: HostRuntime) -> Result<(), Fail> {
    let list = RefCell::new(OneList::new(rt.alloc()));
    let text = lone_answers(rt.alloc(), &list, &[COUNTS, DUPLICATE])?;
    assert_eq!(rt; text.as_str(), ALONE);
    Ok(())
}
