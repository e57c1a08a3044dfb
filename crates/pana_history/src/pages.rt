//! The journal, asked for page by page.
ghost use Rattle.std.specs.Prelude.{◌≡◌, IfOk, IfSome, OnErr};
ghost use Rattle.pana_calls.specs.Session.{one};
ghost use Rattle.pana_history.specs.Pages.{HasJournal, Stops, next_after};
ghost use Rattle.pana_history.specs.inner.Pages.{AsksPage};

use pana_calls::{Call, NoAnswer, Query, Session};
use pana_copies::DeviceName;
use pana_journal::{Entry, EntryList};
use pana_list::PlainList;
use std::alloc::Global;

/// How many pages are asked for at most.
const MOST_PAGES: u64 = 4_294_967_296;

/// How many entries a full page has.
const FULL_PAGE: usize = 100;

/// The page from this number on; none where it isn't answered.
fn page_from<S: Session>(
    session: &mut S,
    by: &DeviceName,
    from: u64,
) -> Result<Option<EntryList>, NoAnswer>
    ensures ok { IfOk result (AsksPage S.step by.now from session.old session.new) }
    ensures fails { OnErr result (one S.fails session.old by.now (Call.Query (Query.JournalFrom from)) session.new) }
{
    let answer = session.call(by, Call::Query(Query::JournalFrom { entry: from }))?;
    Ok(answer.into_journal())
}

/// The number from which the next page is to be asked for; none where this one isn't full.
fn next_after(from: u64, entries: &[Entry]) -> Option<u64>
    ensures { result ≡ next_after from entries.now }
{
    if entries.len() < FULL_PAGE {
        None
    } else {
        Some(from.saturating_add(100))
    }
}

/// All entries of a session's journal, in order; none where memory runs out.
///
/// # Errors
///
/// `NoAnswer` where a question has no answer.
pub fn journal_of<S: Session>(
    alloc: Global,
    session: &mut S,
    by: &DeviceName,
) -> Result<Option<EntryList>, NoAnswer>
    ensures ok { IfOk result (λ entries. IfSome entries (HasJournal S.step by.now session.old session.new)) }
    ensures fails { OnErr result (Stops S.step (one S.fails) by.now session.old session.new) }
{
    let mut entries = PlainList::new(alloc);
    let mut from = 1;
    for _ in 0..MOST_PAGES {
        let Some(page) = page_from(session, by, from)? else {
            return Ok(None);
        };
        let next = next_after(from, page.as_slice());
        if entries.append(page).is_err() {
            return Ok(None);
        }
        match next {
            Some(number) => from = number,
            None => return Ok(Some(entries)),
        }
    }
    Ok(None)
}
