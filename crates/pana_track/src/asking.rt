//! The copies that are obsolete or in conflict, asked for page by page.
ghost use Rattle.std.specs.Prelude.{◌≡◌, None, IfOk, IfSome, OnErr};
ghost use Rattle.pana_calls.specs.Session.{one};
ghost use Rattle.pana_track.specs.Status.{HasAll, next_after};
ghost use Rattle.pana_track.specs.inner.Pages.{AsksPage, Stops};

use pana_calls::{Call, NoAnswer, Query, Session, StatusRow};
use pana_copies::DeviceName;
use pana_list::PlainList;
use std::alloc::Global;

/// How many pages are asked for at most.
const MOST_PAGES: u64 = 4_294_967_296;

/// How many rows a full page has.
const FULL_PAGE: usize = 100;

/// The page from this number on; none where it isn't answered.
fn page_from<S: Session>(
    session: &mut S,
    by: &DeviceName,
    from: u64,
) -> Result<Option<PlainList<StatusRow>>, NoAnswer>
    ensures ok { IfOk result (AsksPage S.step by.now from session.old session.new) }
    ensures fails { OnErr result (one S.fails session.old by.now (Call.Query (Query.Status None from)) session.new) }
{
    let query = Query::Status { device: None, from };
    let answer = session.call(by, Call::Query(query))?;
    Ok(answer.into_status())
}

/// The number from which the next page is to be asked for; none where this one isn't full.
fn next_after(rows: &[StatusRow]) -> Option<u64>
    ensures { result ≡ next_after rows.now }
{
    let last = rows.get(FULL_PAGE - 1)?;
    Some(last.copy.saturating_add(1))
}

/// All copies that are obsolete or in conflict, by rising number, with what to replace each with, or to merge it with; none
/// where memory runs out.
///
/// # Errors
///
/// `NoAnswer` where a question has no answer.
pub fn status_of<S: Session>(
    alloc: Global,
    session: &mut S,
    by: &DeviceName,
) -> Result<Option<PlainList<StatusRow>>, NoAnswer>
    ensures ok { IfOk result (λ rows. IfSome rows (HasAll S.step by.now session.old session.new)) }
    ensures fails { OnErr result (Stops S.step (one S.fails) by.now session.old session.new) }
{
    let mut rows = PlainList::new(alloc);
    let mut from = 1;
    for _ in 0..MOST_PAGES {
        let Some(page) = page_from(session, by, from)? else {
            return Ok(None);
        };
        let next = next_after(page.as_slice());
        if rows.append(page).is_err() {
            return Ok(None);
        }
        match next {
            Some(number) => from = number,
            None => return Ok(Some(rows)),
        }
    }
    Ok(None)
}
