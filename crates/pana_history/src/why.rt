//! What makes one of two copies obsolete, or sets them in conflict, for people.
ghost use Rattle.std.specs.Prelude.{◌≡◌, ◌++◌, true, false, Some, IfOk, IfErr, OnOk, string_bytes};
ghost use Rattle.pana_calls.specs.Session.{one};
ghost use Rattle.pana_ask.specs.Place.{place_name, unknown_line};
ghost use Rattle.pana_ask.specs.Verdict.{verdict_line};
ghost use Rattle.pana_hall.specs.Accepted.{IsAccepted};
ghost use Rattle.pana_hall.specs.Family.{families};
ghost use Rattle.pana_hall.specs.Living.{living};
ghost use Rattle.pana_hall.specs.Status.{standing_at};
ghost use Rattle.pana_history.specs.Lacking.{lacking};
ghost use Rattle.pana_history.specs.Why.{Explains, IsDamage, IsExplained, SaysNothing, difference_text, has_line, has_lines};

use crate::difference::{Difference, difference_between};
use crate::pages::journal_of;
use pana_ask::{Verdict, place_name, unknown_line};
use pana_calls::{Call, Cause, CopyStanding, NoAnswer, Query, Session};
use pana_copies::{DeviceName, Place};
use pana_hall::{Hall, LoadCause, LoadFault};
use pana_journal::{Entry, EntryList};
use pana_list::PlainList;
use std::alloc::{AllocError, Global};

/// What is said of two places.
#[derive(Drop)]
pub struct Explanation {
    /// A line for each update that one copy knows and the other lacks, or why there is none.
    pub text: String,
    /// Whether a copy is at each place, and both are of one file.
    pub is_of_one_file: bool,
}

/// How the copies at two places stand, where they are there.
#[derive(Drop)]
struct Standings {
    ours: Option<CopyStanding>,
    theirs: Option<CopyStanding>,
}

/// Why nothing is said.
#[derive(Clone, Copy)]
pub enum Unexplained {
    /// A question has no answer.
    NoAnswer,
    /// The journal that came is none: this entry doesn't follow from those before it.
    Damaged(LoadFault),
    /// An allocation failed.
    OutOfMemory,
}

impl From<NoAnswer> for Unexplained {
    ghost use Rattle.std.specs.Prelude.{◌≡◌};
    ghost use Rattle.pana_history.specs.declared.why.Unexplained.TheVariants as unexplained;

    ghost from_gives = { λ error fault. fault ≡ unexplained.NoAnswer };

    fn from(_: NoAnswer) -> Unexplained {
        Unexplained::NoAnswer
    }
}

impl From<AllocError> for Unexplained {
    ghost use Rattle.std.specs.Prelude.{◌≡◌};
    ghost use Rattle.pana_history.specs.declared.why.Unexplained.TheVariants as unexplained;

    ghost from_gives = { λ error fault. fault ≡ unexplained.OutOfMemory };

    fn from(_: AllocError) -> Unexplained {
        Unexplained::OutOfMemory
    }
}

/// The line that says that the copy with this name has an entry.
fn has_line(alloc: Global, name: &str, entry: &Entry) -> Result<String, AllocError>
    ensures { IfOk result (λ line. string_bytes line ≡ has_line name.now entry.now) }
{
    let kind = entry.report.kind().name();
    format!(in alloc;
        "{name} has {} {kind} by {}\n",
        entry.number,
        entry.by.as_str()
    )
}

/// Appends a line for each entry.
fn push_lines(
    alloc: Global,
    text: &mut String,
    name: &str,
    entries: &[Entry],
) -> Result<(), AllocError>
    ensures { OnOk result (string_bytes text.new ≡ string_bytes text.old ++ has_lines name.now entries.now) }
{
    for entry in entries {
        text.push_str(has_line(alloc, name, entry)?.as_str())?;
    }
    Ok(())
}

/// What is said of two copies with these names.
fn difference_text(
    alloc: Global,
    first: &str,
    second: &str,
    difference: &Difference,
) -> Result<String, AllocError>
    ensures { IfOk result (λ text. string_bytes text ≡ difference_text first.now second.now difference.now.first.items difference.now.second.items) }
{
    if difference.first.is_empty() && difference.second.is_empty() {
        return format!(in alloc; "{first} and {second} are equal\n");
    }
    let mut text = String::new(alloc);
    push_lines(alloc, &mut text, first, difference.first.as_slice())?;
    push_lines(alloc, &mut text, second, difference.second.as_slice())?;
    Ok(text)
}

/// That no copy is at a place.
fn unknown(alloc: Global, place: &Place) -> Result<Explanation, AllocError>
    ensures text { IfOk result (λ explanation. string_bytes explanation.text ≡ unknown_line place.now) }
    ensures related { IfOk result (λ explanation. explanation.is_of_one_file ≡ false) }
{
    Ok(Explanation {
        text: unknown_line(alloc, place)?,
        is_of_one_file: false,
    })
}

/// That two copies are of two files.
fn unrelated(alloc: Global, first: &Place, second: &Place) -> Result<Explanation, AllocError>
    ensures text { IfOk result (λ explanation. string_bytes explanation.text ≡ verdict_line Verdict.Unrelated first.now second.now) }
    ensures related { IfOk result (λ explanation. explanation.is_of_one_file ≡ false) }
{
    Ok(Explanation {
        text: Verdict::Unrelated.line(alloc, first, second)?,
        is_of_one_file: false,
    })
}

/// The entries once more.
fn copy_of(alloc: Global, entries: &[Entry]) -> Result<EntryList, AllocError>
    ensures { IfOk result (λ copies. copies ≡ entries.now) }
{
    let mut copies = Vec::new(alloc);
    for entry in entries {
        copies.push(entry.copy_of(alloc)?)?;
    }
    Ok(PlainList::from_vec(copies))
}

/// The hall of a journal.
fn load(alloc: Global, journal: EntryList) -> Result<Hall, Unexplained>
    ensures ok { IfOk result (λ hall. hall ≡ journal) }
    ensures damaged { IfErr result (IsDamage journal) }
{
    match Hall::load(alloc, journal) {
        Ok(hall) => Ok(hall),
        Err(fault) if fault.cause == LoadCause::Refused(Cause::OutOfMemory) => {
            Err(Unexplained::OutOfMemory)
        }
        Err(fault) => Err(Unexplained::Damaged(fault)),
    }
}

/// The hall of a journal, whose entries are made once more.
pub(crate) fn hall_of(alloc: Global, journal: &[Entry]) -> Result<Hall, Unexplained>
    ensures ok { IfOk result (λ hall. hall ≡ journal.now) }
    ensures damaged { IfErr result (IsDamage journal.now) }
{
    let entries = copy_of(alloc, journal)?;
    load(alloc, entries)
}

/// How the copy at a place stands, if one is there.
pub(crate) fn standing_at(
    hall: &mut Hall,
    place: &Place,
) -> Result<Option<CopyStanding>, Unexplained>
    ensures standing { IfOk result (λ standing. standing ≡ standing_at (living hall.old) place.now) }
    ensures accepted { IsAccepted 8 hall.old }
    ensures hall { hall.new ≡ hall.old }
    ensures err { IfErr result (λ fault. fault ≡ Unexplained.OutOfMemory) }
{
    // The contract of this call has that the hall refuses none of its entries.
    let _ = hall.length();
    let copy = place.copy_of()?;
    let reply = hall.apply(&place.device, Call::Query(Query::At { place: copy }));
    match reply.into_standing() {
        Some(standing) => Ok(standing),
        None => Err(Unexplained::OutOfMemory),
    }
}

/// How the copies at two places stand in a hall.
fn standings_at(hall: &mut Hall, first: &Place, second: &Place) -> Result<Standings, Unexplained>
    ensures ours { IfOk result (λ standings. standings.ours ≡ standing_at (living hall.old) first.now) }
    ensures theirs { IfOk result (λ standings. standings.theirs ≡ standing_at (living hall.old) second.now) }
    ensures accepted { IsAccepted 8 hall.old }
    ensures err { IfErr result (λ fault. fault ≡ Unexplained.OutOfMemory) }
{
    let ours = standing_at(hall, first)?;
    let theirs = standing_at(hall, second)?;
    Ok(Standings { ours, theirs })
}

/// How the copies at two places stand by a journal.
fn standings_by(
    alloc: Global,
    journal: &[Entry],
    first: &Place,
    second: &Place,
) -> Result<Standings, Unexplained>
    ensures ours { IfOk result (λ standings. standings.ours ≡ standing_at (living journal.now) first.now) }
    ensures theirs { IfOk result (λ standings. standings.theirs ≡ standing_at (living journal.now) second.now) }
    ensures accepted { IfOk result (λ standings. IsAccepted 8 journal.now) }
    ensures damaged { IfErr result (IsDamage journal.now) }
{
    let mut hall = hall_of(alloc, journal)?;
    let standings = standings_at(&mut hall, first, second);
    drop(hall);
    standings
}

/// What is said of two copies of one file.
fn related(
    alloc: Global,
    journal: EntryList,
    ours: &CopyStanding,
    theirs: &CopyStanding,
    first: &str,
    second: &str,
) -> Result<Explanation, AllocError>
    requires accepted { IsAccepted 8 journal }
    requires ours { families journal ours.now.copy ≡ ours.now.family }
    requires theirs { families journal theirs.now.copy ≡ ours.now.family }
    ensures text { IfOk result (λ explanation. string_bytes explanation.text ≡ difference_text first.now second.now (lacking journal ours.now.family ours.now.copy theirs.now.copy) (lacking journal ours.now.family theirs.now.copy ours.now.copy)) }
    ensures related { IfOk result (λ explanation. explanation.is_of_one_file ≡ true) }
{
    let difference = difference_between(alloc, journal, ours.family, ours.copy, theirs.copy)?;
    Ok(Explanation {
        text: difference_text(alloc, first, second, &difference)?,
        is_of_one_file: true,
    })
}

/// What is said of two copies.
fn compared(
    alloc: Global,
    journal: EntryList,
    ours: &CopyStanding,
    theirs: &CopyStanding,
    first: &Place,
    second: &Place,
) -> Result<Explanation, AllocError>
    requires accepted { IsAccepted 8 journal }
    requires ours { Some ours.now ≡ standing_at (living journal) first.now }
    requires theirs { Some theirs.now ≡ standing_at (living journal) second.now }
    ensures { IfOk result (IsExplained journal first.now second.now) }
{
    if ours.family != theirs.family {
        return unrelated(alloc, first, second);
    }
    let first = place_name(alloc, first)?;
    let second = place_name(alloc, second)?;
    related(
        alloc,
        journal,
        ours,
        theirs,
        first.as_str(),
        second.as_str(),
    )
}

/// What is said of two places, by how the copies there stand.
fn told(
    alloc: Global,
    journal: EntryList,
    ours: Option<CopyStanding>,
    theirs: Option<CopyStanding>,
    first: &Place,
    second: &Place,
) -> Result<Explanation, AllocError>
    requires accepted { IsAccepted 8 journal }
    requires ours { ours ≡ standing_at (living journal) first.now }
    requires theirs { theirs ≡ standing_at (living journal) second.now }
    ensures { IfOk result (IsExplained journal first.now second.now) }
{
    let Some(ours) = ours else {
        return unknown(alloc, first);
    };
    let Some(theirs) = theirs else {
        return unknown(alloc, second);
    };
    compared(alloc, journal, &ours, &theirs, first, second)
}

/// What is said of two places by a journal.
///
/// It takes memory for the journal twice, and for its hall.
///
/// # Errors
///
/// `Damaged` where an entry doesn't follow from those before it; `OutOfMemory`.
pub fn explain(
    alloc: Global,
    journal: EntryList,
    first: &Place,
    second: &Place,
) -> Result<Explanation, Unexplained>
    ensures ok { IfOk result (IsExplained journal first.now second.now) }
    ensures damaged { IfErr result (IsDamage journal) }
{
    let Standings { ours, theirs } = standings_by(alloc, journal.as_slice(), first, second)?;
    Ok(told(alloc, journal, ours, theirs, first, second)?)
}

/// Asks a session for its journal, as the device `by`, and says what each of the copies at two places knows that the other lacks: a
/// line for each update, as `usb:plan.txt has 5 edit by usb`, those of the first place before those of the second; or that they are
/// equal, or of two files, or that no copy is at a place. All is said of one moment: that of the last question.
///
/// # Errors
///
/// `NoAnswer` where a question has none; `Damaged` where what came is no journal; `OutOfMemory`.
pub fn why_on<S: Session>(
    alloc: Global,
    session: &mut S,
    by: &DeviceName,
    first: &Place,
    second: &Place,
) -> Result<Explanation, Unexplained>
    ensures ok { IfOk result (Explains S.step by.now first.now second.now session.old session.new) }
    ensures err { IfErr result (SaysNothing S.step (one S.fails) by.now session.old session.new) }
{
    let Some(journal) = journal_of(alloc, session, by)? else {
        return Err(Unexplained::OutOfMemory);
    };
    explain(alloc, journal, first, second)
}
