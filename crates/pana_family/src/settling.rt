//! Settling copies: what becomes of each row when copies get the ids of the parcels that end.
ghost use Rattle.std.specs.Prelude.{◌≡◌, ◌++◌, ℕ, true, List, Some, filter_map, IfOk, IfSome, OnOk};
ghost use Rattle.std.specs.Option.{option_to_list};
ghost use Rattle.pana_id.specs.Id.{sum_of, SharesNoPoint};
ghost use Rattle.pana_family.specs.declared.row.StampRow.{StampRow as OfRow};
ghost use Rattle.pana_family.specs.{Rows.with_ids, Rows.AreBefore, Rows.AreSound, Table.In, Kept.IsKept, Change.after, Change.exchanged_all};
ghost use Rattle.pana_family.specs.After.{bequeathed, ends, is_bound, lost, restamped, settled, shared};
ghost use Rattle.pana_family.specs.inner.Making.{CanGather, CanPlan, left_of, passed_row, planned};
ghost use Rattle.pana_family.specs.inner.Exchanging.{AddsPlanned, came_behind};

use crate::change::{Change, Exchange};
use crate::making::{copy_of, stamp_of};
use crate::row::StampRow;
use crate::searching::{is_copy, is_held};
use pana_event::EventTree;
use pana_id::IdTree;
use pana_stamp::Stamp;
use smallvec::SmallVec;
use std::alloc::{AllocError, Global};

/// What becomes of a row.
#[derive(Drop)]
pub enum Fate {
    Stays,
    Goes,
    /// This row takes its place.
    Becomes(StampRow),
}

/// What copies are settled for.
#[derive(Drop)]
pub enum Plan {
    /// These two copies have these parts of a stamp.
    Share(u64, u64, Stamp, Stamp),
    /// This copy goes, and the parcels that it holds.
    Lose(u64),
    /// The first copy goes, and the second, which knows this event, is its heir.
    Bequeath(u64, u64, EventTree),
}

/// Whether the row is that of the copy that is removed, or of a parcel that it holds.
fn is_bound(row: &StampRow, from: Option<u64>) -> bool
    ensures { result ≡ is_bound from row.now }
{
    match from {
        None => false,
        Some(copy) => row.copy == copy || is_held(row, copy),
    }
}

/// Whether the row's id becomes the copy's, which knows the event, when that is settled.
fn ends(row: &StampRow, from: Option<u64>, copy: u64, event: &EventTree) -> bool
    ensures { result ≡ ends from copy event.now row.now }
{
    (is_bound(row, from) || is_held(row, copy)) && row.stamp.event_tree().leq(event)
}

fn sum(alloc: Global, first: IdTree, second: &IdTree) -> Result<IdTree, AllocError>
    requires { SharesNoPoint first second.now }
    ensures { IfOk result (λ whole. whole ≡ sum_of first second.now) }
{
    let whole = match IdTree::sum(alloc, &first, second) {
        Ok(id) => Ok(id),
        Err(_) => Err(AllocError),
    };
    drop(first);
    whole
}

/// The id of a stamp for a copy, with those of the rows that end.
fn gathered(
    alloc: Global,
    rows: &[StampRow],
    from: Option<u64>,
    copy: u64,
    stamp: &Stamp,
) -> Result<IdTree, AllocError>
    requires kept { IsKept rows.now }
    requires sound { AreSound rows.now }
    requires own { CanGather from rows.now copy stamp.now }
    ensures { IfOk result (λ id. id ≡ with_ids (ends from copy stamp.now.event) stamp.now.id rows.now) }
{
    let mut id = copy_of(alloc, stamp.id())?;
    for other in rows {
        if ends(other, from, copy, stamp.event_tree()) {
            id = sum(alloc, id, other.stamp.id())?;
        }
    }
    Ok(id)
}

/// The row with another stamp and touch.
pub fn restamped(row: &StampRow, stamp: Stamp, touch: u64) -> StampRow
    ensures { result ≡ restamped stamp touch row.now }
{
    StampRow {
        copy: row.copy,
        holder: row.holder,
        stamp,
        touch,
    }
}

/// What becomes of a copy's row that has this stamp and is settled among these rows.
fn settled_fate(
    alloc: Global,
    rows: &[StampRow],
    row: &StampRow,
    from: Option<u64>,
    stamp: &Stamp,
    touch: u64,
) -> Result<Fate, AllocError>
    requires kept { IsKept rows.now }
    requires sound { AreSound rows.now }
    requires own { CanGather from rows.now row.now.copy stamp.now }
    ensures { IfOk result (λ fate. left_of row.now fate ≡ Some (settled from rows.now stamp.now touch row.now)) }
{
    let id = gathered(alloc, rows, from, row.copy, stamp)?;
    let new = stamp_of(id, stamp.event_tree())?;
    Ok(Fate::Becomes(restamped(row, new, touch)))
}

/// What becomes of a row when two copies have parts of a stamp and are settled.
fn shared_fate(
    alloc: Global,
    rows: &[StampRow],
    row: &StampRow,
    entry: u64,
    a: u64,
    b: u64,
    first: &Stamp,
    second: &Stamp,
) -> Result<Fate, AllocError>
    requires kept { IsKept rows.now }
    requires sound { AreSound rows.now }
    requires first { CanGather None rows.now a first.now }
    requires second { CanGather None rows.now b second.now }
    ensures { IfOk result (λ fate. left_of row.now fate ≡ shared entry a b first.now second.now rows.now row.now) }
{
    if row.copy == a {
        return settled_fate(alloc, rows, row, None, first, entry);
    }
    if row.copy == b {
        return settled_fate(alloc, rows, row, None, second, entry);
    }
    if ends(row, None, a, first.event_tree()) || ends(row, None, b, second.event_tree()) {
        Ok(Fate::Goes)
    } else {
        Ok(Fate::Stays)
    }
}

fn lost_fate(row: &StampRow, copy: u64) -> Fate
    ensures { left_of row.now result ≡ lost copy row.now }
{
    if is_bound(row, Some(copy)) {
        Fate::Goes
    } else {
        Fate::Stays
    }
}

/// A parcel that the heir holds from now on, where the copy held it, and any other row as it is.
fn passed_fate(alloc: Global, row: &StampRow, copy: u64, heir: u64) -> Result<Fate, AllocError>
    ensures { IfOk result (λ fate. left_of row.now fate ≡ Some (passed_row copy heir row.now)) }
{
    if is_held(row, copy) {
        let parcel = parcel_row(alloc, row, row.copy, heir, row.touch)?;
        Ok(Fate::Becomes(parcel))
    } else {
        Ok(Fate::Stays)
    }
}

/// What becomes of a row when a copy goes and its heir, which knows the event, is settled.
fn bequeathed_fate(
    alloc: Global,
    rows: &[StampRow],
    row: &StampRow,
    copy: u64,
    heir: u64,
    event: &EventTree,
) -> Result<Fate, AllocError>
    requires kept { IsKept rows.now }
    requires sound { AreSound rows.now }
    requires own { row.now.copy ≡ heir → CanGather (Some copy) rows.now heir row.now.stamp }
    ensures { IfOk result (λ fate. left_of row.now fate ≡ bequeathed copy heir event.now rows.now row.now) }
{
    if row.copy == heir {
        return settled_fate(alloc, rows, row, Some(copy), &row.stamp, row.touch);
    }
    if row.copy == copy || ends(row, Some(copy), heir, event) {
        return Ok(Fate::Goes);
    }
    passed_fate(alloc, row, copy, heir)
}

/// What becomes of a row by the plan.
fn planned_fate(
    alloc: Global,
    rows: &[StampRow],
    row: &StampRow,
    entry: u64,
    plan: &Plan,
) -> Result<Fate, AllocError>
    requires kept { IsKept rows.now }
    requires sound { AreSound rows.now }
    requires here { In row.now rows.now }
    requires can { CanPlan plan.now rows.now }
    ensures { IfOk result (λ fate. left_of row.now fate ≡ planned entry plan.now rows.now row.now) }
{
    match plan {
        Plan::Share(a, b, first, second) => shared_fate(
            alloc, rows, row, entry, *a, *b, first, second,
        ),
        Plan::Lose(copy) => Ok(lost_fate(row, *copy)),
        Plan::Bequeath(copy, heir, event) => bequeathed_fate(alloc, rows, row, *copy, *heir, event),
    }
}

/// Adds the exchange that leaves of the row what becomes of it by the plan, if that is another.
fn add_exchange(
    alloc: Global,
    rows: &[StampRow],
    row: &StampRow,
    entry: u64,
    plan: &Plan,
    news: &mut SmallVec<Exchange, 2>,
) -> Result<(), AllocError>
    requires kept { IsKept rows.now }
    requires sound { AreSound rows.now }
    requires here { In row.now rows.now }
    requires can { CanPlan plan.now rows.now }
    ensures { OnOk result (AddsPlanned row.now (planned entry plan.now rows.now row.now) news.old.items news.new.items) }
{
    match planned_fate(alloc, rows, row, entry, plan)? {
        Fate::Stays => Ok(()),
        Fate::Goes => Ok(news.push(Exchange::Take(row.copy))?),
        Fate::Becomes(new) => Ok(news.push(Exchange::Put(new))?),
    }
}

/// Whether the row is that of a copy which the plan doesn't name, so that it stays.
fn is_apart(row: &StampRow, plan: &Plan) -> bool
    ensures { (entry : ℕ) (rows : List OfRow) → result ≡ true → planned entry plan.now rows row.now ≡ Some row.now }
{
    let (first, second) = match plan {
        Plan::Share(a, b, _, _) => (*a, *b),
        Plan::Lose(copy) => (*copy, *copy),
        Plan::Bequeath(copy, heir, _) => (*copy, *heir),
    };
    is_copy(row) && row.copy != first && row.copy != second
}

/// The exchanges that leave of each row what becomes of it by the plan.
fn exchanges(
    alloc: Global,
    rows: &[StampRow],
    entry: u64,
    plan: &Plan,
) -> Result<SmallVec<Exchange, 2>, AllocError>
    requires kept { IsKept rows.now }
    requires sound { AreSound rows.now }
    requires can { CanPlan plan.now rows.now }
    ensures { IfOk result (λ news. exchanged_all news.items rows.now ≡ filter_map (planned entry plan.now rows.now) rows.now) }
{
    let mut news = SmallVec::new(alloc);
    for row in rows {
        if !is_apart(row, plan) {
            add_exchange(alloc, rows, row, entry, plan, &mut news)?;
        }
    }
    Ok(news)
}

/// The change of these exchanges, and behind them the row that comes, if one does.
#[tactic(auto, using(crate::proofs::Planned::exchanged_more))]
fn with_row(
    alloc: Global,
    news: SmallVec<Exchange, 2>,
    came: Option<StampRow>,
) -> Result<Change, AllocError>
    ensures { IfOk result (λ change. (rows : List OfRow) → after change rows ≡ came_behind came (exchanged_all news.items rows)) }
{
    match came {
        Some(row) => {
            let mut news = news;
            news.push(Exchange::Put(row))?;
            Ok(Change::Rows(Box::new(alloc, news)?))
        }
        None => Ok(Change::Rows(Box::new(alloc, news)?)),
    }
}

/// The change that leaves of each row what becomes of it by the plan, and behind them the row that comes, if one does.
pub fn settle_change(
    alloc: Global,
    rows: &[StampRow],
    entry: u64,
    plan: Plan,
    came: Option<StampRow>,
) -> Result<Change, AllocError>
    requires kept { IsKept rows.now }
    requires sound { AreSound rows.now }
    requires can { CanPlan plan rows.now }
    requires new { AreBefore entry rows.now }
    requires came { IfSome came (λ row. row.copy ≡ entry) }
    ensures { IfOk result (λ change. after change rows.now ≡ filter_map (planned entry plan rows.now) rows.now ++ option_to_list came) }
{
    let news = exchanges(alloc, rows, entry, &plan);
    drop(plan);
    match news {
        Ok(news) => with_row(alloc, news, came),
        Err(fault) => {
            drop(came);
            Err(fault)
        }
    }
}

/// A parcel with this number and touch, which has the row's stamp and which the heir holds.
pub fn parcel_row(
    alloc: Global,
    row: &StampRow,
    number: u64,
    heir: u64,
    touch: u64,
) -> Result<StampRow, AllocError>
    ensures { IfOk result (λ parcel. parcel ≡ record { copy = number; holder = Some heir; stamp = row.now.stamp; touch = touch }) }
{
    let id = copy_of(alloc, row.stamp.id())?;
    let stamp = stamp_of(id, row.stamp.event_tree())?;
    Ok(StampRow {
        copy: number,
        holder: Some(heir),
        stamp,
        touch,
    })
}
