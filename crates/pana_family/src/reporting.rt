//! What the reports change. Nothing is changed here: each call makes a change, and takes all memory that it needs.
ghost use Rattle.std.specs.Prelude.{◌≡◌, ◌++◌, ◌∷◌, ◌+◌, ◌<◌, ◌^◌, [], false, filter_map, Some, IfOk, IfSome, if◌then◌else◌};
ghost use Rattle.std.specs.Option.{option_to_list};
ghost use Rattle.pana_id.specs.Id.{is_zero};
ghost use Rattle.pana_event.specs.{Event.greatest, Order.is_leq};
ghost use Rattle.pana_family.specs.After.{first_part, joined_stamp, parcel_row, reported_rows, second_part, shared};
ghost use Rattle.pana_family.specs.{Rows.row_in, Rows.AreBefore, Change.after, Kept.IsKept, Report.CanReport, Report.IsMade, Report.IsReady};
ghost use Rattle.pana_family.specs.declared.report.FamilyReport.TheVariants.{Duplicate, Edit, Merge, Reconcile, Remove};

use crate::change::{Change, Exchange};
use crate::making::{halves, into_halves, joined_stamp, updated_event, updated_stamp};
use crate::report::FamilyReport;
use crate::row::StampRow;
use crate::searching::row_of;
use crate::settling::{Plan, parcel_row, restamped, settle_change};
use crate::sharing::{are_copies, parts_change};
use crate::stamps::all_valid;
use pana_stamp::Stamp;
use smallvec::SmallVec;
use std::alloc::{AllocError, Global};

#[tactic(auto, using(crate::proofs::Planned::edit_exact))]
fn edit_change(
    alloc: Global,
    rows: &[StampRow],
    entry: u64,
    copy: u64,
) -> Result<Change, AllocError>
    requires { IsReady entry (Edit copy) rows.now }
    ensures { IfOk result (λ change. after change rows.now ≡ reported_rows entry (Edit copy) rows.now) }
{
    let event = updated_event(alloc, &row_of(rows, copy).stamp)?;
    Ok(Change::Event(copy, event, entry))
}

/// A new copy beside its source, with the entry as its number.
#[tactic(auto, using(crate::proofs::Planned::duplicate_exact))]
fn duplicate_change(
    alloc: Global,
    rows: &[StampRow],
    entry: u64,
    source: u64,
) -> Result<Change, AllocError>
    requires { IsReady entry (Duplicate source) rows.now }
    ensures { IfOk result (λ change. after change rows.now ≡ reported_rows entry (Duplicate source) rows.now) }
{
    let row = row_of(rows, source);
    let (kept, given) = halves(alloc, &row.stamp)?;
    let mut news = SmallVec::new(alloc);
    news.push_reserved(Exchange::Put(restamped(row, kept, row.touch)));
    news.push_reserved(Exchange::Put(StampRow {
        copy: entry,
        holder: None,
        stamp: given,
        touch: entry,
    }));
    Ok(Change::Rows(Box::new(alloc, news)?))
}

/// What two copies own and know together.
fn both_stamp(
    alloc: Global,
    rows: &[StampRow],
    entry: u64,
    a: u64,
    b: u64,
) -> Result<Stamp, AllocError>
    requires { IsReady entry (Reconcile a b) rows.now }
    ensures whole { IfOk result (λ whole. whole ≡ joined_stamp (row_in rows.now a).stamp (row_in rows.now b).stamp) }
    ensures owner { IfOk result (λ whole. is_zero whole.id ≡ false) }
    ensures room { IfOk result (λ whole. greatest whole.event + 1 < 2 ^ 64) }
{
    let whole = joined_stamp(alloc, &row_of(rows, a).stamp, &row_of(rows, b).stamp)?;
    Ok(whole)
}

/// Two copies share a stamp, and are settled.
fn share_change(
    alloc: Global,
    rows: &[StampRow],
    entry: u64,
    a: u64,
    b: u64,
    whole: Stamp,
) -> Result<Change, AllocError>
    requires ready { IsReady entry (Reconcile a b) rows.now }
    requires whole { whole.id ≡ (joined_stamp (row_in rows.now a).stamp (row_in rows.now b).stamp).id }
    ensures { IfOk result (λ change. after change rows.now ≡ filter_map (shared entry a b (first_part whole) (second_part whole) rows.now) rows.now ++ []) }
{
    let (first, second) = into_halves(alloc, whole)?;
    if are_copies(rows) {
        return parts_change(alloc, rows, entry, a, b, first, second);
    }
    let plan = Plan::Share(a, b, first, second);
    settle_change(alloc, rows, entry, plan, None)
}

/// Two copies learn what either knows.
fn reconcile_change(
    alloc: Global,
    rows: &[StampRow],
    entry: u64,
    a: u64,
    b: u64,
) -> Result<Change, AllocError>
    requires { IsReady entry (Reconcile a b) rows.now }
    ensures { IfOk result (λ change. after change rows.now ≡ reported_rows entry (Reconcile a b) rows.now) }
{
    let whole = both_stamp(alloc, rows, entry, a, b)?;
    share_change(alloc, rows, entry, a, b, whole)
}

/// Two copies learn what either knows, and an update.
fn merge_change(
    alloc: Global,
    rows: &[StampRow],
    entry: u64,
    a: u64,
    b: u64,
) -> Result<Change, AllocError>
    requires { IsReady entry (Merge a b) rows.now }
    ensures { IfOk result (λ change. after change rows.now ≡ reported_rows entry (Merge a b) rows.now) }
{
    let both = both_stamp(alloc, rows, entry, a, b)?;
    let whole = updated_stamp(alloc, both)?;
    share_change(alloc, rows, entry, a, b, whole)
}

/// The parcel that a removed copy leaves to its heir, with the entry as its number, unless the heir knows all that it does.
fn parcel_left(
    alloc: Global,
    entry: u64,
    gone: &StampRow,
    heir: &StampRow,
) -> Result<Option<StampRow>, AllocError>
    ensures row { IfOk result (λ came. option_to_list came ≡ if is_leq gone.now.stamp.event heir.now.stamp.event then [] else parcel_row entry heir.now.copy gone.now.stamp ∷ []) }
    ensures number { IfOk result (λ came. IfSome came (λ row. row.copy ≡ entry)) }
{
    if gone.stamp.event_tree().leq(heir.stamp.event_tree()) {
        return Ok(None);
    }
    let parcel = parcel_row(alloc, gone, entry, heir.copy, entry)?;
    Ok(Some(parcel))
}

/// A copy is gone, and its heir holds what it held, and is settled.
#[tactic(auto, using(crate::proofs::Keeps::row_lives, crate::proofs::Members::one_row, crate::proofs::Bequests::heir_gather))]
fn bequeath_change(
    alloc: Global,
    rows: &[StampRow],
    entry: u64,
    copy: u64,
    heir: u64,
) -> Result<Change, AllocError>
    requires { IsReady entry (Remove copy (Some heir)) rows.now }
    ensures { IfOk result (λ change. after change rows.now ≡ reported_rows entry (Remove copy (Some heir)) rows.now) }
{
    let row = row_of(rows, heir);
    let event = row.stamp.event_tree().share()?;
    let plan = Plan::Bequeath(copy, heir, event);
    match parcel_left(alloc, entry, row_of(rows, copy), row) {
        Ok(came) => settle_change(alloc, rows, entry, plan, came),
        Err(fault) => {
            drop(plan);
            Err(fault)
        }
    }
}

#[tactic(auto, using(crate::proofs::Planned::touch_exact))]
fn exact_change(
    alloc: Global,
    rows: &[StampRow],
    entry: u64,
    report: FamilyReport,
) -> Result<Change, AllocError>
    requires { IsReady entry report rows.now }
    ensures { IfOk result (λ change. after change rows.now ≡ reported_rows entry report rows.now) }
{
    match report {
        FamilyReport::Duplicate(source) => duplicate_change(alloc, rows, entry, source),
        FamilyReport::Edit(copy) => edit_change(alloc, rows, entry, copy),
        FamilyReport::Reconcile(a, b) => reconcile_change(alloc, rows, entry, a, b),
        FamilyReport::Merge(a, b) => merge_change(alloc, rows, entry, a, b),
        FamilyReport::Remove(copy, None) => {
            settle_change(alloc, rows, entry, Plan::Lose(copy), None)
        }
        FamilyReport::Remove(copy, Some(heir)) => bequeath_change(alloc, rows, entry, copy, heir),
        FamilyReport::Touch(copy) => Ok(Change::Touch(copy, entry)),
    }
}

/// What a report changes, with the entry as its number.
pub fn report_change(
    alloc: Global,
    rows: &[StampRow],
    entry: u64,
    report: FamilyReport,
) -> Result<Change, AllocError>
    requires kept { IsKept rows.now }
    requires able { CanReport report rows.now }
    requires new { AreBefore entry rows.now }
    ensures { IfOk result (λ change. IsMade entry report rows.now (after change rows.now)) }
{
    all_valid(rows);
    exact_change(alloc, rows, entry, report)
}
