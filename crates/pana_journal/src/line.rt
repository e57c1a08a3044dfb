//! What a journal keeps of an entry: 16 bytes, and beside them a report that has no room there.
ghost use Rattle.std.specs.Prelude.{◌≡◌, ℕ, ◌+◌, ◌<◌, ◌≤◌, List, length, IfSome, IfOk, Some, slice_get, option_copied, vec_len, vec_capacity};
ghost use Rattle.std.specs.Cow.{cow_value};
ghost use Rattle.pana_journal.specs.declared.report.Report.{Report as AReport};
ghost use Rattle.pana_journal.specs.{inner.Lines.IsThere, inner.Lines.Keeps, inner.Lines.report_kept, Reports.given_sum};

use crate::report::Report;
use pana_copies::{DeviceName, Sum};
use std::alloc::{AllocError, Global};
use std::borrow::Cow;

/// How many hints there are of where a name stands: one for each value of a byte.
pub(crate) const HINTS: usize = 256;

/// An entry without its number.
#[derive(Clone, Copy)]
pub(crate) struct Line {
    /// The index of the device's name in a list of names.
    pub(crate) by: u32,
    pub(crate) report: Kept,
}

const _: () = prove!(size_of::<Line>() == 16);

/// A report: its kind and its numbers, or where it stands in a list of those that have more than numbers, or one above
/// 4,294,967,295.
#[derive(Clone, Copy)]
pub(crate) enum Kept {
    /// An Edit without a sum.
    Edit { copy: u32 },
    /// A Reconcile without a sum.
    Reconcile { a: u32, b: u32 },
    /// A Merge without a sum.
    Merge { a: u32, b: u32 },
    /// A Remove without an heir.
    Remove { copy: u32 },
    /// A Remove with an heir.
    Bequeath { copy: u32, heir: u32 },
    /// A Confirm.
    Confirm { entry: u32 },
    /// A Withdraw.
    Withdraw { entry: u32 },
    /// The report at this index of the list.
    Other { index: u32 },
}

/// The number in half the bytes, if it has room there.
fn short(number: u64) -> Option<u32>
    ensures { IfSome result (λ it. it ≡ number) }
{
    u32::try_from(number).ok()
}

/// Two numbers in half the bytes, if they have room there.
fn short_pair(a: u64, b: u64) -> Option<(u32, u32)>
    ensures { IfSome result (λ it. (it.0 ≡ a) × (it.1 ≡ b)) }
{
    Some((short(a)?, short(b)?))
}

/// The report without a list, where it can be kept so.
fn kept_alone(report: &Report) -> Option<Kept>
    ensures is { IfSome result (λ kept. (others : List AReport) → report_kept others kept ≡ report.now) }
    ensures there { IfSome result (λ kept. (others : ℕ) → IsThere others kept) }
{
    match report {
        Report::Edit { copy, sum: None } => Some(Kept::Edit {
            copy: short(*copy)?,
        }),
        Report::Reconcile { a, b, sum: None } => {
            let (a, b) = short_pair(*a, *b)?;
            Some(Kept::Reconcile { a, b })
        }
        Report::Merge { a, b, sum: None } => {
            let (a, b) = short_pair(*a, *b)?;
            Some(Kept::Merge { a, b })
        }
        Report::Remove { copy, heir: None } => Some(Kept::Remove {
            copy: short(*copy)?,
        }),
        Report::Remove {
            copy,
            heir: Some(heir),
        } => {
            let (copy, heir) = short_pair(*copy, *heir)?;
            Some(Kept::Bequeath { copy, heir })
        }
        Report::Confirm { entry } => Some(Kept::Confirm {
            entry: short(*entry)?,
        }),
        Report::Withdraw { entry } => Some(Kept::Withdraw {
            entry: short(*entry)?,
        }),
        _ => None,
    }
}

/// Keeps a report, at the end of the list of others where it can't be kept without. Takes no memory.
pub(crate) fn keep_report(others: &mut Vec<Report>, report: Report) -> Kept
    requires room { vec_len others.old < vec_capacity others.old }
    requires few { vec_len others.old ≤ 1000000 }
    ensures is { report_kept others.new.items result ≡ report }
    ensures there { IsThere (length others.new.items) result }
    ensures keeps { Keeps others.old.items others.new.items }
    ensures more { vec_len others.new ≤ vec_len others.old + 1 }
    ensures least { length others.old.items ≤ length others.new.items }
    ensures capacity { vec_capacity others.new ≡ vec_capacity others.old }
{
    if let Some(kept) = kept_alone(&report) {
        drop(report);
        return kept;
    }
    let index = others.len() as u32;
    others.push_reserved(report);
    Kept::Other { index }
}

/// The position of the hint of a name: a byte of all of it, in which most other names differ.
fn mark(by: &DeviceName) -> usize {
    let mut mark = 0u8;
    for byte in by.as_str().as_bytes() {
        mark = mark.wrapping_mul(31).wrapping_add(*byte);
    }
    mark as usize
}

/// The index of this name, if it stands where the hint says.
fn hinted_index(names: &[DeviceName], hint: Option<&u32>, by: &DeviceName) -> Option<u32>
    ensures { IfSome result (λ index. slice_get names.now index ≡ Some by.now) }
{
    let index = *hint?;
    if *names.get(index as usize)? == *by {
        Some(index)
    } else {
        None
    }
}

/// Keeps a name, at the end of the list where it doesn't stand where the hint of its mark says, and returns its index, which is the
/// hint from then on. Takes no memory.
pub(crate) fn keep_name(names: &mut Vec<DeviceName>, hints: &mut [u32], by: DeviceName) -> u32
    requires room { vec_len names.old < vec_capacity names.old }
    requires few { vec_len names.old ≤ 1000000 }
    ensures is { slice_get names.new.items result ≡ Some by }
    ensures keeps { Keeps names.old.items names.new.items }
    ensures more { vec_len names.new ≤ vec_len names.old + 1 }
    ensures least { length names.old.items ≤ length names.new.items }
    ensures capacity { vec_capacity names.new ≡ vec_capacity names.old }
{
    let mark = mark(&by);
    if let Some(index) = hinted_index(names.as_slice(), hints.get(mark), &by) {
        return index;
    }
    let index = names.len() as u32;
    if let Some(hint) = hints.get_mut(mark) {
        *hint = index;
    }
    names.push_reserved(by);
    index
}

/// The report that is kept so. Takes no memory.
pub(crate) fn report_kept(kept: Kept, others: &[Report]) -> Cow<'_, Report>
    requires { IsThere (length others.now) kept }
    ensures { cow_value result ≡ report_kept others.now kept }
{
    match kept {
        Kept::Edit { copy } => Cow::Owned(Report::Edit {
            copy: u64::from(copy),
            sum: None,
        }),
        Kept::Reconcile { a, b } => Cow::Owned(Report::Reconcile {
            a: u64::from(a),
            b: u64::from(b),
            sum: None,
        }),
        Kept::Merge { a, b } => Cow::Owned(Report::Merge {
            a: u64::from(a),
            b: u64::from(b),
            sum: None,
        }),
        Kept::Remove { copy } => Cow::Owned(Report::Remove {
            copy: u64::from(copy),
            heir: None,
        }),
        Kept::Bequeath { copy, heir } => Cow::Owned(Report::Remove {
            copy: u64::from(copy),
            heir: Some(u64::from(heir)),
        }),
        Kept::Confirm { entry } => Cow::Owned(Report::Confirm {
            entry: u64::from(entry),
        }),
        Kept::Withdraw { entry } => Cow::Owned(Report::Withdraw {
            entry: u64::from(entry),
        }),
        Kept::Other { index } => Cow::Borrowed(&others[index as usize]),
    }
}

/// A copy of the report that is kept so. Fails only where memory runs out.
pub(crate) fn report_copy(
    alloc: Global,
    kept: Kept,
    others: &[Report],
) -> Result<Report, AllocError>
    requires { IsThere (length others.now) kept }
    ensures { IfOk result (λ report. report ≡ report_kept others.now kept) }
{
    match report_kept(kept, others) {
        Cow::Owned(report) => Ok(report),
        Cow::Borrowed(report) => report.copy_of(alloc),
    }
}

/// The sum that is kept with a report, if it gives one. Takes no memory.
pub(crate) fn sum_kept(kept: Kept, others: &[Report]) -> Option<&Sum>
    requires { IsThere (length others.now) kept }
    ensures { option_copied result ≡ given_sum (report_kept others.now kept) }
{
    match kept {
        Kept::Other { index } => others[index as usize].sum(),
        Kept::Edit { .. }
        | Kept::Reconcile { .. }
        | Kept::Merge { .. }
        | Kept::Remove { .. }
        | Kept::Bequeath { .. }
        | Kept::Confirm { .. }
        | Kept::Withdraw { .. } => None,
    }
}
