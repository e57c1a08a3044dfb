//! A hall that has more than its log is made anew.
ghost use Rattle.std.specs.Prelude.{◌≡◌, [], None, Some, IsSome, take, IfErr, IfOk, OnOk};
ghost use Rattle.pana_journal.specs.Entries.{entry_at};
ghost use Rattle.pana_shared.specs.declared.read_fault.ReadFault.TheVariants.{OutOfMemory};
ghost use Rattle.pana_shared_store.specs.inner.Groups.{shown};

use crate::committing::put_into;
use crate::following::follow;
use pana_hall::Hall;
use pana_journal::Entry;
use pana_shared::ReadFault;
use std::alloc::Global;

/// A copy of an entry that the hall's journal has.
///
/// # Errors
///
/// `OutOfMemory`.
fn copy_of(alloc: Global, hall: &Hall, number: u64) -> Result<Entry, ReadFault>
    requires { IsSome (entry_at hall.now number) }
    ensures { IfOk result (λ entry. Some entry ≡ entry_at hall.now number) }
{
    match hall.entry(number).unwrap().copy_of(alloc) {
        Ok(entry) => Ok(entry),
        Err(_) => Err(ReadFault::OutOfMemory),
    }
}

/// Makes the first so many entries of the other hall's journal the first ones of this one's, which is empty.
///
/// # Errors
///
/// As `follow`, at the first that can't be followed; `OutOfMemory`.
fn follow_first(alloc: Global, hall: &mut Hall, other: &Hall, count: u64) -> Result<(), ReadFault>
    requires { hall.old ≡ [] }
    ensures { OnOk result (hall.new ≡ take count other.now) }
{
    for index in 0..count.min(other.length()) {
        let entry = copy_of(alloc, other, index + 1)?;
        follow(alloc, hall, &entry)?;
    }
    Ok(())
}

/// A hall of the first so many entries of another one's journal: so only memory may run out for it.
fn hall_of(alloc: Global, other: &Hall, count: u64) -> Result<Hall, ReadFault>
    ensures { IfOk result (λ hall. hall ≡ take count other.now) }
{
    let Ok(mut hall) = Hall::new(alloc) else {
        return Err(ReadFault::OutOfMemory);
    };
    if let Err(fault) = follow_first(alloc, &mut hall, other, count) {
        drop(hall);
        return Err(fault);
    }
    Ok(hall)
}

/// Makes the hall anew of its first so many entries, where it has more than its log has of them.
///
/// # Errors
///
/// `OutOfMemory`. The hall is as it was.
pub(crate) fn remake(
    alloc: Global,
    hall: &mut Hall,
    kept: &mut Option<u64>,
) -> Result<(), ReadFault>
    ensures same { shown hall.new kept.new ≡ shown hall.old kept.old }
    ensures ok { OnOk result (kept.new ≡ None) }
    ensures err { IfErr result (λ fault. fault ≡ OutOfMemory) }
{
    let Some(count) = *kept else {
        return Ok(());
    };
    let Ok(made) = hall_of(alloc, hall, count) else {
        return Err(ReadFault::OutOfMemory);
    };
    put_into(hall, made);
    *kept = None;
    Ok(())
}
