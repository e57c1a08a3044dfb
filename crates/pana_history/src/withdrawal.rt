//! Which entries are withdrawn, and by which.
ghost use Rattle.std.specs.Prelude.{◌≡◌, ◌<◌, ◌≤◌, ℕ, IfOk};
ghost use Rattle.pana_history.specs.Lanes.{withdrawal_of};
ghost use Rattle.pana_history.specs.inner.Withdrawals.{noted, withdrawal_in, withdrawn_by};

use pana_journal::{Entry, Report};
use std::alloc::{AllocError, Global};

/// The number of the entry that withdraws this one, by a table of them, from that of entry 1 on.
pub(crate) fn withdrawal_in(table: &[Option<u64>], number: u64) -> Option<u64>
    ensures { result ≡ withdrawal_in table.now number }
{
    match number.checked_sub(1) {
        Some(index) => table.get(index as usize).copied().unwrap_or(None),
        None => None,
    }
}

/// Notes in the table that an entry is withdrawn by another.
fn note(table: &mut [Option<u64>], number: u64, by: u64)
    ensures { table.new ≡ withdrawn_by number by table.old }
{
    if let Some(before) = number.checked_sub(1) {
        let index = before as usize;
        if index < table.len() {
            table[index] = table[index].or(Some(by));
        }
    }
}

/// Notes in the table what an entry withdraws.
fn take(table: &mut [Option<u64>], entry: &Entry)
    ensures { table.new ≡ noted entry.now.number entry.now.report table.old }
{
    if let Report::Withdraw { entry: number } = &entry.report {
        note(table, *number, entry.number);
    }
}

/// The table of which of the entries withdraws each entry up to this number.
pub(crate) fn withdrawals_of(
    alloc: Global,
    own: &[Entry],
    last: usize,
) -> Result<Vec<Option<u64>>, AllocError>
    ensures { IfOk result (λ table. (n : ℕ) → 0 < n → n ≤ last → withdrawal_in table.items n ≡ withdrawal_of own.now n) }
{
    let mut table = vec![in alloc; None; last]?;
    for entry in own {
        take(table.as_mut_slice(), entry);
    }
    Ok(table)
}
