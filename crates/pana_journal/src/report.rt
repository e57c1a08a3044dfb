ghost use Rattle.std.specs.Prelude.{◌≡◌, IfOk, option_copied};
ghost use Rattle.pana_journal.specs.Reports.{given_sum, subject};

use pana_copies::{Place, Sum};
use std::alloc::{AllocError, Global};

/// What a session or a scanner reports. A copy is named by the number of the entry that made it. A sum is that of the bytes which
/// the copies that the report is about hold from then on, where it is known.
#[derive(Debug, PartialEq, Eq)]
pub enum Report {
    /// A file is known from now on, by a first copy at this place, which knows no update.
    Register {
        place: Place,
        sum: Option<Sum>,
    },
    /// A copy was made of this one, at this place. It knows what its source knows.
    Duplicate {
        copy: u64,
        place: Place,
        sum: Option<Sum>,
    },
    /// This copy was changed.
    Edit {
        copy: u64,
        sum: Option<Sum>,
    },
    /// Each of the two copies got what the other knows.
    Reconcile {
        a: u64,
        b: u64,
        sum: Option<Sum>,
    },
    /// The two copies were merged into one text, which is an update of its own.
    Merge {
        a: u64,
        b: u64,
        sum: Option<Sum>,
    },
    /// This copy was moved to this place.
    Relocate {
        copy: u64,
        place: Place,
    },
    /// This copy is no more. Another copy of its family may be its heir.
    Remove {
        copy: u64,
        heir: Option<u64>,
    },
    /// This copy holds bytes with this sum.
    Note {
        copy: u64,
        sum: Sum,
    },
    /// This entry and those of its family before it stay: they can't be withdrawn any more.
    Confirm {
        entry: u64,
    },
    /// This entry, the last of its family that is pending, is undone.
    Withdraw {
        entry: u64,
    },
}

impl Drop for Report {
    fn drop(self) {
        match self {
            Report::Register { place: _, sum: _ } => {}
            Report::Duplicate {
                copy: _,
                place: _,
                sum: _,
            } => {}
            Report::Edit { copy: _, sum: _ } => {}
            Report::Reconcile { a: _, b: _, sum: _ } => {}
            Report::Merge { a: _, b: _, sum: _ } => {}
            Report::Relocate { copy: _, place: _ } => {}
            Report::Remove { copy: _, heir: _ } => {}
            Report::Note { copy: _, sum: _ } => {}
            Report::Confirm { entry: _ } => {}
            Report::Withdraw { entry: _ } => {}
        }
    }
}

/// The same sum once more, if there is one. Fails only where memory runs out.
fn copy_of(alloc: Global, sum: &Option<Sum>) -> Result<Option<Sum>, AllocError>
    ensures { IfOk result (λ copy. copy ≡ sum.now) }
{
    match sum {
        Some(sum) => Ok(Some(sum.copy_of(alloc)?)),
        None => Ok(None),
    }
}

impl Report {
    /// The same report once more. Fails only where memory runs out.
    pub fn copy_of(&self, alloc: Global) -> Result<Report, AllocError>
        ensures { IfOk result (λ report. report ≡ self.now) }
    {
        Ok(match self {
            Report::Register { place, sum } => Report::Register {
                place: place.copy_of()?,
                sum: copy_of(alloc, sum)?,
            },
            Report::Duplicate { copy, place, sum } => Report::Duplicate {
                copy: *copy,
                place: place.copy_of()?,
                sum: copy_of(alloc, sum)?,
            },
            Report::Edit { copy, sum } => Report::Edit {
                copy: *copy,
                sum: copy_of(alloc, sum)?,
            },
            Report::Reconcile { a, b, sum } => Report::Reconcile {
                a: *a,
                b: *b,
                sum: copy_of(alloc, sum)?,
            },
            Report::Merge { a, b, sum } => Report::Merge {
                a: *a,
                b: *b,
                sum: copy_of(alloc, sum)?,
            },
            Report::Relocate { copy, place } => Report::Relocate {
                copy: *copy,
                place: place.copy_of()?,
            },
            Report::Remove { copy, heir } => Report::Remove {
                copy: *copy,
                heir: *heir,
            },
            Report::Note { copy, sum } => Report::Note {
                copy: *copy,
                sum: sum.copy_of(alloc)?,
            },
            Report::Confirm { entry } => Report::Confirm { entry: *entry },
            Report::Withdraw { entry } => Report::Withdraw { entry: *entry },
        })
    }

    /// The copy, or the entry, to whose family the report belongs. A Register names none: it begins a family of its own. Takes no
    /// memory.
    pub fn subject(&self) -> Option<u64>
        ensures { result ≡ subject self.now }
    {
        match self {
            Report::Register { .. } => None,
            Report::Duplicate { copy, .. }
            | Report::Edit { copy, .. }
            | Report::Note { copy, .. }
            | Report::Relocate { copy, .. }
            | Report::Remove { copy, .. } => Some(*copy),
            Report::Reconcile { a, .. } | Report::Merge { a, .. } => Some(*a),
            Report::Confirm { entry } | Report::Withdraw { entry } => Some(*entry),
        }
    }

    /// The sum that the report gives, if it does. Takes no memory.
    pub fn sum(&self) -> Option<&Sum>
        ensures { option_copied result ≡ given_sum self.now }
    {
        match self {
            Report::Register { sum, .. }
            | Report::Duplicate { sum, .. }
            | Report::Edit { sum, .. }
            | Report::Reconcile { sum, .. }
            | Report::Merge { sum, .. } => match sum {
                Some(sum) => Some(sum),
                None => None,
            },
            Report::Note { sum, .. } => Some(sum),
            Report::Relocate { .. }
            | Report::Remove { .. }
            | Report::Confirm { .. }
            | Report::Withdraw { .. } => None,
        }
    }
}
