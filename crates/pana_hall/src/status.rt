//! How a copy stands among the copies of its family, and the copies that are obsolete or in conflict.
ghost use Rattle.std.specs.Prelude.{◌≡◌, IfOk, IsSome, None, Option, Some, option_map, map};
ghost use Rattle.std.specs.List.{AllByRecursion};
ghost use Rattle.pana_copies.specs.Spots.{kept};
ghost use Rattle.pana_hall.specs.{Living.copy_in, Living.living, Refusal.query_refusal, inner.State.IsHeld};
ghost use Rattle.pana_hall.specs.Status.{is_asked, is_newest, standing_at, standing_of, state_among, status_row, status_rows};
ghost use Rattle.pana_hall.specs.inner.Relatives.{first_number, placed_at, relative, relatives_of, newest_with, replaces, row_in, with_in};

use crate::relating::{Relative, Relatives, counts_of, first_in_conflict, first_newest, state_of};
use crate::state::State;
use pana_calls::{CopyStanding, CopyState, PlacedCopy, Query, StatusRow};
use pana_copies::{DeviceName, Place};
use pana_event::Rel;
use smallvec::SmallVec;
use std::alloc::{AllocError, Global};

/// How many rows a status has at most.
const MOST_ROWS: usize = 100;

impl State {
    /// Each of these copies, with how it relates to the copy.
    fn relatives_among(
        &self,
        alloc: Global,
        copy: u64,
        numbers: &[u64],
    ) -> Result<Relatives, AllocError>
        requires kept { IsHeld self.now }
        requires free { AllByRecursion (λ other. query_refusal self.now.journal.entries (living self.now.journal.entries) (Query.Pair other copy) ≡ None) numbers.now }
        ensures { IfOk result (λ made. made.items ≡ map (relative (living self.now.journal.entries) copy) numbers.now) }
    {
        let mut made = SmallVec::new(alloc);
        made.reserve(numbers.len())?;
        for other in numbers {
            made.push(Relative {
                copy: *other,
                rel: self.pair_of(*other, copy),
            })?;
        }
        Ok(made)
    }

    /// The living copies of a living copy's family, by rising number, each with how it relates to that. O(n log n) for n copies.
    pub fn relatives(&self, alloc: Global, copy: u64) -> Result<Relatives, AllocError>
        requires kept { IsHeld self.now }
        requires lives { IsSome (copy_in (living self.now.journal.entries) copy) }
        ensures { IfOk result (λ made. made.items ≡ relatives_of self.now.journal.entries copy) }
    {
        self.relatives_among(alloc, copy, self.family(copy).living())
    }

    /// How a living copy stands among the copies of its family.
    fn standing_of(&self, alloc: Global, copy: u64) -> Result<CopyStanding, AllocError>
        requires kept { IsHeld self.now }
        requires lives { IsSome (copy_in (living self.now.journal.entries) copy) }
        ensures { IfOk result (λ made. option_map (standing_of (living self.now.journal.entries)) (copy_in (living self.now.journal.entries) copy) ≡ Some made) }
    {
        let relatives = self.relatives(alloc, copy)?;
        let counts = counts_of(relatives.as_slice(), copy);
        Ok(CopyStanding {
            copy,
            family: self.family(copy).number(),
            newer: counts.above,
            older: counts.below,
            equal: counts.equal,
            conflict: counts.conflict,
            state: state_of(counts),
            sum: self.sum_of(alloc, copy)?,
        })
    }

    /// How the copy at a place stands, if a living one is there. O(n log n) for n copies of its family.
    pub fn standing_at(
        &self,
        alloc: Global,
        place: &Place,
    ) -> Result<Option<CopyStanding>, AllocError>
        requires { IsHeld self.now }
        ensures { IfOk result (λ made. made ≡ standing_at (living self.now.journal.entries) place.now) }
    {
        match self.copies.at(place) {
            Some(copy) => Ok(Some(self.standing_of(alloc, copy)?)),
            None => Ok(None),
        }
    }

    /// The first of the family's newest copies that is newer than the copy. Looks at each two copies of the family.
    fn replacement(
        &self,
        alloc: Global,
        copy: u64,
        relatives: &[Relative],
    ) -> Result<Option<u64>, AllocError>
        requires kept { IsHeld self.now }
        requires lives { IsSome (copy_in (living self.now.journal.entries) copy) }
        ensures { IfOk result (λ found. found ≡ first_number (replaces (newest_with self.now.journal.entries copy) copy) relatives.now) }
    {
        let board = self.family(copy).board(alloc)?;
        Ok(first_newest(relatives, copy, board.newest.as_slice()))
    }

    /// The copy to replace the copy with, or to merge it with; itself where there is none.
    fn with_of(
        &self,
        alloc: Global,
        copy: u64,
        relatives: &[Relative],
        state: CopyState,
    ) -> Result<u64, AllocError>
        requires kept { IsHeld self.now }
        requires lives { IsSome (copy_in (living self.now.journal.entries) copy) }
        ensures { IfOk result (λ found. found ≡ with_in self.now.journal.entries copy relatives.now state) }
    {
        match state {
            CopyState::Obsolete => Ok(self.replacement(alloc, copy, relatives)?.unwrap_or(copy)),
            CopyState::Conflict => Ok(first_in_conflict(relatives, copy).unwrap_or(copy)),
            CopyState::Newest => Ok(copy),
        }
    }

    /// A living copy and its place.
    fn placed(&self, copy: u64) -> Result<PlacedCopy, AllocError>
        requires { IsSome (kept self.now.copies copy) }
        ensures { IfOk result (λ made. made ≡ placed_at self.now.copies copy) }
    {
        let place = self.copies.get(copy).unwrap().place.copy_of()?;
        Ok(PlacedCopy { copy, place })
    }

    /// The row of a living copy, if it isn't newest.
    fn row_of(&self, alloc: Global, copy: u64) -> Result<Option<StatusRow>, AllocError>
        requires kept { IsHeld self.now }
        requires lives { IsSome (copy_in (living self.now.journal.entries) copy) }
        ensures { IfOk result (λ made. made ≡ row_in (living self.now.journal.entries) None copy) }
    {
        let relatives = self.relatives(alloc, copy)?;
        let state = state_of(counts_of(relatives.as_slice(), copy));
        if is_simply_newest(state) {
            return Ok(None);
        }
        let with = self.with_of(alloc, copy, relatives.as_slice(), state)?;
        let PlacedCopy { copy, place } = self.placed(copy)?;
        Ok(Some(StatusRow {
            copy,
            place,
            state,
            with: self.placed(with)?,
        }))
    }

    /// The row of the copy with the number, if it lives, is on the device or any is asked for, and isn't newest.
    fn row_at(
        &self,
        alloc: Global,
        device: &Option<DeviceName>,
        copy: u64,
    ) -> Result<Option<StatusRow>, AllocError>
        requires kept { IsHeld self.now }
        ensures { IfOk result (λ made. made ≡ row_in (living self.now.journal.entries) device.now copy) }
    {
        let Some(found) = self.copies.get(copy) else {
            return Ok(None);
        };
        if !is_asked(device, found.place) {
            return Ok(None);
        }
        self.row_of(alloc, copy)
    }

    /// The copies on the device, or on all where there is none, that are obsolete or in conflict, by rising number: the first 100
    /// with a number from this one on. A look-up for each entry, O(n log n) for each copy on the device with n copies in its
    /// family, and O(n^2) for each that is obsolete and among those 100.
    pub fn status_rows(
        &self,
        alloc: Global,
        device: &Option<DeviceName>,
        from: u64,
    ) -> Result<Vec<StatusRow>, AllocError>
        requires { IsHeld self.now }
        ensures { IfOk result (λ rows. rows.items ≡ status_rows (living self.now.journal.entries) device.now from) }
    {
        let mut rows = Vec::new(alloc);
        for earlier in from.saturating_sub(1)..self.journal.length() {
            if let Some(row) = self.row_at(alloc, device, earlier + 1)? {
                rows.push(row)?;
                if rows.len() == MOST_ROWS {
                    return Ok(rows);
                }
            }
        }
        Ok(rows)
    }
}

fn is_simply_newest(state: CopyState) -> bool
    ensures { result ≡ is_newest state }
{
    matches!(state, CopyState::Newest)
}

fn is_asked(device: &Option<DeviceName>, place: &Place) -> bool
    ensures { result ≡ is_asked device.now place.now }
{
    match device {
        Some(device) => place.device == *device,
        None => true,
    }
}
