//! What is done of a sighting.
ghost use Rattle.std.specs.Prelude.{◌≡◌, IfOk, IsSome, None, Some, filter, map, not, option_copied, option_map};
ghost use Rattle.std.specs.List.{list_any};
ghost use Rattle.pana_event.specs.declared.rel.Rel.TheVariants as rels;
ghost use Rattle.pana_hall.specs.{Living.copy_in, Living.living, Living.number_of, inner.Relatives.relatives_of, inner.Rows.place_at, inner.Rows.sum_in, inner.State.IsHeld};
ghost use Rattle.pana_hall.specs.Finding.{decision, elsewhere, found_again, found_new, heir_of, holds, holds_other};
ghost use Rattle.pana_hall.specs.inner.Finding.{again_in, best_in, changed_in, heir_in, holders_in, holds_so, is_elsewhere, is_newer, is_other, is_unlike, knows_all, passes, source_of};
ghost use Rattle.pana_hall.specs.inner.Relatives.{first_number};

use crate::decision::Decision;
use crate::relating::{Relative, is_rel, relates};
use crate::state::State;
use pana_calls::Sighting;
use pana_copies::{Place, Sum};
use pana_event::Rel;
use pana_journal::Report;
use std::alloc::{AllocError, Global};

impl State {
    /// The sum of what a copy holds, where it is known.
    fn held(&self, copy: u64) -> Option<&Sum>
        requires { IsHeld self.now }
        ensures { option_copied result ≡ sum_in (living self.now.journal.entries) copy }
    {
        self.sum_by(self.contents.of(copy)?)
    }

    /// Whether the copy lives and holds bytes with this sum, as far as is known.
    fn holds(&self, copy: u64, sum: &Sum) -> bool
        requires { IsHeld self.now }
        ensures { result ≡ passes (holds sum.now) (living self.now.journal.entries) copy }
    {
        match self.held(copy) {
            Some(held) => *sum == *held,
            None => false,
        }
    }

    /// Whether it lives and holds bytes with another sum.
    fn holds_other(&self, copy: u64, sum: &Sum) -> bool
        requires { IsHeld self.now }
        ensures { result ≡ passes (holds_other sum.now) (living self.now.journal.entries) copy }
    {
        match self.held(copy) {
            Some(held) => *sum != *held,
            None => false,
        }
    }

    /// Whether both copies live, and the other one is of the copy's family and newer.
    fn is_newer(&self, copy: u64, other: u64) -> bool
        requires { IsHeld self.now }
        ensures { result ≡ is_newer (living self.now.journal.entries) copy other }
    {
        match (self.copies.get(copy), self.copies.get(other)) {
            (Some(kept), Some(other_kept)) if kept.family == other_kept.family => {
                is_rel(self.pair_of(other, copy), Rel::Newer)
            }
            _ => false,
        }
    }

    /// Whether one of these is newer than the copy.
    fn has_newer(&self, copies: &[u64], copy: u64) -> bool
        requires { IsHeld self.now }
        ensures { result ≡ list_any (is_newer (living self.now.journal.entries) copy) copies.now }
    {
        for other in copies {
            if self.is_newer(copy, *other) {
                return true;
            }
        }
        false
    }

    /// Whether none of these is newer than the copy.
    fn has_no_newer(&self, copies: &[u64], copy: u64) -> bool
        requires { IsHeld self.now }
        ensures { result ≡ not (list_any (is_newer (living self.now.journal.entries) copy) copies.now) }
    {
        !self.has_newer(copies, copy)
    }

    /// The first of these copies than which none of these is newer.
    fn best(&self, copies: &[u64]) -> Option<u64>
        requires { IsHeld self.now }
        ensures { result ≡ best_in (living self.now.journal.entries) copies.now }
    {
        for copy in copies {
            if self.has_no_newer(copies, *copy) {
                return Some(*copy);
            }
        }
        None
    }

    /// Whether it is another that relates so to the copy and holds the sum.
    fn holds_so(&self, it: &Relative, wanted: Rel, sum: &Sum, copy: u64) -> bool
        requires { IsHeld self.now }
        ensures { result ≡ holds_so (living self.now.journal.entries) wanted sum.now copy it.now }
    {
        relates(it, wanted, copy) && self.holds(it.copy, sum)
    }

    /// The numbers of those of the copy's relatives that relate so to it and hold the sum.
    fn holders(
        &self,
        alloc: Global,
        wanted: Rel,
        sum: &Sum,
        copy: u64,
        relatives: &[Relative],
    ) -> Result<Vec<u64>, AllocError>
        requires { IsHeld self.now }
        ensures { IfOk result (λ made. made.items ≡ holders_in (living self.now.journal.entries) wanted sum.now copy relatives.now) }
    {
        relatives
            .iter()
            .filter(|it| self.holds_so(it, wanted, sum, copy))
            .map(|it| it.copy)
            .collect(alloc)
    }

    /// The first of these than which none of these is newer.
    fn best_holder(
        &self,
        alloc: Global,
        wanted: Rel,
        sum: &Sum,
        copy: u64,
        relatives: &[Relative],
    ) -> Result<Option<u64>, AllocError>
        requires { IsHeld self.now }
        ensures { IfOk result (λ found. found ≡ best_in (living self.now.journal.entries) (holders_in (living self.now.journal.entries) wanted sum.now copy relatives.now)) }
    {
        let holders = self.holders(alloc, wanted, sum, copy, relatives)?;
        Ok(self.best(holders.as_slice()))
    }

    /// Whether the copy lives on another device, at the path of the place, and holds the sum.
    fn is_elsewhere(&self, place: &Place, sum: &Sum, copy: u64) -> bool
        requires { IsHeld self.now }
        ensures { result ≡ passes (is_elsewhere place.now sum.now) (living self.now.journal.entries) copy }
    {
        match self.copies.get(copy) {
            Some(kept) => {
                kept.place.path == place.path
                    && kept.place.device != place.device
                    && self.holds(copy, sum)
            }
            None => false,
        }
    }

    /// Those of these copies that live on another device, at the path of the place, and hold the sum.
    fn elsewhere_among(
        &self,
        alloc: Global,
        place: &Place,
        sum: &Sum,
        copies: &[u64],
    ) -> Result<Vec<u64>, AllocError>
        requires { IsHeld self.now }
        ensures { IfOk result (λ made. made.items ≡ filter (passes (is_elsewhere place.now sum.now) (living self.now.journal.entries)) copies.now) }
    {
        copies
            .iter()
            .copied()
            .filter(|copy| self.is_elsewhere(place, sum, *copy))
            .collect(alloc)
    }

    /// The copies with the path of the place on other devices that hold the sum, by rising number.
    fn elsewhere(&self, alloc: Global, place: &Place, sum: &Sum) -> Result<Vec<u64>, AllocError>
        requires { IsHeld self.now }
        ensures { IfOk result (λ made. made.items ≡ map number_of (elsewhere (living self.now.journal.entries) place.now sum.now)) }
    {
        let copies = self.copies.with_path(alloc, &place.path)?;
        self.elsewhere_among(alloc, place, sum, copies.as_slice())
    }

    /// The copy that a file at the place with the sum was made of: the best of those elsewhere.
    fn source_of(&self, alloc: Global, place: &Place, sum: &Sum) -> Result<Option<u64>, AllocError>
        requires { IsHeld self.now }
        ensures { IfOk result (λ found. found ≡ source_of (living self.now.journal.entries) place.now sum.now) }
    {
        let copies = self.elsewhere(alloc, place, sum)?;
        Ok(self.best(copies.as_slice()))
    }

    /// Whether it is another that equals the copy and holds bytes with another sum.
    fn is_unlike(&self, it: &Relative, sum: &Sum, copy: u64) -> bool
        requires { IsHeld self.now }
        ensures { result ≡ is_unlike (living self.now.journal.entries) sum.now copy it.now }
    {
        relates(it, Rel::Equal, copy) && self.holds_other(it.copy, sum)
    }

    /// The first such relative of the copy.
    fn first_unlike(&self, sum: &Sum, copy: u64, relatives: &[Relative]) -> Option<u64>
        requires { IsHeld self.now }
        ensures { result ≡ first_number (is_unlike (living self.now.journal.entries) sum.now copy) relatives.now }
    {
        for it in relatives {
            if self.is_unlike(it, sum, copy) {
                return Some(it.copy);
            }
        }
        None
    }

    /// What is done where a living copy isn't known to hold the sum of its file, and no relative that holds it is newer or in
    /// conflict.
    fn changed(
        &self,
        alloc: Global,
        sum: Sum,
        copy: u64,
        relatives: &[Relative],
    ) -> Result<Decision, AllocError>
        requires kept { IsHeld self.now }
        requires lives { IsSome (copy_in (living self.now.journal.entries) copy) }
        ensures { IfOk result (λ made. made ≡ changed_in (living self.now.journal.entries) sum copy relatives.now (source_of (living self.now.journal.entries) (place_at self.now.copies copy) sum)) }
    {
        let place = self.copies.get(copy).unwrap().place;
        if !has_other(copy, relatives) && self.source_of(alloc, place, &sum)?.is_some() {
            drop(sum);
            return Ok(Decision::One(Report::Remove { copy, heir: None }));
        }
        if self.held(copy).is_some() {
            return Ok(Decision::One(Report::Edit {
                copy,
                sum: Some(sum),
            }));
        }
        match self.first_unlike(&sum, copy, relatives) {
            Some(other) => {
                let other_sum = self.sum_of(alloc, other)?;
                Ok(Decision::Both(
                    Report::Edit {
                        copy: other,
                        sum: other_sum,
                    },
                    Report::Edit {
                        copy,
                        sum: Some(sum),
                    },
                ))
            }
            None => Ok(Decision::One(Report::Note { copy, sum })),
        }
    }

    /// What is done where the file of a living copy with these relatives holds the sum.
    fn again(
        &self,
        alloc: Global,
        sum: Sum,
        copy: u64,
        relatives: &[Relative],
    ) -> Result<Decision, AllocError>
        requires kept { IsHeld self.now }
        requires lives { IsSome (copy_in (living self.now.journal.entries) copy) }
        ensures { IfOk result (λ made. made ≡ again_in (living self.now.journal.entries) sum copy relatives.now (source_of (living self.now.journal.entries) (place_at self.now.copies copy) sum)) }
    {
        if let Some(b) = self.best_holder(alloc, Rel::Newer, &sum, copy, relatives)? {
            return Ok(Decision::One(Report::Reconcile {
                a: copy,
                b,
                sum: Some(sum),
            }));
        }
        if let Some(b) = self.best_holder(alloc, Rel::Conflict, &sum, copy, relatives)? {
            return Ok(Decision::One(Report::Merge {
                a: copy,
                b,
                sum: Some(sum),
            }));
        }
        if self.holds(copy, &sum) {
            drop(sum);
            return Ok(Decision::Known(Some(copy)));
        }
        self.changed(alloc, sum, copy, relatives)
    }

    /// What is done where the file of a living copy holds the sum.
    fn found_again(&self, alloc: Global, sum: Sum, copy: u64) -> Result<Decision, AllocError>
        requires kept { IsHeld self.now }
        requires lives { IsSome (copy_in (living self.now.journal.entries) copy) }
        ensures { IfOk result (λ made. option_map (found_again (living self.now.journal.entries) sum) (copy_in (living self.now.journal.entries) copy) ≡ Some made) }
    {
        let relatives = self.relatives(alloc, copy)?;
        self.again(alloc, sum, copy, relatives.as_slice())
    }

    /// What is done of a file at a place where no copy is.
    fn found_new(&self, alloc: Global, place: Place, sum: Sum) -> Result<Decision, AllocError>
        requires { IsHeld self.now }
        ensures { IfOk result (λ made. made ≡ found_new (living self.now.journal.entries) place sum) }
    {
        let source = self.source_of(alloc, &place, &sum)?;
        let sum = Some(sum);
        Ok(Decision::One(match source {
            Some(copy) => Report::Duplicate { copy, place, sum },
            None => Report::Register { place, sum },
        }))
    }

    /// The heir of a living copy that is no more.
    fn heir_of(&self, alloc: Global, copy: u64) -> Result<Option<u64>, AllocError>
        requires kept { IsHeld self.now }
        requires lives { IsSome (copy_in (living self.now.journal.entries) copy) }
        ensures { IfOk result (λ heir. option_map (heir_of (living self.now.journal.entries)) (copy_in (living self.now.journal.entries) copy) ≡ Some heir) }
    {
        let relatives = self.relatives(alloc, copy)?;
        Ok(heir_among(copy, relatives.as_slice()))
    }

    /// What is done of a sighting. O(n log n) for n copies of the family, and O(k^2) for k of them that relate alike and hold the sum;
    /// where that doesn't decide, a look-up for each device that has a copy, and O(k^2) for k copies elsewhere that hold the sum.
    /// Fails only where memory runs out.
    pub fn decide(&self, alloc: Global, sighting: Sighting) -> Result<Decision, AllocError>
        requires { IsHeld self.now }
        ensures { IfOk result (λ made. made ≡ decision (living self.now.journal.entries) sighting) }
    {
        match sighting {
            Sighting::Found { place, sum } => match self.copies.at(&place) {
                Some(copy) => {
                    drop(place);
                    self.found_again(alloc, sum, copy)
                }
                None => self.found_new(alloc, place, sum),
            },
            Sighting::Missing { place } => match self.copies.at(&place) {
                Some(copy) => {
                    drop(place);
                    let heir = self.heir_of(alloc, copy)?;
                    Ok(Decision::One(Report::Remove { copy, heir }))
                }
                None => {
                    drop(place);
                    Ok(Decision::Known(None))
                }
            },
        }
    }
}

fn is_other(it: &Relative, copy: u64) -> bool
    ensures { result ≡ is_other copy it.now }
{
    it.copy != copy
}

/// Whether one of these is another copy.
fn has_other(copy: u64, relatives: &[Relative]) -> bool
    ensures { result ≡ list_any (is_other copy) relatives.now }
{
    for it in relatives {
        if is_other(it, copy) {
            return true;
        }
    }
    false
}

/// Whether it is another copy that knows all that the copy knows.
fn knows_all(it: &Relative, copy: u64) -> bool
    ensures { result ≡ knows_all copy it.now }
{
    relates(it, Rel::Newer, copy) || relates(it, Rel::Equal, copy)
}

fn first_knowing(copy: u64, relatives: &[Relative]) -> Option<u64>
    ensures { result ≡ first_number (knows_all copy) relatives.now }
{
    for it in relatives {
        if knows_all(it, copy) {
            return Some(it.copy);
        }
    }
    None
}

fn first_other(copy: u64, relatives: &[Relative]) -> Option<u64>
    ensures { result ≡ first_number (is_other copy) relatives.now }
{
    for it in relatives {
        if is_other(it, copy) {
            return Some(it.copy);
        }
    }
    None
}

/// The first of these that knows all that the copy knows, else the first other one.
fn heir_among(copy: u64, relatives: &[Relative]) -> Option<u64>
    ensures { result ≡ heir_in copy relatives.now }
{
    match first_knowing(copy, relatives) {
        Some(heir) => Some(heir),
        None => first_other(copy, relatives),
    }
}
