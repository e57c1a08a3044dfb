//! A family as the hall keeps it.
ghost use Rattle.std.specs.Prelude.{◌≡◌, ◌==◌, IfOk, option_map, option_copied};
ghost use Rattle.std.specs.List.{list_any};
ghost use Rattle.pana_family.specs.{After.reported_rows, Change.IsRoomier, Rows.AreBefore, Report.CanReport, View.IsPreparedBehind};
ghost use Rattle.pana_hall.specs.inner.Undo.{IsPreparedIn, confirmed, earlier_of, ends_in, last_before, last_place, new_kept, reported_kept, withdrawn};

use crate::undo::{Before, Undo, has_entry, position_of};
use circular_buffer::HeapCircularBuffer;
use pana_copies::Place;
use pana_family::{Change, Family, FamilyFault, FamilyReport};
use std::alloc::{AllocError, Global};
use std::marker::Model;

/// How many entries of a family stay pending.
const MOST_PENDING: usize = 8;

/// A family, the entry that began it, and what takes its pending entries back, the last one first.
#[derive(Drop)]
pub struct KeptFamily {
    number: u64,
    family: Family,
    undo: HeapCircularBuffer<Undo>,
}

impl Model for KeptFamily {
    ghost use Rattle.std.specs.Prelude.{◌≡◌};
    ghost use Rattle.pana_hall.specs.inner.Undo.{RoomyFamily, kept_rows, roomy_family_code, history, with_room, CanGoBack};

    ghost Value = { RoomyFamily };

    ghost coded = { roomy_family_code };

    ghost view = { λ it. with_room (kept_rows it.number it.family.rows (history it.family.rows it.undo.items)) it.family.room };

    ghost invariant = { λ it. (it.undo.capacity ≡ 8) × CanGoBack it.family.room it.family.rows it.undo.items };
}

impl KeptFamily {
    /// The family that this entry begins. Fails only where memory runs out.
    // Once for a family, so no report but the second pays for its locals.
    #[inline(never)]
    pub fn new(alloc: Global, entry: u64) -> Result<KeptFamily, AllocError>
        ensures { IfOk result (λ it. it.kept ≡ new_kept entry) }
    {
        let mut undo = HeapCircularBuffer::with_capacity(alloc, MOST_PENDING)?;
        let (family, back) = Family::new(alloc, entry)?;
        drop(undo.push_front(Undo {
            entry,
            back,
            before: Before {
                place: None,
                first: None,
                second: None,
            },
        }));
        Ok(KeptFamily {
            number: entry,
            family,
            undo,
        })
    }

    /// The entry that began the family. Takes no memory.
    pub fn number(&self) -> u64
        ensures { result ≡ self.now.kept.number }
    {
        self.number
    }

    /// The family. Takes no memory.
    pub fn family(&self) -> &Family
        ensures { result.now.rows ≡ self.now.kept.rows }
    {
        &self.family
    }

    /// The place where the copy was that the last pending entry moved or removed, if it did. Takes no memory.
    pub fn last_place(&self) -> Option<&Place>
        ensures { option_copied result ≡ last_place self.now.kept.undo }
    {
        match self.undo.front() {
            Some(undo) => match &undo.before.place {
                Some(place) => Some(place),
                None => None,
            },
            None => None,
        }
    }

    /// The entries that said, before the last pending entry, what the copies held of whose content it says something. Takes no memory.
    pub fn last_said(&self) -> (Option<u32>, Option<u32>)
        ensures first { result.0 ≡ (last_before self.now.kept.undo).first }
        ensures second { result.1 ≡ (last_before self.now.kept.undo).second }
    {
        match self.undo.front() {
            Some(undo) => (undo.before.first, undo.before.second),
            None => (None, None),
        }
    }

    /// Whether the entry is pending. Takes no memory.
    pub fn has_pending(&self, entry: u64) -> bool
        ensures { result ≡ list_any (λ u. u.entry == entry) self.now.kept.undo }
    {
        has_entry(&self.undo, entry)
    }

    /// Whether the entry is the last that is pending. Takes no memory.
    pub fn ends_in(&self, entry: u64) -> bool
        ensures { result ≡ ends_in entry self.now.kept.undo }
    {
        match self.undo.front() {
            Some(last) => last.entry == entry,
            None => false,
        }
    }

    /// What a report of the next entry changes. Nothing is changed yet, and once this succeeded `apply` takes no memory.
    ///
    /// # Errors
    ///
    /// Those of the family.
    pub fn prepare(&mut self, entry: u64, report: FamilyReport) -> Result<Change, FamilyFault>
        requires able { CanReport report self.old.kept.rows }
        requires new { AreBefore entry self.old.kept.rows }
        ensures same { self.new.kept ≡ self.old.kept }
        ensures prepared { IfOk result (λ change. IsPreparedIn entry report change self.new) }
    {
        self.family.prepare(entry, report)
    }

    /// What the reports of two entries change, one made behind the other. Nothing is changed yet, and once this succeeded `apply`
    /// of the first and then of the second takes no memory. Fails only where memory runs out.
    pub fn prepare_two(
        &mut self,
        entry: u64,
        report: FamilyReport,
        next: u64,
        second: FamilyReport,
    ) -> Result<(Change, Change), AllocError>
        requires able { CanReport report self.old.kept.rows }
        requires new { AreBefore entry self.old.kept.rows }
        requires second_able { CanReport second (reported_rows entry report self.old.kept.rows) }
        requires second_new { AreBefore next (reported_rows entry report self.old.kept.rows) }
        ensures same { self.new.kept ≡ self.old.kept }
        ensures first { IfOk result (λ made. IsPreparedIn entry report made.0 self.new) }
        ensures second { IfOk result (λ made. IsPreparedBehind next second made.1 (reported_rows entry report self.new.kept.rows) self.new.room) }
    {
        match self.family.prepare_two(entry, report, next, second) {
            Ok(changes) => Ok(changes),
            Err(_) => Err(AllocError),
        }
    }

    /// Records a report, whose change `prepare` gave, and what was before it. Takes no memory.
    pub fn apply(&mut self, entry: u64, report: FamilyReport, change: Change, before: Before)
        requires { IsPreparedIn entry report change self.old }
        ensures kept { self.new.kept ≡ reported_kept entry report (earlier_of before) self.old.kept }
        ensures room { IsRoomier self.old.room self.new.room }
    {
        let back = self.family.apply(entry, report, change);
        let undo = Undo {
            entry,
            back,
            before,
        };
        drop(self.undo.push_front(undo));
    }

    /// Settles a pending entry and all before it. Takes no memory.
    pub fn confirm(&mut self, entry: u64)
        ensures { self.new.kept ≡ confirmed entry self.old.kept }
    {
        match position_of(&self.undo, entry) {
            Some(at) => self.undo.truncate_back(at),
            None => {}
        }
    }

    /// Undoes the last pending entry, and returns the place where the copy was that it moved or removed, if it did. Takes no
    /// memory.
    pub fn withdraw(&mut self) -> Option<Place>
        ensures family { self.new.kept ≡ withdrawn self.old.kept }
        ensures place { result ≡ last_place self.old.kept.undo }
    {
        match self.undo.pop_front() {
            Some(undo) => {
                drop(self.family.take_back(undo.back));
                unboxed(undo.before.place)
            }
            None => None,
        }
    }
}

fn unboxed(place: Option<Box<Place>>) -> Option<Place>
    ensures { result ≡ option_map (λ p. p.value) place }
{
    match place {
        Some(place) => Some(Box::into_inner(place)),
        None => None,
    }
}
