//! A family as the list of them keeps it.
ghost use Rattle.std.specs.Prelude.{◌≡◌, ◌==◌, ◌∷◌, [], ℕ, List, IfOk, OnOk, true, length, map, nat_lt, option_copied};
ghost use Rattle.std.specs.List.{list_any};
ghost use Rattle.pana_family.specs.{Board.board_rows, Board.board_newest, Board.board_split, Relation.relation, Report.CanReport, Stamps.AreStamps};
ghost use Rattle.pana_family.specs.{Stamps.stamps_in, Stamps.text_of, Stands.StandsFor};
ghost use Rattle.pana_family.specs.Rows.{AreBefore, copy_rows, divides, lives, seed_row};
ghost use Rattle.pana_family.specs.Table.{Known, copies_of, set_in, touch_in};
ghost use Rattle.pana_hall.specs.inner.Undo.{confirmed, earlier_of, ends_in, last_before, last_place, reported_kept, withdrawn};
ghost use Rattle.pana_hall.specs.inner.Listed.{IsGrown, IsPreparedAfter, IsPreparedFor, listed};
ghost use Rattle.pana_family.specs.After.{reported_rows};
ghost use Rattle.pana_family.specs.declared.report.FamilyReport.{FamilyReport as OfFamily};

use crate::kept_family::KeptFamily;
use crate::undo::Before;
use pana_calls::CopyStamp;
use pana_copies::Place;
use pana_event::Rel;
use pana_family::{Change, Family, FamilyBoard, FamilyFault, FamilyReport};
use pana_list::PlainList;
use std::alloc::{AllocError, Global};

/// A family in the list. One of which only the Register was reported is kept as the number of that entry, which says all.
#[derive(Drop)]
pub enum ListedFamily {
    /// This entry began it, and nothing was reported of it since.
    New(u64),
    Changed(Box<KeptFamily>),
}

/// The family of a first copy, which this entry registered. Fails only where memory runs out.
fn new_family(alloc: Global, entry: u64) -> Result<Family, AllocError>
    ensures { IfOk result (λ family. family.rows ≡ seed_row entry ∷ []) }
{
    let (family, back) = Family::new(alloc, entry)?;
    drop(back);
    Ok(family)
}

impl ListedFamily {
    /// The entry that began it. Takes no memory.
    pub fn number(&self) -> u64
        ensures { result ≡ (listed self.now).number }
    {
        match self {
            ListedFamily::New(entry) => *entry,
            ListedFamily::Changed(it) => it.number(),
        }
    }

    /// Whether the copy lives in it. Takes no memory.
    pub fn has(&self, copy: u64) -> bool
        ensures { result ≡ lives (listed self.now).rows copy }
    {
        match self {
            ListedFamily::New(entry) => *entry == copy,
            ListedFamily::Changed(it) => it.family().has(copy),
        }
    }

    /// Whether it has a living copy. Takes no memory.
    pub fn has_copies(&self) -> bool
        ensures { result ≡ nat_lt 0 (length (copy_rows (listed self.now).rows)) }
    {
        self.count() > 0
    }

    /// How many copies live. Takes no memory.
    pub fn count(&self) -> usize
        ensures { result ≡ length (copy_rows (listed self.now).rows) }
    {
        match self {
            ListedFamily::New(_) => 1,
            ListedFamily::Changed(it) => it.family().living().len(),
        }
    }

    /// Whether the copy's id can be divided. Takes no memory.
    pub fn splits(&self, copy: u64) -> bool
        requires { lives (listed self.now).rows copy ≡ true }
        ensures { result ≡ divides (listed self.now).rows copy }
    {
        match self {
            ListedFamily::New(_) => true,
            ListedFamily::Changed(it) => it.family().splits(copy),
        }
    }

    /// How the first copy relates to the second. Takes no memory; compares no stamps.
    #[tactic(auto, using(crate::proofs::Histories::new_living, pana_family::proofs::Boards::same_equal))]
    pub fn rel(&self, a: u64, b: u64) -> Rel
        requires first { lives (listed self.now).rows a ≡ true }
        requires second { lives (listed self.now).rows b ≡ true }
        ensures { (table : List Known) → StandsFor (listed self.now).rows table → result ≡ relation (set_in table a) (set_in table b) }
    {
        match self {
            ListedFamily::New(_) => Rel::Equal,
            ListedFamily::Changed(it) => it.family().rel(a, b),
        }
    }

    /// The entry that last touched a copy. Takes no memory.
    pub fn touch(&self, copy: u64) -> u64
        requires { lives (listed self.now).rows copy ≡ true }
        ensures { (table : List Known) → StandsFor (listed self.now).rows table → result ≡ touch_in table copy }
    {
        match self {
            ListedFamily::New(entry) => *entry,
            ListedFamily::Changed(it) => it.family().touch(copy),
        }
    }

    /// How the copies relate to each other. Fails only where memory runs out.
    pub fn board(&self, alloc: Global) -> Result<FamilyBoard, AllocError>
        ensures rows { IfOk result (λ board. (table : List Known) → StandsFor (listed self.now).rows table → board.rows ≡ board_rows table) }
        ensures newest { IfOk result (λ board. (table : List Known) → StandsFor (listed self.now).rows table → board.newest ≡ board_newest table) }
        ensures split { IfOk result (λ board. (table : List Known) → StandsFor (listed self.now).rows table → board.split ≡ board_split table) }
    {
        match self {
            ListedFamily::New(entry) => {
                let family = new_family(alloc, *entry)?;
                let board = family.board();
                drop(family);
                board
            }
            ListedFamily::Changed(it) => it.family().board(),
        }
    }

    /// How many copies are newest, and whether two of these are in conflict. Fails only where memory runs out.
    #[tactic(auto, using(crate::proofs::Answered::new_heads))]
    pub fn heads(&self) -> Result<(usize, bool), AllocError>
        ensures newest { IfOk result (λ heads. (table : List Known) → StandsFor (listed self.now).rows table → heads.0 ≡ length (board_newest table)) }
        ensures split { IfOk result (λ heads. (table : List Known) → StandsFor (listed self.now).rows table → heads.1 ≡ board_split table) }
    {
        match self {
            ListedFamily::New(_) => Ok((1, false)),
            ListedFamily::Changed(it) if it.family().living().len() == 1 => Ok((1, false)),
            ListedFamily::Changed(it) => {
                let board = it.family().board()?;
                Ok((board.newest.as_slice().len(), board.split))
            }
        }
    }

    /// The text of each living copy's stamp, by rising number. Fails only where memory runs out.
    pub fn stamps(&self, alloc: Global) -> Result<PlainList<CopyStamp>, AllocError>
        ensures stands { IfOk result (λ stamps. (table : List Known) → StandsFor (listed self.now).rows table → AreStamps (map text_of stamps) (copies_of table)) }
        ensures exact { IfOk result (λ stamps. map text_of stamps ≡ stamps_in (listed self.now).rows) }
    {
        match self {
            ListedFamily::New(entry) => {
                let family = new_family(alloc, *entry)?;
                let stamps = family.stamps();
                drop(family);
                stamps
            }
            ListedFamily::Changed(it) => it.family().stamps(),
        }
    }

    /// The place where the copy was that the last pending entry moved or removed, if it did. Takes no memory.
    pub fn last_place(&self) -> Option<&Place>
        ensures { option_copied result ≡ last_place (listed self.now).undo }
    {
        match self {
            ListedFamily::New(_) => None,
            ListedFamily::Changed(it) => it.last_place(),
        }
    }

    /// The entries that said, before the last pending entry, what the copies held of whose content it says something. Takes no memory.
    pub fn last_said(&self) -> (Option<u32>, Option<u32>)
        ensures first { result.0 ≡ (last_before (listed self.now).undo).first }
        ensures second { result.1 ≡ (last_before (listed self.now).undo).second }
    {
        match self {
            ListedFamily::New(_) => (None, None),
            ListedFamily::Changed(it) => it.last_said(),
        }
    }

    /// Whether the entry is pending. Takes no memory.
    pub fn has_pending(&self, entry: u64) -> bool
        ensures { result ≡ list_any (λ u. u.entry == entry) (listed self.now).undo }
    {
        match self {
            ListedFamily::New(first) => *first == entry,
            ListedFamily::Changed(it) => it.has_pending(entry),
        }
    }

    /// Whether the entry is the last that is pending. Takes no memory.
    pub fn ends_in(&self, entry: u64) -> bool
        ensures { result ≡ ends_in entry (listed self.now).undo }
    {
        match self {
            ListedFamily::New(first) => *first == entry,
            ListedFamily::Changed(it) => it.ends_in(entry),
        }
    }

    /// Takes the memory that a family needs of which more is reported than the Register. Fails only where memory runs out.
    pub fn grow(&mut self, alloc: Global) -> Result<(), AllocError>
        ensures same { listed self.new ≡ listed self.old }
        ensures ok { OnOk result (IsGrown self.new) }
    {
        if let ListedFamily::New(entry) = self {
            *self = ListedFamily::Changed(Box::new(alloc, KeptFamily::new(alloc, *entry)?)?);
        }
        Ok(())
    }

    /// What a report of the next entry changes. Nothing is changed yet, and once this succeeded `apply` takes no memory.
    ///
    /// # Errors
    ///
    /// Those of the family.
    pub fn prepare(
        &mut self,
        alloc: Global,
        entry: u64,
        report: FamilyReport,
    ) -> Result<Change, FamilyFault>
        requires able { CanReport report (listed self.old).rows }
        requires new { AreBefore entry (listed self.old).rows }
        ensures same { listed self.new ≡ listed self.old }
        ensures prepared { IfOk result (λ change. IsPreparedFor entry report change self.new) }
    {
        let Ok(()) = self.grow(alloc) else {
            return Err(FamilyFault::OutOfMemory);
        };
        match self {
            ListedFamily::New(_) => unreachable!(),
            ListedFamily::Changed(it) => it.prepare(entry, report),
        }
    }

    /// What the reports of two entries change, one made behind the other. Nothing is changed yet, and once this succeeded `apply`
    /// of the first and then of the second takes no memory. Fails only where memory runs out.
    pub fn prepare_two(
        &mut self,
        alloc: Global,
        entry: u64,
        report: FamilyReport,
        next: u64,
        second: FamilyReport,
    ) -> Result<(Change, Change), AllocError>
        requires able { CanReport report (listed self.old).rows }
        requires new { AreBefore entry (listed self.old).rows }
        requires second_able { CanReport second (reported_rows entry report (listed self.old).rows) }
        requires second_new { AreBefore next (reported_rows entry report (listed self.old).rows) }
        ensures same { listed self.new ≡ listed self.old }
        ensures first { IfOk result (λ made. IsPreparedFor entry report made.0 self.new) }
        ensures second { IfOk result (λ made. IsPreparedAfter entry report next second made.1 self.new) }
    {
        self.grow(alloc)?;
        match self {
            ListedFamily::New(_) => unreachable!(),
            ListedFamily::Changed(it) => it.prepare_two(entry, report, next, second),
        }
    }

    /// Records a report, whose change `prepare` gave, and what was before it. Takes no memory.
    pub fn apply(&mut self, entry: u64, report: FamilyReport, change: Change, before: Before)
        requires { IsPreparedFor entry report change self.old }
        ensures kept { listed self.new ≡ reported_kept entry report (earlier_of before) (listed self.old) }
        ensures behind { (next : ℕ) (second : OfFamily) (other : Change) → IsPreparedAfter entry report next second other self.old → IsPreparedFor next second other self.new }
    {
        match self {
            ListedFamily::New(_) => unreachable!(),
            ListedFamily::Changed(it) => it.apply(entry, report, change, before),
        }
    }

    /// Settles a pending entry and all before it. Takes no memory.
    pub fn confirm(&mut self, entry: u64)
        requires { IsGrown self.old }
        ensures { listed self.new ≡ confirmed entry (listed self.old) }
    {
        match self {
            ListedFamily::New(_) => unreachable!(),
            ListedFamily::Changed(it) => it.confirm(entry),
        }
    }

    /// Undoes the last pending entry, and returns the place where the copy was that it moved or removed, if it did. Takes no
    /// memory.
    pub fn withdraw(&mut self) -> Option<Place>
        requires { IsGrown self.old }
        ensures family { listed self.new ≡ withdrawn (listed self.old) }
        ensures place { result ≡ last_place (listed self.old).undo }
    {
        match self {
            ListedFamily::New(_) => unreachable!(),
            ListedFamily::Changed(it) => it.withdraw(),
        }
    }
}
