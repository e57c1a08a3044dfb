//! A family: the living copies of one file, and what a report makes of them.
#![tactic(auto, unfolding(crate::specs::View::IsPrepared))]

ghost use Rattle.std.specs.Prelude.{◌≡◌, ◌+◌, ◌≤◌, [], ◌∷◌, length, IfOk, OnOk, OnErr, IfErr, IfSome, Some, None};
ghost use Rattle.pana_family.specs.declared.fault.FamilyFault.{FamilyFault as Fault};
ghost use Rattle.pana_family.specs.{Rows.AreBefore, Rows.copy_rows, Rows.seed_row, Kept.IsKept, Paired.ArePaired, Change.after, Change.Fits, Change.IsRoomier};
ghost use Rattle.pana_family.specs.{After.reported_rows, Report.IsMade};
ghost use Rattle.pana_family.specs.View.{NamesLiving, fault_of, IsFaultOfTwo, IsPrepared, IsPreparedBehind, TakesBack};

use crate::change::{Change, Exchange, apply, room_of};
use crate::comparing::{follow, follow_change};
use crate::fault::FamilyFault;
use crate::report::FamilyReport;
use crate::reporting::report_change;
use crate::row::StampRow;
use pana_list::PlainList;
use pana_rel::PairTable;
use pana_stamp::Stamp;
use smallvec::SmallVec;
use std::alloc::{AllocError, Global};
use std::marker::Model;

/// The living copies of one file and the parcels that they hold, each with a stamp, by rising number; and beside them the
/// relation of each copy to each, which follows every change.
///
/// It keeps no set of updates. What it stands for is each table of sets that its rows stand for (`StandsFor`).
pub struct Family {
    pub(crate) alloc: Global,
    pub(crate) items: Vec<StampRow>,
    pub(crate) pairs: PairTable,
}

impl Drop for Family {
    fn drop(self) {
        let Family {
            alloc: _,
            items: _,
            pairs: _,
        } = self;
    }
}

impl Model for Family {
    ghost use Rattle.std.specs.Prelude.{vec_capacity};
    ghost use Rattle.pana_family.specs.Change.{RowList, row_list, row_list_code};
    ghost use Rattle.pana_family.specs.Paired.{ArePaired};
    ghost use Rattle.pana_family.specs.Kept.{IsKept};

    ghost Value = { RowList };

    ghost coded = { row_list_code };

    ghost view = { λ f. row_list f.items.items (vec_capacity f.items) f.pairs };

    ghost invariant = { λ f. IsKept f.items.items × ArePaired f.items.items f.pairs };
}

/// The table of relations of these rows' copies. Compares the stamps of each two.
fn pairs_of(alloc: Global, items: &[StampRow]) -> Result<PairTable, AllocError>
    requires { IsKept items.now }
    ensures { IfOk result (λ pairs. ArePaired items.now pairs) }
{
    let mut pairs = PairTable::new(alloc, 0)?;
    pairs.drop_copy(0);
    for at in 0..items.len() {
        pairs.reserve()?;
        let _ = pairs.copies();
        follow(
            &items[..at + 1],
            &mut pairs,
            &[Exchange::Take(items[at].copy)],
        );
    }
    Ok(pairs)
}

impl Family {
    /// The family of a file's first copy, which this entry registered: it owns all points and knows no update. And the change that
    /// takes the entry back.
    ///
    /// # Errors
    ///
    /// `AllocError` where an allocation failed.
    pub fn new(alloc: Global, entry: u64) -> Result<(Family, Change), AllocError>
        ensures { IfOk result (λ made. (made.0.rows ≡ seed_row entry ∷ []) × TakesBack made.1 made.0 []) }
    {
        let mut items = Vec::with_capacity(alloc, 1)?;
        items.push_reserved(StampRow {
            copy: entry,
            holder: None,
            stamp: Stamp::seed(),
            touch: entry,
        });
        let family = Family::of_rows(alloc, PlainList::from_vec(items))?;
        let mut news = SmallVec::new(alloc);
        news.push_reserved(Exchange::Take(entry));
        Ok((family, Change::Rows(Box::new(alloc, news)?)))
    }

    /// A family of these rows. Compares the stamps of each two copies.
    ///
    /// # Errors
    ///
    /// `AllocError` where an allocation failed; the rows are then lost.
    pub fn of_rows(alloc: Global, rows: PlainList<StampRow>) -> Result<Family, AllocError>
        requires { IsKept rows }
        ensures rows { IfOk result (λ f. f.rows ≡ rows) }
        ensures room { IfOk result (λ f. length f.rows ≤ f.room.rows) }
    {
        let items = rows.into_vec();
        let pairs = pairs_of(alloc, &items)?;
        Ok(Family {
            alloc,
            items,
            pairs,
        })
    }

    /// The rows of the copies and parcels, by rising number, as `of_rows` asks for them. Takes no memory.
    pub fn into_rows(self) -> PlainList<StampRow>
        ensures rows { result ≡ self.rows }
        ensures kept { IsKept result }
    {
        let Family {
            alloc: _,
            items,
            pairs: _,
        } = self;
        PlainList::from_vec(items)
    }

    /// What stands in the way of a report, but for memory. Takes no memory.
    fn fault(&self, report: FamilyReport) -> Option<FamilyFault>
        requires { NamesLiving report self.now.rows }
        ensures { result ≡ fault_of report self.now.rows }
    {
        match report {
            FamilyReport::Duplicate(source) => {
                if self.count() >= 256 {
                    Some(FamilyFault::FamilyFull)
                } else if self.splits(source) {
                    None
                } else {
                    Some(FamilyFault::TooDeep)
                }
            }
            FamilyReport::Reconcile(a, b) | FamilyReport::Merge(a, b) if a == b => Some(
                FamilyFault::SameCopy,
            ),
            FamilyReport::Remove(copy, Some(heir)) if heir == copy => Some(FamilyFault::SameCopy),
            _ => None,
        }
    }

    /// Takes the memory for so many more rows, and for a copy more.
    fn reserve(&mut self, count: usize) -> Result<(), AllocError>
        ensures rows { self.new.rows ≡ self.old.rows }
        ensures room { IsRoomier self.old.room self.new.room }
        ensures more { OnOk result (length self.new.rows + count ≤ self.new.room.rows) }
        ensures copy { OnOk result (length (copy_rows self.new.rows) + 1 ≤ self.new.room.copies) }
        ensures was { IsKept self.old.rows }
    {
        let _ = self.pairs.copies();
        self.items.reserve(count)?;
        self.pairs.reserve()
    }

    /// What a report changes, with the entry as its number. Nothing is changed yet, and once this succeeded `apply` takes
    /// no memory.
    ///
    /// # Errors
    ///
    /// `FamilyFull` exactly where 256 copies live and the report is a Duplicate; `TooDeep` exactly where there are fewer and the
    /// source's id can't be divided; `SameCopy` exactly where the two copies that it names are one; all before an
    /// allocation. `OutOfMemory` where one failed.
    pub fn prepare(&mut self, entry: u64, report: FamilyReport) -> Result<Change, FamilyFault>
        requires living { NamesLiving report self.old.rows }
        requires new { AreBefore entry self.old.rows }
        ensures rows { self.new.rows ≡ self.old.rows }
        ensures room { IsRoomier self.old.room self.new.room }
        ensures fault { (fault : Fault) → fault_of report self.old.rows ≡ Some fault → result ≡ Err fault }
        ensures memory { fault_of report self.old.rows ≡ None → IfErr result (λ e. e ≡ FamilyFault.OutOfMemory) }
        ensures prepared { IfOk result (λ change. IsPrepared entry report change self.new) }
        ensures was { IsKept self.old.rows }
    {
        if let Some(fault) = self.fault(report) {
            return Err(fault);
        }
        let change = report_change(self.alloc, &self.items, entry, report)?;
        match self.reserve(room_of(&change)) {
            Ok(()) => Ok(change),
            Err(_) => {
                drop(change);
                Err(FamilyFault::OutOfMemory)
            }
        }
    }

    /// Makes a change, which a report made or which takes one back, and returns the one that takes it back. Takes no memory.
    fn exchange(&mut self, change: Change, made: Option<(u64, FamilyReport)>) -> Change
        requires kept { IsKept (after change self.old.rows) }
        requires fits { Fits change self.old.rows self.old.room }
        requires made { IfSome made (λ m. IsMade m.0 m.1 self.old.rows (after change self.old.rows)) }
        ensures rows { self.new.rows ≡ after change self.old.rows }
        ensures back { after result self.new.rows ≡ self.old.rows }
        ensures fits { Fits result self.new.rows self.new.room }
        ensures room { IsRoomier self.old.room self.new.room }
        ensures was { IsKept self.old.rows }
    {
        let _ = self.pairs.copies();
        let back = apply(&mut self.items, change);
        follow_change(&self.items, &mut self.pairs, &back, made);
        back
    }

    /// Makes what a report changes, as `prepare` gave it, and returns the change that takes it back. Takes no memory.
    pub fn apply(&mut self, entry: u64, report: FamilyReport, change: Change) -> Change
        requires { IsPrepared entry report change self.old }
        ensures rows { self.new.rows ≡ reported_rows entry report self.old.rows }
        ensures back { TakesBack result self.new self.old.rows }
        ensures room { IsRoomier self.old.room self.new.room }
        ensures was { IsKept self.old.rows }
    {
        self.exchange(change, Some((entry, report)))
    }

    /// Makes a change that takes one back: the copies and parcels have the stamps, holders and touches from before it, tree
    /// for tree. Returns the change that makes it again. Takes no memory.
    pub fn take_back(&mut self, back: Change) -> Change
        requires kept { IsKept (after back self.old.rows) }
        requires fits { Fits back self.old.rows self.old.room }
        ensures rows { self.new.rows ≡ after back self.old.rows }
        ensures again { after result self.new.rows ≡ self.old.rows }
        ensures fits { Fits result self.new.rows self.new.room }
        ensures room { IsRoomier self.old.room self.new.room }
    {
        self.exchange(back, None)
    }

    /// What two reports change, one made behind the other. Nothing is changed yet, and once this succeeded `apply` of the first
    /// and then of the second takes no memory.
    ///
    /// # Errors
    ///
    /// Those of `prepare`, for the first report and then for the second, once the first is made.
    pub fn prepare_two(
        &mut self,
        entry: u64,
        report: FamilyReport,
        next: u64,
        second: FamilyReport,
    ) -> Result<(Change, Change), FamilyFault>
        requires living { NamesLiving report self.old.rows }
        requires new { AreBefore entry self.old.rows }
        requires second_living { NamesLiving second (reported_rows entry report self.old.rows) }
        requires second_new { AreBefore next (reported_rows entry report self.old.rows) }
        ensures rows { self.new.rows ≡ self.old.rows }
        ensures room { IsRoomier self.old.room self.new.room }
        ensures first { IfOk result (λ made. IsPrepared entry report made.0 self.new) }
        ensures second { IfOk result (λ made. IsPreparedBehind next second made.1 (reported_rows entry report self.old.rows) self.new.room) }
        ensures fault { IfErr result (IsFaultOfTwo report self.old.rows second (reported_rows entry report self.old.rows)) }
    {
        let change = self.prepare(entry, report)?;
        let back = self.apply(entry, report, change);
        let behind = self.prepare(next, second);
        let change = self.take_back(back);
        match behind {
            Ok(behind) => Ok((change, behind)),
            Err(fault) => {
                drop(change);
                Err(fault)
            }
        }
    }

    /// Records a report, with the entry as its number, and returns the change that takes it back: `prepare` and `apply`.
    ///
    /// # Errors
    ///
    /// Those of `prepare`. The rows are then as they were.
    pub fn report(&mut self, entry: u64, report: FamilyReport) -> Result<Change, FamilyFault>
        requires living { NamesLiving report self.old.rows }
        requires new { AreBefore entry self.old.rows }
        ensures rows { OnOk result (self.new.rows ≡ reported_rows entry report self.old.rows) }
        ensures back { IfOk result (λ back. TakesBack back self.new self.old.rows) }
        ensures room { IsRoomier self.old.room self.new.room }
        ensures fault { (fault : Fault) → fault_of report self.old.rows ≡ Some fault → result ≡ Err fault }
        ensures memory { fault_of report self.old.rows ≡ None → IfErr result (λ e. e ≡ FamilyFault.OutOfMemory) }
        ensures err { OnErr result (self.new.rows ≡ self.old.rows) }
        ensures was { IsKept self.old.rows }
    {
        let change = self.prepare(entry, report)?;
        let back = self.apply(entry, report, change);
        Ok(back)
    }
}
