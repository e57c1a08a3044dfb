//! What a family answers.

ghost use Rattle.std.specs.Prelude.{◌≡◌, ◌↔◌, ◌≤◌, true, length, IfOk, IsTrue, List, map};
ghost use Rattle.pana_event.specs.Event.{greatest};
ghost use Rattle.pana_family.specs.declared.row.StampRow.{StampRow as RowValue};
ghost use Rattle.pana_family.specs.{Relation.relation, Board.board_rows, Board.board_newest, Board.board_split, Stamps.AreStamps, Stamps.stamps_in};
ghost use Rattle.pana_family.specs.{Stamps.text_of, Stands.StandsFor};
ghost use Rattle.pana_family.specs.Table.{In, Known, copies_of, set_in, touch_in};
ghost use Rattle.pana_family.specs.Rows.{AreBefore, copy_rows, divides, held_rows, lives};

use crate::board::{FamilyBoard, board_of};
use crate::family::Family;
use crate::searching::{are_before, count_copies, held_count, index_of};
use crate::stamps::{all_valid, stamps_of};
use pana_calls::CopyStamp;
use pana_event::Rel;
use pana_list::PlainList;
use std::alloc::AllocError;

impl Family {
    /// Whether the copy lives in the family. Takes no memory; O(log copies).
    pub fn has(&self, copy: u64) -> bool
        ensures { result ≡ lives self.now.rows copy }
    {
        self.pairs.contains(copy)
    }

    /// Whether the entry is greater than each number and touch of copies and parcels, as a report asks. Takes no memory.
    pub fn is_new(&self, entry: u64) -> bool
        ensures { IsTrue result ↔ AreBefore entry self.now.rows }
    {
        are_before(&self.items, entry)
    }

    /// How many copies live. Takes no memory.
    pub fn count(&self) -> usize
        ensures count { result ≡ length (copy_rows self.now.rows) }
        ensures few { result ≤ 256 }
    {
        count_copies(&self.items)
    }

    /// The numbers of the living copies, by rising number. Takes no memory; O(1).
    pub fn living(&self) -> &[u64]
        ensures { result.now ≡ map (λ row. row.copy) (copy_rows self.now.rows) }
    {
        self.pairs.copies()
    }

    /// How many parcels the copy holds. Takes no memory.
    pub fn held(&self, copy: u64) -> usize
        ensures { result ≡ held_rows copy self.now.rows }
    {
        held_count(&self.items, copy)
    }

    /// Whether the copy's id can be divided, so that a Duplicate doesn't find it too deep. Takes no memory.
    pub fn splits(&self, copy: u64) -> bool
        requires { lives self.now.rows copy ≡ true }
        ensures { result ≡ divides self.now.rows copy }
    {
        let row = &self.items[index_of(&self.items, copy)];
        row.stamp.id().splits()
    }

    /// The entry that last touched a copy. Takes no memory.
    pub fn touch(&self, copy: u64) -> u64
        requires { lives self.now.rows copy ≡ true }
        ensures levels { (row : RowValue) → In row self.now.rows → row.copy ≡ copy → greatest row.stamp.event ≤ result }
        ensures touch { (table : List Known) → StandsFor self.now.rows table → result ≡ touch_in table copy }
    {
        self.items[index_of(&self.items, copy)].touch
    }

    /// How the first copy relates to the second. Takes no memory; compares no stamps, O(log n) for n copies.
    #[tactic(auto, using(crate::proofs::Boards::same_equal, crate::proofs::Boards::paired_relation))]
    pub fn rel(&self, a: u64, b: u64) -> Rel
        requires first { lives self.now.rows a ≡ true }
        requires second { lives self.now.rows b ≡ true }
        ensures { (table : List Known) → StandsFor self.now.rows table → result ≡ relation (set_in table a) (set_in table b) }
    {
        self.pairs.rel(a, b)
    }

    /// How the copies relate to each other. Compares no stamps: O(n log n) for n copies.
    ///
    /// # Errors
    ///
    /// `AllocError` where an allocation failed.
    pub fn board(&self) -> Result<FamilyBoard, AllocError>
        ensures rows { IfOk result (λ board. (table : List Known) → StandsFor self.now.rows table → board.rows ≡ board_rows table) }
        ensures newest { IfOk result (λ board. (table : List Known) → StandsFor self.now.rows table → board.newest ≡ board_newest table) }
        ensures split { IfOk result (λ board. (table : List Known) → StandsFor self.now.rows table → board.split ≡ board_split table) }
    {
        let _ = self.pairs.copies();
        board_of(self.alloc, &self.pairs)
    }

    /// The text of each living copy's stamp, by rising number.
    ///
    /// # Errors
    ///
    /// `AllocError` where an allocation failed.
    pub fn stamps(&self) -> Result<PlainList<CopyStamp>, AllocError>
        ensures stands { IfOk result (λ stamps. (table : List Known) → StandsFor self.now.rows table → AreStamps (map text_of stamps) (copies_of table)) }
        ensures exact { IfOk result (λ stamps. map text_of stamps ≡ stamps_in self.now.rows) }
    {
        all_valid(&self.items);
        let stamps = stamps_of(self.alloc, &self.items)?;
        Ok(PlainList::from_vec(stamps))
    }
}
