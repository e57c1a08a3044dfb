//! How each of some copies relates to each.
ghost use Rattle.std.specs.Prelude.{◌≡◌, ◌≢◌, ◌↔◌, ℕ, ◌+◌, ◌<◌, ◌≤◌, [], ◌∷◌, Contains, IfOk, IsTrue, OnErr, OnOk, length, map, slice_index_or};
ghost use Rattle.pana_event.specs.declared.rel.Rel.TheVariants.{Equal};
ghost use Rattle.pana_event.specs.Relation.{reverse_of};
ghost use Rattle.pana_rel.specs.Board.{counts_of, is_split, newest_of};
ghost use Rattle.pana_rel.specs.Pairs.{edited_row, liked_row, own_number, place_of, rel_at, rel_of, with_copy, with_row, without, Holds};
ghost use Rattle.pana_rel.specs.inner.Square.{IsGap};

use crate::counts::{Counts, PairBoard};
use crate::row::Row;
use crate::rows;
use pana_event::Rel;
use std::alloc::{AllocError, Global};
use std::marker::Model;

/// The relation of each ordered pair of some copies.
///
/// A copy is Equal to itself, and the relations of a pair in its two directions are each other's reverse. The
/// copies are kept by rising number. A relation takes a byte, so 256 copies take 64 KB. While there is room for no more than
/// 16 copies, no row takes an allocation of its own.
pub struct PairTable {
    alloc: Global,
    copies: Vec<u64>,
    rows: Vec<Row>,
    // The rows of the next copies, for which there is room.
    spare: Vec<Row>,
}

impl Drop for PairTable {
    fn drop(self) {
        let PairTable {
            alloc: _,
            copies: _,
            rows: _,
            spare: _,
        } = self;
    }
}

impl Model for PairTable {
    ghost use Rattle.std.specs.Prelude.{◌+◌, ◌≤◌, length, vec_len, vec_capacity};
    ghost use Rattle.pana_rel.specs.Pairs.{Table};
    ghost use Rattle.pana_rel.specs.inner.Square.{IsKept, AreSpare, table_of};

    ghost Value = { Table };

    ghost view = { λ a. table_of a.copies.items a.rows.items (length a.spare.items) };

    ghost invariant = { λ a. IsKept a.copies.items a.rows.items × AreSpare a.rows.items a.spare.items × (vec_len a.copies + vec_len a.spare ≤ vec_capacity a.copies) × (vec_len a.rows + vec_len a.spare ≤ vec_capacity a.rows) × (vec_len a.rows + vec_len a.spare ≤ vec_capacity a.spare) };
}

impl PairTable {
    /// The table of one copy, with room for no more than that one until another is put in.
    ///
    /// # Errors
    ///
    /// `AllocError` where an allocation failed.
    pub fn new(alloc: Global, first: u64) -> Result<PairTable, AllocError>
        ensures { IfOk result (λ table. table.copies ≡ first ∷ []) }
    {
        let mut row = Row::with_room(alloc, 2)?;
        row.extend(&[Rel::Equal]);
        let mut copies = Vec::with_capacity(alloc, 1)?;
        copies.push_reserved(first);
        let mut rows = Vec::with_capacity(alloc, 1)?;
        rows.push_reserved(row);
        let spare = Vec::with_capacity(alloc, 1)?;
        Ok(PairTable {
            alloc,
            copies,
            rows,
            spare,
        })
    }

    /// The copies by rising number. Each is Equal to itself. Takes no memory; O(1).
    pub fn copies(&self) -> &[u64]
        ensures copies { result.now ≡ self.now.copies }
        ensures rising { (i j : ℕ) → i < j → j < length self.now.copies → slice_index_or self.now.copies i 0 < slice_index_or self.now.copies j 0 }
        ensures itself { (copy : ℕ) → Contains self.now.copies copy → rel_of self.now copy copy ≡ Equal }
    {
        self.copies.as_slice()
    }

    /// Whether a copy is in the table. Takes no memory; O(log copies).
    pub fn contains(&self, copy: u64) -> bool
        ensures { IsTrue result ↔ Contains self.now.copies copy }
    {
        self.copies.as_slice().binary_search(&copy).is_ok()
    }

    /// Makes room for one more copy, so that the next `insert_like` or `insert_row` needs no memory.
    ///
    /// # Errors
    ///
    /// `AllocError` where an allocation failed; the table is then as it was.
    pub fn reserve(&mut self) -> Result<(), AllocError>
        ensures room { OnOk result (0 < self.new.room) }
        ensures more { self.old.room ≤ self.new.room }
        ensures copies { self.new.copies ≡ self.old.copies }
        ensures pairs { (a b : ℕ) → rel_of self.new a b ≡ rel_of self.old a b }
        ensures err { OnErr result (self.new ≡ self.old) }
    {
        if self.spare.len() > 0 {
            return Ok(());
        }
        let spare = Row::with_room(self.alloc, self.rows.len() + 1)?;
        self.copies.reserve(1)?;
        self.rows.reserve(1)?;
        self.spare.reserve(self.rows.len() + 1)?;
        rows::reserve(&mut self.rows)?;
        self.spare.push_reserved(spare);
        Ok(())
    }

    /// Puts in a copy that is Equal to another, and relates to the others as that one does, in room that was made by
    /// `reserve`. Takes no memory; O(copies) where it has the greatest number, else it moves what comes behind it.
    pub fn insert_like(&mut self, source: u64, new: u64)
        requires room { 0 < self.old.room }
        requires source { Contains self.old.copies source }
        requires new { ¬ Contains self.old.copies new }
        ensures copies { self.new.copies ≡ with_copy new self.old.copies }
        ensures pairs { Holds self.new (with_row new (rel_of self.old source) (rel_of self.old)) }
        ensures room { self.new.room + 1 ≡ self.old.room }
        ensures count { length self.new.copies ≡ length self.old.copies + 1 }
    {
        let from = self.place(source);
        let at = self.gap(new);
        let mut row = self.spare.pop().unwrap();
        row.extend(self.rows[from].as_slice());
        rows::put(&mut self.copies, &mut self.rows, at, new, row);
    }

    /// Puts in a copy that has these relations to the others, one for each in order, in room that was made by
    /// `reserve`. Takes no memory; O(copies) where it has the greatest number, else it moves what comes behind it.
    pub fn insert_row(&mut self, new: u64, rels: &[Rel])
        requires room { 0 < self.old.room }
        requires new { ¬ Contains self.old.copies new }
        requires long { length rels.now ≡ length self.old.copies }
        ensures copies { self.new.copies ≡ with_copy new self.old.copies }
        ensures pairs { Holds self.new (with_row new (rel_at self.old.copies rels.now) (rel_of self.old)) }
        ensures room { self.new.room + 1 ≡ self.old.room }
        ensures count { length self.new.copies ≡ length self.old.copies + 1 }
    {
        let at = self.gap(new);
        let mut row = self.spare.pop().unwrap();
        row.extend(rels);
        rows::put(&mut self.copies, &mut self.rows, at, new, row);
    }

    /// Records an edit of a copy: it is Newer than what it was Equal to or Newer than, and in Conflict with the rest.
    /// Takes no memory; O(copies).
    pub fn edited(&mut self, copy: u64)
        requires { Contains self.old.copies copy }
        ensures copies { self.new.copies ≡ self.old.copies }
        ensures pairs { Holds self.new (with_row copy (edited_row copy (rel_of self.old copy)) (rel_of self.old)) }
        ensures room { self.new.room ≡ self.old.room }
    {
        let at = self.place(copy);
        rows::edit_row(&mut self.rows[at], at);
        rows::mirror(&mut self.rows, at);
    }

    /// Puts other relations of a copy to the others, one for each other copy in order. Takes no memory; O(copies).
    pub fn set_row(&mut self, copy: u64, rels: &[Rel])
        requires lives { Contains self.old.copies copy }
        requires long { length rels.now + 1 ≡ length self.old.copies }
        ensures copies { self.new.copies ≡ self.old.copies }
        ensures pairs { Holds self.new (with_row copy (rel_at (without copy self.old.copies) rels.now) (rel_of self.old)) }
        ensures room { self.new.room ≡ self.old.room }
    {
        let at = self.place(copy);
        rows::fill_row(&mut self.rows[at], at, rels);
        rows::mirror(&mut self.rows, at);
    }

    /// Makes a copy relate to the others as another does, and Equal to that one. Takes no memory; O(copies).
    pub fn set_like(&mut self, source: u64, copy: u64)
        requires source { Contains self.old.copies source }
        requires copy { Contains self.old.copies copy }
        requires differ { source ≢ copy }
        ensures copies { self.new.copies ≡ self.old.copies }
        ensures pairs { Holds self.new (with_row copy (liked_row copy (rel_of self.old source)) (rel_of self.old)) }
        ensures room { self.new.room ≡ self.old.room }
    {
        let from = self.place(source);
        let at = self.place(copy);
        rows::set_like(self.alloc, &mut self.rows, from, at);
    }

    /// Takes a copy out, and leaves room for one more. Takes no memory; O(copies) where it has the greatest number,
    /// else it moves what comes behind it.
    pub fn drop_copy(&mut self, copy: u64)
        requires { Contains self.old.copies copy }
        ensures copies { self.new.copies ≡ without copy self.old.copies }
        ensures pairs { Holds self.new (rel_of self.old) }
        ensures room { self.new.room ≡ self.old.room + 1 }
        ensures count { length self.new.copies + 1 ≡ length self.old.copies }
    {
        let at = self.place(copy);
        self.copies.remove(at);
        let mut row = self.rows.remove(at);
        row.clear();
        self.spare.push_reserved(row);
        rows::close_column(&mut self.rows, at);
    }

    /// The relation of a copy to another. Takes no memory; O(log copies).
    pub fn rel(&self, a: u64, b: u64) -> Rel
        requires first { Contains self.now.copies a }
        requires second { Contains self.now.copies b }
        ensures value { result ≡ rel_of self.now a b }
        ensures reversed { rel_of self.now b a ≡ reverse_of result }
        ensures itself { a ≡ b → result ≡ Equal }
    {
        self.rows[self.place(a)].get(self.place(b))
    }

    /// How each copy relates to the others, which are the newest, and whether these are split. It visits each relation once, many at a
    /// time, and those of newest copies that are in conflict once more.
    ///
    /// # Errors
    ///
    /// `AllocError` where an allocation failed.
    pub fn board(&self) -> Result<PairBoard, AllocError>
        ensures counts { IfOk result (λ board. board.counts.items ≡ map (counts_of own_number (rel_of self.now) self.now.copies) self.now.copies) }
        ensures newest { IfOk result (λ board. board.newest.items ≡ newest_of own_number (rel_of self.now) self.now.copies) }
        ensures split { IfOk result (λ board. board.split ≡ is_split own_number (rel_of self.now) self.now.copies) }
    {
        let counts = rows::counts_of(self.alloc, &self.rows)?;
        let newest = self.newest(counts.as_slice())?;
        let split = rows::is_split(&self.rows, counts.as_slice());
        Ok(PairBoard {
            counts,
            newest,
            split,
        })
    }

    /// The copies to which none is newer, by rising number, where these are the counts of all. Fails only where memory runs out.
    fn newest(&self, counts: &[Counts]) -> Result<Vec<u64>, AllocError>
        requires { counts.now ≡ map (counts_of own_number (rel_of self.now) self.now.copies) self.now.copies }
        ensures { IfOk result (λ newest. newest.items ≡ newest_of own_number (rel_of self.now) self.now.copies) }
    {
        let mut newest = Vec::new(self.alloc);
        for at in 0..self.copies.len() {
            if counts[at].above == 0 {
                newest.push(self.copies[at])?;
            }
        }
        Ok(newest)
    }

    /// The relations of a copy to all copies in their order, to itself among them. Takes no memory; O(log copies).
    pub fn row(&self, copy: u64) -> &[Rel]
        requires { Contains self.now.copies copy }
        ensures rels { (other : ℕ) → rel_at self.now.copies result.now other ≡ rel_of self.now copy other }
        ensures long { length result.now ≡ length self.now.copies }
    {
        self.rows[self.place(copy)].as_slice()
    }

    /// The place of a copy among all copies. Takes no memory; O(log copies).
    fn place(&self, copy: u64) -> usize
        requires { Contains self.now.copies copy }
        ensures place { result ≡ place_of copy self.now.copies }
        ensures within { result < length self.now.copies }
    {
        self.copies.as_slice().binary_search(&copy).unwrap()
    }

    /// The place where a copy goes that isn't there. Takes no memory; O(log copies).
    fn gap(&self, copy: u64) -> usize
        requires { ¬ Contains self.now.copies copy }
        ensures { IsGap self.now.copies copy result }
    {
        self.copies.as_slice().binary_search(&copy).unwrap_err()
    }
}
