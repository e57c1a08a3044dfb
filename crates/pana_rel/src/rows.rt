//! The rows of all copies, by their places.
ghost use Rattle.std.specs.Prelude.{◌≡◌, ℕ, ◌+◌, ◌<◌, ◌≤◌, ◌↔◌, false, IfOk, OnOk, IsTrue, length, vec_len, vec_capacity, slice_index_or, slice_set};
ghost use Rattle.std.specs.List.{insert, remove};
ghost use Rattle.pana_event.specs.declared.rel.Rel.TheVariants.{Equal};
ghost use Rattle.pana_event.specs.Relation.{reverse_of};
ghost use Rattle.pana_rel.specs.Pairs.{edited_rel};
ghost use Rattle.pana_rel.specs.inner.Square.{row_in, AreAllCounted, AreInserted, AreSelfEqual, HaveRoom, IsTop, IsTorn, IsWide, Meets};

use crate::counts::Counts;
use crate::row::Row;
use pana_event::Rel;
use std::alloc::{AllocError, Global};
use std::mem;

/// How a copy that was edited relates to another, from how it did before.
fn edited(rel: Rel) -> Rel
    ensures { result ≡ edited_rel rel }
{
    match rel {
        Rel::Equal | Rel::Newer => Rel::Newer,
        Rel::Older | Rel::Conflict => Rel::Conflict,
    }
}

/// Makes a copy's row that of the copy after an edit; the copy is at this place.
pub(crate) fn edit_row(row: &mut Row, at: usize)
    ensures long { length row.new.items ≡ length row.old.items }
    ensures itself { slice_index_or row.new.items at Equal ≡ slice_index_or row.old.items at Equal }
    ensures room { row.new.room ≡ row.old.room }
    ensures others { (k : ℕ) → k < length row.old.items → ¬ (k ≡ at) → slice_index_or row.new.items k Equal ≡ edited_rel (slice_index_or row.old.items k Equal) }
{
    for k in 0..row.len() {
        if k != at {
            let rel = row.get(k);
            row.set(k, edited(rel));
        }
    }
}

/// Puts these relations to the others in a copy's row; the copy is at this place.
pub(crate) fn fill_row(row: &mut Row, at: usize, rels: &[Rel])
    requires long { length row.old.items ≡ length rels.now + 1 }
    requires itself { slice_index_or row.old.items at Equal ≡ Equal }
    requires within { at < length row.old.items }
    ensures items { row.new.items ≡ insert rels.now at Equal }
    ensures room { row.new.room ≡ row.old.room }
{
    for k in 0..row.len() {
        if k < at {
            row.set(k, rels[k]);
        } else if at < k {
            row.set(k, rels[k - 1]);
        }
    }
}

/// Makes each copy's relation to the one at this place the reverse of that one's to it.
pub(crate) fn mirror(rows: &mut [Row], at: usize)
    requires within { at < length rows.old }
    requires wide { IsWide rows.old }
    ensures tall { length rows.new ≡ length rows.old }
    ensures rooms { (i : ℕ) → (row_in rows.new i).room ≡ (row_in rows.old i).room }
    ensures own { (row_in rows.new at).items ≡ (row_in rows.old at).items }
    ensures others { (i : ℕ) → i < length rows.old → ¬ (i ≡ at) → (row_in rows.new i).items ≡ slice_set (row_in rows.old i).items at (reverse_of (slice_index_or (row_in rows.old at).items i Equal)) }
{
    for i in 0..rows.len() {
        if i != at {
            let rel = rows[at].get(i);
            rows[i].set(at, rel.reversed());
        }
    }
}

/// Makes the row at a place that of another place, but Equal to its own copy. Takes no memory.
fn copy_row(alloc: Global, rows: &mut [Row], from: usize, at: usize)
    requires from { from < length rows.old }
    requires at { at < length rows.old }
    requires differ { ¬ (from ≡ at) }
    requires wide { IsWide rows.old }
    ensures tall { length rows.new ≡ length rows.old }
    ensures rooms { (i : ℕ) → (row_in rows.new i).room ≡ (row_in rows.old i).room }
    ensures own { (row_in rows.new at).items ≡ slice_set (row_in rows.old from).items at Equal }
    ensures others { (i : ℕ) → ¬ (i ≡ at) → row_in rows.new i ≡ row_in rows.old i }
{
    let mut row = mem::replace(&mut rows[at], Row::empty(alloc));
    row.set_all(rows[from].as_slice(), at);
    rows[at] = row;
}

/// Makes the copy at a place relate to the others as that at another place does, and Equal to that one. Takes no memory.
pub(crate) fn set_like(alloc: Global, rows: &mut [Row], from: usize, at: usize)
    requires from { from < length rows.old }
    requires at { at < length rows.old }
    requires differ { ¬ (from ≡ at) }
    requires wide { IsWide rows.old }
    ensures tall { length rows.new ≡ length rows.old }
    ensures rooms { (i : ℕ) → (row_in rows.new i).room ≡ (row_in rows.old i).room }
    ensures own { (row_in rows.new at).items ≡ slice_set (row_in rows.old from).items at Equal }
    ensures others { (i : ℕ) → i < length rows.old → ¬ (i ≡ at) → (row_in rows.new i).items ≡ slice_set (row_in rows.old i).items at (reverse_of (slice_index_or (row_in rows.old from).items i Equal)) }
{
    copy_row(alloc, rows, from, at);
    mirror(rows, at);
}

/// Makes room in each row for one more relation. What fails changes no relation.
pub(crate) fn reserve(rows: &mut [Row]) -> Result<(), AllocError>
    requires { IsWide rows.old }
    ensures tall { length rows.new ≡ length rows.old }
    ensures same { (i : ℕ) → (row_in rows.new i).items ≡ (row_in rows.old i).items }
    ensures more { (i : ℕ) → (row_in rows.old i).room ≤ (row_in rows.new i).room }
    ensures room { OnOk result (HaveRoom (length rows.new + 1) rows.new) }
{
    for i in 0..rows.len() {
        rows[i].reserve()?;
    }
    Ok(())
}

/// Puts into each row the relation to one more copy, at its place: the reverse of that copy's to the row's.
fn open_column(rows: &mut [Row], at: usize, given: &Row)
    requires long { length given.now.items ≡ length rows.old }
    requires within { at ≤ length rows.old }
    requires rooms { HaveRoom (length rows.old + 1) rows.old }
    requires wide { IsWide rows.old }
    ensures tall { length rows.new ≡ length rows.old }
    ensures rows { (i : ℕ) → i < length rows.old → (row_in rows.new i).items ≡ insert (row_in rows.old i).items at (reverse_of (slice_index_or given.now.items i Equal)) }
    ensures more { (i : ℕ) → (row_in rows.old i).room ≤ (row_in rows.new i).room }
{
    for i in 0..rows.len() {
        rows[i].insert(at, given.get(i).reversed());
    }
}

/// Puts one more copy in at its place, with its relations to the others, in room that was made. Takes no memory.
pub(crate) fn put(copies: &mut Vec<u64>, rows: &mut Vec<Row>, at: usize, new: u64, given: Row)
    requires more_copies { vec_len copies.old < vec_capacity copies.old }
    requires more_rows { vec_len rows.old < vec_capacity rows.old }
    requires rooms { HaveRoom (length rows.old.items + 1) rows.old.items }
    requires room { length given.items < given.room }
    requires tall { length rows.old.items ≡ length copies.old.items }
    requires wide { IsWide rows.old.items }
    requires long { length given.items ≡ length copies.old.items }
    requires within { at ≤ length copies.old.items }
    ensures copies { copies.new.items ≡ insert copies.old.items at new }
    ensures rows { AreInserted rows.old.items rows.new.items at given.items }
    ensures rooms { (n : ℕ) → HaveRoom n rows.old.items → n ≤ given.room → HaveRoom n rows.new.items }
    ensures copies_len { vec_len copies.new ≡ vec_len copies.old + 1 }
    ensures rows_len { vec_len rows.new ≡ vec_len rows.old + 1 }
    ensures copies_room { vec_capacity copies.old ≤ vec_capacity copies.new }
    ensures rows_room { vec_capacity rows.old ≤ vec_capacity rows.new }
{
    open_column(rows, at, &given);
    let mut row = given;
    row.insert(at, Rel::Equal);
    copies.insert(at, new).unwrap();
    rows.insert(at, row).unwrap();
}

/// Takes the relation to the copy at this place out of each row.
pub(crate) fn close_column(rows: &mut [Row], at: usize)
    requires { (i : ℕ) → i < length rows.old → at < length (row_in rows.old i).items }
    ensures tall { length rows.new ≡ length rows.old }
    ensures rows { (i : ℕ) → i < length rows.old → (row_in rows.new i).items ≡ remove (row_in rows.old i).items at }
    ensures rooms { (i : ℕ) → i < length rows.old → (row_in rows.old i).room ≤ (row_in rows.new i).room }
{
    for i in 0..rows.len() {
        rows[i].remove(at);
    }
}

/// How many other copies are newer than each copy, older, equal and in conflict. Fails only where memory runs out.
pub(crate) fn counts_of(alloc: Global, rows: &[Row]) -> Result<Vec<Counts>, AllocError>
    requires wide { IsWide rows.now }
    requires itself { AreSelfEqual rows.now }
    ensures { IfOk result (λ counts. AreAllCounted rows.now counts.items) }
{
    let mut counts = Vec::with_capacity(alloc, rows.len())?;
    for at in 0..rows.len() {
        counts.push(rows[at].counts())?;
    }
    Ok(counts)
}

/// Whether no copy is newer than the one at this place.
fn is_newest(rows: &[Row], counts: &[Counts], at: usize) -> bool
    requires within { at < length rows.now }
    requires counted { AreAllCounted rows.now counts.now }
    ensures { IsTrue result ↔ IsTop (row_in rows.now at).items }
{
    counts[at].above == 0
}

/// Whether the copy at this place is in conflict with one to which none is newer. Takes no memory; visits its relations.
fn meets_newest(rows: &[Row], counts: &[Counts], at: usize) -> bool
    requires within { at < length rows.now }
    requires wide { IsWide rows.now }
    requires counted { AreAllCounted rows.now counts.now }
    ensures { IsTrue result ↔ Meets rows.now at }
{
    for other in 0..rows.len() {
        if rows[at].get(other) == Rel::Conflict && is_newest(rows, counts, other) {
            return true;
        }
    }
    false
}

/// Whether the copy at this place is in conflict with any.
fn has_conflict(rows: &[Row], counts: &[Counts], at: usize) -> bool
    requires within { at < length rows.now }
    requires wide { IsWide rows.now }
    requires counted { AreAllCounted rows.now counts.now }
    ensures { result ≡ false → ¬ Meets rows.now at }
{
    counts[at].conflict > 0
}

/// Whether to the copy at this place none is newer, and it is in conflict with another such copy.
fn is_torn_at(rows: &[Row], counts: &[Counts], at: usize) -> bool
    requires within { at < length rows.now }
    requires wide { IsWide rows.now }
    requires counted { AreAllCounted rows.now counts.now }
    ensures yes { IsTrue result → IsTop (row_in rows.now at).items × Meets rows.now at }
    ensures no { result ≡ false → IsTop (row_in rows.now at).items → ¬ Meets rows.now at }
{
    is_newest(rows, counts, at) && has_conflict(rows, counts, at) && meets_newest(rows, counts, at)
}

/// Whether two copies are in conflict to which none is newer. Takes no memory; visits the relations of the newest copies that are in
/// conflict with any, up to the first two that are so with each other.
pub(crate) fn is_split(rows: &[Row], counts: &[Counts]) -> bool
    requires wide { IsWide rows.now }
    requires counted { AreAllCounted rows.now counts.now }
    ensures { IsTrue result ↔ IsTorn rows.now }
{
    for at in 0..rows.len() {
        if is_torn_at(rows, counts, at) {
            return true;
        }
    }
    false
}
