//! Finding rows.
ghost use Rattle.std.specs.Prelude.{◌≡◌, ◌<◌, ◌==◌, ◌&&◌, true, Some, None, IfSome, IfNone, length, nat_le, position, slice_index_or, count_by, IsTrue, ◌↔◌};
ghost use Rattle.std.specs.List.{position_or_len, list_all};
ghost use Rattle.pana_family.specs.declared.row.StampRow.{StampRow as RowValue};
ghost use Rattle.pana_family.specs.Rows.{row_at, IsRising, lives, copy_rows, held_rows, AreBefore, is_below};
ghost use Rattle.pana_family.specs.{inner.Making.IsRowOf, Holders.is_copy, Holders.is_held};

use crate::row::StampRow;

/// Whether the row is a copy's, and not a parcel's.
pub fn is_copy(row: &StampRow) -> bool
    ensures { result ≡ is_copy row.now.holder }
{
    match row.holder {
        None => true,
        Some(_) => false,
    }
}

/// Whether the row is a parcel's that the copy holds.
pub fn is_held(row: &StampRow, copy: u64) -> bool
    ensures { result ≡ is_held copy row.now.holder }
{
    match row.holder {
        None => false,
        Some(holder) => holder == copy,
    }
}

/// Whether the copy lives.
pub fn lives(rows: &[StampRow], copy: u64) -> bool
    ensures { result ≡ lives rows.now copy }
{
    rows.iter().any(|row| row.copy == copy && is_copy(row))
}

/// The position of the row with this number, if there is one.
pub fn position_of(rows: &[StampRow], copy: u64) -> Option<usize>
    ensures { result ≡ position (λ row. row.copy == copy) rows.now }
{
    rows.iter().position(|row| row.copy == copy)
}

/// The position of the row with this number, if there is one, among rising rows.
pub fn row_position(rows: &[StampRow], copy: u64) -> Option<usize>
    requires { IsRising 0 rows.now }
    ensures some { IfSome result (λ at. (at < length rows.now) × ((d : RowValue) → row_at rows.now copy ≡ Some (slice_index_or rows.now at d))) }
    ensures none { IfNone result (row_at rows.now copy ≡ None) }
{
    position_of(rows, copy)
}

fn living_position(rows: &[StampRow], copy: u64) -> Option<usize>
    ensures { result ≡ position (λ row. row.copy == copy && is_copy row.holder) rows.now }
{
    rows.iter().position(|row| row.copy == copy && is_copy(row))
}

/// The position of a living copy's row.
#[tactic(auto, using(crate::proofs::Places::first_found, crate::proofs::Places::first_within, crate::proofs::Places::first_holds, crate::proofs::Places::free_from))]
pub fn index_of(rows: &[StampRow], copy: u64) -> usize
    requires { lives rows.now copy ≡ true }
    ensures within { result < length rows.now }
    ensures here { (d : RowValue) → (slice_index_or rows.now result d).copy ≡ copy }
    ensures free { (d : RowValue) → (slice_index_or rows.now result d).holder ≡ None }
{
    living_position(rows, copy).unwrap()
}

/// A living copy's row.
#[tactic(auto, using(crate::proofs::Places::in_read, crate::proofs::Places::row_found))]
pub fn row_of(rows: &[StampRow], copy: u64) -> &StampRow
    requires living { lives rows.now copy ≡ true }
    requires rising { IsRising 0 rows.now }
    ensures { IsRowOf rows.now copy result.now }
{
    &rows[index_of(rows, copy)]
}

fn first_from(rows: &[StampRow], copy: u64) -> Option<usize>
    ensures { result ≡ position (λ row. nat_le copy row.copy) rows.now }
{
    rows.iter().position(|row| row.copy >= copy)
}

/// The first position at which a row with this number is or would be.
pub fn index_from(rows: &[StampRow], copy: u64) -> usize
    ensures { result ≡ position_or_len (λ row. nat_le copy row.copy) rows.now }
{
    match first_from(rows, copy) {
        Some(at) => at,
        None => rows.len(),
    }
}

/// How many parcels the copy holds.
pub fn held_count(rows: &[StampRow], copy: u64) -> usize
    ensures { result ≡ held_rows copy rows.now }
{
    rows.iter().filter(|row| is_held(row, copy)).count()
}

fn counted(rows: &[StampRow]) -> usize
    ensures { result ≡ count_by (λ row. is_copy row.holder) rows.now }
{
    rows.iter().filter(|row| is_copy(row)).count()
}

/// How many rows are copies'.
#[tactic(auto, using(crate::proofs::Backs::count_is))]
pub fn count_copies(rows: &[StampRow]) -> usize
    ensures { result ≡ length (copy_rows rows.now) }
{
    counted(rows)
}

fn is_before(row: &StampRow, entry: u64) -> bool
    ensures { result ≡ is_below entry row.now }
{
    row.copy < entry && row.touch < entry
}

/// Whether the entry is greater than each number and touch.
pub fn are_before(rows: &[StampRow], entry: u64) -> bool
    ensures { IsTrue result ↔ AreBefore entry rows.now }
{
    all_before(rows, entry)
}

fn all_before(rows: &[StampRow], entry: u64) -> bool
    ensures { result ≡ list_all (is_below entry) rows.now }
{
    rows.iter().all(|row| is_before(row, entry))
}
