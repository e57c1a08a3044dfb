//! The table of relations after two copies have come to share what both know.
ghost use Rattle.std.specs.Prelude.{◌≡◌, ◌≢◌, ℕ, ◌+◌, ◌<◌, ◌^◌, ◌∷◌, [], ◌≤◌, nat_lt, if◌then◌else◌, true, None, List, Contains, length, take, filter};
ghost use Rattle.pana_event.specs.Order.{IsBelow, is_leq};
ghost use Rattle.pana_rel.specs.Pairs.{rel_of};
ghost use Rattle.pana_family.specs.declared.row.StampRow.{StampRow as RowValue};
ghost use Rattle.pana_family.specs.{Paired.ArePaired, Rows.AreSound, Rows.IsRising, Rows.copy_rows, Rows.lives, Table.In};
ghost use Rattle.pana_family.specs.inner.Comparing.{AreCompared, HasCopies, is_other, most, relations, row_relation};
ghost use Rattle.pana_family.specs.inner.Uniting.{AreUnited, IsDecided, IsUniting, are_below, is_at_least, is_at_most, is_one_above};

use crate::comparing::is_other;
use crate::ordering::{is_leq, relation_of};
use crate::row::StampRow;
use crate::searching::index_of;
use crate::stamps::all_valid;
use pana_event::Rel;
use pana_rel::PairTable;

/// Whether a copy that relates so to another knows no more than that one.
fn is_at_most(rel: Rel) -> bool
    ensures { result ≡ is_at_most rel }
{
    match rel {
        Rel::Equal | Rel::Older => true,
        Rel::Newer | Rel::Conflict => false,
    }
}

/// Whether it knows all that the other does.
fn is_at_least(rel: Rel) -> bool
    ensures { result ≡ is_at_least rel }
{
    match rel {
        Rel::Equal | Rel::Newer => true,
        Rel::Older | Rel::Conflict => false,
    }
}

/// Whether the first row's copy knows all that the second's does, which may be known. Else their stamps are compared.
#[tactic(auto, using(crate::proofs::United::tested_above))]
fn is_above(first: &StampRow, second: &StampRow, known: bool) -> bool
    requires { known ≡ true → IsBelow second.now.stamp.event first.now.stamp.event }
    ensures { result ≡ is_leq second.now.stamp.event first.now.stamp.event }
{
    let _ = first.stamp.event_tree().node();
    let _ = second.stamp.event_tree().node();
    if known {
        return true;
    }
    is_leq(&second.stamp, &first.stamp)
}

/// How the first row's copy relates to the second's, where it is known whether it knows no more, and may be known that it
/// knows all that the second does.
fn decided_relation(first: &StampRow, second: &StampRow, below: bool, above: bool) -> Rel
    requires { IsDecided first.now.stamp.event second.now.stamp.event below above }
    ensures { result ≡ row_relation first.now second.now }
{
    let _ = first.stamp.event_tree().node();
    let _ = second.stamp.event_tree().node();
    relation_of(below, is_above(first, second, above))
}

/// How a copy relates to one that knows the same.
#[tactic(auto, using(crate::proofs::United::tested_same))]
fn same_relation(first: &StampRow, second: &StampRow) -> Rel
    requires { first.now.stamp.event ≡ second.now.stamp.event }
    ensures { result ≡ row_relation first.now second.now }
{
    let _ = first.stamp.event_tree().node();
    let _ = second.stamp.event_tree().node();
    Rel::Equal
}

/// How the copy of a row that was united with `b` relates to another, to which the one related as `first` and `b` as `second`.
fn united_relation(
    row: &StampRow,
    other: &StampRow,
    b: u64,
    first: Rel,
    second: Rel,
    updated: bool,
) -> Rel
    requires same { other.now.copy ≡ b → row.now.stamp.event ≡ other.now.stamp.event }
    requires decided { other.now.copy ≢ b → IsDecided row.now.stamp.event other.now.stamp.event (are_below updated first second) (is_one_above first second) }
    ensures { result ≡ row_relation row.now other.now }
{
    if other.copy == b {
        return same_relation(row, other);
    }
    let below = !updated && is_at_most(first) && is_at_most(second);
    let above = is_at_least(first) || is_at_least(second);
    decided_relation(row, other, below, above)
}

/// The place of another row's copy among all copies, which are in the order of their rows, where so many but this row's own
/// come before it.
fn place_behind(row: &StampRow, other: &StampRow, others: usize) -> usize
    requires { others + 1 < 2 ^ 64 }
    ensures { result ≡ others + (if nat_lt row.now.copy other.now.copy then 1 else 0) }
{
    if row.copy < other.copy {
        others + 1
    } else {
        others
    }
}

/// Writes down how the copy of a row that was united with `b` relates to the other copies, in their order. Returns how
/// many they are.
fn write_united(
    rows: &[StampRow],
    row: &StampRow,
    b: u64,
    pairs: &PairTable,
    updated: bool,
    rels: &mut [Rel],
) -> usize
    requires room { length (filter (is_other row.now.copy) rows.now) ≤ length rels.old }
    requires rising { IsRising 0 rows.now }
    requires copies { HasCopies rows.now pairs.now }
    requires here { In row.now rows.now }
    requires free { row.now.holder ≡ None }
    requires lives { lives rows.now b ≡ true }
    requires united { AreUnited updated row.now.copy b rows.now pairs.now }
    ensures within { result ≤ length rels.new }
    ensures rels { take result rels.new ≡ relations row.now rows.now }
{
    let _ = pairs.copies();
    let first = pairs.row(row.copy);
    let second = pairs.row(b);
    let mut count = 0;
    for other in rows {
        if is_other(other, row.copy) {
            let at = place_behind(row, other, count);
            rels[count] = united_relation(row, other, b, first[at], second[at], updated);
            count += 1;
        }
    }
    count
}

/// Sets the relations of `a`, which was united with `b`, to the others. Takes no memory; for each other copy it compares
/// stamps at most once, one way, and only where neither of the two knew all that the other copy does.
fn set_united(rows: &[StampRow], pairs: &mut PairTable, a: u64, b: u64, updated: bool)
    requires first { lives rows.now a ≡ true }
    requires second { lives rows.now b ≡ true }
    requires few { length (copy_rows rows.now) ≤ 256 }
    requires rising { IsRising 0 rows.now }
    requires copies { HasCopies rows.now pairs.old }
    requires united { AreUnited updated a b rows.now pairs.old }
    ensures copies { pairs.new.copies ≡ pairs.old.copies }
    ensures room { pairs.new.room ≡ pairs.old.room }
    ensures rels { (but : List ℕ) → AreCompared (a ∷ but) rows.now pairs.old → AreCompared but rows.now pairs.new }
{
    all_valid(rows);
    let _ = pairs.copies();
    let row = &rows[index_of(rows, a)];
    let mut rels = [Rel::Equal; 256];
    let count = write_united(rows, row, b, pairs, updated, &mut rels);
    pairs.set_row(a, &rels[..count]);
}

/// Makes `b` relate to the others as `a` does, which knows the same. Takes no memory, and compares no stamps.
fn set_like(rows: &[StampRow], pairs: &mut PairTable, a: u64, b: u64)
    requires first { lives rows.now a ≡ true }
    requires second { lives rows.now b ≡ true }
    requires differ { a ≢ b }
    requires rising { IsRising 0 rows.now }
    requires copies { HasCopies rows.now pairs.old }
    requires rels { AreCompared (b ∷ []) rows.now pairs.old }
    requires same { (x y : RowValue) → In x rows.now → In y rows.now → x.copy ≡ a → y.copy ≡ b → x.stamp.event ≡ y.stamp.event }
    ensures paired { ArePaired rows.now pairs.new }
    ensures room { most pairs.new ≡ most pairs.old }
{
    let _ = pairs.copies();
    pairs.set_like(a, b);
}

/// Makes the table that of the rows, in which `a` and `b` have come to share what both know, and an update besides where
/// that is said. Takes no memory; compares stamps at most once for each other copy, one way.
pub fn follow_union(rows: &[StampRow], pairs: &mut PairTable, a: u64, b: u64, updated: bool)
    requires few { length (copy_rows rows.now) ≤ 256 }
    requires rising { IsRising 0 rows.now }
    requires uniting { IsUniting updated a b rows.now pairs.old }
    ensures paired { ArePaired rows.now pairs.new }
    ensures room { most pairs.new ≡ most pairs.old }
{
    set_united(rows, pairs, a, b, updated);
    set_like(rows, pairs, a, b);
}
