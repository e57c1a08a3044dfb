//! The table of relations follows the rows.
ghost use Rattle.std.specs.Prelude.{◌≡◌, ◌<◌, ◌≤◌, ◌+◌, ◌∷◌, ℕ, [], true, List, length, take, map, filter, Contains, IfSome};
ghost use Rattle.pana_rel.specs.Pairs.{Holds, rel_at, rel_of, with_copy, with_row};
ghost use Rattle.pana_family.specs.{Change.after, Change.number_of, Rows.IsRising, Rows.lives, Rows.copy_rows, Paired.ArePaired, Report.IsMade};
ghost use Rattle.pana_family.specs.inner.Comparing.{AreCompared, HasCopies, IsFollowed, is_other, most, relations, row_relation};

use crate::change::{Change, Exchange, number_of};
use crate::ordering::compare;
use crate::report::FamilyReport;
use crate::row::StampRow;
use crate::searching::{index_of, is_copy, lives};
use crate::stamps::all_valid;
use crate::uniting::follow_union;
use pana_event::Rel;
use pana_rel::PairTable;

/// How the first row's copy relates to the second's.
fn row_relation(first: &StampRow, second: &StampRow) -> Rel
    ensures { result ≡ row_relation first.now second.now }
{
    compare(&first.stamp, &second.stamp)
}

pub fn is_other(row: &StampRow, copy: u64) -> bool
    ensures { result ≡ is_other copy row.now }
{
    is_copy(row) && row.copy != copy
}

/// Writes down how the row's copy relates to the other copies, in their order. Returns how many they are.
fn write_relations(rows: &[StampRow], row: &StampRow, rels: &mut [Rel]) -> usize
    requires { length (filter (is_other row.now.copy) rows.now) ≤ length rels.old }
    ensures within { result ≤ length rels.new }
    ensures rels { take result rels.new ≡ relations row.now rows.now }
{
    let mut count = 0;
    for other in rows {
        if is_other(other, row.copy) {
            rels[count] = row_relation(row, other);
            count += 1;
        }
    }
    count
}

/// Sets a living copy's relations to the others by comparing stamps. Takes no memory; a comparison for each copy.
fn compare_copy(rows: &[StampRow], pairs: &mut PairTable, copy: u64)
    requires lives { lives rows.now copy ≡ true }
    requires few { length (copy_rows rows.now) ≤ 256 }
    requires rising { IsRising 0 rows.now }
    requires copies { HasCopies rows.now pairs.old }
    ensures copies { pairs.new.copies ≡ pairs.old.copies }
    ensures room { pairs.new.room ≡ pairs.old.room }
    ensures rels { (but : List ℕ) → AreCompared (copy ∷ but) rows.now pairs.old → AreCompared but rows.now pairs.new }
{
    all_valid(rows);
    let _ = pairs.copies();
    let row = &rows[index_of(rows, copy)];
    let mut rels = [Rel::Equal; 256];
    let count = write_relations(rows, row, &mut rels);
    pairs.set_row(copy, &rels[..count]);
}

/// Sets the relations of those copies at these numbers that live. Takes no memory.
fn compare_copies(rows: &[StampRow], pairs: &mut PairTable, news: &[Exchange])
    requires few { length (copy_rows rows.now) ≤ 256 }
    requires rising { IsRising 0 rows.now }
    requires followed { IsFollowed [] [] (map number_of news.now) rows.now pairs.old }
    ensures paired { ArePaired rows.now pairs.new }
    ensures room { most pairs.new ≡ most pairs.old }
{
    for new in news {
        let copy = number_of(new);
        if lives(rows, copy) {
            compare_copy(rows, pairs, copy);
        }
    }
}

/// Puts a copy in, with the first of these relations to the others. Takes no memory.
fn put_row(pairs: &mut PairTable, copy: u64, rels: &[Rel])
    requires room { 0 < pairs.old.room }
    requires new { ¬ Contains pairs.old.copies copy }
    requires long { length pairs.old.copies ≤ length rels.now }
    ensures copies { pairs.new.copies ≡ with_copy copy pairs.old.copies }
    ensures pairs { Holds pairs.new (with_row copy (rel_at pairs.old.copies (take (length pairs.old.copies) rels.now)) (rel_of pairs.old)) }
    ensures room { most pairs.new ≡ most pairs.old }
{
    let count = pairs.copies().len();
    pairs.insert_row(copy, &rels[..count]);
}

/// Puts a copy in that lives and isn't there, with some relations to the others. Takes no memory.
fn put_in(rows: &[StampRow], pairs: &mut PairTable, copy: u64)
    requires few { length (copy_rows rows.now) ≤ 256 }
    requires rising { IsRising 0 rows.now }
    requires room { length (copy_rows rows.now) ≤ most pairs.old }
    requires inside { (c : ℕ) → Contains pairs.old.copies c → lives rows.now c ≡ true }
    ensures followed { (coming but : List ℕ) → IsFollowed [] (copy ∷ coming) but rows.now pairs.old → IsFollowed [] coming but rows.now pairs.new }
    ensures room { most pairs.new ≡ most pairs.old }
{
    if !lives(rows, copy) || pairs.copies().contains(&copy) {
        return;
    }
    put_row(pairs, copy, &[Rel::Equal; 256]);
}

/// Puts the copies in at these numbers that live and aren't there. Takes no memory.
fn put_coming(rows: &[StampRow], pairs: &mut PairTable, news: &[Exchange])
    requires few { length (copy_rows rows.now) ≤ 256 }
    requires rising { IsRising 0 rows.now }
    requires room { length (copy_rows rows.now) ≤ most pairs.old }
    requires followed { IsFollowed [] (map number_of news.now) (map number_of news.now) rows.now pairs.old }
    ensures followed { IsFollowed [] [] (map number_of news.now) rows.now pairs.new }
    ensures room { most pairs.new ≡ most pairs.old }
{
    for new in news {
        put_in(rows, pairs, number_of(new));
    }
}

/// Takes a copy out that doesn't live. Takes no memory.
fn take_out(rows: &[StampRow], pairs: &mut PairTable, copy: u64)
    ensures followed { (gone coming but : List ℕ) → IsFollowed (copy ∷ gone) coming but rows.now pairs.old → IsFollowed gone coming but rows.now pairs.new }
    ensures room { most pairs.new ≡ most pairs.old }
{
    if pairs.copies().contains(&copy) && !lives(rows, copy) {
        pairs.drop_copy(copy);
    }
}

/// Takes the copies out at these numbers that don't live. Takes no memory.
fn drop_gone(rows: &[StampRow], pairs: &mut PairTable, news: &[Exchange])
    ensures followed { (coming but : List ℕ) → IsFollowed (map number_of news.now) coming but rows.now pairs.old → IsFollowed [] coming but rows.now pairs.new }
    ensures room { most pairs.new ≡ most pairs.old }
{
    for new in news {
        take_out(rows, pairs, number_of(new));
    }
}

/// Makes the table that of the rows, once these changed at the numbers of the exchanges. Takes no memory; compares the
/// stamps of the copies there with all others.
pub fn follow(rows: &[StampRow], pairs: &mut PairTable, news: &[Exchange])
    requires few { length (copy_rows rows.now) ≤ 256 }
    requires rising { IsRising 0 rows.now }
    requires room { length (copy_rows rows.now) ≤ most pairs.old }
    requires followed { IsFollowed (map number_of news.now) (map number_of news.now) (map number_of news.now) rows.now pairs.old }
    ensures paired { ArePaired rows.now pairs.new }
    ensures room { most pairs.new ≡ most pairs.old }
{
    drop_gone(rows, pairs, news);
    put_coming(rows, pairs, news);
    compare_copies(rows, pairs, news);
}

/// Makes the table that of the rows, which this change would take back. Takes no memory.
#[tactic(auto, using(crate::proofs::Following::followed_back, crate::proofs::Following::all_followed, crate::proofs::Following::has_copies))]
fn follow_back(rows: &[StampRow], pairs: &mut PairTable, back: &Change)
    requires few { length (copy_rows rows.now) ≤ 256 }
    requires rising { IsRising 0 rows.now }
    requires room { length (copy_rows rows.now) ≤ most pairs.old }
    requires paired { ArePaired (after back.now rows.now) pairs.old }
    ensures paired { ArePaired rows.now pairs.new }
    ensures room { most pairs.new ≡ most pairs.old }
{
    match back {
        Change::Event(copy, _, _) => follow(rows, pairs, &[Exchange::Take(*copy)]),
        Change::Touch(_, _) => {}
        Change::Rows(news) => follow(rows, pairs, news.as_slice()),
    }
}

/// Makes the table that of the rows, which this change would take back, where a report made them. Takes no memory; for a
/// Reconcile and a Merge it compares stamps at most once for each other copy, one way, and for all else none.
fn follow_report(
    rows: &[StampRow],
    pairs: &mut PairTable,
    back: &Change,
    entry: u64,
    report: FamilyReport,
)
    requires few { length (copy_rows rows.now) ≤ 256 }
    requires rising { IsRising 0 rows.now }
    requires room { length (copy_rows rows.now) ≤ most pairs.old }
    requires paired { ArePaired (after back.now rows.now) pairs.old }
    requires made { IsMade entry report (after back.now rows.now) rows.now }
    ensures paired { ArePaired rows.now pairs.new }
    ensures room { most pairs.new ≡ most pairs.old }
{
    let _ = pairs.copies();
    match report {
        FamilyReport::Edit(copy) => pairs.edited(copy),
        FamilyReport::Duplicate(source) => pairs.insert_like(source, entry),
        FamilyReport::Reconcile(a, b) => follow_union(rows, pairs, a, b, false),
        FamilyReport::Merge(a, b) => follow_union(rows, pairs, a, b, true),
        FamilyReport::Remove(copy, _) => pairs.drop_copy(copy),
        FamilyReport::Touch(_) => follow_back(rows, pairs, back),
    }
}

/// The same, where it is known whether a report made them.
#[tactic(auto, using(crate::proofs::Following::made_of))]
pub fn follow_change(
    rows: &[StampRow],
    pairs: &mut PairTable,
    back: &Change,
    made: Option<(u64, FamilyReport)>,
)
    requires few { length (copy_rows rows.now) ≤ 256 }
    requires rising { IsRising 0 rows.now }
    requires room { length (copy_rows rows.now) ≤ most pairs.old }
    requires paired { ArePaired (after back.now rows.now) pairs.old }
    requires made { IfSome made (λ m. IsMade m.0 m.1 (after back.now rows.now) rows.now) }
    ensures paired { ArePaired rows.now pairs.new }
    ensures room { most pairs.new ≡ most pairs.old }
{
    match made {
        Some((entry, report)) => follow_report(rows, pairs, back, entry, report),
        None => follow_back(rows, pairs, back),
    }
}
