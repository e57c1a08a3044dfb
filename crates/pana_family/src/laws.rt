//! What holds of rows, sets and relations, for the proofs of those who keep tables.
ghost use Rattle.std.specs.Prelude.{◌≡◌, ◌<◌, ◌||◌, ◌^◌, ℕ, List};
ghost use Rattle.pana_family.specs.declared.report.FamilyReport.{FamilyReport as Report};
ghost use Rattle.pana_family.specs.declared.row.StampRow.{StampRow as RowValue};
ghost use Rattle.pana_family.specs.{After.reported_rows, Kept.AreMatched, Kept.IsKept, laws.Relations.RelatesSets, Report.CanReport};
ghost use Rattle.pana_family.specs.{Report.IsReported, Rows.AreBefore, Rows.AreSound, Stands.StandsFor, Table.Known, Updates.has, Updates.union};

/// Two copies are equal, one is obsolete, or they are in conflict, by the members of their sets alone.
#[tactic(auto, using(crate::proofs::Relations::relates))]
pub fn relation_is_that_of_sets()
    ensures { (a b : List ℕ) → RelatesSets a b }
{}

/// The members of two sets together are those of either.
#[tactic(auto, using(crate::proofs::Unions::union_members))]
pub fn union_is_of_sets()
    ensures { (a b : List ℕ) (update : ℕ) → has (union a b) update ≡ (has a update || has b update) }
{}

/// The rows after a report that can be made are kept, own the same points where no copy is lost, get at most one deeper with a
/// Duplicate and no deeper with any other, and stand for the report's change of each table that the rows before stand for.
#[tactic(auto, using(crate::proofs::Exacts::report_law))]
pub fn report_is_of_sets()
    ensures { (n : ℕ) (report : Report) (rows : List RowValue) → n < 2 ^ 64 → IsKept rows → AreSound rows → CanReport report rows → AreBefore n rows → IsReported n report rows (reported_rows n report rows) }
{}

/// Rows have the copies of each table that they stand for, and each parcel there is held by a copy that lacks some of its set.
pub fn rows_match_their_tables()
    ensures { (rows : List RowValue) (table : List Known) → IsKept rows → StandsFor rows table → AreMatched rows table }
{}
