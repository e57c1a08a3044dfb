//! What holds of every run, and of the relation of two sets: functions that do nothing, whose contracts are the laws.
//! A family's last 8 entries are pending; `table 8 k family journal` is the family's living copies with the last k
//! pending entries left out.

ghost use Rattle.std.specs.Prelude.{◌≡◌, ◌≢◌, ℕ, ◌+◌, ◌≤◌, List, [], ◌∷◌, ◌++◌, ◌==◌, length, find, count_by, option_and_then, option_map, if◌then◌else◌, Some, true};
ghost use Rattle.std.specs.Prelude.{Option, false};
ghost use Rattle.std.specs.{Bool.then_some, List.AllByRecursion, List.list_any, Str.bytes_eq};
ghost use Rattle.pana_copies.specs.declared.place.Place.{Place};
ghost use Rattle.pana_journal.specs.{declared.report.Report.TheVariants.Register, declared.report.Report.TheVariants.Confirm};
ghost use Rattle.pana_journal.specs.{declared.report.Report.TheVariants.Withdraw, declared.entry.Entry.Entry, Entries.entry_at};
ghost use Rattle.pana_family.specs.{Table.AreBelow, Table.IsAbove, Table.registered, Stands.StandsFor, Updates.has};
ghost use Rattle.pana_hall.specs.{laws.Sets.knowns_of, laws.Sets.sets_at, StampRows.stamp_rows, Effective.effective, Effective.is_of_copies};
ghost use Rattle.pana_hall.specs.{Effective.left_out, Board.board_of, Board.is_of, Refusal.brought_back, Refusal.displaced, Refusal.too_deep};
ghost use Rattle.pana_hall.specs.{Run.Exchange, Run.IsRun, Run.journal_from, laws.Tables.table, laws.Tables.tables, Accepted.Accepts};
ghost use Rattle.pana_hall.specs.{Accepted.IsAccepted};
ghost use Rattle.pana_calls.specs.{declared.cause.Cause.TheVariants.OutOfMemory, declared.cause.Cause.TheVariants.TooDeep};
ghost use Rattle.pana_hall.specs.{declared.load_fault.LoadFault.LoadFault, declared.load_fault.LoadCause.TheVariants.Refused, Load.IsLoadFault};
ghost use Rattle.pana_hall.specs.Family.{entries_of, families, is_family, is_register};
ghost use Rattle.pana_journal.specs.Reports.{subject};
ghost use Rattle.pana_hall.specs.Living.{Copy, copies_of, copy_in, known_to, living, number_of};
ghost use Rattle.pana_hall.specs.Pending.{is_last, last, pend, pending};
ghost use Rattle.pana_hall.specs.Queries.{begun, family_row, holding, holdings};
ghost use Rattle.pana_rel.specs.Board.{counts_of};
ghost use Rattle.pana_family.specs.{Board.known_relation, Board.number_of as board_number, Table.In};
ghost use Rattle.pana_hall.specs.{Board.sets_of, Status.counts_among, Status.is_asked, Status.standing_of, Status.state_among, Status.status_row, Status.status_rows};
ghost use Rattle.pana_hall.specs.laws.Advice.{Advises, IsInState, KnowsMost, Reach};
ghost use Rattle.pana_hall.specs.laws.Layers.{AddsLayer, AddsSets, duplicates_in, AreApart, AreMerged, AreRising, DropsLayer, IsOrderly, KeepsLayers, LeavesAlone, family_of_next};

/// After every run no two living copies have one place, their numbers rise, none is above that of the last entry, and
/// each copy is of its entry's family. Entries that are withdrawn are no exception.
#[tactic(auto, using(crate::proofs::Runs::run_accepted, crate::proofs::Runs::orderly))]
pub fn every_run_is_orderly()
    ensures { (run : List Exchange) → IsRun run → IsOrderly (journal_from [] run) }
{}

/// The journal of a run refuses none of its entries, and each such journal is that of a run.
#[tactic(auto, using(crate::proofs::Runs::run_accepted, crate::proofs::Runs::run_of_accepted))]
pub fn accepted_are_those_of_runs()
    ensures accepted { (run : List Exchange) → IsRun run → IsAccepted 8 (journal_from [] run) }
    ensures of_run { (journal : List Entry) → IsAccepted 8 journal → (run : List Exchange) × IsRun run × (journal_from [] run ≡ journal) }
{}

/// The entries of a hall's journal load, unless memory runs out.
pub fn own_entries_load()
    ensures { (entries : List Entry) (fault : LoadFault) → IsAccepted 8 entries → IsLoadFault entries fault → fault.cause ≡ Refused OutOfMemory }
{}

/// A family's tables are what its own entries make, the others left out.
pub fn own_entries_make_the_tables()
    ensures { (journal : List Entry) (k family : ℕ) → IsAccepted 8 journal
        → table 8 k family journal ≡ copies_of (left_out (last k (pending 8 family journal)) (entries_of family (families journal) (effective journal))) }
{}

/// A report of copies changes its family's table as it says. With one pending entry more left out, the table is the
/// one from before with one less.
#[tactic(auto, using(crate::proofs::Sound::accepted_is_sound, crate::proofs::Tables::adds_layer, crate::proofs::Sound::sound_grows))]
pub fn report_adds_a_layer()
    ensures { (journal : List Entry) (entry : Entry) → IsAccepted 8 journal → Accepts 8 journal entry
        → is_of_copies entry.report ≡ true → AddsLayer 8 (family_of_next journal entry) journal entry }
{}

/// A Withdraw takes its family back by one entry.
pub fn withdraw_drops_a_layer()
    ensures { (journal : List Entry) (entry : Entry) (m : ℕ) → IsAccepted 8 journal → Accepts 8 journal entry
        → entry.report ≡ Withdraw m → DropsLayer 8 (family_of_next journal entry) journal entry }
{}

/// A Confirm leaves its family's tables, as far back as entries stay pending.
pub fn confirm_keeps_layers()
    ensures { (journal : List Entry) (entry : Entry) (m : ℕ) → IsAccepted 8 journal → Accepts 8 journal entry
        → entry.report ≡ Confirm m → KeepsLayers 8 (family_of_next journal entry) journal entry }
{}

/// What a family with its parcels stands for goes by the report: its table of sets is changed as the report says, and leaving out
/// one pending entry more gives the table from before; a Withdraw takes it back by an entry, a Confirm leaves it as far back as
/// entries stay pending, and no entry changes it for another family. A Register begins a family. All numbers in a family's table
/// are below that of the next entry.
pub fn sets_go_by_report()
    ensures report { (journal : List Entry) (entry : Entry) → IsAccepted 8 journal → Accepts 8 journal entry → is_of_copies entry.report ≡ true
        → AddsSets (family_of_next journal entry) journal entry }
    ensures withdraw { (journal : List Entry) (entry : Entry) (m k : ℕ) → IsAccepted 8 journal → Accepts 8 journal entry → entry.report ≡ Withdraw m
        → sets_at k (family_of_next journal entry) (journal ++ entry ∷ []) ≡ sets_at (k + 1) (family_of_next journal entry) journal }
    ensures confirm { (journal : List Entry) (entry : Entry) (m k : ℕ) → IsAccepted 8 journal → Accepts 8 journal entry → entry.report ≡ Confirm m
        → k ≤ length (pending 8 (family_of_next journal entry) (journal ++ entry ∷ []))
        → sets_at k (family_of_next journal entry) (journal ++ entry ∷ []) ≡ sets_at k (family_of_next journal entry) journal }
    ensures other { (journal : List Entry) (entry : Entry) (family k : ℕ) → IsAccepted 8 journal → Accepts 8 journal entry → family_of_next journal entry ≢ family
        → sets_at k family (journal ++ entry ∷ []) ≡ sets_at k family journal }
    ensures begun { (journal : List Entry) (entry : Entry) (place : Place) (sum : Option (List ℕ)) → IsAccepted 8 journal → Accepts 8 journal entry → entry.report ≡ Register place sum
        → sets_at 0 entry.number (journal ++ entry ∷ []) ≡ registered entry.number }
    ensures above { (journal : List Entry) (family : ℕ) → IsAccepted 8 journal → IsAbove (length journal + 1) (sets_at 0 family journal) }
    ensures below { (journal : List Entry) (family : ℕ) → IsAccepted 8 journal → AreBelow (length journal + 1) (sets_at 0 family journal) }
{}

/// The rows that a family's entries make stand for the sets that they make, so a copy is obsolete, equal or in conflict by its
/// stamp as it is by what it knows; and an id can't be divided only where 256 of the entries that count are Duplicates.
pub fn rows_stand_for_sets()
    ensures stands { (journal : List Entry) (family : ℕ) → IsAccepted 8 journal
        → StandsFor (stamp_rows family journal) (knowns_of (entries_of family (families journal) (effective journal))) }
    ensures deep { (journal : List Entry) (number : ℕ) → IsAccepted 8 journal → too_deep number journal (living journal) ≡ Some TooDeep
        → 256 ≤ duplicates_in (families journal number) journal }
{}

/// No entry changes a family but its own.
pub fn others_are_left_alone()
    ensures { (journal : List Entry) (entry : Entry) (family : ℕ) → IsAccepted 8 journal → Accepts 8 journal entry
        → family_of_next journal entry ≢ family → LeavesAlone 8 family journal entry }
{}

/// No family has more than 256 living copies, also where its pending entries are undone.
pub fn no_family_is_larger()
    ensures { (journal : List Entry) (family : ℕ) → IsAccepted 8 journal → AllByRecursion (λ table. length table ≤ 256) (tables 8 family journal) }
{}

/// The number of the next entry is that of a family with no copy and nothing pending; the families that are known are
/// those that a Register began.
pub fn families_are_begun()
    ensures next { (journal : List Entry) (k : ℕ) → IsAccepted 8 journal
        → (table 8 k (length journal + 1) journal ≡ []) × (pending 8 (length journal + 1) journal ≡ []) }
    ensures known { (journal : List Entry) (number : ℕ) → IsAccepted 8 journal → is_family journal number ≡ has (begun journal) number }
{}

/// The living copies are the families' tables, merged by rising number, and no other list by rising number has the
/// same copies.
pub fn tables_merge()
    ensures merged { (journal : List Entry) → IsAccepted 8 journal → AreMerged 8 journal }
    ensures one { (copies others : List Copy) → AreRising number_of 0 copies → AreRising number_of 0 others
        → ((number : ℕ) → copy_in copies number ≡ copy_in others number) → copies ≡ others }
{}

/// No two living copies are kept at one place, also where entries are withdrawn.
#[tactic(auto, using(crate::proofs::Places::accepted_is_apart))]
pub fn no_place_twice()
    ensures { (journal : List Entry) → IsAccepted 8 journal → AreApart (living journal) }
{}

/// What no pending list of one entry refuses, no longer one does.
pub fn longer_list_refuses_no_more()
    ensures longer { (k : ℕ) (journal : List Entry) → IsAccepted 1 journal → IsAccepted (k + 1) journal }
    ensures eight { (journal : List Entry) → IsAccepted 1 journal → IsAccepted 8 journal }
{}

/// What is pending in a family after its next entry; what is pending in a family is of it.
pub fn pending_goes_by_family()
    ensures next { (journal : List Entry) (entry : Entry) → IsAccepted 8 journal → Accepts 8 journal entry
        → pending 8 (family_of_next journal entry) (journal ++ entry ∷ [])
        ≡ pend 8 entry.number entry.report (pending 8 (family_of_next journal entry) journal) }
    ensures own { (journal : List Entry) (family number : ℕ) → IsAccepted 8 journal
        → has (pending 8 family journal) number ≡ true → families journal number ≡ family }
{}

/// A report about a copy that lives is of the copy's family.
pub fn report_is_of_its_copys_family()
    ensures { (journal : List Entry) (entry : Entry) (number : ℕ) (copy : Copy) → IsAccepted 8 journal
        → subject entry.report ≡ Some number → copy_in (living journal) number ≡ Some copy → family_of_next journal entry ≡ copy.family }
{}

/// The copy that a Withdraw of a family's last pending entry would bring back is the one of the family's table from
/// before that entry, and there always is one.
pub fn withdraw_brings_back_from_the_table()
    ensures table { (journal : List Entry) (entry : Entry) (number copy : ℕ) → IsAccepted 8 journal
        → is_last number (pending 8 (families journal number) journal) ≡ true → entry_at journal number ≡ Some entry
        → displaced entry.report ≡ Some copy → brought_back number journal ≡ copy_in (table 8 1 (families journal number) journal) copy }
    ensures lives { (journal : List Entry) (entry : Entry) (number copy : ℕ) → IsAccepted 8 journal
        → is_last number (pending 8 (families journal number) journal) ≡ true → entry_at journal number ≡ Some entry
        → displaced entry.report ≡ Some copy → (back : Copy) × (brought_back number journal ≡ Some back) × (number_of back ≡ copy) }
{}

/// The answers about a family can be read off its table.
pub fn answers_come_from_tables()
    ensures board { (journal : List Entry) (family : ℕ) → board_of family (table 8 0 family journal) ≡ board_of family (living journal) }
    ensures row { (journal : List Entry) (family : ℕ) → family_row (table 8 0 family journal) family ≡ family_row (living journal) family }
    ensures lives { (journal : List Entry) (family : ℕ) → list_any (is_of family) (table 8 0 family journal) ≡ list_any (is_of family) (living journal) }
    ensures known { (journal : List Entry) (number : ℕ) → IsAccepted 8 journal → known_to (living journal) number ≡ known_to (table 8 0 (families journal number) journal) number }
    ensures count { (journal : List Entry) (family : ℕ) → length (table 8 0 family journal) ≡ count_by (is_of family) (living journal) }
{}

/// The holdings of a device rise by copy, and are read off the living copies one by one; the families that a journal
/// has begun rise, and a Register adds its own.
pub fn holdings_and_families_rise()
    ensures holdings { (journal : List Entry) (device : List ℕ) → IsAccepted 8 journal → AreRising (λ holding. holding.copy) 0 (holdings (living journal) device) }
    ensures found { (journal : List Entry) (device : List ℕ) (number : ℕ) → IsAccepted 8 journal
        → find (λ holding. holding.copy == number) (holdings (living journal) device)
        ≡ option_map holding (option_and_then (λ copy. then_some (bytes_eq copy.place.device device) copy) (copy_in (living journal) number)) }
    ensures families { (journal : List Entry) → IsAccepted 8 journal → AreRising (λ family. family) 0 (begun journal) }
    ensures next { (journal : List Entry) (entry : Entry) → begun (journal ++ entry ∷ []) ≡ begun journal ++ (if is_register entry.report then entry.number ∷ [] else []) }
{}

/// A copy is newest, obsolete or in conflict by what it knows and what the living copies of its family know.
pub fn states_are_of_sets()
    ensures { (journal : List Entry) (copy : Copy) → IsAccepted 8 journal → In copy (living journal) → IsInState (living journal) copy (state_among (living journal) copy) }
{}

/// Overwriting an obsolete copy by the copy that a status names with it loses no update: that copy lives in the same family, knows
/// all that it knows, and no copy of the family knows all that that one knows, and more. Of two copies in conflict each knows an
/// update that the other doesn't.
pub fn overwriting_loses_no_update()
    ensures { (journal : List Entry) (device : Option (List ℕ)) (from : ℕ) → IsAccepted 8 journal
        → AllByRecursion (Advises (living journal)) (status_rows (living journal) device from) }
{}

/// A copy that a status leaves out, as far as its rows reach, knows all that any copy of its family knows.
pub fn copies_left_out_know_most()
    ensures { (journal : List Entry) (device : Option (List ℕ)) (from : ℕ) (copy : Copy) → IsAccepted 8 journal → In copy (living journal)
        → is_asked device copy.place ≡ true → from ≤ number_of copy → Reach (number_of copy) (status_rows (living journal) device from)
        → list_any (λ row. row.copy == number_of copy) (status_rows (living journal) device from) ≡ false → KnowsMost (living journal) copy }
{}

/// The rows of a status rise by copy, and are at most 100.
pub fn status_rows_rise()
    ensures rising { (journal : List Entry) (device : Option (List ℕ)) (from : ℕ) → IsAccepted 8 journal → AreRising (λ row. row.copy) 0 (status_rows (living journal) device from) }
    ensures few { (copies : List Copy) (device : Option (List ℕ)) (from : ℕ) → length (status_rows copies device from) ≤ 100 }
{}

/// How a copy stands is read off its family's table, and its counts are those of its row on the board.
pub fn standings_come_from_tables()
    ensures standing { (journal : List Entry) (copy : Copy) → standing_of (table 8 0 copy.family journal) copy ≡ standing_of (living journal) copy }
    ensures row { (journal : List Entry) (copy : Copy) → status_row (table 8 0 copy.family journal) copy ≡ status_row (living journal) copy }
    ensures counts { (copies : List Copy) (copy : Copy) → counts_among copies copy ≡ counts_of board_number known_relation (sets_of copy.family copies) copy.known }
{}
