//! Laws of the definitions, for the proofs of those who keep a table. Each function does nothing.
ghost use Rattle.std.specs.Prelude.{◌≡◌, ℕ, Contains};
ghost use Rattle.pana_event.specs.declared.rel.Rel.{Rel};
ghost use Rattle.pana_rel.specs.Board.{counts_of, is_split, newest_of};
ghost use Rattle.pana_rel.specs.Pairs.{Table, Holds, own_number, rel_of};

/// Counts, newest copies and whether a table is split depend on the relations of its copies alone: of any
/// relations that the table holds they are the same.
pub fn same_relations_same_board()
    ensures counts { (t : Table) (rel : ℕ → ℕ → Rel) (copy : ℕ) → Holds t rel → Contains t.copies copy → counts_of own_number (rel_of t) t.copies copy ≡ counts_of own_number rel t.copies copy }
    ensures newest { (t : Table) (rel : ℕ → ℕ → Rel) → Holds t rel → newest_of own_number (rel_of t) t.copies ≡ newest_of own_number rel t.copies }
    ensures split { (t : Table) (rel : ℕ → ℕ → Rel) → Holds t rel → is_split own_number (rel_of t) t.copies ≡ is_split own_number rel t.copies }
{}
