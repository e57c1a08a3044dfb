//! What takes entries back.
ghost use Rattle.std.specs.Prelude.{◌≡◌, ◌==◌, position};
ghost use Rattle.std.specs.List.{list_any};

use circular_buffer::HeapCircularBuffer;
use pana_copies::Place;
use pana_family::Change;

/// What was before a report: the place of the copy that it moves or removes, if it does, and the entries that said what the copies
/// held of whose content it says something.
#[derive(Drop)]
pub struct Before {
    pub place: Option<Box<Place>>,
    pub first: Option<u32>,
    pub second: Option<u32>,
}

/// What takes a pending entry back: a change of its family's rows, and what else was before it.
#[derive(Drop)]
pub struct Undo {
    pub entry: u64,
    pub back: Change,
    pub before: Before,
}

/// The position of an entry's record, if there is one.
pub fn position_of(undo: &HeapCircularBuffer<Undo>, entry: u64) -> Option<usize>
    ensures { result ≡ position (λ u. u.entry == entry) undo.now.items }
{
    undo.iter().position(|u| u.entry == entry)
}

/// Whether the entry has a record.
pub fn has_entry(undo: &HeapCircularBuffer<Undo>, entry: u64) -> bool
    ensures { result ≡ list_any (λ u. u.entry == entry) undo.now.items }
{
    undo.iter().any(|u| u.entry == entry)
}
