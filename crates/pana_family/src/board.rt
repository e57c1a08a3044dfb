//! Boards: how the copies of a family relate.
ghost use Rattle.std.specs.Prelude.{◌≡◌, ◌<◌, map, length, slice_index_or, IfOk};
ghost use Rattle.pana_rel.specs.{Board.counts_of, Board.is_split, Board.newest_of, Pairs.own_number, Pairs.rel_of};
ghost use Rattle.pana_family.specs.Board.{row_of};

use pana_list::PlainList;
use pana_rel::{Counts, PairBoard, PairTable};
use std::alloc::{AllocError, Global};

/// A copy on a board: how many other copies of its family are newer than it, older, equal and in conflict with it.
#[derive(Drop)]
pub struct CopyCounts {
    pub copy: u64,
    pub newer: u64,
    pub older: u64,
    pub equal: u64,
    pub conflict: u64,
}

/// How the copies of a family relate to each other.
#[derive(Drop)]
pub struct FamilyBoard {
    /// A row for each copy, by rising number.
    pub rows: PlainList<CopyCounts>,
    /// The copies to which none is newer, by rising number.
    pub newest: PlainList<u64>,
    /// Whether two of the newest copies are in conflict.
    pub split: bool,
}

/// The row of the copy at a place, where these are the counts of all.
fn row_at(pairs: &PairTable, counts: &[Counts], at: usize) -> CopyCounts
    requires within { at < length pairs.now.copies }
    requires counts { counts.now ≡ map (counts_of own_number (rel_of pairs.now) pairs.now.copies) pairs.now.copies }
    ensures { result ≡ row_of (slice_index_or pairs.now.copies at 0) (counts_of own_number (rel_of pairs.now) pairs.now.copies (slice_index_or pairs.now.copies at 0)) }
{
    let counts = counts[at];
    CopyCounts {
        copy: pairs.copies()[at],
        newer: counts.above,
        older: counts.below,
        equal: counts.equal,
        conflict: counts.conflict,
    }
}

fn rows_of(
    alloc: Global,
    pairs: &PairTable,
    counts: &[Counts],
) -> Result<Vec<CopyCounts>, AllocError>
    requires { counts.now ≡ map (counts_of own_number (rel_of pairs.now) pairs.now.copies) pairs.now.copies }
    ensures { IfOk result (λ rows. rows.items ≡ map (λ copy. row_of copy (counts_of own_number (rel_of pairs.now) pairs.now.copies copy)) pairs.now.copies) }
{
    let count = pairs.copies().len();
    let mut rows = Vec::with_capacity(alloc, count)?;
    for at in 0..count {
        rows.push(row_at(pairs, counts, at))?;
    }
    Ok(rows)
}

/// The board of a table of relations.
pub fn board_of(alloc: Global, pairs: &PairTable) -> Result<FamilyBoard, AllocError>
    ensures rows { IfOk result (λ board. board.rows ≡ map (λ copy. row_of copy (counts_of own_number (rel_of pairs.now) pairs.now.copies copy)) pairs.now.copies) }
    ensures newest { IfOk result (λ board. board.newest ≡ newest_of own_number (rel_of pairs.now) pairs.now.copies) }
    ensures split { IfOk result (λ board. board.split ≡ is_split own_number (rel_of pairs.now) pairs.now.copies) }
{
    let PairBoard {
        counts,
        newest,
        split,
    } = pairs.board()?;
    let rows = rows_of(alloc, pairs, counts.as_slice())?;
    Ok(FamilyBoard {
        rows: PlainList::from_vec(rows),
        newest: PlainList::from_vec(newest),
        split,
    })
}
