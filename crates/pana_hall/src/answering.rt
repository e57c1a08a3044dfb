//! The answers to queries, where nothing stands against them.
ghost use Rattle.std.specs.Prelude.{◌≡◌, true, None, IsSome, IfOk, IfErr, List, filter_map, map};
ghost use Rattle.std.specs.{List.AllByRecursion, Str.bytes_eq};
ghost use Rattle.pana_copies.specs.Spots.{kept};
ghost use Rattle.pana_family.specs.{Stands.StandsFor, Table.Known};
ghost use Rattle.pana_hall.specs.{Board.board_of, Stamps.AreStampsOf, Living.living, inner.Rows.holding_in, inner.Rows.sum_in, inner.Rows.placed_row};
ghost use Rattle.pana_hall.specs.{Refusal.query_refusal, Permit.Answers, Permit.IsShortage, inner.State.IsHeld, inner.Listed.listed};
ghost use Rattle.pana_hall.specs.Queries.{counts_of, family_rows, holdings, holdings_from, pair_of, row_of_sets};

use crate::listed_family::ListedFamily;
use crate::state::State;
use pana_calls::{
    BoardRow, BoardView, Call, Cause, CopyStamp, FamilyRow, HallCounts, Holding, HoldingList,
    Query, Reply,
};
use pana_copies::{CopyTable, DeviceName, Place, Sum};
use pana_event::Rel;
use pana_family::CopyCounts;
use pana_list::PlainList;
use std::alloc::{AllocError, Global};

/// How many holdings an answer has at most that begins at a number.
const MOST_HOLDINGS: usize = 1_000;

impl State {
    /// How the first copy relates to the second, of one family. Takes no memory.
    pub fn pair_of(&self, a: u64, b: u64) -> Rel
        requires kept { IsHeld self.now }
        requires free { query_refusal self.now.journal.entries (living self.now.journal.entries) (Query.Pair a b) ≡ None }
        ensures { result ≡ pair_of (living self.now.journal.entries) a b }
    {
        self.family(a).rel(a, b)
    }

    /// The answer to a query that nothing stands against. Fails only where memory runs out; a Pair takes none, and
    /// Counts neither.
    pub fn answer(&self, alloc: Global, query: &Query) -> Result<Reply, AllocError>
        requires kept { IsHeld self.now }
        requires free { query_refusal self.now.journal.entries (living self.now.journal.entries) query.now ≡ None }
        ensures ok { IfOk result (λ reply. Answers self.now.journal.entries query.now reply) }
        ensures shortage { IfErr result (λ _. IsShortage self.now.journal.entries (Call.Query query.now) Cause.OutOfMemory) }
    {
        match query {
            Query::Families => Ok(Reply::Families(PlainList::from_vec(self.family_rows(alloc)?))),
            Query::Board { family } => Ok(Reply::Board(self.board_of(alloc, *family)?)),
            Query::Stamps { family } => Ok(Reply::Stamps(self.stamps_of(alloc, *family)?)),
            Query::Pair { a, b } => Ok(Reply::Pair(self.pair_of(*a, *b))),
            Query::Holdings { device, from } => {
                let made = self.holdings_from(alloc, device, *from)?;
                Ok(Reply::Holdings(HoldingList::from_vec(made)))
            }
            Query::At { place } => Ok(Reply::At(self.standing_at(alloc, place)?)),
            Query::Status { device, from } => {
                let rows = self.status_rows(alloc, device, *from)?;
                Ok(Reply::Status(PlainList::from_vec(rows)))
            }
            Query::JournalFrom { entry } | Query::JournalAwaited { entry, .. } => {
                Ok(Reply::Journal(self.journal.slice(*entry)?))
            }
            Query::Counts => Ok(Reply::Counts(self.counts())),
        }
    }

    /// How many copies live, and on how many devices. Takes no memory; O(1).
    fn counts(&self) -> HallCounts
        requires kept { IsHeld self.now }
        ensures { result ≡ counts_of (living self.now.journal.entries) }
    {
        HallCounts {
            copies: self.copies.len() as u64,
            devices: self.copies.device_count() as u64,
        }
    }

    fn family_rows(&self, alloc: Global) -> Result<Vec<FamilyRow>, AllocError>
        requires kept { IsHeld self.now }
        ensures { IfOk result (λ rows. rows.items ≡ family_rows self.now.journal.entries (living self.now.journal.entries)) }
    {
        let families = self.families.as_slice();
        let mut rows = Vec::with_capacity(alloc, families.len())?;
        for it in families {
            if it.has_copies() {
                rows.push(family_row(it)?)?;
            }
        }
        Ok(rows)
    }

    /// The board of a family: its rows with their places.
    fn board_of(&self, alloc: Global, family: u64) -> Result<BoardView, AllocError>
        requires kept { IsHeld self.now }
        requires free { query_refusal self.now.journal.entries (living self.now.journal.entries) (Query.Board family) ≡ None }
        ensures { IfOk result (λ view. view ≡ board_of family (living self.now.journal.entries)) }
    {
        let board = self.family(family).board(alloc)?;
        let rows = board_rows(alloc, &self.copies, board.rows.as_slice())?;
        Ok(BoardView {
            family,
            rows: PlainList::from_vec(rows),
            newest: board.newest,
            split: board.split,
        })
    }

    /// The stamps of a family's copies.
    fn stamps_of(&self, alloc: Global, family: u64) -> Result<PlainList<CopyStamp>, AllocError>
        requires kept { IsHeld self.now }
        requires free { query_refusal self.now.journal.entries (living self.now.journal.entries) (Query.Stamps family) ≡ None }
        ensures { IfOk result (AreStampsOf family self.now.journal.entries) }
    {
        self.family(family).stamps(alloc)
    }

    /// The living copy with this number as a holding, if it is on the device.
    fn holding_at(
        &self,
        alloc: Global,
        device: &DeviceName,
        number: u64,
    ) -> Result<Option<Holding>, AllocError>
        requires kept { IsHeld self.now }
        ensures { IfOk result (λ made. made ≡ holding_in (living self.now.journal.entries) device.now number) }
    {
        let Some(found) = self.copies.get(number) else {
            return Ok(None);
        };
        if !is_on(device, found.place) {
            return Ok(None);
        }
        let path = found.place.path.copy_of()?;
        let sum = self.sum_of(alloc, number)?;
        Ok(Some(Holding {
            copy: number,
            family: found.family,
            path,
            sum,
            touch: self.family(number).touch(number),
        }))
    }

    /// The sum of what a copy holds, where it is known.
    pub fn sum_of(&self, alloc: Global, number: u64) -> Result<Option<Sum>, AllocError>
        requires { IsHeld self.now }
        ensures { IfOk result (λ sum. sum ≡ sum_in (living self.now.journal.entries) number) }
    {
        let Some(entry) = self.contents.of(number) else {
            return Ok(None);
        };
        match self.sum_by(entry) {
            Some(sum) => Ok(Some(sum.copy_of(alloc)?)),
            None => Ok(None),
        }
    }

    /// Those of the living copies with these numbers that are on the device.
    fn holdings_of(
        &self,
        alloc: Global,
        device: &DeviceName,
        numbers: &[u64],
    ) -> Result<Vec<Holding>, AllocError>
        requires kept { IsHeld self.now }
        ensures { IfOk result (λ made. made.items ≡ filter_map (holding_in (living self.now.journal.entries) device.now) numbers.now) }
    {
        let mut made = Vec::with_capacity(alloc, numbers.len())?;
        for number in numbers {
            if let Some(holding) = self.holding_at(alloc, device, *number)? {
                made.push(holding)?;
            }
        }
        Ok(made)
    }

    /// The living copies on a device, by rising number: those with a number from this one on, at most 1,000; where there is none,
    /// all.
    fn holdings_from(
        &self,
        alloc: Global,
        device: &DeviceName,
        from: Option<u64>,
    ) -> Result<Vec<Holding>, AllocError>
        requires kept { IsHeld self.now }
        ensures { IfOk result (λ made. made.items ≡ holdings_from from (holdings (living self.now.journal.entries) device.now)) }
    {
        match from {
            None => {
                let numbers = self.copies.on_device(alloc, device, 0)?;
                self.holdings_of(alloc, device, numbers.as_slice())
            }
            Some(from) => {
                let mut numbers = self.copies.on_device(alloc, device, from)?;
                numbers.truncate(MOST_HOLDINGS);
                self.holdings_of(alloc, device, numbers.as_slice())
            }
        }
    }
}

/// A family's row.
#[tactic(auto, using(pana_family::proofs::Members::same_length, pana_family::proofs::BySets::same_copies))]
fn family_row(it: &ListedFamily) -> Result<FamilyRow, AllocError>
    ensures { IfOk result (λ row. (table : List Known) → StandsFor (listed it.now).rows table → row ≡ row_of_sets (listed it.now).number table) }
{
    let (newest, split) = it.heads()?;
    Ok(FamilyRow {
        family: it.number(),
        copies: it.count() as u64,
        newest: newest as u64,
        split,
    })
}

/// The rows of a board, each with the place of its copy.
fn board_rows(
    alloc: Global,
    copies: &CopyTable,
    counts: &[CopyCounts],
) -> Result<Vec<BoardRow>, AllocError>
    requires { AllByRecursion (λ row. IsSome (kept copies.now row.copy)) counts.now }
    ensures { IfOk result (λ rows. rows.items ≡ map (placed_row copies.now) counts.now) }
{
    let mut rows = Vec::with_capacity(alloc, counts.len())?;
    for row in counts {
        rows.push(board_row(copies, row)?)?;
    }
    Ok(rows)
}

fn board_row(copies: &CopyTable, row: &CopyCounts) -> Result<BoardRow, AllocError>
    requires { IsSome (kept copies.now row.now.copy) }
    ensures { IfOk result (λ made. made ≡ placed_row copies.now row.now) }
{
    let place = copies.get(row.copy).unwrap().place.copy_of()?;
    Ok(BoardRow {
        copy: row.copy,
        place,
        newer: row.newer,
        older: row.older,
        equal: row.equal,
        conflict: row.conflict,
    })
}

fn is_on(device: &DeviceName, place: &Place) -> bool
    ensures { result ≡ bytes_eq place.now.device device.now }
{
    place.device == *device
}
