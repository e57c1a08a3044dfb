//! What becomes of two copies that share a stamp, where no copy holds a parcel: only their rows change, and nothing is copied.
ghost use Rattle.std.specs.Prelude.{◌≡◌, ◌≢◌, ◌++◌, [], true, filter_map, IfOk};
ghost use Rattle.std.specs.List.{list_all};
ghost use Rattle.pana_family.specs.{After.shared, Change.after, Holders.is_copy, Rows.IsRising, Rows.lives};

use crate::change::{Change, Exchange};
use crate::row::StampRow;
use crate::searching::{is_copy, row_of};
use crate::settling::restamped;
use pana_stamp::Stamp;
use smallvec::SmallVec;
use std::alloc::{AllocError, Global};

/// Whether no row is a parcel's.
pub fn are_copies(rows: &[StampRow]) -> bool
    ensures { result ≡ list_all (λ row. is_copy row.holder) rows.now }
{
    rows.iter().all(|row| is_copy(row))
}

/// Two copies have these parts of a stamp, with the entry as their touch.
#[tactic(auto, using(crate::proofs::Parted::share_exact))]
pub fn parts_change(
    alloc: Global,
    rows: &[StampRow],
    entry: u64,
    a: u64,
    b: u64,
    first: Stamp,
    second: Stamp,
) -> Result<Change, AllocError>
    requires rising { IsRising 0 rows.now }
    requires first { lives rows.now a ≡ true }
    requires second { lives rows.now b ≡ true }
    requires differ { a ≢ b }
    requires copies { list_all (λ row. is_copy row.holder) rows.now ≡ true }
    ensures { IfOk result (λ change. after change rows.now ≡ filter_map (shared entry a b first second rows.now) rows.now ++ []) }
{
    let mut news = SmallVec::new(alloc);
    news.push_reserved(Exchange::Put(restamped(row_of(rows, a), first, entry)));
    news.push_reserved(Exchange::Put(restamped(row_of(rows, b), second, entry)));
    Ok(Change::Rows(Box::new(alloc, news)?))
}
