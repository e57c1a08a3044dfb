//! What a scan notices, over all paths.
ghost use Rattle.std.specs.Prelude.{◌≡◌, List, map, IfOk};
ghost use Rattle.std.specs.List.{list_any};
ghost use Rattle.pana_scan.specs.Notice.{File, found, left, missing, notices_of, renamed, without_first};
ghost use Rattle.pana_scan.specs.inner.Pool.{AreInOrder};
ghost use Rattle.pana_scan.specs.inner.Seen.{all_files, new_files};
ghost use Rattle.pana_scan.specs.inner.Takers.{CopiesWait, FilesWait, fits};

use crate::listing::Listing;
use crate::merging::Sources;
use crate::notices::{Notice, NoticeList};
use crate::planning::by_path;
use crate::pool::{Pool, Waiting};
use crate::seen::{Seen, SeenFile};
use pana_calls::{Holding, HoldingList};
use std::alloc::{AllocError, Global};

/// What a scan notices: which absent copies have their files at new paths, which files are there, and which absent
/// copies are left.
///
/// The holdings are those of the listing's device. Each new file, in byte order of paths, takes the first absent copy
/// that holds the same sum and isn't taken. Fails only where memory runs out. O(n log n) for n paths and holdings.
pub fn notice<'a>(
    alloc: Global,
    holdings: &'a HoldingList,
    listing: &'a Listing,
) -> Result<NoticeList, AllocError>
    ensures { IfOk result (λ notices. notices ≡ notices_of holdings.now listing.now) }
{
    let living = by_path(alloc, holdings.as_slice())?;
    let mut sources = Sources {
        found: listing.rows(),
        kept: &[],
        living: living.as_slice(),
    };
    let mut seen = Seen::new(alloc);
    while let Some(spot) = sources.next() {
        seen.add(alloc, spot)?;
    }
    let Seen { files, absent } = seen;
    let mut notices = renamed(alloc, files.as_slice(), absent.as_slice())?;
    let mut missing = missing(alloc, files.as_slice(), absent.as_slice())?;
    let mut found = found(alloc, files)?;
    notices.append(&mut found)?;
    notices.append(&mut missing)?;
    Ok(NoticeList::from_vec(notices))
}

/// The copies that new files take.
fn renamed(
    alloc: Global,
    files: &[SeenFile],
    absent: &[&Holding],
) -> Result<Vec<Notice>, AllocError>
    ensures { IfOk result (λ notices. notices.items ≡ renamed (new_files files.now) (map (λ copy. copy.now) absent.now)) }
{
    let mut copies = copies_by_sum(alloc, absent)?;
    let mut notices = Vec::new(alloc);
    for file in files {
        if file.is_new {
            if let Some(copy) = copies.take(&file.sum) {
                let path = file.path.copy_of()?;
                notices.push(Notice::Renamed { copy, path })?;
            }
        }
    }
    Ok(notices)
}

/// The absent copies that no new file takes: as each file takes the first copy that is left, so each copy that is taken
/// is taken by the first file that is left.
fn missing(
    alloc: Global,
    files: &[SeenFile],
    absent: &[&Holding],
) -> Result<Vec<Notice>, AllocError>
    ensures { IfOk result (λ notices. notices.items ≡ missing (left (new_files files.now) (map (λ copy. copy.now) absent.now))) }
{
    let mut takers = files_by_sum(alloc, files)?;
    let mut notices = Vec::new(alloc);
    for copy in absent {
        if !takes(&mut takers, copy) {
            let path = copy.path.copy_of()?;
            notices.push(Notice::Missing { path })?;
        }
    }
    Ok(notices)
}

/// Whether there is a file that has the sum of the copy. The first of them is taken.
fn takes(files: &mut Pool<()>, copy: &Holding) -> bool
    requires { AreInOrder files.old.rows.items }
    ensures order { AreInOrder files.new.rows.items }
    ensures found { (left : List File) → FilesWait files.old.rows.items left → result ≡ list_any (fits copy.now.sum) left }
    ensures rest { (left : List File) → FilesWait files.old.rows.items left → FilesWait files.new.rows.items (without_first (fits copy.now.sum) left) }
{
    match &copy.sum {
        Some(sum) => files.take(sum).is_some(),
        None => false,
    }
}

/// All files.
fn found(alloc: Global, files: Vec<SeenFile>) -> Result<Vec<Notice>, AllocError>
    ensures { IfOk result (λ notices. notices.items ≡ found (all_files files.entry.items)) }
{
    let mut notices = Vec::with_capacity(alloc, files.len())?;
    for file in files {
        let SeenFile { path, sum, .. } = file;
        match path.copy_of() {
            Ok(path) => notices.push(Notice::Found { path, sum })?,
            Err(fault) => {
                drop(sum);
                drop(notices);
                return Err(fault);
            }
        }
    }
    Ok(notices)
}

/// The numbers of the copies of which a sum is known, to be taken by it.
fn copies_by_sum<'a>(alloc: Global, copies: &[&'a Holding]) -> Result<Pool<'a, u64>, AllocError>
    ensures order { IfOk result (λ pool. AreInOrder pool.rows.items) }
    ensures waiting { IfOk result (λ pool. CopiesWait pool.rows.items (map (λ copy. copy.now) copies.now)) }
{
    let mut rows = Vec::new(alloc);
    for copy in copies {
        if let Some(sum) = &copy.sum {
            rows.push(Waiting {
                sum,
                item: copy.copy,
                is_taken: false,
            })?;
        }
    }
    Pool::new(rows)
}

/// The new files, to be taken by their sums.
fn files_by_sum<'a>(alloc: Global, files: &'a [SeenFile]) -> Result<Pool<'a, ()>, AllocError>
    ensures order { IfOk result (λ pool. AreInOrder pool.rows.items) }
    ensures waiting { IfOk result (λ pool. FilesWait pool.rows.items (new_files files.now)) }
{
    let mut rows = Vec::new(alloc);
    for file in files {
        if file.is_new {
            rows.push(Waiting {
                sum: &file.sum,
                item: (),
                is_taken: false,
            })?;
        }
    }
    Pool::new(rows)
}
