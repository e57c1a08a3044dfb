//! What a listing and the holdings of its device come to, path by path.
ghost use Rattle.std.specs.Prelude.{◌≡◌, ◌++◌, [], map, option_copied, OnOk};
ghost use Rattle.std.specs.Option.{option_to_list};
ghost use Rattle.pana_scan.specs.Notice.{absent_at, file_at, new_file_at};
ghost use Rattle.pana_scan.specs.inner.Seen.{all_files, new_files};

use crate::listing::Found;
use crate::merging::Spot;
use pana_calls::Holding;
use pana_copies::{CopyPath, Sum};
use std::alloc::{AllocError, Global};

/// A file that was seen; a new one where no copy is at its path.
#[derive(Drop)]
pub(crate) struct SeenFile<'a> {
    pub(crate) path: &'a CopyPath,
    pub(crate) sum: Sum,
    pub(crate) is_new: bool,
}

/// The files that were seen, and the copies that are absent, in byte order of their paths.
#[derive(Drop)]
pub(crate) struct Seen<'a> {
    pub(crate) files: Vec<SeenFile<'a>>,
    pub(crate) absent: Vec<&'a Holding>,
}

impl<'a> Seen<'a> {
    pub(crate) fn new(alloc: Global) -> Seen<'a>
        ensures files { result.files.items ≡ [] }
        ensures absent { result.absent.items ≡ [] }
    {
        Seen {
            files: Vec::new(alloc),
            absent: Vec::new(alloc),
        }
    }

    /// Puts what is at the next path behind the rest.
    pub(crate) fn add(&mut self, alloc: Global, spot: Spot<'a>) -> Result<(), AllocError>
        ensures files { OnOk result (all_files self.new.files.items ≡ all_files self.old.files.items ++ option_to_list (file_at spot.entry.path.now spot.entry.found)) }
        ensures new { OnOk result (new_files self.new.files.items ≡ new_files self.old.files.items ++ option_to_list (new_file_at spot.entry.path.now spot.entry.found (option_copied spot.entry.living))) }
        ensures absent { OnOk result (map (λ copy. copy.now) self.new.absent.items ≡ map (λ copy. copy.now) self.old.absent.items ++ option_to_list (absent_at spot.entry.found (option_copied spot.entry.living))) }
    {
        match spot.found {
            Some(Found::Seen(digest)) => self.files.push(SeenFile {
                path: spot.path,
                sum: Sum::of_digest(alloc, &digest)?,
                is_new: spot.living.is_none(),
            })?,
            Some(Found::Unreadable) => {}
            None => {
                if let Some(copy) = spot.living {
                    self.absent.push(copy)?;
                }
            }
        }
        Ok(())
    }
}
