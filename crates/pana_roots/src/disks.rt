//! Where folders are read.

use crate::root::Root;
use pana_scan::{Disk, Sums, Unwatched};
use pana_track::{ReadFault, TrackedListing, read_tracked};
use std::alloc::Global;
use std::marker::{Send, Sync};
use std::mem;
use std::thread::Threads;

/// Where disks come from, one for each scan, and how folders that are tracked are read on them.
pub trait Disks {
    /// What is read.
    type Given: Disk + Send + Drop;

    ghost use Rattle.std.specs.Prelude.{◌≡◌, List, ℕ, [], map};
    ghost use denote.Param.Send.{IsSync};
    ghost use Rattle.pana_roots.specs.Root.{folder_at};
    ghost use Rattle.pana_roots.specs.Disks.{IsReadOf};
    ghost use Rattle.pana_scan.specs.Scan.{IsFresh};

    // Which disks it gives. An impl may leave it open.
    ghost gives: { Self → Self.Given → Type 0 } = { λ disks disk. Unit {0} };

    // The patterns of what is passed over in a folder that is tracked, beside those of its own file: nothing, where an impl
    // doesn't say.
    ghost passes: { Self → List ℕ → List (List ℕ) } = { λ disks folder. [] };

    /// A disk of which nothing was read yet, with the sums of files that earlier scans have read.
    fn disk(&self, sums: Sums) -> Self::Given
        ensures fresh { IsFresh (Self.Given.has_failed result) (Self.Given.entries result) (Self.Given.faults result) }
        ensures gives { gives self.now result };

    /// The sums that were known to a disk, and those that are kept for the next scan.
    fn sums_of(&self, disk: Self::Given) -> Sums;

    /// The patterns of what is passed over in a folder that is tracked.
    fn passed_over(&self, folder: &str) -> &[&str]
        ensures { map (λ text. text.now) result.now ≡ passes self.now folder.now };

    /// Reads the folder of a root that is tracked, without what is passed over there. Files whose sums are known aren't read,
    /// where the disk says so, and the sums for the next scan are kept. An impl may read files in threads.
    fn read_tracked<T: Threads + Sync>(
        &self,
        _threads: &T,
        alloc: Global,
        root: &Root<'_>,
        sums: &mut Sums,
    ) -> Result<TrackedListing, ReadFault>
        requires { IsSync T.row }
        ensures { IsReadOf gives passes Self.Given.is_known Self.Given.tree Self.Given.has_failed Self.Given.entries Self.Given.faults (folder_at self.now root.now) result }
    {
        let mut first = self.disk(Sums::none(alloc));
        let mut disk = self.disk(mem::replace(sums, Sums::none(alloc)));
        let given = read_tracked(
            alloc,
            &mut first,
            &mut disk,
            &root.device,
            root.folder,
            self.passed_over(root.folder),
            &Unwatched,
        );
        *sums = self.sums_of(disk);
        given
    }
}
