//! What a scanner looks at.
use pana_scan::{Listing, ScanFault};
use pana_track::{FolderEnd, ReadFault, TrackedListing};
use std::marker::Sync;
use std::thread::Threads;

/// What one look at a folder gives.
#[derive(Drop)]
pub enum Look {
    /// Its files, for a plan of reports, or why they can't be listed.
    Scanned(Result<Listing, ScanFault>),
    /// Its files by contents and its patterns, or why it can't be read.
    Tracked(Result<TrackedListing, ReadFault>),
}

/// A folder that is looked at again and again.
pub trait Folder {
    ghost use denote.Param.Send.{IsSync};
    ghost use Rattle.pana_daemon.specs.Folder.{Deed, giving, learns};

    // What it does: the folder, what it gives or learns, and the folder after. An impl may leave it open.
    ghost does: { Self → Deed → Self → Type 0 } = { λ old deed new. Unit {0} };

    /// What the next look finds, or why it failed; none where there is no further one. Files may be read in threads.
    fn next<R: Threads + Sync>(&mut self, threads: &R) -> Option<Look>
        requires { IsSync R.row }
        ensures { does self.old (giving result) self.new };

    /// Learns what became of what it gave last, where that is tracked.
    fn note_end(&mut self, end: &FolderEnd)
        ensures { does self.old (learns end.now) self.new };
}
