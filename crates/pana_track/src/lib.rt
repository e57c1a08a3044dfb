//! Folders that are tracked by contents: reading one without what it ignores, and what a scan noticed of it, reported to a
//! session.
#![tactic(auto)]

mod asking;
mod fault;
mod folder;
mod folder_end;
mod ignore_file;
mod ignoring_disk;
mod read_fault;
mod read_folder;
mod reading;
mod reporting;
mod rounds;
mod tally;
mod tracking;

pub use crate::asking::status_of;
pub use crate::fault::TrackFault;
pub use crate::folder::track_folder;
pub use crate::folder_end::{FolderEnd, FolderTally};
pub use crate::read_fault::ReadFault;
pub use crate::read_folder::ReadFolder;
pub use crate::reading::{TrackedListing, read_tracked, read_tracked_in_threads};
pub use crate::tally::TrackTally;
pub use crate::tracking::track;
