//! Folders: what a scan of one finds, the reports that it plans, and what it keeps for the next scan.
#![tactic(auto)]

mod baseline;
mod disk;
mod disk_fault;
mod entry;
mod fingerprinting;
mod folder;
pub mod laws;
mod listing;
mod looking;
mod merging;
mod notices;
mod noticing;
mod ordering;
mod outcome;
mod planning;
mod pool;
mod quick_disk;
mod scan_fault;
mod seen;
mod step;
mod sums;
mod system_disk;
mod watch;

pub use crate::baseline::{Baseline, BaselineRow, Mark};
pub use crate::disk::Disk;
pub use crate::disk_fault::DiskFault;
pub use crate::entry::{Entry, EntryName, Kind};
pub use crate::fingerprinting::fingerprint;
pub use crate::folder::{read_root, read_root_in_threads, read_root_within};
pub use crate::listing::{Found, FoundRow, Listing};
pub use crate::notices::{Notice, NoticeList};
pub use crate::noticing::notice;
pub use crate::planning::plan;
pub use crate::quick_disk::QuickDisk;
pub use crate::scan_fault::ScanFault;
pub use crate::step::{Plan, Step, StepList};
pub use crate::sums::{KnownSums, Sums};
pub use crate::system_disk::SystemDisk;
pub use crate::watch::{Unwatched, Watch};
