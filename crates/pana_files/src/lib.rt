//! Folders that are read, on all processors, and what is kept of them for the next time.
#![tactic(auto)]

mod folder_watch;
mod folders;
mod last_file;
mod last_run;
mod look;
mod naming;
mod naming_disk;
mod own_file;
mod patterns;
mod progress;
mod sums_file;
mod system_disks;

pub use crate::folder_watch::FolderWatch;
pub use crate::folders::{ReadingWishes, fault_of_roots, read_folders};
pub use crate::last_run::{Printed, TrackRun};
pub use crate::naming::NamedFolder;
pub use crate::naming_disk::NamingDisk;
pub use crate::patterns::{OwnFile, RootPatterns, passed_over, root_patterns, slices_of};
pub use crate::sums_file::may_keep_sums;
pub use crate::system_disks::{PassedOver, SystemDisks};
