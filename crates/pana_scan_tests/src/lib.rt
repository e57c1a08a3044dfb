//! The tests of scans of folders: what no clause says of their calls.
#![tactic(auto)]

#[cfg(test)]
mod disks;
#[cfg(test)]
mod holdings;
mod memory_disk;
#[cfg(test)]
mod notices;
#[cfg(test)]
mod scan;
#[cfg(test)]
mod threads;

pub use crate::memory_disk::{MemoryDisk, MemoryFile, MemoryFolder};
