//! What no clause says of files that many disks look at: that they find what one finds. A failed allocation may cost no more
//! than a thread here, so no sweep goes over it.

use crate::scan::{Tally, folder_with, read_by_one};
use pana_copies::DeviceName;
use pana_scan::{Listing, ScanFault, SystemDisk, read_root_in_threads};
use std::fs;
use std::marker::Sync;
use std::test::Fail;
use std::thread::Threads;

/// What a scan of the folder finds where one disk more than so many others look at its files.
fn read_by_many<T: Threads + Sync>(
    rt: &HostRuntime,
    threads: &T,
    device: &DeviceName,
    root: &str,
    others: usize,
    tally: &Tally,
) -> Result<Listing, ScanFault> {
    let alloc = rt.alloc();
    let mut disks = Vec::new(alloc);
    for _ in 0..others {
        disks.push(SystemDisk::new(rt))?;
    }
    disks.push(SystemDisk::new(rt))?;
    read_root_in_threads(
        threads,
        alloc,
        &mut SystemDisk::new(rt),
        &mut disks,
        device,
        root,
        100_000,
        tally,
    )
}

#[test]
fn many_disks_find_what_one_finds(rt: HostRuntime) -> Result<(), Fail> {
    let names = ["a/b", "a-b", "ab", ".a", "c", "a/d", "e"];
    let root = folder_with(&rt, "many", &names)?;
    let device = DeviceName::new("usb")?;
    let tally = Tally::new();
    let one = read_by_one(&rt, &device, root.as_str(), &Tally::new());
    let many = read_by_many(&rt, &rt, &device, root.as_str(), 4, &tally);
    let few = read_by_many(&rt, &rt, &device, root.as_str(), 0, &Tally::new());
    fs::remove_dir_all(&rt, root.as_str())?;
    let (one, many, few) = (one?, many?, few?);
    assert_eq!(rt; tally.counts(), (7, 21));
    assert_eq!(rt; many.rows().len(), 7);
    assert!(rt; many.rows() == one.rows());
    assert!(rt; few.rows() == one.rows());
    Ok(())
}
