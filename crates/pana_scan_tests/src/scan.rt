ghost use Rattle.pana_scan.specs.Scan.{IsFresh};

use crate::disks::{disk, file, folder};
use crate::holdings::held;
use crate::memory_disk::MemoryDisk;
use pana_calls::HoldingList;
use pana_copies::{CopyPath, DeviceName, NameFault, Place};
use pana_journal::Report;
use pana_scan::{
    Baseline, Disk, Found, Kind, Listing, Mark, Plan, ScanFault, Step, SystemDisk, Unwatched,
    Watch, fingerprint, plan, read_root,
};
use std::alloc::{AllocError, Global};
use std::fs;
use std::sync::atomic::{AtomicU64, Ordering};
use std::test::Fail;

/// SHA-256 of `abc`, from the standard.
const ABC: [u8; 32] = [
    0xba, 0x78, 0x16, 0xbf, 0x8f, 0x01, 0xcf, 0xea, 0x41, 0x41, 0x40, 0xde, 0x5d, 0xae, 0x22, 0x23,
    0xb0, 0x03, 0x61, 0xa3, 0x96, 0x17, 0x7a, 0x9c, 0xb4, 0x10, 0xff, 0x61, 0xf2, 0x00, 0x15, 0xad,
];

/// SHA-256 of the empty text, as `sha256sum` prints it.
const EMPTY: [u8; 32] = [
    0xe3, 0xb0, 0xc4, 0x42, 0x98, 0xfc, 0x1c, 0x14, 0x9a, 0xfb, 0xf4, 0xc8, 0x99, 0x6f, 0xb9, 0x24,
    0x27, 0xae, 0x41, 0xe4, 0x64, 0x9b, 0x93, 0x4c, 0xa4, 0x95, 0x99, 0x1b, 0x78, 0x52, 0xb8, 0x55,
];

fn path(alloc: Global, text: &str) -> Result<CopyPath, NameFault> {
    CopyPath::new(alloc, text)
}

fn listing_of(alloc: Global, rows: &[(&str, Found)]) -> Result<Listing, Fail> {
    let mut listing = Listing::new(alloc, DeviceName::new("usb")?);
    for (text, found) in rows {
        let path = path(alloc, text)?;
        if listing.is_above(&path) {
            listing.push(path, *found)?;
        }
    }
    Ok(listing)
}

fn register(alloc: Global, text: &str) -> Result<Report, NameFault> {
    Ok(Report::Register {
        place: Place {
            device: DeviceName::new("usb")?,
            path: CopyPath::new(alloc, text)?,
        },
        sum: None,
    })
}

/// The baseline after a first scan has found `abc` at four paths, and its reports are the entries 1 to 4.
fn settled(alloc: Global) -> Result<Baseline, Fail> {
    let mut baseline = Baseline::new(alloc);
    for (text, entry) in [("a", 1), ("c", 2), ("d", 3), ("e", 4)] {
        let step = Step {
            path: path(alloc, text)?,
            fingerprint: Some(ABC),
            report: register(alloc, text)?,
        };
        baseline.settle(&step, entry)?;
    }
    Ok(baseline)
}

/// The copies of the four paths, of which a session has edited the second since.
const HELD: &[u8] =
    b"{\"holdings\":[{\"copy\":1,\"family\":1,\"path\":\"a\",\"touch\":1},{\"copy\":2,\"family\":2,\"path\":\"c\",\"touch\":5},{\"copy\":3,\"family\":3,\"path\":\"d\",\"touch\":3},{\"copy\":4,\"family\":4,\"path\":\"e\",\"touch\":4}]}";

/// What a scan finds: a file that was edited, a new one, one that a session has reported, one that can't be read, and
/// one that is gone.
fn scanned(alloc: Global) -> Result<Listing, Fail> {
    let rows = [
        ("a", Found::Seen(EMPTY)),
        ("b", Found::Seen(ABC)),
        ("c", Found::Seen(EMPTY)),
        ("d", Found::Unreadable),
    ];
    listing_of(alloc, &rows)
}

/// Whether the steps have these paths and fingerprints.
fn are_about(steps: &[Step], expected: &[(&str, Option<[u8; 32]>)]) -> bool {
    steps.len() == expected.len()
        && steps.iter().zip(expected).all(|(step, (text, fingerprint))| {
            step.path.as_str() == *text && step.fingerprint == *fingerprint
        })
}

/// Whether the reports are an edit of copy 1, a register of `b` and a remove of copy 4.
fn are_three(steps: &[Step]) -> bool {
    let [edit, register, remove] = steps else {
        return false;
    };
    matches!(&edit.report, Report::Edit { copy: 1, .. })
        && matches!(&register.report, Report::Register { place, .. } if place.path.as_str() == "b")
        && matches!(
            &remove.report,
            Report::Remove {
                copy: 4,
                heir: None
            }
        )
}

/// Whether the baseline has these paths and marks.
fn keeps(baseline: &Baseline, expected: &[(&str, Mark)]) -> bool {
    let rows = baseline.rows();
    rows.len() == expected.len()
        && rows.iter().zip(expected).all(|(row, (text, mark))| row.path.as_str() == *text
            && row.mark == *mark)
}

fn mark(fingerprint: [u8; 32], touch: u64) -> Mark {
    Mark { fingerprint, touch }
}

#[test]
fn a_scan_of_five_paths(rt: HostRuntime) -> Result<(), Fail> {
    let alloc = rt.alloc();
    let (baseline, holdings, listing) = (settled(alloc)?, held(alloc, HELD)?, scanned(alloc)?);
    let plan = plan(alloc, &baseline, &holdings, &listing)?;
    let expected = [("a", Some(EMPTY)), ("b", Some(ABC)), ("e", None)];
    assert!(rt; are_about(plan.steps.as_slice(), &expected));
    assert!(rt; are_three(plan.steps.as_slice()));
    Ok(())
}

#[test]
fn a_plan_is_settled(rt: HostRuntime) -> Result<(), Fail> {
    let alloc = rt.alloc();
    let (baseline, holdings, listing) = (settled(alloc)?, held(alloc, HELD)?, scanned(alloc)?);
    let Plan {
        steps,
        mut baseline,
    } = plan(alloc, &baseline, &holdings, &listing)?;
    for step in steps.as_slice() {
        baseline.settle(step, 7)?;
    }
    let expected = [
        ("a", mark(EMPTY, 7)),
        ("b", mark(ABC, 7)),
        ("c", mark(EMPTY, 5)),
        ("d", mark(ABC, 3)),
    ];
    assert!(rt; keeps(&baseline, &expected));
    Ok(())
}

/// The fingerprint of a file with these bytes, each of which is a read, by so many reads.
fn fingerprint_of(
    alloc: Global,
    bytes: &[u8],
    fails: bool,
    reads: u64,
) -> Result<Option<[u8; 32]>, Fail> {
    let root = folder(alloc, "root", &[], false)?;
    let mut disk = disk(alloc, root, Some(file(alloc, "root/f", bytes, fails)?))?;
    disk.open("root/f")?;
    Ok(fingerprint(&mut disk, reads, &Unwatched))
}

#[test]
fn fingerprint_is_the_standards_or_none(rt: HostRuntime) -> Result<(), Fail> {
    let alloc = rt.alloc();
    assert_eq!(rt; fingerprint_of(alloc, b"abc", false, 4)?, Some(ABC));
    assert_eq!(rt; fingerprint_of(alloc, b"", false, 1)?, Some(EMPTY));
    assert_eq!(rt; fingerprint_of(alloc, b"abc", false, 3)?, None);
    assert_eq!(rt; fingerprint_of(alloc, b"abc", true, 9)?, None);
    Ok(())
}

/// Whether the listing has these paths, with what was found.
fn lists(listing: &Listing, expected: &[(&str, Found)]) -> bool {
    let rows = listing.rows();
    rows.len() == expected.len()
        && rows.iter().zip(expected).all(|(row, (text, found))| row.path.as_str() == *text
            && row.found == *found)
}

/// The listing of the folder `root` of a disk.
fn read(alloc: Global, disk: &mut MemoryDisk) -> Result<Listing, ScanFault>
    requires { IsFresh disk.old.has_failed disk.old.entries disk.old.faults }
{
    let Ok(device) = DeviceName::new("usb") else {
        return Err(ScanFault::OutOfMemory);
    };
    read_root(alloc, disk, &device, "root", &Unwatched)
}

#[test]
fn a_folder_has_all_kinds_of_names(rt: HostRuntime) -> Result<(), Fail> {
    let alloc = rt.alloc();
    let names = [
        ("b", Kind::Gone),
        ("link", Kind::Other),
        ("bell\u{7}", Kind::File),
        (".a", Kind::File),
    ];
    let root = folder(alloc, "root", &names, false)?;
    let mut disk = disk(alloc, root, Some(file(alloc, "root/.a", b"abc", false)?))?;
    let listing = read(alloc, &mut disk)?;
    assert!(rt;
        lists(
            &listing,
            &[(".a", Found::Seen(ABC)), ("b", Found::Unreadable)]
        )
    );
    assert_eq!(rt; listing.skipped(), 1);
    Ok(())
}

/// What a scan finds of a file `a`, which can be opened or not.
fn file_found(alloc: Global, opens: bool) -> Result<Listing, Fail> {
    let root = folder(alloc, "root", &[("a", Kind::File)], false)?;
    let file = if opens {
        Some(file(alloc, "root/a", b"abc", false)?)
    } else {
        None
    };
    let mut disk = disk(alloc, root, file)?;
    Ok(read(alloc, &mut disk)?)
}

#[test]
fn a_file_that_becomes_unreadable_keeps_its_row(rt: HostRuntime) -> Result<(), Fail> {
    let alloc = rt.alloc();
    let first = plan(
        alloc,
        &Baseline::new(alloc),
        &HoldingList::new(alloc),
        &file_found(alloc, true)?,
    )?;
    let mut baseline = first.baseline;
    for step in first.steps.as_slice() {
        baseline.settle(step, 1)?;
    }
    let listing = file_found(alloc, false)?;
    assert!(rt; lists(&listing, &[("a", Found::Unreadable)]));
    let second = plan(alloc, &baseline, &held(alloc, HELD)?, &listing)?;
    assert!(rt; keeps(&second.baseline, &[("a", mark(ABC, 1))]));
    assert!(rt; second.steps.as_slice().is_empty());
    Ok(())
}

#[test]
fn a_listing_that_fails_half_way_is_none(rt: HostRuntime) -> Result<(), Fail> {
    let alloc = rt.alloc();
    let root = folder(alloc, "root", &[("a", Kind::File)], true)?;
    let mut disk = disk(alloc, root, Some(file(alloc, "root/a", b"abc", false)?))?;
    let Err(fault) = read(alloc, &mut disk) else {
        return Err(Fail::from("listed"));
    };
    if fault == ScanFault::OutOfMemory {
        return Err(Fail::from(AllocError));
    }
    assert_eq!(rt; fault, ScanFault::Folder);
    Ok(())
}

/// A folder of this test's own, which isn't there yet.
fn new_folder(rt: &HostRuntime, name: &str) -> Result<String, Fail> {
    let own = std::process::id(rt.process());
    let folder = format!(in rt.alloc();
        "{}/pana_scan_{own}_{name}",
        std::env::temp_dir(rt)?.display()
    )?;
    let _ = fs::remove_dir_all(rt, folder.as_str());
    fs::create_dir(rt, folder.as_str())?;
    Ok(folder)
}

/// Counts what it learns of a scan, in any thread.
#[derive(Drop)]
pub(crate) struct Tally {
    files: AtomicU64,
    bytes: AtomicU64,
}

impl Tally {
    pub(crate) fn new() -> Tally {
        Tally {
            files: AtomicU64::new(0),
            bytes: AtomicU64::new(0),
        }
    }

    /// How many files and bytes it has counted.
    pub(crate) fn counts(&self) -> (u64, u64) {
        (
            self.files.load(Ordering::SeqCst),
            self.bytes.load(Ordering::SeqCst),
        )
    }
}

impl Watch for Tally {
    fn files_listed(&self, _count: usize) {}

    fn file_begun(&self) {
        self.files.fetch_add(1, Ordering::SeqCst);
    }

    fn bytes_read(&self, count: usize) {
        self.bytes.fetch_add(count as u64, Ordering::SeqCst);
    }
}

/// What a scan of the folder finds by one disk.
pub(crate) fn read_by_one(
    rt: &HostRuntime,
    device: &DeviceName,
    root: &str,
    tally: &Tally,
) -> Result<Listing, ScanFault> {
    read_root(rt.alloc(), &mut SystemDisk::new(rt), device, root, tally)
}

/// A folder of this test's own with these files, each with the text `abc`.
pub(crate) fn folder_with(rt: &HostRuntime, name: &str, files: &[&str]) -> Result<String, Fail> {
    let root = new_folder(rt, name)?;
    fs::create_dir(rt, format!(in rt.alloc(); "{root}/a")?)?;
    for name in files {
        fs::write(rt, format!(in rt.alloc(); "{root}/{name}")?, "abc")?;
    }
    Ok(root)
}

#[test]
fn folder_is_read_in_byte_order_of_whole_paths(rt: HostRuntime) -> Result<(), Fail> {
    let root = folder_with(&rt, "order", &["a/b", "a-b", "ab", ".a"])?;
    let device = DeviceName::new("usb")?;
    let tally = Tally::new();
    let read = read_by_one(&rt, &device, root.as_str(), &tally);
    fs::remove_dir_all(&rt, root.as_str())?;
    let listing = read?;
    assert_eq!(rt; tally.counts(), (4, 12));
    assert_eq!(rt; listing.skipped(), 0);
    let seen = Found::Seen(ABC);
    assert!(rt;
        lists(
            &listing,
            &[(".a", seen), ("a-b", seen), ("a/b", seen), ("ab", seen)]
        )
    );
    Ok(())
}
