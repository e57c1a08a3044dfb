//! What no clause says of a scanner: that reports are made where memory is there, and that it goes on where a call had no answer.

use pana_calls::{Answer, Call, NoAnswer, Query, Session};
use pana_copies::{CopyPath, DeviceName};
use pana_daemon::{DeskSession, Folder, IdleSupervisor, Look, Shared, scanner};
use pana_hall::Hall;
use pana_journal::{EntryList, Report};
use pana_scan::{Found, Listing, ScanFault};
use pana_track::FolderEnd;
use pana_turn::Desk;
use std::alloc::{AllocError, Global};
use std::marker::Sync;
use std::sync::Wait;
use std::test::Fail;
use std::thread::Threads;

/// The SHA-256 of `abc`.
const ABC: [u8; 32] = [
    0xba, 0x78, 0x16, 0xbf, 0x8f, 0x01, 0xcf, 0xea, 0x41, 0x41, 0x40, 0xde, 0x5d, 0xae, 0x22, 0x23,
    0xb0, 0x03, 0x61, 0xa3, 0x96, 0x17, 0x7a, 0x9c, 0xb4, 0x10, 0xff, 0x61, 0xf2, 0x00, 0x15, 0xad,
];

/// A folder that has the file `a`, can't be listed, is empty, and is scanned no more.
#[derive(Drop)]
struct Fading {
    alloc: Global,
    scans: u64,
}

fn listing(alloc: Global, paths: &[&str]) -> Result<Listing, AllocError> {
    let Ok(device) = DeviceName::new("usb") else {
        return Err(AllocError);
    };
    let mut listing = Listing::new(alloc, device);
    for path in paths {
        let Ok(path) = CopyPath::new(alloc, path) else {
            return Err(AllocError);
        };
        if listing.is_above(&path) {
            listing.push(path, Found::Seen(ABC))?;
        }
    }
    Ok(listing)
}

/// A look at a folder that has files at these paths.
fn look_at(alloc: Global, paths: &[&str]) -> Look {
    Look::Scanned(listing(alloc, paths).map_err(|_| ScanFault::OutOfMemory))
}

impl Folder for Fading {
    fn next<R: Threads + Sync>(&mut self, _threads: &R) -> Option<Look> {
        self.scans = self.scans.saturating_add(1);
        match self.scans {
            1 => Some(look_at(self.alloc, &["a"])),
            2 => Some(Look::Scanned(Err(ScanFault::Folder))),
            3 => Some(look_at(self.alloc, &[])),
            _ => None,
        }
    }

    fn note_end(&mut self, _end: &FolderEnd) {}
}

/// A folder that has the files `a` and `b`, and is scanned three times.
#[derive(Drop)]
struct Lasting {
    alloc: Global,
    scans: u64,
}

impl Folder for Lasting {
    fn next<R: Threads + Sync>(&mut self, _threads: &R) -> Option<Look> {
        self.scans = self.scans.saturating_add(1);
        if self.scans > 3 {
            return None;
        }
        Some(look_at(self.alloc, &["a", "b"]))
    }

    fn note_end(&mut self, _end: &FolderEnd) {}
}

/// A hall of whose calls one has no answer.
#[derive(Drop)]
struct Faltering {
    hall: Hall,
    calls: u64,
    fails_at: u64,
    recovers: bool,
}

impl Session for Faltering {
    ghost step = { λ old by call answer new. Unit {0} };

    fn call(&mut self, by: &DeviceName, call: Call) -> Result<Answer, NoAnswer> {
        self.calls = self.calls.saturating_add(1);
        if self.calls == self.fails_at {
            return Err(NoAnswer);
        }
        self.hall.call(by, call)
    }

    fn settle(&mut self) -> Result<(), NoAnswer> {
        Ok(())
    }

    fn may_recover(&self) -> bool {
        self.recovers
    }
}

/// The entries of a session's journal; none where it has no answer.
fn entries_of<S: Session>(alloc: Global, session: &mut S, by: &DeviceName) -> EntryList {
    let Ok(answer) = session.call(by, Call::Query(Query::JournalFrom { entry: 1 })) else {
        return EntryList::new(alloc);
    };
    match answer.into_journal() {
        Some(entries) => entries,
        None => EntryList::new(alloc),
    }
}

/// What a scanner of a folder has reported to a session.
fn scanned<T: Threads + Wait + Sync, S: Session + Drop, F: Folder>(
    rt: &T,
    alloc: Global,
    session: S,
    folder: &mut F,
) -> Result<EntryList, Fail> {
    let usb = DeviceName::new("usb")?;
    let (desk, mut passes) = Desk::open(alloc, 1, Shared::new(session))?;
    let Some(pass) = passes.pop() else {
        return Ok(EntryList::new(alloc));
    };
    let mut session = DeskSession::new(rt, &desk, &IdleSupervisor, 0, pass, None);
    scanner(rt, alloc, &mut session, &usb, folder);
    Ok(entries_of(alloc, &mut session, &usb))
}

/// What a scanner of such a folder has reported to a session of which one call has no answer.
fn reported<T: Threads + Wait + Sync>(
    rt: &T,
    alloc: Global,
    fails_at: u64,
    recovers: bool,
) -> Result<EntryList, Fail> {
    let session = Faltering {
        hall: Hall::new(alloc)?,
        calls: 0,
        fails_at,
        recovers,
    };
    scanned(rt, alloc, session, &mut Lasting { alloc, scans: 0 })
}

#[test]
fn scanner_goes_on(rt: HostRuntime) -> Result<(), Fail> {
    for fails_at in 1..4 {
        let entries = reported(&rt, rt.alloc(), fails_at, true)?;
        let entries = entries.as_slice();
        assert_eq!(rt; entries.len(), 2);
        assert!(rt; matches!(entries[0].report, Report::Register { .. }));
        assert!(rt; matches!(entries[1].report, Report::Register { .. }));
    }
    Ok(())
}

#[test]
fn scanner_ends(rt: HostRuntime) -> Result<(), Fail> {
    let entries = reported(&rt, rt.alloc(), 3, false)?;
    assert_eq!(rt; entries.as_slice().len(), 1);
    Ok(())
}

#[test]
fn scanner_plans(rt: HostRuntime) -> Result<(), Fail> {
    let alloc = rt.alloc();
    let hall = Hall::new(alloc)?;
    let entries = scanned(&rt, alloc, hall, &mut Fading { alloc, scans: 0 })?;
    let entries = entries.as_slice();
    assert_eq!(rt; entries.len(), 2);
    assert!(rt; matches!(entries[0].report, Report::Register { .. }));
    assert_eq!(rt;
        entries[1].report,
        Report::Remove {
            copy: 1,
            heir: None
        }
    );
    Ok(())
}
