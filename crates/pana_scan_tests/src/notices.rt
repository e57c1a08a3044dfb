use crate::holdings::held;
use pana_calls::{Call, Sighting};
use pana_copies::{CopyPath, DeviceName, Place, Sum};
use pana_journal::Report;
use pana_scan::{Found, Listing, Notice, notice};
use std::alloc::Global;
use std::test::Fail;

/// SHA-256 of `abc`, from the standard.
const ABC: [u8; 32] = [
    0xba, 0x78, 0x16, 0xbf, 0x8f, 0x01, 0xcf, 0xea, 0x41, 0x41, 0x40, 0xde, 0x5d, 0xae, 0x22, 0x23,
    0xb0, 0x03, 0x61, 0xa3, 0x96, 0x17, 0x7a, 0x9c, 0xb4, 0x10, 0xff, 0x61, 0xf2, 0x00, 0x15, 0xad,
];

/// The same as a sum.
const ABC_SUM: &str = "ba7816bf8f01cfea414140de5dae2223b00361a396177a9cb410ff61f20015ad";

fn place(alloc: Global, text: &str) -> Result<Place, Fail> {
    Ok(Place {
        device: DeviceName::new("usb")?,
        path: CopyPath::new(alloc, text)?,
    })
}

/// Copies 1 to 3 at `a`, `c` and `d`: of `abc`, of an empty file, and of what nobody has said.
const HELD: &[u8] =
    b"{\"holdings\":[{\"copy\":1,\"family\":1,\"path\":\"a\",\"sum\":\"ba7816bf8f01cfea414140de5dae2223b00361a396177a9cb410ff61f20015ad\",\"touch\":1},{\"copy\":2,\"family\":2,\"path\":\"c\",\"sum\":\"e3b0c44298fc1c149afbf4c8996fb92427ae41e4649b934ca495991b7852b855\",\"touch\":2},{\"copy\":3,\"family\":3,\"path\":\"d\",\"touch\":3}]}";

/// What a scan finds: `abc` at `b`, and what can't be read at `d`.
fn scanned(alloc: Global) -> Result<Listing, Fail> {
    let mut listing = Listing::new(alloc, DeviceName::new("usb")?);
    for (text, found) in [("b", Found::Seen(ABC)), ("d", Found::Unreadable)] {
        let path = CopyPath::new(alloc, text)?;
        if listing.is_above(&path) {
            listing.push(path, found)?;
        }
    }
    Ok(listing)
}

/// What is reported: the file at `a` is at `b` now, where it was found, and the one at `c` is missing.
fn expected(alloc: Global) -> Result<Vec<Call>, Fail> {
    let mut calls = Vec::new(alloc);
    calls.push(Call::Report(Report::Relocate {
        copy: 1,
        place: place(alloc, "b")?,
    }))?;
    calls.push(Call::Sighting(Sighting::Found {
        place: place(alloc, "b")?,
        sum: Sum::new(alloc, ABC_SUM)?,
    }))?;
    calls.push(Call::Sighting(Sighting::Missing {
        place: place(alloc, "c")?,
    }))?;
    Ok(calls)
}

/// The calls that report what was noticed.
fn calls_of(alloc: Global, notices: &[Notice]) -> Result<Vec<Call>, Fail> {
    let usb = DeviceName::new("usb")?;
    let mut calls = Vec::new(alloc);
    for notice in notices {
        calls.push(notice.call(alloc, &usb)?)?;
    }
    Ok(calls)
}

#[test]
fn a_renamed_file_is_noticed(rt: HostRuntime) -> Result<(), Fail> {
    let alloc = rt.alloc();
    let notices = notice(alloc, &held(alloc, HELD)?, &scanned(alloc)?)?;
    let calls = calls_of(alloc, notices.as_slice())?;
    let wanted = expected(alloc)?;
    assert!(rt; calls.as_slice() == wanted.as_slice());
    Ok(())
}
