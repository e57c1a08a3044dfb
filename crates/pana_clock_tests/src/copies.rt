use pana_copies::{CopyPath, CopyTable, DeviceName, NameFault, Place};
use std::alloc::Global;
use std::test::Fail;

/// The place of a file with this name on this device.
fn file(alloc: Global, device: &str, name: &str) -> Result<Place, NameFault> {
    Ok(Place {
        device: DeviceName::new(device)?,
        path: CopyPath::new(alloc, name)?,
    })
}

/// The place of the notes on this device.
fn notes(alloc: Global, device: &str) -> Result<Place, NameFault> {
    file(alloc, device, "work/notes.txt")
}

/// Keeps a copy at a place, unless it is kept already or the place is another's: whether it did.
fn keep_at(table: &mut CopyTable, copy: u64, place: Place) -> Result<bool, Fail> {
    if table.get(copy).is_some() || table.at(&place).is_some() {
        return Ok(false);
    }
    table.reserve()?;
    table.insert(copy, 1, place);
    Ok(true)
}

/// Keeps a copy of the notes on a device so.
fn keep(alloc: Global, table: &mut CopyTable, copy: u64, device: &str) -> Result<bool, Fail> {
    let place = notes(alloc, device)?;
    keep_at(table, copy, place)
}

#[test]
fn copies_are_kept_at_places(rt: HostRuntime) -> Result<(), Fail> {
    let alloc = rt.alloc();
    let mut table = CopyTable::new(alloc);
    for (copy, device, is_new) in [(1, "desk", true), (2, "phone", true), (3, "phone", false)] {
        assert_eq!(rt; keep(alloc, &mut table, copy, device)?, is_new);
    }
    assert_eq!(rt; table.len(), 2);
    let place = notes(alloc, "phone")?;
    assert_eq!(rt; table.at(&place), Some(2));
    Ok(())
}

#[test]
fn copies_at_one_path_are_found_on_each_device(rt: HostRuntime) -> Result<(), Fail> {
    let alloc = rt.alloc();
    let mut table = CopyTable::new(alloc);
    for (copy, device) in [(9, "desk"), (4, "phone"), (6, "laptop")] {
        assert!(rt; keep(alloc, &mut table, copy, device)?);
    }
    if table.get(4).is_some() {
        table.remove(4);
    }
    let path = CopyPath::new(alloc, "work/notes.txt")?;
    let found = table.with_path(alloc, &path)?;
    assert_eq!(rt; found.as_slice(), [6, 9].as_slice());
    let other = CopyPath::new(alloc, "work/other.txt")?;
    assert!(rt; table.with_path(alloc, &other)?.is_empty());
    Ok(())
}

#[test]
fn copies_on_a_device_are_found_from_a_number_on(rt: HostRuntime) -> Result<(), Fail> {
    let alloc = rt.alloc();
    let mut table = CopyTable::new(alloc);
    // The byte by which copies of a device are found is the same for "an" and "iv".
    for (copy, device, name) in [
        (7, "an", "a"),
        (2, "iv", "b"),
        (5, "an", "c"),
        (3, "an", "d"),
    ] {
        let place = file(alloc, device, name)?;
        assert!(rt; keep_at(&mut table, copy, place)?);
    }
    if table.get(7).is_some() {
        table.remove(7);
    }
    let device = DeviceName::new("an")?;
    assert_eq!(rt;
        table.on_device(alloc, &device, 0)?.as_slice(),
        [3, 5].as_slice()
    );
    assert_eq!(rt;
        table.on_device(alloc, &device, 4)?.as_slice(),
        [5].as_slice()
    );
    let other = DeviceName::new("cy")?;
    assert!(rt; table.on_device(alloc, &other, 0)?.is_empty());
    Ok(())
}

#[test]
fn a_place_is_copied(rt: HostRuntime) -> Result<(), Fail> {
    let place = notes(rt.alloc(), "laptop")?;
    let copy = place.copy_of()?;
    assert!(rt; copy == place);
    Ok(())
}

#[test]
fn a_name_prints_as_text(rt: HostRuntime) -> Result<(), Fail> {
    let name = DeviceName::new("laptop")?;
    let text = format!(in rt.alloc(); "{name:?}")?;
    assert_eq!(rt; text.as_str(), "DeviceName { text: \"laptop\" }");
    Ok(())
}
