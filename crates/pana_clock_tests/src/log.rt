//! What no clause says: that calls succeed where memory is there and a device works, what a file of the system gives, and
//! that the definitions say what is meant, by crashes that are run.
use pana_log::{
    Crash, Device, DeviceFault, FileDevice, FileKind, Log, LogFault, LogState, MemoryDevice,
    Recovery, is_whole,
};
use std::alloc::Global;
use std::fs::{File, OpenOptions};
use std::test::Fail;

/// A file of the system, by its name.
fn device_of(rt: &HostRuntime, name: &str, file: File) -> Result<FileDevice, Fail> {
    let text = String::from_str(rt.alloc(), name)?;
    Ok(FileDevice::new(rt.clone()?, text, file))
}

/// What a file stands for after a crash, if it is a log.
fn recovered(alloc: Global, file: Vec<u8>) -> Result<Recovery, DeviceFault> {
    Log::new(MemoryDevice::new(alloc, file)).read(alloc)
}

/// Whether each crash after so many calls leaves one of two texts, whatever of the writes had reached the disk.
fn leaves_either(
    device: &MemoryDevice,
    alloc: Global,
    calls: usize,
    before: &[u8],
    after: &[u8],
) -> Result<bool, DeviceFault> {
    for written in 0..14 {
        for other in [None, Some(0), Some(b'{'), Some(b'\n'), Some(b'x')] {
            for is_from_end in [false, true] {
                let crash = Crash {
                    operations: calls,
                    written,
                    is_from_end,
                    other,
                };
                let text = recovered(alloc, device.after_crash(crash)?)?.text;
                if text.as_slice() != before && text.as_slice() != after {
                    return Ok(false);
                }
            }
        }
    }
    Ok(true)
}

#[test]
fn torn_ends(rt: HostRuntime) -> Result<(), Fail> {
    let alloc = rt.alloc();
    let files: [(&[u8], &[u8], usize, FileKind); 12] = [
        (b"", b"", 0, FileKind::Journal),
        (b"\0\"entries\":[", b"", 11, FileKind::Journal),
        (b"\0\0\0\x18ftyp", b"", 7, FileKind::Foreign),
        (b"{1}\n", b"{1}\n", 0, FileKind::Journal),
        (b"{1}\n\0", b"{1}\n", 0, FileKind::Journal),
        (b"{1}\n{2}\n{torn", b"{1}\n{2}\n", 5, FileKind::Foreign),
        (b"{1}\n{\"entr", b"{1}\n", 6, FileKind::Unended),
        (b"{1}\n\0torn}\n{3}\n", b"{1}\n", 10, FileKind::Journal),
        (b"{1}\n\0\n{\"entries\":[", b"{1}\n", 13, FileKind::Foreign),
        (b"{1}\ntorn\n{3}\n", b"{1}\n", 9, FileKind::Foreign),
        (b"a photograph", b"", 12, FileKind::Foreign),
        (b"\n", b"", 1, FileKind::Foreign),
    ];
    for (file, lines, torn, kind) in files {
        let found = recovered(alloc, file.to_vec(alloc)?)?;
        assert_eq!(rt; found.text.as_slice(), lines);
        assert_eq!(rt; found.torn, torn);
        assert_eq!(rt; found.kind, kind);
        assert_eq!(rt; is_whole(file), !file.is_empty() && file == lines);
    }
    Ok(())
}

#[test]
fn crashes_of_a_repair_and_a_commit(rt: HostRuntime) -> Result<(), Fail> {
    let alloc = rt.alloc();
    let file = b"{1}\n\0torn}\n{3}\n".to_vec(alloc)?;
    let mut log = Log::new(MemoryDevice::new(alloc, file));
    let found = log.read(alloc)?;
    assert_eq!(rt; found.kind, FileKind::Journal);
    log.repair()?;
    assert_eq!(rt; log.device.operations(), 4);
    let text = b"{2}\n{3}\n";
    assert!(rt; is_whole(text));
    log.stage(text)?;
    assert_eq!(rt; log.device.operations(), 7);
    log.commit(text)?;
    assert_eq!(rt; log.device.operations(), 9);
    let after = b"{1}\n{2}\n{3}\n";
    for calls in 0..8 {
        assert!(rt; leaves_either(&log.device, alloc, calls, b"{1}\n", b"{1}\n")?);
    }
    assert!(rt; leaves_either(&log.device, alloc, 8, b"{1}\n", after)?);
    assert!(rt; leaves_either(&log.device, alloc, 9, after, after)?);
    Ok(())
}

#[test]
fn messages_of_faults(rt: HostRuntime) -> Result<(), Fail> {
    let alloc = rt.alloc();
    let message = format!(in alloc; "{}", LogFault::Refused(DeviceFault::StorageFull))?;
    assert_eq!(rt; message.as_str(), "not kept: no space left on the device");
    Ok(())
}

#[test]
fn files_of_the_system(rt: HostRuntime) -> Result<(), Fail> {
    let alloc = rt.alloc();
    let mut folder = device_of(&rt, "/", File::open(&rt, "/")?)?;
    assert_eq!(rt; folder.read(alloc).err(), Some(DeviceFault::Failed));
    assert_eq!(rt; folder.cut(0), Err(DeviceFault::Failed));
    let mut null = device_of(&rt, "/dev/null", File::open(&rt, "/dev/null")?)?;
    assert_eq!(rt; null.read(alloc)?.as_slice(), b"".as_slice());
    assert_eq!(rt; null.write_at(0, b"{"), Err(DeviceFault::Failed));
    assert_eq!(rt; null.sync(), Err(DeviceFault::Failed));
    let full = OpenOptions::new().write(true).open(&rt, "/dev/full")?;
    let mut log = Log {
        device: device_of(&rt, "/dev/full", full)?,
        end: 0,
        state: LogState::Open,
    };
    assert!(rt; is_whole(b"{1}\n"));
    assert_eq!(rt;
        log.stage(b"{1}\n"),
        Err(LogFault::Refused(DeviceFault::StorageFull))
    );
    Ok(())
}
