//! What no clause says: that a session over a device that works answers, what it answers where the device fails, and by
//! crashes that are run, that the definitions say what is meant.
ghost use Rattle.std.specs.Prelude.{true, false, []};

use pana_log::{Crash, Device, DeviceFault, Log, LogState, MemoryDevice};
use pana_store::{OpenFault, Opened, Store, before_end, open, read, serve_kept};
use pana_wire::{ServeFault, Tap, WireFault};
use std::alloc::Global;
use std::test::Fail;

const REGISTER: &[u8] = b"{\"by\":\"a\",\"device\":\"a\",\"do\":\"register\",\"path\":\"p\"}\n";

const TWO_FILES: &[u8] = b"{\"by\":\"a\",\"device\":\"a\",\"do\":\"register\",\"path\":\"p\"}\n\
{\"by\":\"a\",\"device\":\"a\",\"do\":\"register\",\"path\":\"q\"}\n";

const EDIT: &[u8] = b"{\"by\":\"a\",\"copy\":1,\"do\":\"edit\"}\n";

const BOARD: &[u8] = b"{\"by\":\"a\",\"do\":\"board\",\"family\":2}\n";

const REGISTERED: &[u8] =
    b"{\"entries\":[{\"by\":\"a\",\"device\":\"a\",\"do\":\"register\",\"number\":1,\"path\":\"p\"}]}\n";

/// A device that has no memory for what is written to it. Nothing is known of its bytes.
#[derive(Drop)]
struct ShortDevice;

impl Device for ShortDevice {
    ghost use Rattle.std.specs.Prelude.{◌≡◌};

    ghost is_known = { false };

    ghost seen = { λ _. [] };

    ghost may_leave = { λ _ c. c ≡ [] };

    ghost moment = { λ _. 0 };

    ghost left_since = { λ _ t c. c ≡ [] };

    ghost is_usable = { λ _. true };

    ghost has_failed = { λ _. true };

    ghost counts_now = { λ f t c le now. now };

    ghost only_now = { λ f c left. left };

    fn read(&mut self, alloc: Global) -> Result<Vec<u8>, DeviceFault> {
        Ok(Vec::new(alloc))
    }

    fn write_at(&mut self, _: usize, _: &[u8]) -> Result<(), DeviceFault> {
        Err(DeviceFault::OutOfMemory)
    }

    fn cut(&mut self, _: usize) -> Result<(), DeviceFault> {
        Ok(())
    }

    fn sync(&mut self) -> Result<(), DeviceFault> {
        Ok(())
    }
}

/// A session on a new journal, whose device fails once after so many calls.
fn session_of(alloc: Global, calls: usize) -> Result<Store<MemoryDevice>, Fail> {
    let device = MemoryDevice::failing_after(alloc, Vec::new(alloc), calls);
    let mut journal = Log::new(device);
    let Opened { hall, sealer, .. } = open(alloc, &mut journal)?;
    Ok(Store::new(alloc, hall, journal, sealer)?)
}

/// What a session answers to lines, and why it ended.
fn answers<D: Device>(
    alloc: Global,
    session: &mut Store<D>,
    lines: &[u8],
) -> Result<(Vec<u8>, Option<ServeFault>), Fail> {
    let mut reader = Tap::new(lines);
    let mut writer = Tap::new(Vec::new(alloc));
    let served = serve_kept(alloc, &mut reader, &mut writer, session, 1000);
    Ok((writer.into_inner(), served.err()))
}

/// How many entries a file loads to, if it is opened.
fn entries_of(alloc: Global, file: Vec<u8>) -> Result<u64, OpenFault> {
    let mut journal = Log::new(MemoryDevice::new(alloc, file));
    Ok(open(alloc, &mut journal)?.hall.length())
}

fn crash_after(calls: usize, written: usize, is_from_end: bool, other: Option<u8>) -> Crash {
    Crash {
        operations: calls,
        written,
        is_from_end,
        other,
    }
}

/// Whether each crash after so many calls leaves so many entries, or as many more as are kept together, whatever of the writes had
/// reached the disk.
fn leaves(
    alloc: Global,
    device: &MemoryDevice,
    calls: usize,
    least: u64,
    together: u64,
) -> Result<bool, Fail> {
    for written in [0, 1, 2, 50, 200] {
        for other in [None, Some(b'{'), Some(0)] {
            for is_from_end in [false, true] {
                let file = device.after_crash(crash_after(calls, written, is_from_end, other))?;
                let count = entries_of(alloc, file)?;
                if count != least && count != least.saturating_add(together) {
                    return Ok(false);
                }
            }
        }
    }
    Ok(true)
}

/// How many operations the device has made for these lines, after each.
fn operations_after(
    alloc: Global,
    session: &mut Store<MemoryDevice>,
    lines: &[&[u8]],
) -> Result<Vec<usize>, Fail> {
    let first = session.log().device.operations();
    let mut done = Vec::new(alloc);
    for line in lines {
        let _ = answers(alloc, session, line)?;
        done.push(session.log().device.operations().saturating_sub(first))?;
    }
    Ok(done)
}

/// The first number of operations, of so many from the first on, after which a crash leaves other entries than it may: one for each
/// six operations, or one more.
fn wrong_crash(
    alloc: Global,
    device: &MemoryDevice,
    first: usize,
    count: usize,
) -> Result<Option<usize>, Fail> {
    for done in 0..count {
        let calls = first.saturating_add(done);
        if !leaves(alloc, device, calls, (done / 6) as u64, 1)? {
            return Ok(Some(calls));
        }
    }
    Ok(None)
}

/// How many operations a new session's device makes for four lines, after each; and after how many a crash leaves other entries
/// than it may.
fn crashes_of_lines(
    alloc: Global,
    session: &mut Store<MemoryDevice>,
) -> Result<(Vec<usize>, Option<usize>), Fail> {
    let first = session.log().device.operations();
    let done = operations_after(alloc, session, &[REGISTER, EDIT, BOARD, EDIT])?;
    let wrong = wrong_crash(alloc, &session.log().device, first, 19)?;
    Ok((done, wrong))
}

#[test]
fn crashes_of_a_session(rt: HostRuntime) -> Result<(), Fail> {
    let alloc = rt.alloc();
    let mut session = session_of(alloc, usize::MAX)?;
    let crashes = crashes_of_lines(alloc, &mut session);
    drop(session);
    let (done, wrong) = crashes?;
    assert_eq!(rt; done.as_slice(), [6, 12, 12, 18].as_slice());
    assert_eq!(rt; wrong, None);
    Ok(())
}

/// The same of a group of two entries, which a crash leaves both or none, and both once it was kept by seven operations.
fn wrong_crash_of_a_group(
    alloc: Global,
    device: &MemoryDevice,
    first: usize,
) -> Result<Option<usize>, Fail> {
    for done in 0..8 {
        let calls = first.saturating_add(done);
        let least = if done < 7 { 0 } else { 2 };
        if !leaves(alloc, device, calls, least, 2)? {
            return Ok(Some(calls));
        }
    }
    Ok(None)
}

/// What a new session answers to two reports that come together, how many operations its device makes for them, and after how many
/// a crash leaves other entries than it may.
fn crashes_of_two_files(
    alloc: Global,
    session: &mut Store<MemoryDevice>,
) -> Result<(Vec<u8>, usize, Option<usize>), Fail> {
    let first = session.log().device.operations();
    let (answer, _) = answers(alloc, session, TWO_FILES)?;
    let made = session.log().device.operations().saturating_sub(first);
    let wrong = wrong_crash_of_a_group(alloc, &session.log().device, first)?;
    Ok((answer, made, wrong))
}

#[test]
fn crashes_of_a_group(rt: HostRuntime) -> Result<(), Fail> {
    let alloc = rt.alloc();
    let mut session = session_of(alloc, usize::MAX)?;
    let crashes = crashes_of_two_files(alloc, &mut session);
    drop(session);
    let (answer, made, wrong) = crashes?;
    assert_eq!(rt;
        answer.as_slice(),
        b"{\"done\":1}\n{\"done\":2}\n".as_slice()
    );
    assert_eq!(rt; made, 7);
    assert_eq!(rt; wrong, None);
    Ok(())
}

/// What a session whose device fails once, after so many calls, answers to two reports that come together, why it ended, and
/// whether it is open still.
fn failing_after(alloc: Global, calls: usize) -> Result<(Vec<u8>, Option<ServeFault>, bool), Fail> {
    let mut session = session_of(alloc, calls)?;
    let answered = answers(alloc, &mut session, TWO_FILES);
    let is_open = session.is_open();
    drop(session);
    let (answer, end) = answered?;
    Ok((answer, end, is_open))
}

#[test]
fn failing_calls(rt: HostRuntime) -> Result<(), Fail> {
    let alloc = rt.alloc();
    let taken_again = b"{\"code\":14,\"refused\":\"NotKept\"}\n{\"done\":1}\n".as_slice();
    let refused = b"{\"done\":1}\n{\"code\":14,\"refused\":\"NotKept\"}\n".as_slice();
    let both = b"{\"done\":1}\n{\"done\":2}\n".as_slice();
    let rows: [(usize, &[u8], Option<ServeFault>); 8] = [
        (9, taken_again, None),
        (10, refused, None),
        (11, b"", Some(ServeFault::NoAnswer)),
        (12, b"", Some(ServeFault::NoAnswer)),
        (13, b"", Some(ServeFault::NoAnswer)),
        (14, b"", Some(ServeFault::NoAnswer)),
        (15, b"", Some(ServeFault::NoAnswer)),
        (16, both, None),
    ];
    for (calls, want, fault) in rows {
        let (answer, end, is_open) = failing_after(alloc, calls)?;
        assert_eq!(rt; answer.as_slice(), want, "{calls}");
        assert_eq!(rt; end, fault, "{calls}");
        assert_eq!(rt; is_open, fault.is_none(), "{calls}");
    }
    Ok(())
}

/// A session on a new journal, whose device takes nothing that is written.
fn short_session(alloc: Global) -> Result<Store<ShortDevice>, Fail> {
    let mut journal = Log::new(MemoryDevice::new(alloc, Vec::new(alloc)));
    let Opened { hall, sealer, .. } = open(alloc, &mut journal)?;
    let short = Log {
        device: ShortDevice,
        end: 0,
        state: LogState::Open,
    };
    Ok(Store::new(alloc, hall, short, sealer)?)
}

#[test]
fn writes_without_memory(rt: HostRuntime) -> Result<(), Fail> {
    let alloc = rt.alloc();
    let mut session = short_session(alloc)?;
    let answered = answers(alloc, &mut session, REGISTER);
    drop(session);
    let (answer, end) = answered?;
    let want = b"{\"code\":9,\"refused\":\"OutOfMemory\"}\n".as_slice();
    assert_eq!(rt; answer.as_slice(), want);
    assert_eq!(rt; end, None);
    Ok(())
}

/// How many entries and torn bytes a file has, as it is read, how many operations that takes, and how long the file is then.
fn read_of(alloc: Global, file: Vec<u8>) -> Result<(u64, usize, usize, usize), Fail> {
    let mut journal = Log::new(MemoryDevice::new(alloc, file));
    let Opened { hall, torn, .. } = read(alloc, &mut journal)?;
    let entries = hall.length();
    drop(hall);
    let left = journal.device.read(alloc)?.len();
    Ok((entries, torn, journal.device.operations(), left))
}

#[test]
fn journals_that_are_read(rt: HostRuntime) -> Result<(), Fail> {
    let alloc = rt.alloc();
    let mut file = REGISTERED.to_vec(alloc)?;
    file.extend_from_slice(b"\0torn")?;
    assert_eq!(rt; before_end(&file), REGISTERED);
    let read = read_of(alloc, file)?;
    assert_eq!(rt; read, (1, 4, 0, REGISTERED.len() + 5));
    Ok(())
}

#[test]
fn messages_of_faults(rt: HostRuntime) -> Result<(), Fail> {
    let fault = OpenFault::Line {
        line: 7,
        fault: WireFault::NotJson,
    };
    let text = format!(in rt.alloc(); "{fault}")?;
    assert_eq!(rt; text.as_str(), "line 7: NotJson");
    let damaged = format!(in rt.alloc(); "{}", OpenFault::Damaged { line: 7 })?;
    assert_eq!(rt; damaged.as_str(), "line 7: Damaged");
    let unended = format!(in rt.alloc(); "{}", OpenFault::Unended)?;
    assert_eq!(rt; unended.as_str(), "the last line has no newline");
    Ok(())
}
