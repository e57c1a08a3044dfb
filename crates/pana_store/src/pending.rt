//! Entries that wait to be kept, and their line in the making.
ghost use Rattle.std.specs.Prelude.{◌≡◌, ◌≢◌, ◌⊎◌, ◌<◌, ◌≤◌, ◌+◌, ◌^◌, ◌++◌, ◌∷◌, List, ℕ, [], false, IsTrue, IfOk, IfErr, OnOk, OnErr, length, option_copied, option_to_list};
ghost use Rattle.pana_journal.specs.declared.entry.Entry.{Entry};
ghost use Rattle.pana_log.specs.declared.device_fault.DeviceFault.TheVariants.{OutOfMemory};
ghost use Rattle.pana_log.specs.Device.{LeavesOnly};
ghost use Rattle.pana_log.specs.Lines.{recovered, HasRoom, IsBeforeOrAfter, IsWhole};
ghost use Rattle.pana_log.specs.Log.{IsSettled};
ghost use Rattle.pana_seal.specs.Seal.{Covers};
ghost use Rattle.pana_wire.specs.inner.LongLine.{IsOpenLine};
ghost use Rattle.pana_store.specs.Entries.{IsLineOf, IsSealedBehind};
ghost use Rattle.pana_store.specs.inner.{IsWaiting, HasRoomFor, SealsLike, IsSealer, CommitsLine, LosesLine};

use pana_calls::NoAnswer;
use pana_journal::Entry;
use pana_log::{Device, DeviceFault, Log, LogState};
use pana_seal::Sealer;
use pana_wire::OpenLine;
use std::alloc::{AllocError, Global};

/// How many entries a group has at most, but for one, and how long its line may get, for those of one more call.
const MOST_ENTRIES: u64 = 998;

const MOST_BYTES: usize = 900_000;

/// As many bytes as come behind the entries of a line: the end of their list, the digest, the newline, and the closed gate.
const BEHIND: &[u8; 80] = &[0; 80];

/// Entries that wait to be kept.
#[derive(Drop)]
pub(crate) struct Pending {
    /// Their line.
    pub line: OpenLine,
    /// What stands before it, for its digest; where no entry waits there may be none.
    pub seal: Option<Sealer>,
    /// How many they are.
    pub count: u64,
}

impl Pending {
    /// None. Takes 1,048,577 bytes.
    pub fn new(alloc: Global) -> Result<Pending, AllocError>
        ensures { IfOk result (λ pending. (sealer : Sealer) → IsWaiting sealer [] pending) }
    {
        let line = OpenLine::new(alloc)?;
        Ok(Pending {
            line,
            seal: None,
            count: 0,
        })
    }

    /// Whether the entries of one more call may be too many.
    pub fn is_full(&self) -> bool
        ensures { result ≡ false → self.now.count ≤ 998 }
    {
        self.count > MOST_ENTRIES || self.line.len() > MOST_BYTES
    }
}

/// Has a call's entries wait behind those that wait, in their line, and writes them behind the closed gate, so that there is room.
/// At `Err` no more wait than before; it is `OutOfMemory` where memory runs out.
pub(crate) fn add<D: Device>(
    alloc: Global,
    log: &mut Log<D>,
    sealer: &Sealer,
    pending: &mut Pending,
    entry: &Entry,
    second: Option<&Entry>,
) -> Result<(), DeviceFault>
    requires open { log.old.state ≡ LogState.Open }
    requires settled { IsTrue D.is_known → IsSettled D.seen D.may_leave D.is_usable log.old }
    requires behind { IsTrue D.is_known → HasRoomFor D.seen pending.old log.old }
    requires line { 0 < length pending.old.line }
    requires count { pending.old.count ≤ 1000 }
    ensures ok { OnOk result ((waiting : List Entry) → IsWaiting sealer.now waiting pending.old → IsWaiting sealer.now (waiting ++ (entry.now ∷ option_to_list (option_copied second.entry))) pending.new) }
    ensures err { OnErr result ((waiting : List Entry) → IsWaiting sealer.now waiting pending.old → IsWaiting sealer.now waiting pending.new) }
    ensures cause { IfErr result (λ fault. (fault ≡ OutOfMemory) ⊎ (IsTrue D.is_known → IsTrue (D.has_failed log.new.device) ⊎ (2 ^ 60 < log.new.end))) }
    ensures settled { IsTrue D.is_known → IsSettled D.seen D.may_leave D.is_usable log.new }
    ensures behind { IsTrue D.is_known → HasRoomFor D.seen pending.new log.new }
    ensures same { IsTrue D.is_known → recovered (D.seen log.new.device) ≡ recovered (D.seen log.old.device) }
    ensures end { log.new.end ≡ log.old.end }
    ensures state { log.new.state ≡ log.old.state }
    ensures any_moment { IsTrue D.is_known → LeavesOnly D.moment D.left_since log.old.device log.new.device (λ c. recovered c ≡ recovered (D.seen log.old.device)) }
{
    let Ok(()) = has_seal(sealer, &mut pending.seal) else {
        return Err(DeviceFault::OutOfMemory);
    };
    let len = pending.line.len();
    let is_first = pending.count == 0;
    let Ok(()) = pending.line.add(alloc, is_first, entry, second) else {
        return Err(DeviceFault::OutOfMemory);
    };
    let from = if is_first { 1 } else { len };
    if let Err(fault) = reserve(log, &mut pending.line, from) {
        pending.line.truncate(len);
        return Err(fault);
    }
    pending.count += count_of(second);
    Ok(())
}

/// How many entries a call has, by its second one.
fn count_of(second: Option<&Entry>) -> u64
    ensures count { result ≡ length (option_to_list (option_copied second.entry)) + 1 }
    ensures few { result ≤ 2 }
{
    match second {
        Some(_) => 2,
        None => 1,
    }
}

/// Sees that there is a sealer for the digest of the line.
fn has_seal(sealer: &Sealer, seal: &mut Option<Sealer>) -> Result<(), AllocError>
    ensures ok { OnOk result (SealsLike sealer.now seal.old → IsSealer sealer.now seal.new) }
    ensures err { OnErr result (seal.new ≡ seal.old) }
{
    match seal {
        Some(_) => Ok(()),
        None => {
            *seal = Some(sealer.copy()?);
            Ok(())
        }
    }
}

/// Writes the line from this byte on behind the closed gate, and as many bytes more as come behind its entries.
fn reserve<D: Device>(log: &mut Log<D>, line: &mut OpenLine, from: usize) -> Result<(), DeviceFault>
    requires some { 0 < from }
    requires from { from ≤ length line.old }
    requires room { length line.old + 80 ≤ 1048577 }
    requires open { log.old.state ≡ LogState.Open }
    requires settled { IsTrue D.is_known → IsSettled D.seen D.may_leave D.is_usable log.old }
    requires within { IsTrue D.is_known → log.old.end + from ≤ length (D.seen log.old.device) }
    ensures line { line.new ≡ line.old }
    ensures behind { OnOk result (IsTrue D.is_known → log.new.end + length line.old ≤ length (D.seen log.new.device)) }
    ensures few { OnOk result (log.new.end ≤ 2 ^ 60) }
    ensures no_shorter { IsTrue D.is_known → length (D.seen log.old.device) ≤ length (D.seen log.new.device) }
    ensures cause { OnErr result (IsTrue D.is_known → IsTrue (D.has_failed log.new.device) ⊎ (2 ^ 60 < log.new.end)) }
    ensures settled { IsTrue D.is_known → IsSettled D.seen D.may_leave D.is_usable log.new }
    ensures same { IsTrue D.is_known → recovered (D.seen log.new.device) ≡ recovered (D.seen log.old.device) }
    ensures end { log.new.end ≡ log.old.end }
    ensures state { log.new.state ≡ log.old.state }
    ensures any_moment { IsTrue D.is_known → LeavesOnly D.moment D.left_since log.old.device log.new.device (λ c. recovered c ≡ recovered (D.seen log.old.device)) }
{
    let len = line.len();
    line.push(BEHIND);
    let result = log.reserve(from - 1, &line.as_slice()[from..]);
    line.truncate(len);
    result
}

/// Keeps the entries that wait, by one line.
pub(crate) fn settle<D: Device>(
    log: &mut Log<D>,
    sealer: &mut Sealer,
    pending: &mut Pending,
) -> Result<(), NoAnswer>
    requires open { log.old.state ≡ LogState.Open }
    requires waiting { (waiting : List Entry) × IsWaiting sealer.old waiting pending.old × (0 < length waiting) }
    requires settled { IsTrue D.is_known → IsSettled D.seen D.may_leave D.is_usable log.old }
    requires room { IsTrue D.is_known → log.old.end ≤ 2 ^ 60 }
    ensures ok { OnOk result (CommitsLine D.is_known D.seen D.may_leave D.is_usable D.moment D.left_since log.old log.new sealer.old sealer.new pending.old) }
    ensures none { OnOk result (IsWaiting sealer.new [] pending.new) }
    ensures state { OnOk result (log.new.state ≡ LogState.Open) }
    ensures fails { OnErr result (LosesLine D.is_known D.seen D.moment D.left_since log.old log.new sealer.old pending.old) }
    ensures broken { OnErr result (log.new.state ≢ LogState.Open) }
    ensures cause { OnErr result (IsTrue D.is_known → IsTrue (D.has_failed log.new.device)) }
    ensures count { OnErr result (pending.new.count ≡ pending.old.count) }
{
    let Some(seal) = pending.seal.take() else {
        unreachable!()
    };
    seal_line(&mut pending.line, seal);
    commit(log, sealer, pending.line.as_slice())?;
    pending.line.clear();
    pending.count = 0;
    Ok(())
}

/// Ends the line with its digest.
fn seal_line(line: &mut OpenLine, seal: Sealer)
    requires room { length line.old + 79 ≤ 1048577 }
    ensures line { (waiting : List Entry) → IsOpenLine waiting line.old → IsLineOf waiting line.new }
    ensures sealed { (waiting : List Entry) → (before : List ℕ) → IsOpenLine waiting line.old → Covers seal before → IsSealedBehind before line.new }
{
    line.close();
    let digest = seal.finish(line.as_slice());
    line.seal(&digest);
}

/// Stages a line, and commits it. Where it isn't kept the log is broken.
fn commit<D: Device>(log: &mut Log<D>, sealer: &mut Sealer, line: &[u8]) -> Result<(), NoAnswer>
    requires open { log.old.state ≡ LogState.Open }
    requires whole { IsWhole line.now }
    requires settled { IsTrue D.is_known → IsSettled D.seen D.may_leave D.is_usable log.old }
    ensures settled { OnOk result (IsTrue D.is_known → IsSettled D.seen D.may_leave D.is_usable log.new) }
    ensures added { OnOk result (IsTrue D.is_known → recovered (D.seen log.new.device) ≡ recovered (D.seen log.old.device) ++ recovered line.now) }
    ensures taken { OnOk result ((before : List ℕ) → Covers sealer.old before → Covers sealer.new (before ++ line.now)) }
    ensures state { OnOk result (log.new.state ≡ LogState.Open) }
    ensures broken { OnErr result (log.new.state ≢ LogState.Open) }
    ensures cause { OnErr result (IsTrue D.is_known → HasRoom log.old.end line.now → IsTrue (D.has_failed log.new.device)) }
    ensures any_moment { IsTrue D.is_known → LeavesOnly D.moment D.left_since log.old.device log.new.device (IsBeforeOrAfter (recovered (D.seen log.old.device)) (recovered line.now)) }
{
    let Ok(()) = log.stage(line) else {
        log.state = LogState::Broken;
        return Err(NoAnswer);
    };
    let Ok(()) = log.commit(line) else {
        return Err(NoAnswer);
    };
    sealer.push(line);
    Ok(())
}
