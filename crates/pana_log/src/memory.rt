ghost use Rattle.std.specs.Prelude.{◌≡◌, ◌⊎◌, ◌<◌, ◌+◌, ℕ, List, [], ◌∷◌, ◌++◌, true, false, IsTrue, length, take, drop, IfOk, OnOk, OnErr, IfErr, IsErrOf};
ghost use Rattle.pana_log.specs.Operations.{file_after, file_of, LeftAfter, MayLeave, LeftSince, left_now, left_last};
ghost use Rattle.pana_log.specs.Device.{Torn};

use crate::device::Device;
use crate::device_fault::DeviceFault;
use crate::operation::Operation;
use std::alloc::{AllocError, Global};

/// A device in memory, for tests. It keeps its first content and each operation since, so that a crash at any moment can be
/// tried; and it can be made to fail.
#[derive(Drop)]
pub struct MemoryDevice {
    alloc: Global,
    first: Vec<u8>,
    operations: Vec<Operation>,
    /// How many writes, cuts and syncs are still done before one fails.
    calls_left: usize,
    is_usable: bool,
    has_failed: bool,
}

/// A crash of a device in memory: when it came, and what of the writes since the last sync had reached the disk by then.
#[derive(Clone, Copy)]
pub struct Crash {
    /// After so many operations, the last of which may be torn.
    pub operations: usize,
    /// How many bytes of the writes had reached the disk, and whether they are the last ones.
    pub written: usize,
    pub is_from_end: bool,
    /// What stands where a byte of a write hadn't: this, or what stood there before, if anything.
    pub other: Option<u8>,
}

impl MemoryDevice {
    ghost use Rattle.pana_log.specs.Log.{IsDurable};
    ghost use Rattle.pana_log.specs.Memory.{bytes_of, LeavesAfterCrash, is_usable_of};

    /// A device with these bytes, all of them on the disk. Takes no memory.
    pub fn new(alloc: Global, bytes: Vec<u8>) -> MemoryDevice
        ensures bytes { bytes_of result ≡ bytes.items }
        ensures durable { IsDurable bytes_of LeavesAfterCrash is_usable_of result }
    {
        MemoryDevice::failing_after(alloc, bytes, usize::MAX)
    }

    /// The same, where one write, cut or sync fails after so many were done.
    pub fn failing_after(alloc: Global, bytes: Vec<u8>, operations: usize) -> MemoryDevice
        ensures bytes { bytes_of result ≡ bytes.items }
        ensures durable { IsDurable bytes_of LeavesAfterCrash is_usable_of result }
    {
        MemoryDevice {
            alloc,
            first: bytes,
            operations: Vec::new(alloc),
            calls_left: operations,
            is_usable: true,
            has_failed: false,
        }
    }

    /// How many writes, cuts and syncs it has done.
    pub fn operations(&self) -> usize
        ensures { result ≡ length self.now.operations.items }
    {
        self.operations.len()
    }

    /// What a crash leaves. Fails only where memory runs out.
    pub fn after_crash(&self, crash: Crash) -> Result<Vec<u8>, AllocError>
        ensures { IfOk result (λ file. MayLeave self.now.first.items (take crash.operations self.now.operations.items) file.items) }
    {
        let operations = &self.operations[..crash.operations.min(self.operations.len())];
        let mut file = self.first.to_vec(self.alloc)?;
        let mut durable = self.first.to_vec(self.alloc)?;
        let mut left = crash.written;
        for operation in operations {
            tear(self.alloc, &mut durable, &file, operation, left, crash)?;
            left = left_behind(operation, left, crash.written);
            file = apply(self.alloc, &file, operation)?;
        }
        Ok(durable)
    }

    /// Does one operation, or fails.
    fn record(&mut self, operation: Operation) -> Result<(), DeviceFault>
        ensures ok { OnOk result (self.new.operations.items ≡ self.old.operations.items ++ operation ∷ []) }
        ensures err { OnErr result (self.new.operations.items ≡ self.old.operations.items) }
        ensures cause { OnErr result (self.new.has_failed ≡ true) }
        ensures first { self.new.first.items ≡ self.old.first.items }
        ensures usable { self.new.is_usable ≡ self.old.is_usable }
    {
        if self.calls_left == 0 {
            self.calls_left = usize::MAX;
            self.has_failed = true;
            return Err(DeviceFault::Failed);
        }
        self.calls_left -= 1;
        if self.operations.push(operation).is_err() {
            self.has_failed = true;
            return Err(DeviceFault::OutOfMemory);
        }
        Ok(())
    }
}

/// How many bytes more reach the disk behind an operation, where so many of the writes behind a sync do.
fn left_behind(operation: &Operation, left: usize, written: usize) -> usize {
    match operation {
        Operation::Write { at: _, bytes } => left.saturating_sub(bytes.len()),
        Operation::Cut { len: _ } => left,
        Operation::Sync => written,
    }
}

/// Does to a file on the disk what of a operation reaches it. What is read before the operation is `seen`.
fn tear(
    alloc: Global,
    file: &mut Vec<u8>,
    seen: &[u8],
    operation: &Operation,
    left: usize,
    crash: Crash,
) -> Result<(), AllocError>
    ensures { OnOk result (LeftAfter operation.now seen.now (λ d. d ≡ file.old.items) file.new.items) }
{
    match operation {
        Operation::Write { at, bytes } => {
            tear_write(file, *at, bytes, left, crash)?;
        }
        Operation::Cut { len } => {
            if left > 0 {
                file.truncate(*len);
            }
        }
        Operation::Sync => {
            *file = seen.to_vec(alloc)?;
        }
    }
    Ok(())
}

/// Puts bytes of a write over those of a file, and another byte, or none, where one hadn't reached the disk.
fn tear_write(
    file: &mut Vec<u8>,
    at: usize,
    bytes: &[u8],
    left: usize,
    crash: Crash,
) -> Result<(), AllocError>
    ensures { OnOk result (Torn at (length bytes.now) file.old.items file.new.items) }
{
    for i in 0..bytes.len() {
        let is_written = if crash.is_from_end {
            bytes.len() - i <= left
        } else {
            i < left
        };
        let byte = if is_written {
            Some(bytes[i])
        } else {
            crash.other
        };
        put(file, at, i, byte)?;
    }
    Ok(())
}

/// Puts a byte over one of a file, or at its end. With none, or behind the end, it does nothing.
fn put(file: &mut Vec<u8>, at: usize, i: usize, byte: Option<u8>) -> Result<(), AllocError>
    ensures { OnOk result ((n : ℕ) → i < n → Torn at n file.old.items file.new.items) }
{
    let Some(byte) = byte else {
        return Ok(());
    };
    let Some(position) = at.checked_add(i) else {
        return Ok(());
    };
    if position < file.len() {
        file[position] = byte;
    } else if position == file.len() {
        file.push(byte)?;
    }
    Ok(())
}

/// The file as it is read after a operation.
fn apply(alloc: Global, file: &[u8], operation: &Operation) -> Result<Vec<u8>, AllocError>
    ensures { IfOk result (λ after. after.items ≡ file_after operation.now file.now) }
{
    match operation {
        Operation::Write { at, bytes } => write(alloc, file, *at, bytes.as_slice()),
        Operation::Cut { len } => file[..(*len).min(file.len())].to_vec(alloc),
        Operation::Sync => file.to_vec(alloc),
    }
}

/// The file as it is read after a write.
fn write(alloc: Global, file: &[u8], at: usize, bytes: &[u8]) -> Result<Vec<u8>, AllocError>
    ensures { IfOk result (λ after. after.items ≡ take at file.now ++ bytes.now ++ drop (at + length bytes.now) file.now) }
{
    let mut after = file[..at.min(file.len())].to_vec(alloc)?;
    after.extend_from_slice(bytes)?;
    let end = at.saturating_add(bytes.len()).min(file.len());
    after.extend_from_slice(&file[end..])?;
    Ok(after)
}

/// The file as it is read after these operations.
fn replay(alloc: Global, first: &[u8], operations: &[Operation]) -> Result<Vec<u8>, AllocError>
    ensures { IfOk result (λ file. file.items ≡ file_of first.now operations.now) }
{
    let mut file = first.to_vec(alloc)?;
    for operation in operations {
        file = apply(alloc, &file, operation)?;
    }
    Ok(file)
}

impl Device for MemoryDevice {
    ghost use Rattle.pana_log.specs.Memory.{bytes_of, LeavesAfterCrash, is_usable_of};

    ghost is_known = { true };

    ghost seen = { bytes_of };

    ghost may_leave = { LeavesAfterCrash };

    ghost moment = { λ m. length m.operations.items };

    ghost left_since = { λ m t c. LeftSince m.first.items m.operations.items t c };

    ghost is_usable = { is_usable_of };

    ghost has_failed = { λ m. m.has_failed };

    ghost counts_now = { λ m t c within left. left_now m.first.items m.operations.items t c within left };

    ghost only_now = { λ m c left. left_last m.first.items m.operations.items c left };

    fn read(&mut self, alloc: Global) -> Result<Vec<u8>, DeviceFault> {
        Ok(replay(alloc, &self.first, &self.operations)?)
    }

    fn write_at(&mut self, at: usize, bytes: &[u8]) -> Result<(), DeviceFault> {
        let Ok(bytes) = bytes.to_vec(self.alloc) else {
            self.has_failed = true;
            return Err(DeviceFault::OutOfMemory);
        };
        self.record(Operation::Write { at, bytes })?;
        Ok(())
    }

    fn cut(&mut self, len: usize) -> Result<(), DeviceFault> {
        self.record(Operation::Cut { len })?;
        Ok(())
    }

    fn sync(&mut self) -> Result<(), DeviceFault> {
        if let Err(fault) = self.record(Operation::Sync) {
            self.is_usable = false;
            return Err(fault);
        }
        Ok(())
    }
}
