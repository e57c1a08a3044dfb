//! A file opened as a journal: its entries loaded into a hall.
ghost use Rattle.std.specs.Prelude.{◌≡◌, false, IsTrue, length, IfOk, IfErr, OnOk, OnErr};
ghost use Rattle.pana_wire.specs.Lines.{lines_of, texts};
ghost use Rattle.pana_log.specs.Device.{LeavesOnly};
ghost use Rattle.pana_log.specs.Lines.{recovered, text_of, torn_length, kind_of};
ghost use Rattle.pana_log.specs.Log.{IsDurable, IsSettled};
ghost use Rattle.pana_seal.specs.Seal.{Covers, IsIntact};
ghost use Rattle.pana_wire.specs.DumpLines.{Say};
ghost use Rattle.pana_store.specs.Entries.{LoadsTo};
ghost use Rattle.pana_store.specs.Store.{IsKept};
ghost use Rattle.pana_store.specs.Opening.{HaveNoHall, IsOpenFault, IsSameOrBegun, is_of_device, with_header};

use crate::open_fault::OpenFault;
use pana_hall::Hall;
use pana_log::{Device, DeviceFault, FileKind, HEADER, Log, LogState, Recovery};
use pana_seal::{Sealer, read_seals};
use pana_wire::{LineFault, decode_dump_lines, split_lines};
use std::alloc::Global;

/// What a journal's file stood for when it was opened.
#[derive(Drop)]
pub struct Opened {
    /// The hall of its entries.
    pub hall: Hall,
    /// What has taken up the lines.
    pub sealer: Sealer,
    /// How many bytes stood behind the lines, a closed gate not counted.
    pub torn: usize,
}

/// Reads a journal's file into a hall, and changes nothing.
///
/// # Errors
///
/// `NoJournal` where the file is none that a journal leaves; `Unended` where its last line has no newline; `Damaged` with
/// the first line that isn't as it was sealed; `Line` with the first line that has a fault; `Entry` where the entries
/// aren't those of a journal; `Device` where the device has failed; `OutOfMemory`.
pub fn read<D: Device>(alloc: Global, log: &mut Log<D>) -> Result<Opened, OpenFault>
    requires { IsTrue D.is_known → IsDurable D.seen D.may_leave D.is_usable log.old.device }
    ensures hall { IfOk result (λ opened. IsTrue D.is_known → LoadsTo opened.hall (D.seen log.old.device)) }
    ensures kind { OnOk result (IsTrue D.is_known → kind_of (D.seen log.old.device) ≡ FileKind.Journal) }
    ensures torn { IfOk result (λ opened. IsTrue D.is_known → opened.torn ≡ torn_length (D.seen log.old.device)) }
    ensures covers { IfOk result (λ opened. IsTrue D.is_known → Covers opened.sealer (text_of (recovered (D.seen log.old.device)))) }
    ensures state { OnOk result (log.new.state ≡ LogState.Read) }
    ensures end { OnOk result (IsTrue D.is_known → log.new.end ≡ length (text_of (recovered (D.seen log.new.device)))) }
    ensures same { IsTrue D.is_known → D.seen log.new.device ≡ D.seen log.old.device }
    ensures durable { IsTrue D.is_known → IsDurable D.seen D.may_leave D.is_usable log.new.device }
    ensures fault { IfErr result (λ fault. IsTrue D.is_known → IsOpenFault (D.has_failed log.new.device) (D.seen log.old.device) fault) }
    ensures any_moment { IsTrue D.is_known → LeavesOnly D.moment D.left_since log.old.device log.new.device
        (λ c. recovered c ≡ recovered (D.seen log.old.device)) }
{
    let Recovery { text, torn, kind } = log.read(alloc)?;
    match kind {
        FileKind::Journal => {}
        FileKind::Unended => return Err(OpenFault::Unended),
        FileKind::Foreign => return Err(OpenFault::NoJournal),
    }
    let (hall, sealer) = hall_of(alloc, &text)?;
    Ok(Opened { hall, sealer, torn })
}

/// Reads a journal's file into a hall, and makes the file ready for new lines: what stands behind its entries is cut
/// off, and one without a line gets the first line of a new journal.
///
/// # Errors
///
/// Those of `read`. Only where it is `Device` may the file have changed.
pub fn open<D: Device>(alloc: Global, log: &mut Log<D>) -> Result<Opened, OpenFault>
    requires { IsTrue D.is_known → IsDurable D.seen D.may_leave D.is_usable log.old.device }
    ensures hall { IfOk result (λ opened. IsTrue D.is_known → LoadsTo opened.hall (D.seen log.old.device)) }
    ensures kept { IfOk result (λ opened. IsTrue D.is_known → IsKept D.seen D.may_leave D.is_usable (record { entries = opened.hall; log = log.new; sealer = opened.sealer })) }
    ensures lines { OnOk result (IsTrue D.is_known → recovered (D.seen log.new.device) ≡ with_header (recovered (D.seen log.old.device))) }
    ensures open { OnOk result (log.new.state ≡ LogState.Open) }
    ensures kind { OnOk result (IsTrue D.is_known → kind_of (D.seen log.old.device) ≡ FileKind.Journal) }
    ensures torn { IfOk result (λ opened. IsTrue D.is_known → opened.torn ≡ torn_length (D.seen log.old.device)) }
    ensures fault { IfErr result (λ fault. IsTrue D.is_known → IsOpenFault (D.has_failed log.new.device) (D.seen log.old.device) fault) }
    ensures untouched { IfErr result (λ fault. is_of_device fault ≡ false → IsTrue D.is_known → D.seen log.new.device ≡ D.seen log.old.device) }

    // A crash at any moment leaves the same lines, or in a file without one the first line.
    ensures any_moment { IsTrue D.is_known → LeavesOnly D.moment D.left_since log.old.device log.new.device
        (IsSameOrBegun (D.seen log.old.device)) }
{
    let mut opened = read(alloc, log)?;
    match make_ready(log, &mut opened.sealer) {
        Ok(()) => Ok(opened),
        Err(fault) => {
            drop(opened);
            Err(OpenFault::Device(fault))
        }
    }
}

/// Cuts off what stands behind the lines that were read, and writes the first line where there is none.
fn make_ready<D: Device>(log: &mut Log<D>, sealer: &mut Sealer) -> Result<(), DeviceFault>
    requires read { log.old.state ≡ LogState.Read }
    requires durable { IsTrue D.is_known → IsDurable D.seen D.may_leave D.is_usable log.old.device }
    requires end { IsTrue D.is_known → log.old.end ≡ length (text_of (recovered (D.seen log.old.device))) }
    requires covers { IsTrue D.is_known → Covers sealer.old (text_of (recovered (D.seen log.old.device))) }

    ensures state { OnOk result (log.new.state ≡ LogState.Open) }
    ensures settled { OnOk result (IsTrue D.is_known → IsSettled D.seen D.may_leave D.is_usable log.new) }
    ensures lines { OnOk result (IsTrue D.is_known → recovered (D.seen log.new.device) ≡ with_header (recovered (D.seen log.old.device))) }
    ensures covers { OnOk result (IsTrue D.is_known → Covers sealer.new (text_of (recovered (D.seen log.new.device)))) }
    ensures cause { OnErr result (IsTrue D.is_known → IsTrue (D.has_failed log.new.device)) }
    ensures any_moment { IsTrue D.is_known → LeavesOnly D.moment D.left_since log.old.device log.new.device
        (IsSameOrBegun (D.seen log.old.device)) }
{
    log.repair()?;
    if log.end == 0 {
        log.begin()?;
        sealer.push(HEADER);
    }
    Ok(())
}

/// The hall of the entries in a text of lines, and what has taken up the lines.
fn hall_of(alloc: Global, text: &[u8]) -> Result<(Hall, Sealer), OpenFault>
    ensures says { IfOk result (λ found. Say (lines_of text.now) found.0) }
    ensures intact { OnOk result (IsIntact (lines_of text.now)) }
    ensures covers { IfOk result (λ found. Covers found.1 (text_of (lines_of text.now))) }
    ensures fault { IfErr result (HaveNoHall (lines_of text.now)) }
{
    let lines = split_lines(alloc, text)?;
    let sealer = read_seals(alloc, lines.as_slice())?;
    match load(alloc, lines.as_slice()) {
        Ok(hall) => Ok((hall, sealer)),
        Err(fault) => {
            drop(sealer);
            Err(fault)
        }
    }
}

/// The hall of the entries in lines.
fn load(alloc: Global, lines: &[&[u8]]) -> Result<Hall, OpenFault>
    ensures says { IfOk result (λ hall. Say (texts lines.now) hall) }
    ensures fault { IfErr result (HaveNoHall (texts lines.now)) }
{
    match decode_dump_lines(alloc, lines)? {
        Ok(entries) => Ok(Hall::load(alloc, entries)?),
        Err(LineFault { line, fault }) => Err(OpenFault::Line { line, fault }),
    }
}
