//! A folder's first scan, as lines.
ghost use Rattle.std.specs.Prelude.{◌≡◌, ◌++◌, IfOk, string_bytes};
ghost use Rattle.pana_scan.specs.Scan.{IsFresh, IsScanned};
ghost use Rattle.pana_commands.specs.Scan.{AnswersScan, PrintsFirstScan, lines_for, skipped_line};

use crate::printout::Printout;
use pana_calls::HoldingList;
use pana_copies::DeviceName;
use pana_scan::{Baseline, Disk, Listing, ScanFault, Step, Watch, plan, read_root};
use pana_wire::encode_call;
use std::alloc::{AllocError, Global};

/// The lines by which a device makes the reports of steps.
fn lines_for(alloc: Global, device: &DeviceName, steps: &[Step]) -> Result<String, AllocError>
    ensures { IfOk result (λ lines. string_bytes lines ≡ lines_for device.now steps.now) }
{
    let mut lines = String::new(alloc);
    for step in steps {
        let line = encode_call(alloc, device, &step.report)?;
        lines.push_str(line.as_str())?;
        lines.push_str("\n")?;
    }
    Ok(lines)
}

/// The report about names that were passed over, where there are some.
fn skipped_line(alloc: Global, skipped: u64) -> Result<String, AllocError>
    ensures { IfOk result (λ line. string_bytes line ≡ skipped_line skipped) }
{
    if skipped == 0 {
        return Ok(String::new(alloc));
    }
    format!(in alloc; "panad: {skipped} names skipped\n")
}

/// The lines of what a first scan with this listing calls for.
fn answer_listing(alloc: Global, listing: &Listing) -> Result<Printout, AllocError>
    ensures { IfOk result (PrintsFirstScan listing.now) }
{
    let plan = plan(
        alloc,
        &Baseline::new(alloc),
        &HoldingList::new(alloc),
        listing,
    )?;
    Ok(Printout {
        out: lines_for(alloc, listing.device(), plan.steps.as_slice())?,
        err: skipped_line(alloc, listing.skipped())?,
        status: 0,
    })
}

/// The lines of the reports that a first scan of a folder calls for, in byte order of their paths and ready for `run`,
/// and for standard error how many names were passed over, where some were; or why there are none. The watch learns how
/// far the scan is.
///
/// # Errors
///
/// `AllocError` where an allocation failed.
pub fn scan_on<D: Disk, W: Watch>(
    alloc: Global,
    disk: &mut D,
    device: &str,
    folder: &str,
    watch: &W,
) -> Result<Printout, AllocError>
    requires { IsFresh (D.has_failed disk.old) (D.entries disk.old) (D.faults disk.old) }
    ensures { IfOk result (AnswersScan device.now (IsScanned D.is_known (D.tree disk.old) folder.now device.now (D.has_failed disk.new) (D.entries disk.new) (D.faults disk.new))) }
{
    let Ok(device) = DeviceName::new(device) else {
        return Printout::reported(alloc, &"BadDevice");
    };
    match read_root(alloc, disk, &device, folder, watch) {
        Ok(listing) => answer_listing(alloc, &listing),
        Err(ScanFault::OutOfMemory) => Err(AllocError),
        Err(fault) => Printout::reported(alloc, &fault),
    }
}
