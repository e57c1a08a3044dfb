//! The seals of a file's lines.
ghost use Rattle.std.specs.Prelude.{◌≡◌, ◌||◌, ◌++◌, not, true, List, ℕ, IfOk, IfErr, OnOk};
ghost use Rattle.std.specs.List.{list_any};
ghost use Rattle.pana_log.specs.Lines.{text_of};
ghost use Rattle.pana_wire.specs.Lines.{texts};
ghost use Rattle.pana_seal.specs.Seal.{Covers, is_marked, is_sealed, demands_seals, IsIntact, IsSealFault};

use crate::seal_fault::SealFault;
use crate::sealer::{Sealer, is_marked};
use pana_log::is_header;
use std::alloc::{AllocError, Global};

/// Takes up the lines of a file, and sees that they are as they were sealed: each line that ends with a digest, and each
/// line behind one, or behind the header of a journal, ends with that of all the bytes before it. Lines without one that
/// stand before any of these are taken as they are. O(n) in the bytes.
///
/// # Errors
///
/// `Damaged` with the first line for which that isn't so; `OutOfMemory`.
pub fn read_seals(alloc: Global, lines: &[&[u8]]) -> Result<Sealer, SealFault>
    ensures covers { IfOk result (λ sealer. Covers sealer (text_of (texts lines.now))) }
    ensures intact { OnOk result (IsIntact (texts lines.now)) }
    ensures fault { IfErr result (IsSealFault (texts lines.now)) }
{
    let mut sealer = Sealer::new();
    let mut is_due = false;
    for (index, line) in lines.iter().enumerate() {
        if !take_line(alloc, &mut sealer, is_due, line)? {
            let line = index as u64 + 1;
            return Err(SealFault::Damaged { line });
        }
        is_due = is_due || demands_seals(line);
        sealer.push(b"\n");
    }
    Ok(sealer)
}

/// Sees that the lines of a file are as they were sealed, as `read_seals` does, and takes none up: where none has to be sealed no byte
/// is hashed. O(n) in the bytes.
///
/// # Errors
///
/// Those of `read_seals`, where a line has to be sealed, and else none.
pub fn check_seals(alloc: Global, lines: &[&[u8]]) -> Result<(), SealFault>
    ensures intact { OnOk result (IsIntact (texts lines.now)) }
    ensures fault { IfErr result (IsSealFault (texts lines.now)) }
    ensures needed { IfErr result (λ _. list_any demands_seals (texts lines.now) ≡ true) }
{
    if !demand_seals(lines) {
        return Ok(());
    }
    read_seals(alloc, lines)?;
    Ok(())
}

/// Whether any of these lines has to be sealed, or those behind it.
fn demand_seals(lines: &[&[u8]]) -> bool
    ensures { result ≡ list_any demands_seals (texts lines.now) }
{
    for line in lines {
        if demands_seals(line) {
            return true;
        }
    }
    false
}

/// Takes up a line, and returns whether it is sealed, where it has to be: since lines before it demand it, or it looks so itself.
fn take_line(
    alloc: Global,
    sealer: &mut Sealer,
    is_due: bool,
    line: &[u8],
) -> Result<bool, AllocError>
    ensures good { IfOk result (λ good. (before : List ℕ) → Covers sealer.old before → good ≡ (not (is_due || is_marked line.now) || is_sealed before line.now)) }
    ensures covers { OnOk result ((before : List ℕ) → Covers sealer.old before → Covers sealer.new (before ++ line.now)) }
{
    if is_due || is_marked(line) {
        sealer.push_sealed(alloc, line)
    } else {
        sealer.push(line);
        Ok(true)
    }
}

/// Whether lines behind this one have to be sealed.
fn demands_seals(line: &[u8]) -> bool
    ensures { result ≡ demands_seals line.now }
{
    is_header(line) || is_marked(line)
}
