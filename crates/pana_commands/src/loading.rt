//! A dump read, loaded and printed as tables.
ghost use Rattle.std.specs.Prelude.{◌≡◌, ◌++◌, List, IfOk, MatchResult, string_bytes};
ghost use Rattle.pana_journal.specs.declared.entry.Entry.{Entry};
ghost use Rattle.pana_hall.specs.Accepted.{IsAccepted};
ghost use Rattle.pana_wire.specs.DumpLines.{Say, HasFault};
ghost use Rattle.pana_wire.specs.Lines.{texts};
ghost use Rattle.pana_commands.specs.Answered.{Prints, Reports};
ghost use Rattle.pana_commands.specs.Load.{AnswersDump, AnswersEntries, AnswersLines};
ghost use Rattle.pana_commands.specs.Tables.{tables_text};
ghost use Rattle.pana_commands.specs.inner.Taken.{HasTaken};

use crate::printout::Printout;
use crate::tables::tables_of;
use pana_hall::{Hall, LoadFault};
use pana_journal::EntryList;
use pana_seal::{SealFault, check_seals};
use pana_wire::{LineFault, LineReader, split_lines};
use std::alloc::{AllocError, Global};

/// What became of the entries of a dump's first lines.
#[derive(Drop)]
enum Taken {
    /// The hall has taken all of them.
    All(Hall),
    /// One isn't the next one of a journal.
    Stopped(LoadFault),
}

impl Taken {
    /// Takes the entries of the next line too, unless one before them stopped that.
    fn with(self, more: EntryList) -> Taken
        ensures { (entries : List Entry) → HasTaken entries self → HasTaken (entries ++ more) result }
    {
        match self {
            Taken::All(mut hall) => match hall.take_entries(more) {
                Ok(()) => Taken::All(hall),
                Err(fault) => Taken::Stopped(fault),
            },
            Taken::Stopped(fault) => Taken::Stopped(fault),
        }
    }
}

/// Takes the entries of lines, of one line before the next is read, or returns the first line that has a fault. A line behind
/// an entry that isn't the next one is read all the same, since it may have a fault. Fails only where memory runs out for the
/// hall.
fn take_lines(alloc: Global, lines: &[&[u8]]) -> Result<Result<Taken, LineFault>, AllocError>
    ensures { IfOk result (λ read. MatchResult read
        (λ taken. (entries : List Entry) × Say (texts lines.now) entries × HasTaken entries taken)
        (HasFault (texts lines.now))) }
{
    let mut reader = LineReader::new(alloc);
    let mut taken = Taken::All(Hall::new(alloc)?);
    for (index, line) in lines.iter().enumerate() {
        match reader.read_dump(line) {
            Ok(more) => taken = taken.with(more),
            Err(fault) => {
                let line = index as u64 + 1;
                return Ok(Err(LineFault { line, fault }));
            }
        }
    }
    Ok(Ok(taken))
}

/// The tables of a hall.
fn tables_in(alloc: Global, terminal: Option<usize>, mut hall: Hall) -> Result<String, AllocError>
    ensures accepted { IsAccepted 8 hall }
    ensures text { IfOk result (λ text. string_bytes text ≡ tables_text terminal hall) }
{
    // The contract of this call has that the hall refuses none of its entries.
    let _ = hall.length();
    let text = tables_of(alloc, terminal, &mut hall);
    // The program ends behind this, and the system takes all pages back at once. To give back each piece by itself takes a
    // twentieth of a load.
    std::mem::forget(hall);
    text
}

/// The tables of the journal that the entries taken are, or why they are none.
fn answer_taken(
    alloc: Global,
    terminal: Option<usize>,
    taken: Taken,
) -> Result<Printout, AllocError>
    ensures { IfOk result (λ answer. (entries : List Entry) → HasTaken entries taken → AnswersEntries terminal entries answer) }
{
    match taken {
        Taken::All(hall) => Ok(Printout::printed(alloc, tables_in(alloc, terminal, hall)?)),
        Taken::Stopped(fault) => Printout::reported(alloc, &fault),
    }
}

/// The tables of the journal that these lines are, or why they are none.
fn answer_lines(
    alloc: Global,
    terminal: Option<usize>,
    lines: &[&[u8]],
) -> Result<Printout, AllocError>
    ensures { IfOk result (AnswersLines terminal (texts lines.now)) }
{
    match take_lines(alloc, lines)? {
        Ok(taken) => answer_taken(alloc, terminal, taken),
        Err(fault) => Printout::reported(alloc, &fault),
    }
}

/// The tables of the families of a dump, of which each line is read by itself, or why there are none: the first line that
/// isn't as it was sealed, or else the first with a fault, or else the first entry that isn't the next one of a journal. The
/// tables are for a terminal of this width, where one is given.
///
/// It holds the entries of one line at a time, beside those that the hall has taken, and keeps the hall's memory until the
/// program ends.
///
/// # Errors
///
/// `AllocError` where an allocation failed for the hall, the tables or the answer. One that failed for a line or an
/// entry is answered as the fault of that.
pub fn load_on(alloc: Global, terminal: Option<usize>, bytes: &[u8]) -> Result<Printout, AllocError>
    ensures { IfOk result (AnswersDump terminal bytes.now) }
{
    let lines = split_lines(alloc, bytes)?;
    match check_seals(alloc, lines.as_slice()) {
        Ok(()) => answer_lines(alloc, terminal, lines.as_slice()),
        Err(SealFault::Damaged { line }) => {
            Printout::reported(alloc, &SealFault::Damaged { line })
        }
        Err(SealFault::OutOfMemory) => Err(AllocError),
    }
}
