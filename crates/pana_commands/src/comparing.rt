//! How one stamp relates to another.
ghost use Rattle.std.specs.Prelude.{IfOk};
ghost use Rattle.pana_event.specs.Event.{Event};
ghost use Rattle.pana_event.specs.Relation.{IsRelation};
ghost use Rattle.pana_commands.specs.Compare.{AnswersTexts, Compares, SaysFault};

use crate::printout::Printout;
use pana_event::Rel;
use pana_stamp::Stamp;
use pana_text::{TextFault, read};
use std::alloc::{AllocError, Global};

impl Printout {
    fn of_relation(alloc: Global, rel: Rel) -> Result<Printout, AllocError>
        ensures { IfOk result (λ answer. (e f : Event) → IsRelation e f rel → Compares e f answer) }
    {
        let name = rel.name();
        Ok(Printout {
            out: format!(in alloc; "{name}\n")?,
            err: String::new(alloc),
            status: 0,
        })
    }

    /// The fault of the stamp with this name, `first` or `second`.
    fn of_fault(alloc: Global, name: &str, fault: TextFault) -> Result<Printout, AllocError>
        ensures { IfOk result (SaysFault name.now fault) }
    {
        let err = format!(in alloc; "panad: {name} stamp: {fault}\n")?;
        Ok(Printout {
            out: String::new(alloc),
            err,
            status: 1,
        })
    }
}

/// How the stamp of the first text relates to that of the second, or which fault a text has. The first text is read
/// first, so where it has a fault nothing is reported of the second.
///
/// # Errors
///
/// `AllocError` where an allocation failed for the answer. One that failed for a stamp is answered as that stamp's
/// fault `OutOfMemory`.
///
/// Reads each text as `read` does, and visits each node of the two events at most twice more.
pub fn compare_on(alloc: Global, a: &str, b: &str) -> Result<Printout, AllocError>
    // Of each text just one fault says something true (`pana_text::laws`), so the texts determine the answer, but for
    // `OutOfMemory`, which may be reported of a stamp's text.
    ensures { IfOk result (AnswersTexts a.now b.now) }
{
    let first = match read(alloc, a) {
        Ok(stamp) => stamp,
        Err(fault) => return Printout::of_fault(alloc, "first", fault),
    };
    let second = match read(alloc, b) {
        Ok(stamp) => stamp,
        Err(fault) => return Printout::of_fault(alloc, "second", fault),
    };
    Printout::of_relation(alloc, Stamp::compare(&first, &second))
}
