ghost use Rattle.std.specs.Prelude.{◌≡◌, ◌≢◌, ◌≤◌, ◌^◌, ◌⊎◌, List, [], false, IfOk, IfErr};
ghost use Rattle.pana_journal.specs.declared.entry.Entry.{Entry};
ghost use Rattle.pana_hall.specs.Step.{Replies};
ghost use Rattle.pana_wire.specs.Tap.{has_failed, MadeAtMost};
ghost use Rattle.pana_wire.specs.Session.{Serves, Stops, NeverBegins};
ghost use Rattle.pana_commands.specs.Never.{IsNever};

use pana_hall::Hall;
use pana_wire::{ServeFault, Served, Tap, serve};
use std::alloc::Global;
use std::io::{Read, Write};

/// Serves the reader's lines to the writer on one new hall, to the reader's end or until this many reads were made.
///
/// From bytes to bytes: what is written are the answers to the lines that are read, each permitted on the journal
/// that the lines before it leave, beginning with the empty one. After a fault what was written is a prefix of such
/// answers. Faults are those of `serve`, but for `NoAnswer`, which never comes; `OutOfMemory` also where the hall itself
/// can't be allocated, before the first read. The hall's memory is kept until the program ends.
pub fn run_on<R: Read, W: Write>(
    alloc: Global,
    reader: &mut Tap<R>,
    writer: &mut Tap<W>,
    reads: u64,
) -> Result<Served, ServeFault>
    requires reader { has_failed reader.old ≡ false }
    requires writer { has_failed writer.old ≡ false }
    requires reads { reads ≤ 2 ^ 40 }
    ensures ok { IfOk result (λ served. (journal : List Entry)
        × Serves R.remaining W.contents Replies reader.old reader.new writer.old writer.new [] journal served) }
    ensures fault { IfErr result (λ fault. (journal : List Entry)
        × (NeverBegins reader.old reader.new writer.old writer.new [] journal fault
        ⊎ Stops R.remaining W.contents Replies false IsNever reads reader.old reader.new writer.old writer.new [] journal fault)) }
    ensures answered { IfErr result (λ fault. fault ≢ ServeFault.NoAnswer) }
    ensures reads { MadeAtMost reads reader.old reader.new }
{
    match Hall::new(alloc) {
        Ok(mut hall) => {
            let served = serve(alloc, reader, writer, &mut hall, reads);
            // The program ends behind this, and the system takes all pages back at once.
            std::mem::forget(hall);
            served
        }
        Err(_) => Err(ServeFault::OutOfMemory),
    }
}
