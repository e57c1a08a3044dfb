//! A session whose entries are kept.
ghost use Rattle.std.specs.Prelude.{◌≡◌, ◌≤◌, ◌^◌, ◌⊎◌, List, false, IsTrue, IfOk, IfErr, IsErrOf};
ghost use Rattle.pana_calls.specs.Session.{alone};
ghost use Rattle.pana_wire.specs.Groups.{ServesGroups, StopsGroups};
ghost use Rattle.pana_wire.specs.Session.{NeverBegins};
ghost use Rattle.pana_wire.specs.Tap.{Note, has_failed, MadeAtMost, IsNoted};
ghost use Rattle.pana_store.specs.Acknowledged.{Acknowledges};
ghost use Rattle.pana_store.specs.Store.{Gathers, Settles, BreaksOff, FailsToGather, KeepsFirst, whole};

use crate::store::Store;
use pana_log::{Device, LogState};
use pana_wire::{ServeFault, Served, Tap, serve_groups};
use std::alloc::Global;
use std::io::{Read, Write};

/// Serves the reader's lines to the writer, as `serve_groups` does, on a store: the entries of lines that have come together are kept
/// together, before any of them is answered.
///
/// # Errors
///
/// Those of `serve_groups`. `NoAnswer` says that the log is broken: the entries of the last lines, which have no answer, are all
/// kept or none.
pub fn serve_kept<R: Read, W: Write, D: Device>(
    alloc: Global,
    reader: &mut Tap<R>,
    writer: &mut Tap<W>,
    session: &mut Store<D>,
    reads: u64,
) -> Result<Served, ServeFault>
    requires reader { has_failed reader.old ≡ false }
    requires writer { has_failed writer.old ≡ false }
    requires reads { reads ≤ 2 ^ 40 }
    ensures ok { IfOk result (ServesGroups R.remaining W.contents (Gathers D.is_known D.seen D.may_leave D.is_usable D.moment D.left_since D.has_failed)
        (Settles D.is_known D.seen D.may_leave D.is_usable D.moment D.left_since) (λ store. D.moment store.log.device)
        reader.old reader.new writer.old writer.new session.old session.new) }
    ensures fault { IfErr result (λ fault.
        NeverBegins reader.old reader.new writer.old writer.new session.old session.new fault
        ⊎ StopsGroups R.remaining W.contents (Gathers D.is_known D.seen D.may_leave D.is_usable D.moment D.left_since D.has_failed) false (alone (FailsToGather D.is_known D.moment D.left_since D.has_failed))
        (Settles D.is_known D.seen D.may_leave D.is_usable D.moment D.left_since) (BreaksOff D.is_known D.moment D.left_since D.has_failed) (λ store. D.moment store.log.device) reads
        reader.old reader.new writer.old writer.new session.old session.new fault) }

    // From an open log, it ends as NoAnswer only where the device has failed.
    ensures no_answer { IsErrOf result ServeFault.NoAnswer → IsTrue D.is_known → session.old.log.state ≡ LogState.Open → IsTrue (D.has_failed session.new.log.device) }
    ensures reads { MadeAtMost reads reader.old reader.new }

    // A crash at any moment of the session leaves a file that loads to the first n entries of now, all that were kept
    // at the start among them.
    ensures keeps_first { IsTrue D.is_known → session.old.log.state ≡ LogState.Open → KeepsFirst D.moment D.left_since session.old session.new }

    // The notes of the writer are of what it wrote, byte for byte.
    ensures noted { (since : List Note) × IsNoted W.contents writer.old writer.new since }

    // A crash at any moment from that on at which the line that acknowledges an entry was written leaves a file that has
    // the entry.
    ensures acknowledges { IsTrue D.is_known → session.old.log.state ≡ LogState.Open → Acknowledges D.left_since writer.old writer.new (whole session.new) }
{
    // The contract of this call has what the session's invariant says, which the proof needs of its start.
    let _ = session.is_open();
    serve_groups(alloc, reader, writer, session, reads)
}
