//! The laws.

ghost use Rattle.std.specs.Prelude.{◌≡◌, ◌↔◌, ℕ, Bool, false, IsTrue, List, []};
ghost use Rattle.pana_copies.specs.declared.place.Place.{Place};
ghost use Rattle.pana_journal.specs.declared.entry.Entry.{Entry};
ghost use Rattle.pana_hall.specs.Accepted.{IsAccepted};
ghost use Rattle.pana_hall.specs.Living.{living};
ghost use Rattle.pana_hall.specs.Step.{Replies};
ghost use Rattle.pana_ask.specs.Verdict.{Judges};
ghost use Rattle.pana_ask.specs.declared.verdict.Verdict.{Verdict};
ghost use Rattle.pana_wire.specs.Session.{SessionText};
ghost use Rattle.pana_store.specs.Store.{IsKept, StoreView, stored};
ghost use Rattle.pana_daemon.specs.Desk.{AnsweredSteps};
ghost use Rattle.pana_daemon.specs.declared.post.Post.{Post};
ghost use Rattle.pana_daemon.specs.Serve.{Ends};
ghost use Rattle.pana_laws.specs.KeptRun.{IsKeptRun, StoreSteps};
ghost use Rattle.pana_laws.specs.OneRun.{IsOneRun};
ghost use Rattle.pana_laws.specs.Overwrite.{LosesNothing};
ghost use Rattle.pana_laws.specs.SessionRun.{IsServedByRun};

use pana_daemon::{Door, Folder};
use pana_log::{Device, LogState};

/// The steps that a session takes on one new hall are a run: as many exchanges as steps, in the order of the lines,
/// each the call that its line says with the reply that is written for it, and the journal is the run's.
pub fn every_session_is_a_run()
    ensures { (input output : List ℕ) (journal : List Entry) (steps : ℕ) → SessionText Replies [] input output journal steps → IsServedByRun input output journal steps }
{}

/// Where the callers at a desk of a hall have ended, all their calls are one run of the hall, from the journal that it
/// began with: each reply is permitted on the journal that all calls before it leave. Each caller's calls in it are just
/// those by which its connections were served, one session after another, or its folder was scanned.
pub fn daemon_is_one_run<D: Door, F: Folder>()
    ensures { (begun : List Entry) (posts posts_left : List (Post D F)) (left : List Entry) (requests : ℕ) (unanswered : Bool)
        → Ends (AnsweredSteps Replies) false D.gives D.Reader.remaining D.Writer.contents F.does begun posts left posts_left requests unanswered
        → IsOneRun D.gives D.Reader.remaining D.Writer.contents F.does begun posts left requests }
{}

/// Where the callers at a desk of a store have ended, all of whose entries were kept at the start, and whose log is on a device
/// that is known, all their requests are one history of the store, and nothing of it is lost: a crash at any moment leaves a file
/// that loads to the first of its entries, with all that was done and kept before that moment. No byte of an answer is written
/// before the store has settled behind its call (`EndsWith` of `pana_daemon`).
pub fn daemon_keeps_what_is_done<V: Device, D: Door, F: Folder>()
    ensures { IsTrue V.is_known → (begun left : StoreView V) (posts posts_left : List (Post D F)) (requests : ℕ) (unanswered : Bool)
        → begun.log.state ≡ LogState.Open → IsKept V.seen V.may_leave V.is_usable (stored begun) → begun.entries ≡ begun.kept
        → Ends (StoreSteps V.is_known V.seen V.may_leave V.is_usable V.moment V.left_since V.has_failed) false D.gives D.Reader.remaining D.Writer.contents F.does begun posts left posts_left requests unanswered
        → IsKeptRun V.moment V.left_since (StoreSteps V.is_known V.seen V.may_leave V.is_usable V.moment V.left_since V.has_failed) begun left requests }
{}

/// Where a hall is asked whether the copy at a place may be overwritten with the one at another (`may_overwrite` of `pana_ask`), the
/// verdict is `Yes` exactly where both are copies of one file, and the one that is lost knows no change that the other doesn't know.
/// The hall stays as it is.
pub fn may_overwrite_loses_nothing()
    ensures verdict { (journal new : List Entry) (by : List ℕ) (target source : Place) (verdict : Verdict) → IsAccepted 8 journal
        → Judges Replies by target source journal new verdict → (verdict ≡ Verdict.Yes) ↔ LosesNothing (living journal) target source }
    ensures hall { (journal new : List Entry) (by : List ℕ) (target source : Place) (verdict : Verdict)
        → Judges Replies by target source journal new verdict → new ≡ journal }
{}
