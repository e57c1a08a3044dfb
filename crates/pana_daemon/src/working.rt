//! Connections, served one after another.
ghost use Rattle.pana_daemon.specs.Connection.{Works};
ghost use Rattle.pana_daemon.specs.Desk.{RequestSteps};

use crate::desk_session::DeskSession;
use crate::door::Door;
use crate::supervisor::Supervisor;
use pana_calls::Session;
use std::alloc::Global;
use std::sync::Wait;

/// Serves the connections that the door gives, one after another, until it gives no more.
pub fn work<S: Session + Drop, T: Wait, G: Supervisor, D: Door>(
    rt: &T,
    alloc: Global,
    session: &mut DeskSession<'_, S, T, G>,
    door: &mut D,
)
    ensures { Works (RequestSteps S.step S.fails S.settles S.breaks_off) S.keeps_together D.gives D.Reader.remaining D.Writer.contents door.old door.new session.old session.new }
{
    for _ in rt.forever() {
        let Some(connection) = door.next() else {
            return;
        };
        connection.serve(alloc, session);
    }
}
