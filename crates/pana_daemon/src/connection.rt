//! A connection, served as a session.
ghost use Rattle.pana_daemon.specs.Connection.{ServesConnection};
ghost use Rattle.pana_daemon.specs.Desk.{RequestSteps};

use crate::desk_session::DeskSession;
use crate::objects::ObjectReader;
use crate::supervisor::Supervisor;
use pana_calls::Session;
use pana_wire::{Tap, serve_groups};
use std::alloc::Global;
use std::io::{Read, Write};
use std::sync::Wait;

/// How many reads a session may make.
const MOST_READS: u64 = 1 << 40;

/// Where a client's lines come from, and where the answers go.
#[derive(Drop)]
pub struct Connection<R, W> {
    pub reader: R,
    pub writer: W,
}

impl<R: Read + Drop, W: Write + Drop> Connection<R, W> {
    /// Serves the connection to its end, as a session. What ends it early ends it alone.
    ///
    /// Where its first byte that isn't a blank isn't `{`, no call is made and nothing is written.
    pub(crate) fn serve<S: Session + Drop, T: Wait, G: Supervisor>(
        self,
        alloc: Global,
        session: &mut DeskSession<'_, S, T, G>,
    )
        ensures { ServesConnection (RequestSteps S.step S.fails S.settles S.breaks_off) S.keeps_together R.remaining W.contents self session.old session.new }
    {
        let Connection { reader, writer } = self;
        let mut reader = Tap::new(ObjectReader::new(reader));
        let mut writer = Tap::new(writer);
        let _ = serve_groups(alloc, &mut reader, &mut writer, session, MOST_READS);
    }
}
