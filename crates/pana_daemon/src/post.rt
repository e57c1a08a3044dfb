//! What each caller at a desk does.
ghost use Rattle.pana_daemon.specs.Desk.{RequestSteps};
ghost use Rattle.pana_daemon.specs.Post.{HasDone};

use crate::desk_session::DeskSession;
use crate::door::Door;
use crate::folder::Folder;
use crate::scanning::scanner;
use crate::supervisor::Supervisor;
use crate::working::work;
use pana_calls::Session;
use pana_copies::DeviceName;
use std::alloc::Global;
use std::marker::Sync;
use std::sync::Wait;
use std::thread::Threads;

/// What a caller is to do, until there is no more of it.
#[derive(Drop)]
pub enum Post<'a, D, F> {
    /// To serve the connections that a door gives.
    Door(D),
    /// To scan a folder of a device.
    Folder(&'a DeviceName, F),
}

/// A caller: the session by which it makes its calls, and what it is to do.
#[derive(Drop)]
pub(crate) struct Caller<'a, 'b, S: Session + Drop, T, G, D, F> {
    pub(crate) session: DeskSession<'a, S, T, G>,
    pub(crate) post: Post<'b, D, F>,
}

/// Has a caller do what it is to do.
pub(crate) fn run<S: Session + Drop, T: Threads + Wait + Sync, G: Supervisor, D: Door, F: Folder>(
    rt: &T,
    alloc: Global,
    caller: &mut Caller<'_, '_, S, T, G, D, F>,
)
    ensures { HasDone (RequestSteps S.step S.fails S.settles S.breaks_off) S.keeps_together D.gives D.Reader.remaining D.Writer.contents F.does caller.old.post caller.new.post caller.old.session caller.new.session }
{
    let Caller { session, post } = caller;
    match post {
        Post::Door(door) => work(rt, alloc, session, door),
        Post::Folder(device, folder) => {
            scanner(rt, alloc, session, device, folder);
        }
    }
}
