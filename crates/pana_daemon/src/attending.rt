//! A desk, its callers, and what they leave.
ghost use Rattle.std.specs.Prelude.{◌≡◌, ◌<◌, ◌≤◌, IfOk, is_some, length, map, true, vec_capacity};
ghost use Rattle.std.specs.List.{list_any};
ghost use denote.Param.Send.{IsSync, IsSend};
ghost use Rattle.pana_turn.specs.Passes.{new_passes};
ghost use Rattle.pana_daemon.specs.Desk.{RequestSteps};
ghost use Rattle.pana_daemon.specs.inner.Passes.{AreOpen};
ghost use Rattle.pana_daemon.specs.Post.{HasDone, HaveDone, posted};
ghost use Rattle.pana_daemon.specs.Serve.{Ends};
ghost use Rattle.pana_daemon.specs.Session.{at_rest, lacks_answer};

use crate::daemon_fault::DaemonFault;
use crate::desk_session::DeskSession;
use crate::door::Door;
use crate::folder::Folder;
use crate::post::{Caller, Post, run};
use crate::shared::Shared;
use crate::supervisor::Supervisor;
use pana_calls::Session;
use pana_turn::{Closed, Desk, Pass};
use std::alloc::{AllocError, Global};
use std::marker::{Send, Sync};
use std::sync::Wait;
use std::thread;
use std::thread::Threads;

/// What is left once all have done what they were to do: the session that they shared, their posts, how many requests they
/// made of it, and whether nothing has come of one of these.
#[derive(Drop)]
pub struct Ended<'a, S, D, F> {
    pub session: S,
    pub posts: Vec<Post<'a, D, F>>,
    pub requests: u64,
    pub unanswered: bool,
}

/// Room for so many callers, passes and posts. Fails only where memory runs out.
fn rooms<C: Drop, P: Drop, Q>(
    alloc: Global,
    count: usize,
) -> Result<(Vec<C>, Vec<P>, Vec<Q>), AllocError>
    ensures callers { IfOk result (λ rooms. (length rooms.0.items ≡ 0) × (count ≤ vec_capacity rooms.0)) }
    ensures passes { IfOk result (λ rooms. (length rooms.1.items ≡ 0) × (count ≤ vec_capacity rooms.1)) }
    ensures posts { IfOk result (λ rooms. (length rooms.2.items ≡ 0) × (count ≤ vec_capacity rooms.2)) }
{
    let callers = Vec::with_capacity(alloc, count)?;
    let passes = Vec::with_capacity(alloc, count)?;
    let posts = Vec::with_capacity(alloc, count)?;
    Ok((callers, passes, posts))
}

/// What is there before the first call: the desk and its passes, and room for callers, for the passes that come back, and for
/// posts.
#[derive(Drop)]
struct Opened<S: Session + Drop, C, Q> {
    desk: Desk<Shared<S>>,
    /// Where lists of calls have room for their answers from, where they are made together.
    lists: Option<Global>,
    passes: Vec<Pass<Shared<S>>>,
    callers: Vec<C>,
    back: Vec<Pass<Shared<S>>>,
    left: Vec<Q>,
}

/// The allocator, where the session keeps together what several calls make.
fn lists_of<S: Session>(alloc: Global, session: &S) -> Option<Global>
    ensures { is_some result ≡ true → S.keeps_together ≡ true }
{
    if session.keeps_together() {
        return Some(alloc);
    }
    None
}

/// Opens a desk with the session, for so many callers, and then begins. Fails only where memory runs out, before it begins, or
/// with what `begin` fails with.
fn open_desk<S: Session + Drop, C: Drop, Q: Drop, B: FnOnce() -> Result<(), DaemonFault>>(
    alloc: Global,
    count: usize,
    session: S,
    begin: B,
) -> Result<Opened<S, C, Q>, DaemonFault>
    requires some { 0 < count }
    requires few { count ≤ 64 }
    requires begin { B.pre begin }
    ensures desk { IfOk result (λ opened. (opened.desk.id.begun ≡ session) × (opened.desk.seats ≡ count) × (opened.passes.items ≡ new_passes opened.desk.id count)) }
    ensures lists { IfOk result (λ opened. is_some opened.lists ≡ true → S.keeps_together ≡ true) }
    ensures callers { IfOk result (λ opened. (length opened.callers.items ≡ 0) × (count ≤ vec_capacity opened.callers)) }
    ensures back { IfOk result (λ opened. (length opened.back.items ≡ 0) × (count ≤ vec_capacity opened.back)) }
    ensures left { IfOk result (λ opened. (length opened.left.items ≡ 0) × (count ≤ vec_capacity opened.left)) }
{
    let (callers, back, left) = rooms(alloc, count)?;
    let lists = lists_of(alloc, &session);
    let (desk, passes) = Desk::open(alloc, count as u32, Shared::new(session))?;
    begin()?;
    Ok(Opened {
        desk,
        lists,
        passes,
        callers,
        back,
        left,
    })
}

/// A caller for each post, in order, by the pass at its place; they are numbered from 1. Takes no memory where there is
/// room for them.
fn open_callers<'a, 'b, S: Session + Drop, T, G, D: Drop, F: Drop>(
    rt: &'a T,
    desk: &'a Desk<Shared<S>>,
    supervisor: &'a G,
    posts: Vec<Post<'b, D, F>>,
    passes: Vec<Pass<Shared<S>>>,
    lists: Option<Global>,
    mut callers: Vec<Caller<'a, 'b, S, T, G, D, F>>,
) -> Vec<Caller<'a, 'b, S, T, G, D, F>>
    requires few { length posts.items ≤ 64 }
    requires open { AreOpen desk.now.id passes.items }
    requires enough { length passes.items ≡ length posts.items }
    requires empty { length callers.items ≡ 0 }
    requires room { length posts.items ≤ vec_capacity callers }
    requires together { is_some lists ≡ true → S.keeps_together ≡ true }
    ensures posts { map (λ caller. caller.post) result.items ≡ posts.entry.items }
    ensures passes { map (λ caller. caller.session) result.items ≡ map at_rest passes.items }
{
    let mut passes = passes.into_iter();
    for post in posts {
        let Some(pass) = passes.next() else {
            unreachable!()
        };
        let number = callers.len() as u32 + 1;
        callers.push_reserved(Caller {
            session: DeskSession::new(rt, desk, supervisor, number, pass, lists),
            post,
        });
    }
    callers
}

/// Has each caller do what it is to do, in a thread of its own, and where no thread can be made one after another. It ends
/// once all have ended.
fn run_all<
    S: Session + Send + Drop,
    T: Threads + Wait + Sync,
    G: Supervisor + Sync,
    D: Door + Send,
    F: Folder + Send,
>(rt: &T, alloc: Global, callers: &mut [Caller<'_, '_, S, T, G, D, F>])
    ensures { HaveDone (RequestSteps S.step S.fails S.settles S.breaks_off) S.keeps_together D.gives D.Reader.remaining D.Writer.contents F.does
        (map posted callers.old) (map posted callers.new) }
{
    let run_one = move |_place: usize, caller: &mut Caller<'_, '_, S, T, G, D, F>|
        ensures { HasDone (RequestSteps S.step S.fails S.settles S.breaks_off) S.keeps_together D.gives D.Reader.remaining D.Writer.contents F.does caller.entry.now.post caller.exit.now.post caller.entry.now.session caller.exit.now.session }
    { run(rt, alloc, caller) };
    thread::for_each_mut(rt, callers, 64, &run_one);
}

/// Whether nothing has come of a request of one of them.
fn lack_answer<S: Session + Drop, T, G, D, F>(callers: &[Caller<'_, '_, S, T, G, D, F>]) -> bool
    ensures { result ≡ list_any (λ caller. lacks_answer caller.session.pass) callers.now }
{
    callers.iter().any(|caller| caller.session.lacks_answer())
}

/// The callers' passes and posts, in order. Takes no memory where there is room for them.
fn take_apart<'a, S: Session + Drop, T, G, D: Drop, F: Drop>(
    callers: Vec<Caller<'_, 'a, S, T, G, D, F>>,
    passes: &mut Vec<Pass<Shared<S>>>,
    posts: &mut Vec<Post<'a, D, F>>,
)
    requires no_passes { length passes.old.items ≡ 0 }
    requires no_posts { length posts.old.items ≡ 0 }
    requires room { length callers.items ≤ vec_capacity passes.old }
    requires places { length callers.items ≤ vec_capacity posts.old }
    ensures passes { map at_rest passes.new.items ≡ map (λ caller. caller.session) callers.entry.items }
    ensures posts { posts.new.items ≡ map (λ caller. caller.post) callers.entry.items }
{
    for caller in callers {
        let Caller { session, post } = caller;
        passes.push_reserved(session.into_pass());
        posts.push_reserved(post);
    }
}

/// Opens a desk with the session, has each post done by a caller with a pass of its own, each in a thread of its own, and
/// closes the desk once all have ended. Nothing is begun before all memory is there.
///
/// # Errors
///
/// Only where memory runs out, before anything is begun; or what `begin` fails with, which is called just then.
pub fn attend<
    'a,
    'b,
    S: Session + Send + Drop,
    T: Threads + Wait + Sync,
    G: Supervisor + Sync,
    D: Door + Send + Drop,
    F: Folder + Send + Drop,
    B: FnOnce() -> Result<(), DaemonFault>,
>(
    rt: &'a T,
    alloc: Global,
    supervisor: &'a G,
    session: S,
    posts: Vec<Post<'b, D, F>>,
    begin: B,
) -> Result<Ended<'b, S, D, F>, DaemonFault>
    requires some { 0 < length posts.items }
    requires few { length posts.items ≤ 64 }
    requires begin { B.pre begin }
    ensures { IfOk result (λ ended. Ends (RequestSteps S.step S.fails S.settles S.breaks_off) S.keeps_together D.gives D.Reader.remaining D.Writer.contents F.does session posts.entry.items ended.session ended.posts.items ended.requests ended.unanswered) }
{
    let opened = open_desk(alloc, posts.len(), session, begin)?;
    let Opened {
        desk,
        lists,
        passes,
        callers: room,
        mut back,
        mut left,
    } = opened;
    let mut callers = open_callers(&*rt, &desk, &*supervisor, posts, passes, lists, room);
    run_all(&*rt, alloc, callers.as_mut_slice());
    let unanswered = lack_answer(callers.as_slice());
    take_apart(callers, &mut back, &mut left);
    match desk.close(back) {
        Ok(Closed { machine, calls }) => Ok(Ended {
            session: machine.into_session(),
            posts: left,
            requests: calls,
            unanswered,
        }),
        Err(_) => unreachable!(),
    }
}
