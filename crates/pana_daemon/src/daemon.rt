//! Sessions and scanners, until both have ended.
ghost use Rattle.std.specs.Prelude.{◌≡◌, ℕ, ◌+◌, ◌<◌, ◌≤◌, Option, IfOk, OnOk, length, replicate};
ghost use Rattle.pana_tickets.specs.Hands.{hand};
ghost use Rattle.pana_ticks.specs.Hands.{none_yet};
ghost use Rattle.pana_daemon.specs.Desk.{RequestSteps};
ghost use Rattle.pana_daemon.specs.Door.{GivesDrawn, limit_of, new_door};
ghost use Rattle.pana_daemon.specs.Post.{doors_in, folders_in};
ghost use Rattle.pana_daemon.specs.inner.Newlines.{EndsInput};
ghost use Rattle.pana_roots.specs.Root.{folders_of};
ghost use Rattle.pana_daemon.specs.RootFolder.{new_folders};
ghost use Rattle.pana_daemon.specs.Serve.{Ends, EndsDaemon};

use crate::alarm::{Alarm, Closer};
use crate::attending::{Ended, attend};
use crate::daemon_fault::{DaemonFault, LateFault};
use crate::door::Door;
use crate::folder::Folder;
use crate::listener::{CountedListener, Listener};
use crate::looks::Looks;
use crate::newlines::count_newlines;
use crate::patience::{Patience, PatientReader, PatientWriter};
use crate::post::Post;
use crate::root_folder::RootFolder;
use crate::running::can_run;
use crate::settling::{late_fault, limit_of, settle};
use crate::signals::Signals;
use crate::socket_door::SocketDoor;
use crate::standard_input::StandardInput;
use crate::start::Verdict;
use crate::waiting::Waiting;
use pana_calls::Session;
use pana_roots::{Disks, Root};
use pana_tickets::{Share, Tickets};
use pana_ticks::Counter;
use pana_wire::Tap;
use std::alloc::{AllocError, Global};
use std::io::{BufWriter, Read, Write};
use std::marker::{Send, Sync};
use std::net::SocketAddr;
use std::sync::{Mutex, Wait};
use std::thread;
use std::thread::Threads;
use std::time::Clock;

/// How many sessions are served at a time.
const SESSIONS: usize = 16;

/// How many threads there are at most, besides one for each session and for each root: all of these, and standard input.
const OTHERS: u32 = 2;

/// The connections of sockets, or the folder of a root.
type DaemonPost<'a, T, K> = Post<'a, SocketDoor<'a, T, Alarm<'a>>, RootFolder<'a, T, K>>;

/// How the daemon has ended: the session that all shared, how many requests were made of it, and what has gone wrong.
#[derive(Drop)]
pub struct DaemonEnd<S> {
    pub session: S,
    pub requests: u64,
    pub fault: Option<LateFault>,
}

/// What ends all once the alarm has rung, where no number of sessions is wanted.
fn closer_of(listener: &Listener) -> Result<Option<Closer>, DaemonFault> {
    if listener.wanted.is_some() {
        return Ok(None);
    }
    match Closer::new(&listener.listener) {
        Ok(closer) => Ok(Some(closer)),
        Err(_) => Err(DaemonFault::NoDescriptor),
    }
}

/// What the daemon's threads wait for and share: the newlines and the start, with what counts newlines; what ends all; and a
/// ticket for each connection that is wanted, with the share that is the whole.
fn means(
    alloc: Global,
    listener: &Listener,
    roots: usize,
) -> Result<(Signals, Counter, Option<Closer>, Tickets, Share), DaemonFault>
    ensures counter { IfOk result (λ means. means.1 ≡ record { id = means.0.ticks; count = none_yet }) }
    ensures most { IfOk result (λ means. means.3.most ≡ limit_of listener.now.wanted) }
    ensures whole { IfOk result (λ means. means.4 ≡ record { id = means.3.id; hand = hand means.3.most 64 0 0 }) }
{
    let (signals, counter) = Signals::new(alloc, roots, listener.wanted.is_none())?;
    let closer = closer_of(listener)?;
    let (tickets, whole) = Tickets::new(alloc, limit_of(listener.wanted))?;
    Ok((signals, counter, closer, tickets, whole))
}

/// The posts of 16 workers, each with a part of the whole of the tickets, and then those of the roots, in order, each of
/// which watches the ticks.
fn posts_of<'a, T: Wait + Clock, K: Disks>(
    alloc: Global,
    threads: &'a T,
    disks: &'a K,
    alarm: &'a Alarm<'a>,
    listener: &'a Mutex<CountedListener>,
    patience: Patience,
    signals: &'a Signals,
    tickets: &'a Tickets,
    whole: &mut Share,
    counter: &mut Counter,
    looks: Looks,
    roots: &'a [Root<'a>],
) -> Result<Vec<DaemonPost<'a, T, K>>, AllocError>
    requires few { length roots.now ≤ 8 }
    requires whole { whole.old ≡ record { id = tickets.now.id; hand = hand tickets.now.most 64 0 0 } }
    requires counter { counter.old.id ≡ signals.now.ticks }
    ensures count { IfOk result (λ posts. length posts.items ≡ 16 + length roots.now) }
    ensures workers { IfOk result (λ posts. doors_in posts.items ≡ replicate 16 (new_door tickets.now)) }
    ensures scanners { IfOk result (λ posts. folders_in posts.items ≡ new_folders looks signals.now.ticks signals.now.start.all.id (folders_of disks.now roots.now)) }
    ensures counter { counter.new ≡ counter.old }
    ensures whole { OnOk result (whole.new ≡ record { id = tickets.now.id; hand = hand tickets.now.most 48 0 0 }) }
{
    let mut posts = Vec::with_capacity(alloc, SESSIONS + roots.len())?;
    for place in 0..SESSIONS {
        let share = tickets.divide(whole);
        let caller = place as u32 + 1;
        posts.push_reserved(Post::Door(SocketDoor::new(
            threads, alloc, alarm, caller, listener, patience, tickets, share,
        )));
    }
    for root in roots {
        posts.push_reserved(Post::Folder(
            &root.device,
            RootFolder::new(
                alloc,
                threads,
                disks,
                alarm,
                root,
                looks,
                signals,
                signals.ticks.watcher(counter),
            ),
        ));
    }
    Ok(posts)
}

/// Prints where it listens, where so many threads can be made.
fn announce<T: Threads + Wait + Sync>(
    rt: &HostRuntime,
    threads: &T,
    address: &SocketAddr,
    count: u32,
) -> Result<(), DaemonFault> {
    if !can_run(threads, count) {
        return Err(DaemonFault::NoThreads);
    }
    println!(rt; "listening {address}").map_err(|_| DaemonFault::Write)
}

/// Counts the newlines of an input until it ends, once all has begun that is to run at once, and returns whether it has;
/// where there is no root it doesn't read the input.
fn count_input<'a, I: Read + Drop, T: Wait>(
    threads: &T,
    signals: &'a Signals,
    input: I,
    has_roots: bool,
    mut counter: Counter,
) -> (Counter, Option<Verdict<'a>>)
    requires { counter ≡ record { id = signals.now.ticks; count = none_yet } }
    ensures { EndsInput I.remaining signals.now.ticks signals.now.start.all.id has_roots result.0 result.1 }
{
    if !has_roots {
        return (counter, None);
    }
    let verdict = signals.start.ask(threads);
    if !verdict.begins() {
        return (counter, Some(verdict));
    }
    let mut input = Tap::new(input);
    count_newlines(threads, &mut input, &signals.ticks, &mut counter);
    (counter, Some(verdict))
}

/// Has the posts done, with a session that all share. Where nothing is begun, nothing else is to wait for it.
fn attend_posts<
    'a,
    S: Session + Send + Drop,
    T: Threads + Wait + Clock + Sync,
    D: Door + Send + Drop,
    F: Folder + Send + Drop,
>(
    rt: &HostRuntime,
    threads: &T,
    address: &SocketAddr,
    signals: &Signals,
    alarm: &Alarm<'_>,
    posts: Vec<Post<'a, D, F>>,
    session: S,
) -> Result<Ended<'a, S, D, F>, DaemonFault>
    requires some { 0 < length posts.items }
    requires few { length posts.items ≤ 24 }
    ensures { IfOk result (λ ended. Ends (RequestSteps S.step S.fails S.settles S.breaks_off) S.keeps_together D.gives D.Reader.remaining D.Writer.contents F.does session posts.entry.items ended.session ended.posts.items ended.requests ended.unanswered) }
{
    let count = posts.len() as u32 + OTHERS;
    let begin = || announce(rt, threads, address, count);
    let ended = attend(&*threads, rt.alloc(), &*alarm, session, posts, begin);
    if ended.is_err() {
        signals.start.refuse(threads);
    }
    ended
}

/// Has the posts done, with a session that all share, while it counts the newlines of an input.
fn attend_and_count<
    'a,
    I: Read + Send + Drop,
    S: Session + Send + Drop,
    T: Threads + Wait + Clock + Sync,
    D: Door + Send + Drop,
    F: Folder + Send + Drop,
>(
    rt: &'a HostRuntime,
    threads: &'a T,
    address: &'a SocketAddr,
    signals: &'a Signals,
    alarm: &'a Alarm<'a>,
    input: I,
    has_roots: bool,
    counter: Counter,
    posts: Vec<Post<'a, D, F>>,
    session: S,
) -> Result<(Ended<'a, S, D, F>, Counter, Option<Verdict<'a>>), DaemonFault>
    requires some { 0 < length posts.items }
    requires few { length posts.items ≤ 24 }
    requires counter { counter ≡ record { id = signals.now.ticks; count = none_yet } }
    ensures ends { IfOk result (λ all. Ends (RequestSteps S.step S.fails S.settles S.breaks_off) S.keeps_together D.gives D.Reader.remaining D.Writer.contents F.does session posts.entry.items all.0.session all.0.posts.items all.0.requests all.0.unanswered) }
    ensures counts { IfOk result (λ all. EndsInput I.remaining signals.now.ticks signals.now.start.all.id has_roots all.1 all.2) }
{
    let (ended, (counter, asked)) = thread::join(
        threads,
        move ||
            requires { (length posts.items ≤ 24) × (0 < length posts.items) }
        { attend_posts(rt, threads, address, signals, alarm, posts, session) },
        move || -> (Counter, Option<Verdict<'_>>)
            requires { counter ≡ record { id = signals.now.ticks; count = none_yet } }
            ensures { EndsInput I.remaining signals.entry.now.ticks signals.entry.now.start.all.id has_roots result.0 result.1 }
        { count_input(threads, signals, input, has_roots, counter) },
    );
    match ended {
        Ok(ended) => Ok((ended, counter, asked)),
        Err(fault) => {
            drop(asked);
            Err(fault)
        }
    }
}

/// Has the posts of workers and of roots done, with a session that all share, while it counts the newlines of standard
/// input, and says how that has ended.
fn serve_posts<'a, S: Session + Send + Drop, T: Threads + Wait + Clock + Sync, K: Disks + Sync>(
    rt: &'a HostRuntime,
    threads: &'a T,
    disks: &'a K,
    address: &'a SocketAddr,
    signals: &'a Signals,
    alarm: &'a Alarm<'a>,
    listener: &'a Mutex<CountedListener>,
    patience: Patience,
    tickets: &'a Tickets,
    mut whole: Share,
    mut counter: Counter,
    looks: Looks,
    roots: &'a [Root<'a>],
    session: S,
) -> Result<DaemonEnd<S>, DaemonFault>
    requires few { length roots.now ≤ 8 }
    requires whole { whole ≡ record { id = tickets.now.id; hand = hand tickets.now.most 64 0 0 } }
    requires counter { counter ≡ record { id = signals.now.ticks; count = none_yet } }
    ensures { IfOk result (λ ended. (wanted : Option ℕ) → tickets.now.most ≡ limit_of wanted → EndsDaemon (RequestSteps S.step S.fails S.settles S.breaks_off) S.keeps_together ⟦<PatientReader<'a, T, Alarm<'a>> as Read>⟧.remaining ⟦<BufWriter<PatientWriter<'a, T, Alarm<'a>>, Global> as Write>⟧.contents ⟦<StandardInput<'a, 'a, T> as Read>⟧.remaining ⟦<RootFolder<'a, T, K> as Folder>⟧.does session wanted looks (folders_of disks.now roots.now) ended.session ended.requests ended.fault) }
{
    let posts = posts_of(
        rt.alloc(),
        threads,
        disks,
        alarm,
        listener,
        patience,
        signals,
        tickets,
        &mut whole,
        &mut counter,
        looks,
        roots,
    )?;
    let has_roots = !roots.is_empty();
    let input = StandardInput { rt, threads, alarm };
    let (ended, mut counter, asked) = attend_and_count(
        rt, threads, address, signals, alarm, input, has_roots, counter, posts, session,
    )?;
    let Ended {
        session,
        posts,
        requests,
        unanswered,
    } = ended;
    let verdict = signals.start.decide(threads);
    verdict.is_that_of(&asked);
    drop(asked);
    let is_closed = settle(
        tickets,
        &mut whole,
        &signals.ticks,
        &mut counter,
        &verdict,
        posts,
    );
    Ok(DaemonEnd {
        session,
        requests,
        fault: late_fault(unanswered, is_closed),
    })
}

/// Prints where it listens, and then serves the listener's connections at a desk with this session, 16 at a time, and
/// looks at the roots: each by a thread of its own, at the start and after newlines on standard input, and each so many
/// seconds too where that is wanted. It ends once as many connections were taken as are wanted, these have ended and, where
/// there is a root, standard input has ended too; where no number is given, only where nothing has come of a request and
/// later ones won't have answers: it takes no further connection then, closes those that are open still after 5 to 10
/// seconds, and doesn't wait for standard input. Then it closes the desk, and returns the session, with the number of
/// requests that were made, and what has gone wrong.
///
/// # Errors
///
/// Nothing was printed, no connection was taken and no folder was read: `OutOfMemory`; `NoThreads`; `NoDescriptor`;
/// `Write`, where it can't be printed.
pub fn serve<'a, S: Session + Send + Drop, T: Threads + Wait + Clock + Sync, K: Disks + Sync>(
    rt: &'a HostRuntime,
    threads: &'a T,
    disks: &'a K,
    address: &SocketAddr,
    listener: Listener,
    looks: Looks,
    roots: &'a [Root<'a>],
    session: S,
) -> Result<DaemonEnd<S>, DaemonFault>
    requires few { length roots.now ≤ 8 }
    ensures { IfOk result (λ ended. EndsDaemon (RequestSteps S.step S.fails S.settles S.breaks_off) S.keeps_together ⟦<PatientReader<'a, T, Alarm<'a>> as Read>⟧.remaining ⟦<BufWriter<PatientWriter<'a, T, Alarm<'a>>, Global> as Write>⟧.contents ⟦<StandardInput<'a, 'a, T> as Read>⟧.remaining ⟦<RootFolder<'a, T, K> as Folder>⟧.does session listener.wanted looks (folders_of disks.now roots.now) ended.session ended.requests ended.fault) }
{
    let (signals, counter, closer, tickets, whole) = means(rt.alloc(), &listener, roots.len())?;
    let Listener {
        listener,
        wanted,
        patience,
    } = listener;
    let counted = Mutex::new(CountedListener::new(listener, wanted));
    let waiting = Waiting::new(&session);
    let alarm = Alarm::new(rt, &signals.start, &counted, closer, waiting);
    serve_posts(
        rt, threads, disks, address, &signals, &alarm, &counted, patience, &tickets, whole,
        counter, looks, roots, session,
    )
}
