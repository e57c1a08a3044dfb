//! What doors have taken and folders have seen, once all have ended.
ghost use Rattle.std.specs.Prelude.{◌≡◌, ◌<◌, false, length};
ghost use Rattle.pana_tickets.specs.Hands.{hand, joined};
ghost use Rattle.pana_daemon.specs.Door.{drawn_by, is_one_closed, limit_of};
ghost use Rattle.pana_daemon.specs.Post.{doors_in, folders_in};
ghost use Rattle.pana_daemon.specs.RootFolder.{HaveSeen};
ghost use Rattle.pana_daemon.specs.Serve.{fault_of};
ghost use Rattle.pana_daemon.specs.inner.Doors.{AreLeft, AreOf, hands_in, joined_all};
ghost use Rattle.pana_daemon.specs.inner.Folders.{HaveAsked};

use crate::daemon_fault::LateFault;
use crate::post::Post;
use crate::root_folder::RootFolder;
use crate::socket_door::SocketDoor;
use crate::start::Verdict;
use crate::supervisor::Supervisor;
use pana_tickets::{Share, Tickets};
use pana_ticks::{Counter, Ticks};
use std::sync::Wait;
use std::time::Clock;

/// The number of connections from which on no further one is taken where all are wanted; none comes to it.
const MOST_CONNECTIONS: u64 = 1 << 62;

/// How many connections are to be taken.
pub(crate) fn limit_of(wanted: Option<u64>) -> u64
    ensures { result ≡ limit_of wanted }
{
    match wanted {
        None => MOST_CONNECTIONS,
        Some(wanted) => wanted.min(MOST_CONNECTIONS),
    }
}

/// Takes the shares of doors and of folders in, and returns whether one of the doors has ended though a ticket may be left.
fn take_in<'a, T: Wait + Clock, G: Supervisor, K>(
    tickets: &Tickets,
    whole: &mut Share,
    ticks: &Ticks,
    counter: &mut Counter,
    verdict: &Verdict<'a>,
    posts: Vec<Post<'a, SocketDoor<'a, T, G>, RootFolder<'a, T, K>>>,
) -> bool
    requires whole { (whole.old.id ≡ tickets.now.id) × (0 < whole.old.hand.parts) }
    requires doors { AreOf tickets.now (doors_in posts.items) }
    requires counter { counter.old.id ≡ ticks.now }
    requires folders { HaveAsked ticks.now verdict.now.of (folders_in posts.items) }
    ensures whole { whole.new ≡ record { id = tickets.now.id; hand = joined_all whole.old.hand (hands_in posts.entry.items) } }
    ensures closed { result ≡ is_one_closed (doors_in posts.entry.items) }
    ensures counter { counter.new ≡ counter.old }
    ensures seen { HaveSeen verdict.now.begins counter.old.count (folders_in posts.entry.items) }
{
    let mut is_closed = false;
    for post in posts {
        match post {
            Post::Door(door) => {
                is_closed |= door.is_closed();
                tickets.join(whole, door.into_share());
            }
            Post::Folder(_, folder) => ticks.meet(counter, folder.into_watcher(verdict)),
        }
    }
    is_closed
}

/// Takes the shares of 16 doors and of folders in, and returns whether one of the doors has ended though a ticket may be
/// left. Where none has, they have taken as many connections as there were tickets. The folders have seen no more ticks
/// than were counted, and all have got the same answer.
pub(crate) fn settle<'a, T: Wait + Clock, G: Supervisor, K>(
    tickets: &Tickets,
    whole: &mut Share,
    ticks: &Ticks,
    counter: &mut Counter,
    verdict: &Verdict<'a>,
    posts: Vec<Post<'a, SocketDoor<'a, T, G>, RootFolder<'a, T, K>>>,
) -> bool
    requires whole { whole.old ≡ record { id = tickets.now.id; hand = hand tickets.now.most 48 0 0 } }
    requires doors { AreLeft tickets.now (doors_in posts.items) }
    requires count { length (doors_in posts.items) ≡ 16 }
    requires counter { counter.old.id ≡ ticks.now }
    requires folders { HaveAsked ticks.now verdict.now.of (folders_in posts.items) }
    ensures closed { result ≡ is_one_closed (doors_in posts.entry.items) }
    ensures drawn { result ≡ false → drawn_by (doors_in posts.entry.items) ≡ tickets.now.most }
    ensures counter { counter.new ≡ counter.old }
    ensures seen { HaveSeen verdict.now.begins counter.old.count (folders_in posts.entry.items) }
{
    let is_closed = take_in(tickets, whole, ticks, counter, verdict, posts);
    if !is_closed {
        tickets.all_drawn(whole);
    }
    is_closed
}

/// What has gone wrong, once all have ended: a call has no answer; or none lacks one, and connections are no longer taken
/// though further ones are wanted, since not all has begun.
pub(crate) fn late_fault(unanswered: bool, is_closed: bool) -> Option<LateFault>
    ensures { result ≡ fault_of unanswered is_closed }
{
    if unanswered {
        return Some(LateFault::Unanswered);
    }
    if is_closed {
        return Some(LateFault::NoThreads);
    }
    None
}
