//! What no clause says of connections: that each is taken, and answered where memory is there.

use pana_daemon::{
    CountedListener, DaemonFault, Folder, IdleSupervisor, Look, Patience, Post, SocketDoor, attend,
};
use pana_hall::Hall;
use pana_tickets::Tickets;
use pana_track::FolderEnd;
use std::alloc::{AllocError, Global};
use std::io;
use std::io::Write;
use std::marker::Sync;
use std::net::{Net, OpenStream, Shutdown, TcpListener, TcpStream};
use std::sync::{Mutex, Wait};
use std::test::Fail;
use std::thread::Threads;
use std::time::Clock;

const REGISTER: &str = "{\"by\":\"a\",\"do\":\"register\",\"device\":\"a\",\"path\":\"f\"}\n";

const PAIR: &str = "{\"by\":\"a\",\"do\":\"pair\",\"a\":1,\"b\":1}\n";

const REQUEST: &str = "POST / HTTP/1.1\r\n\r\n{\"by\":\"a\",\"do\":\"families\"}\n";

/// A folder that is never scanned.
#[derive(Drop)]
struct NoFolder;

impl Folder for NoFolder {
    fn next<R: Threads + Sync>(&mut self, _threads: &R) -> Option<Look> {
        None
    }

    fn note_end(&mut self, _end: &FolderEnd) {}
}

/// A client that has written its lines, and writes no more.
fn client<R: Net>(rt: &R, listener: &TcpListener, lines: &str) -> io::Result<R::Stream> {
    let mut stream = TcpStream::connect(rt, listener.local_addr()?)?;
    stream.write_all(lines.as_bytes())?;
    stream.shutdown(Shutdown::Write)?;
    Ok(stream)
}

/// Serves the listener's connections one after another, until all that are wanted were taken; returns how many requests
/// were made, and how many entries they left.
fn serve_all<'a, T: Threads + Wait + Clock + Sync>(
    rt: &'a T,
    alloc: Global,
    supervisor: &'a IdleSupervisor,
    listener: &'a Mutex<CountedListener>,
    wanted: u32,
) -> Result<(u64, u64), Fail> {
    let patience = Patience {
        hurry: 5,
        idle: 300,
    };
    let (tickets, mut whole) = Tickets::new(alloc, u64::from(wanted))?;
    let mut posts: Vec<Post<'_, _, NoFolder>> = Vec::with_capacity(alloc, 1)?;
    let hall = Hall::new(alloc)?;
    let share = tickets.divide(&mut whole);
    posts.push_reserved(Post::Door(SocketDoor::new(
        rt, alloc, supervisor, 1, listener, patience, &tickets, share,
    )));
    let begin = || -> Result<(), DaemonFault> { Ok(()) };
    match attend(rt, alloc, supervisor, hall, posts, begin) {
        Ok(ended) => Ok((ended.requests, ended.session.length())),
        Err(_) => Err(Fail::from(AllocError)),
    }
}

#[test]
fn connections_one_after_another(rt: HostRuntime) -> Result<(), Fail> {
    let alloc = rt.alloc();
    let listener = TcpListener::bind(&rt, "127.0.0.1:0")?;
    let first = client(&rt, &listener, REGISTER)?;
    let page = client(&rt, &listener, REQUEST)?;
    let second = client(&rt, &listener, PAIR)?;
    let counted = Mutex::new(CountedListener::new(listener, Some(3)));
    // Of each session that has made a call, this and one to settle.
    let (requests, entries) = serve_all(&rt, alloc, &IdleSupervisor, &counted, 3)?;
    assert_eq!(rt; (requests, entries), (4, 1));
    let answer = io::read_to_string(alloc, first)?;
    assert_eq!(rt; answer.as_str(), "{\"done\":1}\n");
    let answer = io::read_to_string(alloc, page)?;
    assert_eq!(rt; answer.as_str(), "");
    let answer = io::read_to_string(alloc, second)?;
    assert_eq!(rt; answer.as_str(), "{\"pair\":\"Equal\"}\n");
    Ok(())
}
