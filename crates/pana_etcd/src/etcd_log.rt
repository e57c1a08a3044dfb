//! A log in etcd.
ghost use Rattle.std.specs.Prelude.{◌<◌, ◌≤◌, ◌^◌, Some};
ghost use Rattle.serde_json.specs.View.{view};
ghost use Rattle.pana_shared.specs.Log.{HasSome};
ghost use Rattle.pana_etcd.specs.Log.{Comes, Stands};

use crate::address::EtcdAddress;
use crate::answer::{found_in, has_none, read_answer, read_outcome, read_page, says_full};
use crate::connect::Connect;
use crate::exchange::{Link, Reply, Request};
use crate::key::LAST;
use crate::login::Login;
use crate::member::{Member, member_text};
use crate::request::{append_body, login_body, range_body};
use crate::value::{text_in, value_said};
use pana_shared::{Appended, ReadFault, Record, SharedLog};
use serde_json::Value;
use std::alloc::Global;

/// For how many milliseconds a connection to a member is waited for.
const CONNECT: u64 = 1000;

/// For how many milliseconds an answer is waited for at least, before another member is asked; and in all, right behind a request
/// that had none.
const ANSWER: u64 = 1000;

/// For how many milliseconds a request is right behind one that had no answer.
const BEHIND: u64 = 2000;

/// After how many milliseconds it is time to read on.
const DUE: u64 = 1000;

/// How many milliseconds lie between two rounds of the members.
const PAUSE: u64 = 100;

/// How many rounds there are at most.
const MOST_ROUNDS: u64 = 1 << 32;

/// The path of transactions, that of questions, and that by which one logs in.
const TXN: &str = "/v3/kv/txn";

const RANGE: &str = "/v3/kv/range";

const LOGIN: &str = "/v3/auth/authenticate";

/// The status of an answer to who isn't known, or not any more.
const UNKNOWN: u16 = 401;

/// Why a request has no usable answer.
#[derive(Clone, Copy, PartialEq, Eq)]
enum Miss {
    /// It wasn't sent.
    NotSent,
    /// A member may have taken it.
    Unanswered,
    /// A member has refused it for want of room.
    Full,
}

/// A log whose records are values in etcd, each under a key of its own that is written once.
///
/// It keeps one connection, to the member that answered last. A member that fails is tried last in the next round.
#[derive(Drop)]
pub struct EtcdLog<C: Connect> {
    alloc: Global,
    connect: C,
    login: Option<Login>,
    members: Vec<Member>,
    name: String,
    writer: u64,
    patience: u64,
    /// When the last request ended, if it had no answer.
    missed_at: Option<u64>,
    /// When the last reading ended, with an answer or without.
    read_at: Option<u64>,
    /// The index of the member that is asked first.
    first: usize,
    link: Option<Link<C::Stream>>,
    /// What a member has given to who has logged in.
    token: Option<String>,
}

impl<C: Connect> EtcdLog<C> {
    /// A log at this address, for a writer with this number. Each of its calls returns within so many milliseconds of patience, and
    /// a second; within two seconds right behind one that had no answer. Takes no memory, and connects to no member.
    pub fn new(
        alloc: Global,
        connect: C,
        address: EtcdAddress,
        writer: u64,
        patience: u64,
    ) -> EtcdLog<C> {
        let EtcdAddress {
            login,
            members,
            name,
        } = address;
        EtcdLog {
            alloc,
            connect,
            login,
            members,
            name,
            writer,
            patience,
            missed_at: None,
            read_at: None,
            first: 0,
            link: None,
            token: None,
        }
    }

    /// The answer of a member to a request, within all of patience; or, right behind a request that had no answer, within a second.
    ///
    /// # Errors
    ///
    /// As `ask_until`.
    fn ask(&mut self, path: &str, body: &str) -> Result<Value, Miss> {
        let now = self.connect.milliseconds();
        let until = now.saturating_add(self.patience_at(now));
        let answer = self.ask_until(until, path, body);
        self.missed_at = match answer {
            Ok(_) | Err(Miss::Full) => None,
            Err(_) => Some(self.connect.milliseconds()),
        };
        answer
    }

    /// How many milliseconds a request has that is made at this time.
    fn patience_at(&self, now: u64) -> u64 {
        match self.missed_at {
            Some(missed_at) if now.saturating_sub(missed_at) <= BEHIND => self.patience.min(ANSWER),
            _ => self.patience,
        }
    }

    /// The answer of a member to a request. The members are asked in turn, round after round, until one answers or this time has come.
    ///
    /// # Errors
    ///
    /// `Full` where a member has refused it for want of room, and no other may have taken it; else `Unanswered`.
    fn ask_until(&mut self, until: u64, path: &str, body: &str) -> Result<Value, Miss> {
        let mut may_be_taken = false;
        for _ in 0..MOST_ROUNDS {
            for _ in 0..self.members.len() {
                match self.ask_first(until, path, body) {
                    Ok(answer) => return Ok(answer),
                    Err(Miss::Full) if !may_be_taken => return Err(Miss::Full),
                    Err(miss) => may_be_taken = may_be_taken || miss == Miss::Unanswered,
                }
                self.move_on();
            }
            if self.connect.milliseconds() >= until {
                return Err(Miss::Unanswered);
            }
            self.connect.pause(PAUSE);
        }
        Err(Miss::Unanswered)
    }

    /// The answer of the member whose turn it is. Its connection is kept only where it has answered.
    fn ask_first(&mut self, until: u64, path: &str, body: &str) -> Result<Value, Miss> {
        let until = until.min(self.turn_ends());
        let mut link = self.take_link(until)?;
        let answer = self.ask_over(&mut link, until, path, body);
        if answer.is_ok() && link.is_kept() {
            drop(self.link.replace(link));
        } else {
            drop(link);
        }
        answer
    }

    /// The answer of the member whose turn it is, over this connection to it.
    fn ask_over(
        &mut self,
        link: &mut Link<C::Stream>,
        until: u64,
        path: &str,
        body: &str,
    ) -> Result<Value, Miss> {
        let host = self.host()?;
        self.log_in(link, until, host.as_str())?;
        let reply = self.post(link, until, host.as_str(), path, body)?;
        if reply.status == UNKNOWN {
            self.token = None;
        }
        answer_in(self.alloc, &reply)
    }

    /// The reply to a request, with the token that is there so far.
    fn post<'a>(
        &'a self,
        link: &mut Link<C::Stream>,
        until: u64,
        host: &'a str,
        path: &'a str,
        body: &'a str,
    ) -> Result<Reply, Miss> {
        let token = text_of(&self.token);
        let request = Request {
            host,
            path,
            token,
            body,
        };
        match link.post(self.alloc, &self.connect, until, &request) {
            Ok(reply) => Ok(reply),
            Err(_) => Err(Miss::Unanswered),
        }
    }

    /// The host and the port of the member whose turn it is.
    fn host(&self) -> Result<String, Miss> {
        let Some(member) = self.members.get(self.first) else {
            return Err(Miss::NotSent);
        };
        match member_text(self.alloc, member) {
            Ok(host) => Ok(host),
            Err(_) => Err(Miss::NotSent),
        }
    }

    /// Asks the member for a token, where somebody is to log in who hasn't.
    fn log_in(&mut self, link: &mut Link<C::Stream>, until: u64, host: &str) -> Result<(), Miss> {
        if self.login.is_none() || self.token.is_some() {
            return Ok(());
        }
        let token = self.new_token(link, until, host)?;
        self.token = Some(token);
        Ok(())
    }

    /// The token that the member gives to who logs in.
    fn new_token(
        &self,
        link: &mut Link<C::Stream>,
        until: u64,
        host: &str,
    ) -> Result<String, Miss> {
        let Some(login) = &self.login else {
            return Err(Miss::NotSent);
        };
        let (user, password) = (login.user.as_str(), login.password.as_str());
        let Ok(body) = login_body(self.alloc, user, password) else {
            return Err(Miss::NotSent);
        };
        match self.post(link, until, host, LOGIN, body.as_str()) {
            Ok(reply) => token_in(self.alloc, &reply),
            Err(_) => Err(Miss::NotSent),
        }
    }

    /// Some of the records behind the first so many; none where there is none.
    fn page_behind(&mut self, from: u64) -> Result<Vec<Record>, ReadFault> {
        if from >= LAST {
            return Err(ReadFault::NoAnswer);
        }
        let Ok(body) = range_body(self.alloc, self.name.as_str(), from + 1) else {
            return Err(ReadFault::OutOfMemory);
        };
        let Ok(answer) = self.ask(RANGE, body.as_str()) else {
            return Err(ReadFault::NoAnswer);
        };
        let page = read_page(self.alloc, self.name.as_str(), from + 1, &answer);
        drop(answer);
        page
    }

    /// What has come of a transaction that was refused for want of room: etcd may have carried it out all the same.
    fn settle(&mut self, number: u64) -> Appended
        requires { number < 2 ^ 62 }
        ensures { HasSome result }
    {
        let Ok(body) = range_body(self.alloc, self.name.as_str(), number) else {
            return Appended::Unknown;
        };
        match self.ask(RANGE, body.as_str()) {
            Ok(answer) => {
                let settled = settled_by(self.alloc, self.name.as_str(), number, &answer);
                drop(answer);
                settled
            }
            Err(_) => Appended::Unknown,
        }
    }

    /// When the turn of a member ends that is asked now: each has its share of patience, and a second at least.
    fn turn_ends(&self) -> u64 {
        let share = self.patience / (self.members.len() as u64).max(1);
        self.connect
            .milliseconds()
            .saturating_add(share.max(ANSWER))
    }

    /// The connection to the member whose turn it is: the one that is kept, or a new one.
    fn take_link(&mut self, until: u64) -> Result<Link<C::Stream>, Miss> {
        match self.link.take() {
            Some(link) => Ok(link),
            None => self.new_link(until),
        }
    }

    /// A new connection to the member whose turn it is.
    fn new_link(&self, until: u64) -> Result<Link<C::Stream>, Miss> {
        let Some(member) = self.members.get(self.first) else {
            return Err(Miss::NotSent);
        };
        let left = until.saturating_sub(self.connect.milliseconds());
        match self.connect.connect(member, left.min(CONNECT).max(1)) {
            Ok(stream) => Ok(Link::new(self.alloc, stream)),
            Err(_) => Err(Miss::NotSent),
        }
    }

    /// The turn of the next member.
    fn move_on(&mut self) {
        self.first = next_index(self.first, self.members.len());
    }
}

/// The answer in a reply with status 200; any other is a refusal.
fn answer_in(alloc: Global, reply: &Reply) -> Result<Value, Miss> {
    if reply.status != 200 {
        return Err(refusal_in(alloc, reply));
    }
    match read_answer(alloc, reply.body.as_slice()) {
        Ok(answer) => Ok(answer),
        Err(_) => Err(Miss::Unanswered),
    }
}

/// What a refusal says.
fn refusal_in(alloc: Global, reply: &Reply) -> Miss {
    let Ok(refusal) = value_said(alloc, reply.body.as_slice()) else {
        return Miss::Unanswered;
    };
    let is_full = says_full(&refusal);
    drop(refusal);
    if is_full {
        Miss::Full
    } else {
        Miss::Unanswered
    }
}

fn text_of(token: &Option<String>) -> Option<&str> {
    match token {
        Some(token) => Some(token.as_str()),
        None => None,
    }
}

/// The token in the answer to who logs in.
fn token_in(alloc: Global, reply: &Reply) -> Result<String, Miss> {
    if reply.status != 200 {
        return Err(Miss::NotSent);
    }
    let Ok(answer) = read_answer(alloc, reply.body.as_slice()) else {
        return Err(Miss::NotSent);
    };
    let token = token_said(alloc, &answer);
    drop(answer);
    token
}

fn token_said(alloc: Global, answer: &Value) -> Result<String, Miss> {
    let Some(token) = text_in(answer, "token") else {
        return Err(Miss::NotSent);
    };
    match String::from_str(alloc, token) {
        Ok(token) => Ok(token),
        Err(_) => Err(Miss::NotSent),
    }
}

/// The index behind another, round so many.
fn next_index(index: usize, len: usize) -> usize
    ensures { result ≤ len }
{
    if index < len.saturating_sub(1) {
        index + 1
    } else {
        0
    }
}

impl<C: Connect> SharedLog for EtcdLog<C> {
    ghost use Rattle.std.specs.Prelude.{false};
    ghost use Rattle.pana_etcd.specs.Log.{nothing_seen};

    // Nothing is claimed of what a system keeps.
    ghost is_known = { false };

    ghost seen = { λ _. nothing_seen };

    fn writer(&self) -> u64 {
        self.writer
    }

    /// Appends at most 100 records. `Unknown` also where the request couldn't be made: memory ran out, or there are more; and where
    /// something stands there that couldn't be read.
    fn append(&mut self, at: u64, group: &[Record]) -> Appended {
        if at >= LAST {
            return Appended::Unknown;
        }
        let Ok(body) = append_body(self.alloc, self.name.as_str(), at, group) else {
            return Appended::Unknown;
        };
        match self.ask(TXN, body.as_str()) {
            Ok(answer) => {
                let outcome = outcome_of(self.alloc, self.name.as_str(), at + 1, &answer);
                drop(answer);
                outcome
            }
            Err(Miss::Full) => self.settle(at + 1),
            Err(_) => Appended::Unknown,
        }
    }

    /// Reads at most 1,000 records, as they stand at a majority of the members.
    fn read(&mut self, from: u64) -> Result<Vec<Record>, ReadFault> {
        let page = self.page_behind(from);
        self.read_at = Some(self.connect.milliseconds());
        page
    }

    /// Once a second has gone by since the last reading ended.
    fn is_due(&self) -> bool {
        match self.read_at {
            Some(read_at) => self.connect.milliseconds().saturating_sub(read_at) >= DUE,
            None => true,
        }
    }
}

/// What has come of an append from this number on that was refused, by the answer to the question for it.
fn settled_by(alloc: Global, name: &str, number: u64, answer: &Value) -> Appended
    requires { number < 2 ^ 62 }
    ensures { HasSome result }
{
    if has_none(answer) {
        Appended::Full
    } else {
        what_stands(alloc, name, number, answer)
    }
}

/// What has come of an append from this number on, by the answer to its transaction. Where it says that something stands there, and
/// shows no records, nothing is known: who reads them finds out.
fn outcome_of(alloc: Global, name: &str, number: u64, answer: &Value) -> Appended
    requires { number < 2 ^ 62 }
    ensures comes { Comes name.now number (view answer.now) result }
    ensures some { HasSome result }
{
    match read_outcome(answer) {
        Some(true) => Appended::Put,
        Some(false) => match found_in(answer) {
            Some(found) => what_stands(alloc, name, number, found),
            None => Appended::Unknown,
        },
        None => Appended::Unknown,
    }
}

/// What stands from this number on, by an answer to the question for it.
fn what_stands(alloc: Global, name: &str, number: u64, answer: &Value) -> Appended
    requires { number < 2 ^ 62 }
    ensures stands { Stands name.now number (Some (view answer.now)) result }
    ensures some { HasSome result }
{
    let Ok(page) = read_page(alloc, name, number, answer) else {
        return Appended::Unknown;
    };
    if page.is_empty() {
        drop(page);
        Appended::Unknown
    } else {
        Appended::Taken(page)
    }
}
