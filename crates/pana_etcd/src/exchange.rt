//! Exchanges over one connection: a request is written, and its answer is read.
ghost use Rattle.std.specs.Prelude.{◌≡◌, ◌≤◌, IfOk, OnErr, OnOk, length, option_copied, string_bytes, take};
ghost use Rattle.std.specs.Io.KnownBytes.{Appends, Keeps};
ghost use Rattle.pana_wire.specs.Tap.{AppendsPrefix};
ghost use Rattle.pana_etcd.specs.Exchange.{request_text, token_line};

use crate::connect::Connect;
use bytes::BytesMut;
use http1::{BodySize, Client, Event, Header, Limits, WriteError};
use httparse::spans::{EMPTY_HEADER_SPAN, ResponseSpans};
use std::alloc::{AllocError, Global};
use std::io::{self, ErrorKind, Read, Write};

/// How many bytes the body of an answer has at most.
const LONGEST: usize = 16 * 1024 * 1024;

/// How many bytes are read at once at most.
const ROOM: usize = 65_536;

/// How many system calls an exchange takes at most, and how many steps its reading.
const MOST_CALLS: u64 = 1 << 32;

/// How many header lines an answer has at most.
const MOST_HEADERS: usize = 64;

/// An exchange that has no answer. The request may have reached the member.
#[derive(Clone, Copy)]
pub(crate) struct NoReply;

/// A connection to a member. Once an exchange has failed it is to be dropped.
#[derive(Drop)]
pub(crate) struct Link<S> {
    stream: S,
    client: Client,
    /// What was read, and belongs to no answer so far.
    input: BytesMut,
}

/// An answer, or what was read of it so far.
#[derive(Drop)]
pub(crate) struct Reply {
    pub(crate) status: u16,
    pub(crate) body: Vec<u8>,
}

/// What comes after a step of reading.
#[derive(Clone, Copy)]
enum Next {
    /// There may be more in what was read.
    Step,
    /// More has to be read.
    Read,
    /// The answer has ended.
    End,
    /// There will be no usable answer.
    Stop,
}

impl<S> Link<S> {
    pub(crate) fn new(alloc: Global, stream: S) -> Link<S> {
        Link {
            stream,
            client: Client::new(Limits::default()),
            input: BytesMut::new(alloc),
        }
    }

    /// Whether another exchange may follow.
    pub(crate) fn is_kept(&self) -> bool {
        self.client.is_idle()
    }

    /// Takes the next event from what was read.
    fn step(&mut self, reply: &mut Reply) -> Next {
        let mut spans = [EMPTY_HEADER_SPAN; MOST_HEADERS];
        let Ok(progress) = self.client.read(self.input.as_slice(), &mut spans) else {
            return Next::Stop;
        };
        let next = take_event(reply, progress.event, self.input.as_slice());
        self.input.advance(progress.consumed);
        next
    }

    /// What comes after the peer has closed its side.
    fn end(&mut self) -> Next {
        match self.client.read_eof() {
            Ok(Event::End(_)) => Next::End,
            _ => Next::Stop,
        }
    }
}

impl<S: Read + Write> Link<S> {
    /// Posts the body to a path of the host, and gives the answer. It takes memory for the request, and for the answer, of at most
    /// 16 MiB. It returns soon after the clock has come to `until`.
    pub(crate) fn post<C: Connect>(
        &mut self,
        alloc: Global,
        clock: &C,
        until: u64,
        request: &Request<'_>,
    ) -> Result<Reply, NoReply> {
        let bytes = request_bytes(alloc, &mut self.client, request)?;
        let sent = send(clock, until, &mut self.stream, bytes.as_slice());
        drop(bytes);
        sent?;
        let mut reply = Reply {
            status: 0,
            body: Vec::new(alloc),
        };
        match self.receive(clock, until, &mut reply) {
            Ok(()) => Ok(reply),
            Err(NoReply) => {
                drop(reply);
                Err(NoReply)
            }
        }
    }

    fn receive<C: Connect>(
        &mut self,
        clock: &C,
        until: u64,
        reply: &mut Reply,
    ) -> Result<(), NoReply> {
        for _ in 0..MOST_CALLS {
            let next = match self.step(reply) {
                Next::Read => self.fill(clock, until),
                next => next,
            };
            match next {
                Next::Step | Next::Read => {}
                Next::End => return Ok(()),
                Next::Stop => return Err(NoReply),
            }
        }
        Err(NoReply)
    }

    /// Reads once.
    fn fill<C: Connect>(&mut self, clock: &C, until: u64) -> Next {
        if clock.milliseconds() >= until || self.input.reserve(ROOM).is_err() {
            return Next::Stop;
        }
        match self.input.read_from(&mut self.stream) {
            Ok(0) => self.end(),
            Ok(_) => Next::Step,
            Err(error) if is_passing(&error) => Next::Step,
            Err(_) => Next::Stop,
        }
    }
}

/// Puts what an event has into the answer.
fn take_event(reply: &mut Reply, event: Event<ResponseSpans>, input: &[u8]) -> Next {
    match event {
        Event::NeedMore => Next::Read,
        Event::Informational(_) => Next::Step,
        Event::Head(head) => {
            reply.status = head.code;
            Next::Step
        }
        Event::Data(span) => match input.get(span.start..span.end) {
            Some(piece) => take_piece(reply, piece),
            None => Next::Stop,
        },
        Event::End(_) => Next::End,
        Event::Paused | Event::Upgraded | Event::Closed => Next::Stop,
    }
}

fn take_piece(reply: &mut Reply, piece: &[u8]) -> Next {
    if piece.len() > LONGEST || reply.body.len() > LONGEST - piece.len() {
        return Next::Stop;
    }
    match reply.body.extend_from_slice(piece) {
        Ok(()) => Next::Step,
        Err(_) => Next::Stop,
    }
}

/// A request that posts a body in JSON.
#[derive(Clone, Copy)]
pub(crate) struct Request<'a> {
    pub(crate) host: &'a str,
    pub(crate) path: &'a str,
    /// What a member has given to who has logged in.
    pub(crate) token: Option<&'a str>,
    pub(crate) body: &'a str,
}

/// The bytes of a request. They are made by the connection that is to read the answer, and checked by the text that they are to
/// be.
fn request_bytes(
    alloc: Global,
    client: &mut Client,
    request: &Request<'_>,
) -> Result<Vec<u8>, NoReply>
    ensures { IfOk result (λ bytes. bytes.items ≡ request_text request.now.host.now request.now.path.now (option_copied request.now.token) request.now.body.now) }
{
    let bytes = written(alloc, client, request)?;
    let Ok(text) = request_text(alloc, request) else {
        return Err(NoReply);
    };
    if bytes.as_slice() == text.as_bytes() {
        Ok(bytes)
    } else {
        Err(NoReply)
    }
}

/// What the connection writes for a request.
fn written(alloc: Global, client: &mut Client, request: &Request<'_>) -> Result<Vec<u8>, NoReply> {
    let mut bytes = Vec::new(alloc);
    match write(client, &mut bytes, request) {
        Ok(()) => Ok(bytes),
        Err(_) => {
            drop(bytes);
            Err(NoReply)
        }
    }
}

fn write(
    client: &mut Client,
    bytes: &mut Vec<u8>,
    request: &Request<'_>,
) -> Result<(), WriteError> {
    write_head(client, bytes, request)?;
    client.write_data(bytes, request.body.as_bytes())?;
    client.write_end(bytes, &[])
}

fn write_head(
    client: &mut Client,
    bytes: &mut Vec<u8>,
    request: &Request<'_>,
) -> Result<(), WriteError> {
    let host = Header {
        name: b"host",
        value: request.host.as_bytes(),
    };
    let content_type = Header {
        name: b"content-type",
        value: b"application/json",
    };
    let path = request.path.as_bytes();
    let size = BodySize::Known(request.body.len() as u64);
    match request.token {
        Some(token) => {
            let authorization = Header {
                name: b"authorization",
                value: token.as_bytes(),
            };
            let headers = [host, authorization, content_type];
            client.write_request(bytes, b"POST", path, &headers, size)
        }
        None => {
            let headers = [host, content_type];
            client.write_request(bytes, b"POST", path, &headers, size)
        }
    }
}

/// The text of a request. Fails only where memory runs out.
fn request_text(alloc: Global, request: &Request<'_>) -> Result<String, AllocError>
    ensures { IfOk result (λ text. string_bytes text ≡ request_text request.now.host.now request.now.path.now (option_copied request.now.token) request.now.body.now) }
{
    let line = token_line(alloc, request.token)?;
    let line = line.as_str();
    let host = request.host;
    let path = request.path;
    let body = request.body;
    let len = body.len();
    format!(in alloc;
        "POST {path} HTTP/1.1\r\nhost: {host}\r\n{line}content-type: application/json\r\ncontent-length: {len}\r\n\r\n{body}"
    )
}

/// The line by which who has logged in is known.
fn token_line(alloc: Global, token: Option<&str>) -> Result<String, AllocError>
    ensures { IfOk result (λ text. string_bytes text ≡ token_line (option_copied token.entry)) }
{
    match token {
        Some(token) => format!(in alloc; "authorization: {token}\r\n"),
        None => Ok(String::new(alloc)),
    }
}

/// Writes all of the bytes.
fn send<C: Connect, W: Write>(
    clock: &C,
    until: u64,
    writer: &mut W,
    bytes: &[u8],
) -> Result<(), NoReply>
    ensures ok { OnOk result (Appends (W.contents writer.old) (W.contents writer.new) bytes.now) }
    ensures err { OnErr result (AppendsPrefix (W.contents writer.old) (W.contents writer.new) bytes.now) }
{
    let mut rest = bytes;
    for _ in 0..MOST_CALLS {
        if rest.is_empty() {
            return Ok(());
        }
        if clock.milliseconds() >= until {
            return Err(NoReply);
        }
        let taken = write_some(writer, rest)?;
        rest = &rest[taken..];
    }
    Err(NoReply)
}

/// Writes some of the bytes; none where the writer is to be tried again.
fn write_some<W: Write>(writer: &mut W, bytes: &[u8]) -> Result<usize, NoReply>
    ensures bound { IfOk result (λ taken. taken ≤ length bytes.now) }
    ensures ok { IfOk result (λ taken. Appends (W.contents writer.old) (W.contents writer.new) (take taken bytes.now)) }
    ensures err { OnErr result (Keeps (W.contents writer.old) (W.contents writer.new)) }
{
    match writer.write(bytes) {
        Ok(0) => Err(NoReply),
        Ok(taken) => Ok(taken),
        Err(error) if is_passing(&error) => Ok(0),
        Err(_) => Err(NoReply),
    }
}

/// Whether a system call that has failed so may be tried again.
fn is_passing(error: &io::Error) -> bool {
    matches!(
        error.kind(),
        ErrorKind::Interrupted | ErrorKind::WouldBlock | ErrorKind::TimedOut
    )
}
