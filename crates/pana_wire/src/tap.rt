ghost use Rattle.std.specs.Prelude.{◌≡◌, ◌++◌, ◌||◌, is_err};
ghost use Rattle.std.specs.Io.{ReadsAtMost, WritesAtMost};
ghost use Rattle.std.specs.Io.KnownBytes.{ReadConsumes, WriteAppends, Keeps};

use boxcar::tag::{Names, Tag};
use pana_calls::Session;
use std::io;
use std::io::{Read, Write};

/// A reader or a writer, whether a call on it has failed, and whether it has ended.
///
/// It counts its reads, which no program asks for: by that count a contract says how often it was read. And it notes each
/// byte that a writer took, and at which moment of the session: these notes are for contracts alone, and take no memory.
#[derive(Drop)]
pub struct Tap<T> {
    inner: T,
    failed: bool,
    ended: bool,
    reads: u64,
    flushed: bool,
    notes: Tag,
    asks: Tag,
}

// Bytes that a writer took in a session, and what was noted before.
#[derive(Drop)]
struct Taken<'a, S> {
    notes: &'a Tag,
    session: &'a S,
    bytes: &'a [u8],
}

// The notes with these bytes, each at the moment of the session.
struct More;

impl<'a, S: Session> Names<Taken<'a, S>> for More {
    ghost use Rattle.pana_wire.specs.Tap.{note_all};

    ghost numbers = { λ taken. note_all (S.moment taken.session.now) taken.bytes.now taken.notes.now.numbers };
}

// A read of a reader, and what was asked of it before.
#[derive(Drop)]
struct Asked<'a, W> {
    asks: &'a Tag,
    writer: &'a Tap<W>,
    gave: usize,
}

// The reads with this one.
struct OneMore;

impl<'a, W> Names<Asked<'a, W>> for OneMore {
    ghost use Rattle.std.specs.Prelude.{length};
    ghost use Rattle.pana_wire.specs.Tap.{ask_more, is_flushed, noted};

    ghost numbers = { λ it. ask_more it.asks.now.numbers it.gave (length (noted it.writer.now)) (is_flushed it.writer.now) };
}

impl<T> Tap<T> {
    ghost use Rattle.pana_wire.specs.Tap.{inside, has_failed, has_ended, IsUnused};

    /// A tap that wraps this reader or writer. Takes no memory.
    pub fn new(inner: T) -> Tap<T>
        ensures inside { inside result ≡ inner }
        ensures unused { IsUnused result }
    {
        Tap {
            inner,
            failed: false,
            ended: false,
            reads: 0,
            flushed: true,
            notes: Tag::empty(),
            asks: Tag::empty(),
        }
    }

    /// What the tap wraps. Takes no memory.
    pub fn into_inner(self) -> T
        ensures { result ≡ inside self }
    {
        let Tap {
            inner,
            failed: _,
            ended: _,
            reads: _,
            flushed: _,
            notes: _,
            asks: _,
        } = self;
        inner
    }

    /// Whether a call through the tap has failed, or a write took none of some bytes. Takes no memory.
    pub fn has_failed(&self) -> bool
        ensures { result ≡ has_failed self.now }
    {
        let Tap { failed, .. } = self;
        *failed
    }

    /// Whether a read through the tap met the end: with room for a byte it gave none. Takes no memory.
    pub fn has_ended(&self) -> bool
        ensures { result ≡ has_ended self.now }
    {
        let Tap { ended, .. } = self;
        *ended
    }
}

impl<W> Tap<W> {
    ghost use Rattle.pana_wire.specs.Tap.{inside, has_failed, is_flushed, noted, noted_at, IsUnread};

    #[tactic(auto, using(crate::proofs::Notes::notes_more))]
    fn note<S: Session>(&mut self, session: &S, bytes: &[u8])
        ensures inside { inside self.new ≡ inside self.old }
        ensures failed { has_failed self.new ≡ has_failed self.old }
        ensures flushed { is_flushed self.new ≡ is_flushed self.old }
        ensures unread { IsUnread self.old self.new }
        ensures noted { noted self.new ≡ noted self.old ++ noted_at (S.moment session.now) bytes.now }
    {
        let taken = Taken {
            notes: &self.notes,
            session,
            bytes,
        };
        self.notes = Tag::of::<Taken<S>, More>(&taken);
    }
}

impl<R: Read> Tap<R> {
    ghost use Rattle.std.specs.Prelude.{length, [], ◌∷◌};
    ghost use Rattle.pana_wire.specs.Tap.{inside, has_failed, has_ended, is_flushed, noted, asked, given, read_none, MadeReads};

    /// Reads into the buffer, as the reader does.
    pub fn read(&mut self, buffer: &mut [u8]) -> io::Result<usize>
        ensures bound { ReadsAtMost result buffer.new }
        ensures bytes { ReadConsumes (R.remaining (inside self.old)) (R.remaining (inside self.new)) result buffer.new }
        ensures failed { has_failed self.new ≡ (has_failed self.old || is_err result) }
        ensures ended { has_ended self.new ≡ (has_ended self.old || read_none result buffer.new) }
        ensures count { MadeReads 1 self.old self.new }
        ensures noted { noted self.new ≡ noted self.old }
        ensures asked { asked self.new ≡ asked self.old }
    {
        self.reads = self.reads.saturating_add(1);
        let result = self.inner.read(buffer);
        match &result {
            Ok(0) if !buffer.is_empty() => self.ended = true,
            Ok(_) => {}
            Err(_) => self.failed = true,
        }
        result
    }

    /// Reads so, and notes how far the writer has come.
    pub fn read_behind<W>(&mut self, writer: &Tap<W>, buffer: &mut [u8]) -> io::Result<usize>
        ensures bound { ReadsAtMost result buffer.new }
        ensures bytes { ReadConsumes (R.remaining (inside self.old)) (R.remaining (inside self.new)) result buffer.new }
        ensures failed { has_failed self.new ≡ (has_failed self.old || is_err result) }
        ensures ended { has_ended self.new ≡ (has_ended self.old || read_none result buffer.new) }
        ensures count { MadeReads 1 self.old self.new }
        ensures noted { noted self.new ≡ noted self.old }
        ensures asked { asked self.new ≡ asked self.old ++ record { gave = given result; written = length (noted writer.now); flushed = is_flushed writer.now } ∷ [] }
    {
        let result = self.read(buffer);
        let asked = Asked {
            asks: &self.asks,
            writer,
            gave: *result.as_ref().unwrap_or(&0),
        };
        self.asks = Tag::of::<Asked<W>, OneMore>(&asked);
        result
    }
}

impl<W: Write> Tap<W> {
    ghost use Rattle.std.specs.Prelude.{◌==◌, ◌&&◌, length, true, OnOk};
    ghost use Rattle.pana_wire.specs.Tap.{inside, has_failed, is_flushed, noted, noted_at, bytes_taken, write_failed, IsUnread};

    /// Writes some of the bytes, as the writer does, and notes those that it took at the session's moment.
    pub fn write<S: Session>(&mut self, session: &S, bytes: &[u8]) -> io::Result<usize>
        ensures bound { WritesAtMost result bytes.now }
        ensures bytes { WriteAppends (W.contents (inside self.old)) (W.contents (inside self.new)) result bytes.now }
        ensures failed { has_failed self.new ≡ (has_failed self.old || write_failed result bytes.now) }
        ensures flushed { is_flushed self.new ≡ (is_flushed self.old && (length (bytes_taken result bytes.now) == 0)) }
        ensures unread { IsUnread self.old self.new }
        ensures noted { noted self.new ≡ noted self.old ++ noted_at (S.moment session.now) (bytes_taken result bytes.now) }
    {
        let result = self.inner.write(bytes);
        match &result {
            Ok(0) if !bytes.is_empty() => self.failed = true,
            Ok(taken) => {
                self.flushed = self.flushed && *taken == 0;
                self.note(session, &bytes[..*taken])
            }
            Err(_) => self.failed = true,
        }
        result
    }

    /// Flushes the writer.
    pub fn flush(&mut self) -> io::Result<()>
        ensures bytes { Keeps (W.contents (inside self.old)) (W.contents (inside self.new)) }
        ensures failed { has_failed self.new ≡ (has_failed self.old || is_err result) }
        ensures flushed { OnOk result (is_flushed self.new ≡ true) }
        ensures unread { IsUnread self.old self.new }
        ensures noted { noted self.new ≡ noted self.old }
    {
        let result = self.inner.flush();
        match &result {
            Ok(()) => self.flushed = true,
            Err(_) => self.failed = true,
        }
        result
    }
}
