//! A reader round a socket that anything on this machine may have opened, a web page too.
ghost use Rattle.std.specs.Prelude.{◌≡◌, ◌≤◌, length, take};
ghost use Rattle.std.specs.Io.{ReadsAtMost};
ghost use Rattle.std.specs.Io.KnownBytes.{ReadConsumes};
ghost use Rattle.pana_daemon.specs.Objects.{given_of, is_blank, opening_of};

use std::io;
use std::io::{Error, ErrorKind, Read};

/// What the first bytes of a stream have shown.
#[derive(Clone, Copy)]
pub(crate) enum Opening {
    /// Nothing yet: there are blanks alone.
    Blank,
    /// The first other byte is `{`.
    Object,
    /// It is another one.
    Other,
}

fn is_blank(byte: u8) -> bool
    ensures { result ≡ is_blank byte }
{
    byte == b'\t' || byte == b'\r' || byte == b' '
}

/// What bytes show, and how many of them are given.
fn look_at(bytes: &[u8]) -> (Opening, usize)
    ensures opening { result.0 ≡ opening_of bytes.now }
    ensures given { take result.1 bytes.now ≡ given_of bytes.now }
    ensures within { result.1 ≤ length bytes.now }
{
    for (at, byte) in bytes.iter().enumerate() {
        if *byte == b'{' {
            return (Opening::Object, bytes.len());
        }
        if !is_blank(*byte) {
            return (Opening::Other, at);
        }
    }
    (Opening::Blank, bytes.len())
}

/// A reader that gives the bytes of a stream whose first byte that isn't a blank is `{`. Of any other stream it gives the
/// blanks that it begins with, and then each read fails.
#[derive(Drop)]
pub(crate) struct ObjectReader<R> {
    inner: R,
    opening: Opening,
}

impl<R> ObjectReader<R> {
    /// The reader round this one, before its first byte.
    pub(crate) fn new(inner: R) -> ObjectReader<R>
        ensures { result ≡ record { inner = inner; opening = Opening.Blank } }
    {
        ObjectReader {
            inner,
            opening: Opening::Blank,
        }
    }
}

impl<R: Read> ObjectReader<R> {
    ghost use Rattle.pana_daemon.specs.Objects.{left_of};

    /// Reads bytes behind blanks alone, and gives those that a session may have.
    fn read_opening(&mut self, buffer: &mut [u8]) -> io::Result<usize>
        requires { self.old.opening ≡ Opening.Blank }
        ensures bound { ReadsAtMost result buffer.new }
        ensures bytes { ReadConsumes (left_of self.old.opening (R.remaining self.old.inner)) (left_of self.new.opening (R.remaining self.new.inner)) result buffer.new }
    {
        let count = self.inner.read(buffer)?;
        let (opening, given) = look_at(&buffer[..count]);
        self.opening = opening;
        if matches!(opening, Opening::Other) && given == 0 {
            return Err(Error::from(ErrorKind::InvalidData));
        }
        Ok(given)
    }
}

impl<R: Read> Read for ObjectReader<R> {
    ghost use Rattle.pana_daemon.specs.Objects.{left_of};

    ghost remaining = { λ reader. left_of reader.opening (R.remaining reader.inner) };

    fn read(&mut self, buffer: &mut [u8]) -> io::Result<usize> {
        match self.opening {
            Opening::Blank => self.read_opening(buffer),
            Opening::Object => self.inner.read(buffer),
            Opening::Other => Err(Error::from(ErrorKind::InvalidData)),
        }
    }
}
