//! A session's bytes, one by one: that each answer is flushed is said by no clause.

use pana_calls::{Answer, Call, NoAnswer, Reply, Session};
use pana_copies::DeviceName;
use pana_wire::{Served, Tap, serve};
use std::alloc::{AllocError, Global};
use std::io;
use std::io::{Read, Write};
use std::test::Fail;

/// A session that numbers its calls, and has only so many of them.
#[derive(Drop)]
pub(crate) struct Numbering {
    pub(crate) made: u64,
    pub(crate) most: u64,
}

impl Session for Numbering {
    ghost use Rattle.std.specs.Prelude.{◌≡◌, ◌+◌};

    ghost step = { λ old by call answer new. new.made ≡ old.made + 1 };

    ghost fails = { λ old calls new. new ≡ old };

    fn call(&mut self, _by: &DeviceName, _call: Call) -> Result<Answer, NoAnswer> {
        if self.made >= self.most {
            return Err(NoAnswer);
        }
        self.made += 1;
        Ok(Answer::Given(Reply::Done { entry: self.made }))
    }

    fn settle(&mut self) -> Result<(), NoAnswer> {
        Ok(())
    }
}

/// A reader that gives one byte at a time.
#[derive(Drop)]
struct Dripping<'a>(&'a [u8]);

impl Read for Dripping<'_> {
    fn read(&mut self, buffer: &mut [u8]) -> io::Result<usize> {
        let Some((first, others)) = self.0.split_first() else {
            return Ok(0);
        };
        if buffer.is_empty() {
            return Ok(0);
        }
        buffer[0] = *first;
        self.0 = others;
        Ok(1)
    }
}

/// A writer that takes one byte at a time, and counts its flushes.
#[derive(Drop)]
struct Narrow {
    bytes: Vec<u8>,
    flushes: usize,
}

impl Write for Narrow {
    fn write(&mut self, bytes: &[u8]) -> io::Result<usize> {
        if bytes.is_empty() {
            return Ok(0);
        }
        self.bytes.push(bytes[0])?;
        Ok(1)
    }

    fn flush(&mut self) -> io::Result<()> {
        self.flushes = self.flushes.saturating_add(1);
        Ok(())
    }
}

/// A line with each fault, and then a message without a newline.
fn faulty_lines(alloc: Global) -> Result<Vec<u8>, AllocError> {
    let mut input = vec![in alloc; b'x'; 65537]?;
    input.extend_from_slice(
        b"\n\n[1]\n{\"by\":\"A\",\"do\":\"x\"}\n{\"by\":\"a\",\"do\":\"edit\"}\n{\"by\":\"a\",\"do\":\"edit\",\"copy\":1}",
    )?;
    Ok(input)
}

const ANSWERS: &str =
    "{\"fault\":\"TooLong\"}\n{\"fault\":\"NotJson\"}\n{\"fault\":\"NotObject\"}\n{\"fault\":\"BadField\",\"field\":\"by\"}\n{\"fault\":\"BadField\",\"field\":\"copy\"}\n{\"done\":1}\n";

#[test]
fn bytes_one_by_one_are_lines(rt: HostRuntime) -> Result<(), Fail> {
    let alloc = rt.alloc();
    let input = faulty_lines(alloc)?;
    let mut session = Numbering { made: 0, most: 9 };
    let mut reader = Tap::new(Dripping(input.as_slice()));
    let mut writer = Tap::new(Narrow {
        bytes: Vec::new(alloc),
        flushes: 0,
    });
    let served = serve(alloc, &mut reader, &mut writer, &mut session, 100_000);
    assert_eq!(rt; served, Ok(Served { lines: 6, calls: 1 }));
    assert!(rt; reader.has_ended() && !reader.has_failed() && !writer.has_failed());
    let Narrow { bytes, flushes } = writer.into_inner();
    assert_eq!(rt; bytes.as_slice(), ANSWERS.as_bytes());
    assert_eq!(rt; flushes, 6);
    Ok(())
}
