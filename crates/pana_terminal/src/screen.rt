ghost use Rattle.std.specs.Prelude.{◌≡◌, OnOk};
ghost use Rattle.std.specs.Io.{WritesAtMost};
ghost use Rattle.std.specs.Io.KnownBytes.{Appends};
ghost use Rattle.pana_terminal.specs.Shown.{shown};

use crate::showing::shown;
use std::alloc::Global;
use std::io::{self, Error, ErrorKind, Write};
use std::str;

/// A writer, and whether it leads to a terminal, which gets each text that is written as `shown` returns it. Elsewhere go
/// the bytes as they are.
#[derive(Drop)]
pub struct Screen<W> {
    alloc: Global,
    inner: W,
    is_terminal: bool,
}

impl<W: Write> Screen<W> {
    /// The writer as it is. Takes no memory.
    pub fn new(alloc: Global, inner: W, is_terminal: bool) -> Screen<W>
        ensures inner { result.inner ≡ inner }
        ensures is_terminal { result.is_terminal ≡ is_terminal }
    {
        Screen {
            alloc,
            inner,
            is_terminal,
        }
    }

    /// Writes a whole text as it is shown, and returns the text's own length.
    fn show(&mut self, text: &[u8]) -> io::Result<usize>
        ensures bound { WritesAtMost result text.now }
        ensures shown { OnOk result (Appends (W.contents self.old.inner) (W.contents self.new.inner) (shown text.now)) }
        ensures same { self.new.is_terminal ≡ self.old.is_terminal }
    {
        let Ok(chars) = str::from_utf8(text) else {
            return Err(Error::from(ErrorKind::InvalidData));
        };
        let safe = shown(self.alloc, chars)?;
        self.inner.write_all(safe.as_bytes())?;
        Ok(text.len())
    }
}

impl<W: Write> Write for Screen<W> {
    ghost use Rattle.std.specs.Prelude.{None, if◌then◌else◌};

    ghost contents = { λ screen. if screen.is_terminal then None else W.contents screen.inner };

    fn write(&mut self, text: &[u8]) -> io::Result<usize> {
        if self.is_terminal {
            self.show(text)
        } else {
            self.inner.write(text)
        }
    }

    fn flush(&mut self) -> io::Result<()> {
        self.inner.flush()
    }
}
