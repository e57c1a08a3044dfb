//! Lines of calls, as they are written, and lines of answers, as they are read.
ghost use Rattle.std.specs.Prelude.{◌≡◌, ◌≤◌, length, take, IfOk, OnOk, OnErr, string_bytes};
ghost use Rattle.std.specs.Io.KnownBytes.{Appends, Keeps};
ghost use Rattle.pana_wire.specs.Tap.{AppendsPrefix};
ghost use Rattle.pana_client.specs.Line.{IsSent, MayBegin, ReadsAnswer, ReadsLine, ReadsPart, WritesCall};

use crate::answer_reading::read_answer;
use crate::call_writing::call_line;
use pana_calls::{Answer, Call, NoAnswer};
use pana_copies::DeviceName;
use std::alloc::Global;
use std::io::{BufRead, ErrorKind, Write};

/// How many writes a line may take.
const MOST_WRITES: u64 = 1 << 32;

/// Writes the line of a call, and its newline.
///
/// # Errors
///
/// `NoAnswer` where memory runs out for the line, and nothing is written; where the writer fails, and a prefix is.
pub(crate) fn write_call<W: Write>(
    alloc: Global,
    writer: &mut W,
    by: &DeviceName,
    call: &Call,
) -> Result<(), NoAnswer>
    ensures ok { OnOk result (WritesCall by.now call.now (W.contents writer.old) (W.contents writer.new)) }
    ensures err { OnErr result (MayBegin by.now call.now (W.contents writer.old) (W.contents writer.new)) }
{
    let line = sent_line(alloc, by, call)?;
    send(writer, line.as_bytes())
}

/// The line of a call with its newline.
fn sent_line(alloc: Global, by: &DeviceName, call: &Call) -> Result<String, NoAnswer>
    ensures { IfOk result (λ line. IsSent by.now call.now (string_bytes line)) }
{
    let Ok(mut line) = call_line(alloc, by, call) else {
        return Err(NoAnswer);
    };
    match line.push('\n') {
        Ok(()) => Ok(line),
        Err(_) => Err(NoAnswer),
    }
}

/// Writes all of the bytes, and flushes the writer.
fn send<W: Write>(writer: &mut W, bytes: &[u8]) -> Result<(), NoAnswer>
    ensures ok { OnOk result (Appends (W.contents writer.old) (W.contents writer.new) bytes.now) }
    ensures err { OnErr result (AppendsPrefix (W.contents writer.old) (W.contents writer.new) bytes.now) }
{
    write_whole(writer, bytes)?;
    match writer.flush() {
        Ok(()) => Ok(()),
        Err(_) => Err(NoAnswer),
    }
}

fn write_whole<W: Write>(writer: &mut W, bytes: &[u8]) -> Result<(), NoAnswer>
    ensures ok { OnOk result (Appends (W.contents writer.old) (W.contents writer.new) bytes.now) }
    ensures err { OnErr result (AppendsPrefix (W.contents writer.old) (W.contents writer.new) bytes.now) }
{
    let mut rest = bytes;
    for _ in 0..MOST_WRITES {
        if rest.is_empty() {
            return Ok(());
        }
        let taken = write_some(writer, rest)?;
        rest = &rest[taken..];
    }
    Err(NoAnswer)
}

/// Writes some of the bytes; none where the write was interrupted.
fn write_some<W: Write>(writer: &mut W, bytes: &[u8]) -> Result<usize, NoAnswer>
    ensures bound { IfOk result (λ taken. taken ≤ length bytes.now) }
    ensures ok { IfOk result (λ taken. Appends (W.contents writer.old) (W.contents writer.new) (take taken bytes.now)) }
    ensures err { OnErr result (Keeps (W.contents writer.old) (W.contents writer.new)) }
{
    match writer.write(bytes) {
        Ok(0) => Err(NoAnswer),
        Ok(taken) => Ok(taken),
        Err(error) if error.kind() == ErrorKind::Interrupted => Ok(0),
        Err(_) => Err(NoAnswer),
    }
}

/// Reads the line of an answer, and its newline.
///
/// # Errors
///
/// `NoAnswer` where no line is read, where it is the text of no answer, and where memory runs out. No more than one line is
/// read then, either.
pub(crate) fn read_reply<R: BufRead>(alloc: Global, reader: &mut R) -> Result<Answer, NoAnswer>
    ensures ok { IfOk result (λ answer. ReadsAnswer answer (R.remaining reader.old) (R.remaining reader.new)) }
    ensures part { ReadsPart (R.remaining reader.old) (R.remaining reader.new) }
{
    let line = read_line(alloc, reader)?;
    match read_answer(alloc, line.as_slice()) {
        Ok(answer) => Ok(answer),
        Err(_) => Err(NoAnswer),
    }
}

/// Reads a line and its newline, and returns the line without it.
fn read_line<R: BufRead>(alloc: Global, reader: &mut R) -> Result<Vec<u8>, NoAnswer>
    ensures ok { IfOk result (λ line. ReadsLine line.items (R.remaining reader.old) (R.remaining reader.new)) }
    ensures part { ReadsPart (R.remaining reader.old) (R.remaining reader.new) }
{
    let mut line = Vec::new(alloc);
    if reader.read_until(b'\n', &mut line).is_err() {
        return Err(NoAnswer);
    }
    match line.pop() {
        Some(b'\n') => Ok(line),
        _ => Err(NoAnswer),
    }
}
