ghost use Rattle.std.specs.Prelude.{◌≡◌, ◌+◌, ◌^◌, ◌<◌, ◌≤◌, ◌⊎◌, List, ℕ, [], ◌∷◌, ◌++◌, length, false, true, IfOk, IfErr, OnOk};
ghost use Rattle.pana_calls.specs.Session.{one};
ghost use Rattle.pana_calls.specs.declared.answer.Answer.{Answer};
ghost use Rattle.pana_wire.specs.Answer.{answer_text};
ghost use Rattle.pana_wire.specs.Tap.{has_failed, is_flushed, MadeAtMost};
ghost use Rattle.pana_wire.specs.Groups.{ServesGroups, StopsGroups};
ghost use Rattle.pana_wire.specs.Lines.{ended, unended, last_line};
ghost use Rattle.pana_wire.specs.Session.{Serves, Stops, NeverBegins};
ghost use Rattle.pana_wire.specs.Timely.{IsSettledAlways, IsTimely};
ghost use Rattle.pana_wire.specs.inner.Progress.{Advances, BreaksNext, Holds, IsHeldOf, IsLost, IsOutFault, Puts, Releases, both};

use crate::answer_buffer::AnswerBuffer;
use crate::cutting::end_of_line;
use crate::flushing::{write_line, write_out, write_whole};
use crate::line_buffer::{LineBuffer, first_bytes};
use crate::reading::LineReader;
use crate::tap::Tap;
use crate::together::take_ended;
use crate::writing::encode_answer_in;
use pana_calls::{Call, Message, Session};
use pana_copies::DeviceName;
use std::alloc::{AllocError, Global};
use std::error::Error;
use std::fmt;
use std::io::{Read, Write};

/// How many bytes are read at a time.
const PIECE: usize = 65536;

/// How many lines were answered, and how many calls that took.
#[derive(Clone, Copy, Debug, PartialEq, Eq)]
pub struct Served {
    pub lines: u64,
    pub calls: u64,
}

/// Why a session ended before its input did.
#[derive(Clone, Copy, Debug, PartialEq, Eq)]
pub enum ServeFault {
    /// A read failed.
    Read,
    /// A write failed, or took none of some bytes.
    Write,
    /// An allocation failed: of what serving takes at its start, or of the answer to a call that was made.
    OutOfMemory,
    /// A call has no answer, or those that were made can't be kept.
    NoAnswer,
    /// All the reads that were allowed were made, and the input didn't end.
    Turns,
}

impl fmt::Display for ServeFault {
    ghost use Rattle.std.specs.Prelude.{Some};
    ghost use Rattle.pana_wire.specs.Shown.{shown_stop};

    ghost output = { λ fault. Some (shown_stop fault) };

    fn fmt<W: fmt::Write>(&self, f: &mut fmt::Formatter<W>) -> fmt::Result {
        f.write_str(match self {
            ServeFault::Read => "read failed",
            ServeFault::Write => "write failed",
            ServeFault::OutOfMemory => "out of memory",
            ServeFault::NoAnswer => "no answer",
            ServeFault::Turns => "too many reads",
        })
    }
}

impl Error for ServeFault {}

impl Served {
    /// No line yet.
    pub(crate) const NOTHING: Served = Served { lines: 0, calls: 0 };

    pub(crate) fn and(self, more: Served) -> Served
        requires lines { self.lines + more.lines < 2 ^ 64 }
        requires calls { self.calls + more.calls < 2 ^ 64 }
        ensures { result ≡ both self more }
    {
        Served {
            lines: self.lines + more.lines,
            calls: self.calls + more.calls,
        }
    }
}

/// Answers each line of the reader by a line to the writer, until the reader's end, on a session that settles.
///
/// A line with a fault is answered with its fault, and makes no call. Every other line makes one call, and is
/// answered with its answer's text; where memory runs out before the call, the line's fault is `OutOfMemory`. The lines that
/// have come together are answered together: their calls are made, the session settles, and only then their answers are
/// written and flushed, before the next read. Where the answers to more than 65,536 bytes have been made, they are settled and
/// written at once.
///
/// # Errors
///
/// `OutOfMemory` where what serving takes can't be allocated, before the first read, or where the answer to a call that
/// was made can't; `Read` where a read failed; `Write` where a write failed or took none of some bytes; `NoAnswer` where
/// a call has none, or where the session couldn't settle; `Turns` after this many reads without the end. What was written is
/// then a prefix of the answers to the lines that came, and no byte of an answer whose call wasn't settled; further calls of
/// these lines may have been made. On a session that keeps calls together (`Session::keeps_together`) the calls of up to 100 lines
/// that have come together are made by one `call_all`, so of several of them it may not be known whether they were made.
///
/// A tap that had ended before may be lent too: it is read again, and of `Read` and `Turns` it isn't known then
/// whether the end was met anew.
///
/// It takes 196,609 bytes at the start, then as many as the longest line and the longest answer have, and for each line no more than
/// `decode`, the call and `encode` do, which is given back before the next line; or, where calls are made together, for up to 100
/// lines. O(n) in the bytes that are read, besides these.
pub fn serve_groups<R: Read, W: Write, S: Session>(
    alloc: Global,
    reader: &mut Tap<R>,
    writer: &mut Tap<W>,
    session: &mut S,
    reads: u64,
) -> Result<Served, ServeFault>
    requires reader { has_failed reader.old ≡ false }
    requires writer { has_failed writer.old ≡ false }
    requires reads { reads ≤ 2 ^ 40 }
    ensures ok { IfOk result (ServesGroups R.remaining W.contents S.step S.settles S.moment
        reader.old reader.new writer.old writer.new session.old session.new) }
    ensures fault { IfErr result (λ fault.
        NeverBegins reader.old reader.new writer.old writer.new session.old session.new fault
        ⊎ StopsGroups R.remaining W.contents S.step S.keeps_together S.fails S.settles S.breaks_off S.moment reads
        reader.old reader.new writer.old writer.new session.old session.new fault) }
    ensures reads { MadeAtMost reads reader.old reader.new }
    ensures flushed { OnOk result (is_flushed writer.old ≡ true → is_flushed writer.new ≡ true) }
{
    let Ok(buffers) = Buffers::new(alloc) else {
        return Err(ServeFault::OutOfMemory);
    };
    let Buffers {
        mut piece,
        mut line,
        mut answers,
    } = buffers;
    let piece = piece.as_mut_slice();
    serve_lines(
        &mut LineReader::new(alloc),
        &mut answers,
        reader,
        writer,
        session,
        piece,
        &mut line,
        reads,
    )
}

/// Serves as `serve_groups` does, on a session each of whose calls is settled once it is made, so that to settle does nothing.
pub fn serve<R: Read, W: Write, S: Session>(
    alloc: Global,
    reader: &mut Tap<R>,
    writer: &mut Tap<W>,
    session: &mut S,
    reads: u64,
) -> Result<Served, ServeFault>
    requires reader { has_failed reader.old ≡ false }
    requires writer { has_failed writer.old ≡ false }
    requires reads { reads ≤ 2 ^ 40 }
    requires settled { IsSettledAlways S.settles S.breaks_off }
    ensures ok { IfOk result (Serves R.remaining W.contents S.step
        reader.old reader.new writer.old writer.new session.old session.new) }
    ensures fault { IfErr result (λ fault.
        NeverBegins reader.old reader.new writer.old writer.new session.old session.new fault
        ⊎ Stops R.remaining W.contents S.step S.keeps_together S.fails reads
        reader.old reader.new writer.old writer.new session.old session.new fault) }
    ensures reads { MadeAtMost reads reader.old reader.new }
    ensures timely { IsTimely W.contents S.step S.keeps_together S.fails S.moment writer.old writer.new session.old session.new }
{
    serve_groups(alloc, reader, writer, session, reads)
}

/// What serving takes at its start.
#[derive(Drop)]
struct Buffers {
    piece: Vec<u8>,
    line: LineBuffer,
    answers: AnswerBuffer,
}

impl Buffers {
    fn new(alloc: Global) -> Result<Buffers, AllocError>
        ensures piece { IfOk result (λ buffers. length buffers.piece.items ≡ 65536) }
        ensures line { IfOk result (λ buffers. buffers.line ≡ []) }
        ensures answers { IfOk result (λ buffers. buffers.answers ≡ []) }
    {
        let piece = vec![in alloc; 0; PIECE]?;
        let line = LineBuffer::new(alloc)?;
        let answers = AnswerBuffer::new(alloc)?;
        Ok(Buffers {
            piece,
            line,
            answers,
        })
    }
}

fn serve_lines<R: Read, W: Write, S: Session>(
    lines: &mut LineReader,
    answers: &mut AnswerBuffer,
    reader: &mut Tap<R>,
    writer: &mut Tap<W>,
    session: &mut S,
    piece: &mut [u8],
    held: &mut LineBuffer,
    reads: u64,
) -> Result<Served, ServeFault>
    requires reader { has_failed reader.old ≡ false }
    requires writer { has_failed writer.old ≡ false }
    requires piece { length piece.old ≡ 65536 }
    requires held { held.old ≡ [] }
    requires answers { answers.old ≡ [] }
    requires reads { reads ≤ 2 ^ 40 }
    ensures ok { IfOk result (ServesGroups R.remaining W.contents S.step S.settles S.moment
        reader.old reader.new writer.old writer.new session.old session.new) }
    ensures fault { IfErr result (StopsGroups R.remaining W.contents S.step S.keeps_together S.fails S.settles S.breaks_off S.moment reads
        reader.old reader.new writer.old writer.new session.old session.new) }
    ensures reads { MadeAtMost reads reader.old reader.new }
    ensures flushed { OnOk result (is_flushed writer.old ≡ true → is_flushed writer.new ≡ true) }
{
    let mut served = Served::NOTHING;
    for _ in 0..reads {
        match reader.read_behind(writer, piece) {
            Err(_) => return Err(ServeFault::Read),
            Ok(0) => {
                let last = finish(lines, answers, writer, session, held)?;
                return Ok(served.and(last));
            }
            Ok(length) => {
                let more = take_piece(lines, answers, writer, session, held, &piece[..length])?;
                served = served.and(more);
            }
        }
    }
    Err(ServeFault::Turns)
}

/// Answers the lines that end in the piece. All that was held is written then.
fn take_piece<W: Write, S: Session>(
    lines: &mut LineReader,
    answers: &mut AnswerBuffer,
    writer: &mut Tap<W>,
    session: &mut S,
    held: &mut LineBuffer,
    piece: &[u8],
) -> Result<Served, ServeFault>
    requires { has_failed writer.old ≡ false }
    ensures ok { IfOk result (λ served. (begun : List ℕ) → IsHeldOf held.old begun → Advances W.contents S.step S.keeps_together S.fails S.settles S.breaks_off S.moment
        writer.old writer.new session.old session.new answers.old [] (ended begun piece.now) served.calls) }
    ensures fault { IfErr result (λ fault. (begun : List ℕ) → IsHeldOf held.old begun → BreaksNext W.contents S.step S.keeps_together S.fails S.settles S.breaks_off S.moment
        writer.old writer.new session.old session.new answers.old (ended begun piece.now) fault) }
    ensures held { OnOk result ((begun : List ℕ) → IsHeldOf held.old begun → IsHeldOf held.new (unended begun piece.now)) }
    ensures lines { IfOk result (λ served. (begun : List ℕ) → served.lines ≡ length (ended begun piece.now)) }
    ensures few { IfOk result (λ served. (served.calls ≤ served.lines) × (served.lines ≤ length piece.now)) }
    ensures works { OnOk result (has_failed writer.new ≡ false) }
    ensures flushed { OnOk result (is_flushed writer.old ≡ true → is_flushed writer.new ≡ true) }
    ensures empty { OnOk result (answers.new ≡ []) }
    ensures out { IfErr result (IsOutFault (has_failed writer.new)) }
{
    let served = take_ended(lines, answers, writer, session, held, piece)?;
    send(answers, writer, session)?;
    Ok(served)
}

/// Makes the calls of the lines that end in the piece.
pub(crate) fn take_lines<W: Write, S: Session>(
    lines: &mut LineReader,
    answers: &mut AnswerBuffer,
    writer: &mut Tap<W>,
    session: &mut S,
    held: &mut LineBuffer,
    piece: &[u8],
) -> Result<Served, ServeFault>
    requires { has_failed writer.old ≡ false }
    ensures ok { IfOk result (λ served. (begun : List ℕ) → IsHeldOf held.old begun → Advances W.contents S.step S.keeps_together S.fails S.settles S.breaks_off S.moment
        writer.old writer.new session.old session.new answers.old answers.new (ended begun piece.now) served.calls) }
    ensures fault { IfErr result (λ fault. (begun : List ℕ) → IsHeldOf held.old begun → BreaksNext W.contents S.step S.keeps_together S.fails S.settles S.breaks_off S.moment
        writer.old writer.new session.old session.new answers.old (ended begun piece.now) fault) }
    ensures held { OnOk result ((begun : List ℕ) → IsHeldOf held.old begun → IsHeldOf held.new (unended begun piece.now)) }
    ensures lines { IfOk result (λ served. (begun : List ℕ) → served.lines ≡ length (ended begun piece.now)) }
    ensures few { IfOk result (λ served. (served.calls ≤ served.lines) × (served.lines ≤ length piece.now)) }
    ensures works { OnOk result (has_failed writer.new ≡ false) }
    ensures flushed { OnOk result (is_flushed writer.old ≡ true → is_flushed writer.new ≡ true) }
    ensures out { IfErr result (IsOutFault (has_failed writer.new)) }
{
    let mut served = Served::NOTHING;
    let mut rest = piece;
    while let Some(end) = end_of_line(rest) {
        let answered = take_line(lines, answers, writer, session, held, &rest[..end])?;
        served = served.and(answered);
        rest = &rest[end + 1..];
    }
    held.extend(rest);
    Ok(served)
}

/// Makes the call of the line that ends with these bytes, behind those that are held.
pub(crate) fn take_line<W: Write, S: Session>(
    lines: &mut LineReader,
    answers: &mut AnswerBuffer,
    writer: &mut Tap<W>,
    session: &mut S,
    held: &mut LineBuffer,
    last: &[u8],
) -> Result<Served, ServeFault>
    requires { has_failed writer.old ≡ false }
    ensures ok { IfOk result (λ served. (begun : List ℕ) → IsHeldOf held.old begun → Advances W.contents S.step S.keeps_together S.fails S.settles S.breaks_off S.moment
        writer.old writer.new session.old session.new answers.old answers.new ((begun ++ last.now) ∷ []) served.calls) }
    ensures fault { IfErr result (λ fault. (begun : List ℕ) → IsHeldOf held.old begun → BreaksNext W.contents S.step S.keeps_together S.fails S.settles S.breaks_off S.moment
        writer.old writer.new session.old session.new answers.old ((begun ++ last.now) ∷ []) fault) }
    ensures held { OnOk result (held.new ≡ []) }
    ensures few { IfOk result (λ served. (served.calls ≤ 1) × (served.lines ≡ 1)) }
    ensures works { OnOk result (has_failed writer.new ≡ false) }
    ensures flushed { OnOk result (is_flushed writer.old ≡ true → is_flushed writer.new ≡ true) }
    ensures out { IfErr result (IsOutFault (has_failed writer.new)) }
{
    if held.is_empty() {
        return answer(lines, answers, writer, session, first_bytes(last));
    }
    held.extend(last);
    let answered = answer(lines, answers, writer, session, held.as_slice())?;
    held.clear();
    Ok(answered)
}

/// Answers the last line, where there is one.
fn finish<W: Write, S: Session>(
    lines: &mut LineReader,
    answers: &mut AnswerBuffer,
    writer: &mut Tap<W>,
    session: &mut S,
    held: &LineBuffer,
) -> Result<Served, ServeFault>
    requires works { has_failed writer.old ≡ false }
    requires empty { answers.old ≡ [] }
    ensures ok { IfOk result (λ served. (line : List ℕ) → IsHeldOf held.now line → Advances W.contents S.step S.keeps_together S.fails S.settles S.breaks_off S.moment
        writer.old writer.new session.old session.new answers.old [] (last_line line) served.calls) }
    ensures fault { IfErr result (λ fault. (line : List ℕ) → IsHeldOf held.now line → BreaksNext W.contents S.step S.keeps_together S.fails S.settles S.breaks_off S.moment
        writer.old writer.new session.old session.new answers.old (last_line line) fault) }
    ensures lines { IfOk result (λ served. (line : List ℕ) → IsHeldOf held.now line → served.lines ≡ length (last_line line)) }
    ensures few { IfOk result (λ served. (served.calls ≤ 1) × (served.lines ≤ 1)) }
    ensures works { OnOk result (has_failed writer.new ≡ false) }
    ensures flushed { OnOk result (is_flushed writer.old ≡ true → is_flushed writer.new ≡ true) }
    ensures out { IfErr result (IsOutFault (has_failed writer.new)) }
{
    if held.is_empty() {
        return Ok(Served::NOTHING);
    }
    let last = answer(lines, answers, writer, session, held.as_slice())?;
    send(answers, writer, session)?;
    Ok(last)
}

/// Makes the call of a line, and holds its answer.
fn answer<W: Write, S: Session>(
    lines: &mut LineReader,
    answers: &mut AnswerBuffer,
    writer: &mut Tap<W>,
    session: &mut S,
    held: &[u8],
) -> Result<Served, ServeFault>
    requires { has_failed writer.old ≡ false }
    ensures ok { IfOk result (λ served. (line : List ℕ) → IsHeldOf held.now line → Advances W.contents S.step S.keeps_together S.fails S.settles S.breaks_off S.moment
        writer.old writer.new session.old session.new answers.old answers.new (line ∷ []) served.calls) }
    ensures fault { IfErr result (λ fault. (line : List ℕ) → IsHeldOf held.now line → BreaksNext W.contents S.step S.keeps_together S.fails S.settles S.breaks_off S.moment
        writer.old writer.new session.old session.new answers.old (line ∷ []) fault) }
    ensures few { IfOk result (λ served. (served.calls ≤ 1) × (served.lines ≡ 1)) }
    ensures works { OnOk result (has_failed writer.new ≡ false) }
    ensures flushed { OnOk result (is_flushed writer.old ≡ true → is_flushed writer.new ≡ true) }
    ensures out { IfErr result (IsOutFault (has_failed writer.new)) }
{
    let Message { by, call } = match lines.read(held) {
        Ok(message) => message,
        Err(fault) => {
            put(answers, writer, session, fault.answer().as_bytes())?;
            return Ok(Served { lines: 1, calls: 0 });
        }
    };
    let room = lines.take_room();
    match make(lines.alloc(), room, session, &by, call) {
        Ok(text) => {
            put(answers, writer, session, text.as_slice())?;
            lines.give_back(text);
        }
        Err(fault) => {
            release(answers, writer, session)?;
            return Err(fault);
        }
    }
    Ok(Served { lines: 1, calls: 1 })
}

/// Makes a call; the bytes of its answer's text, in the room that is given.
fn make<S: Session>(
    alloc: Global,
    room: Vec<u8>,
    session: &mut S,
    by: &DeviceName,
    call: Call,
) -> Result<Vec<u8>, ServeFault>
    requires { room.items ≡ [] }
    ensures answer { IfOk result (λ text. (answer : Answer) × S.step session.old by.now call answer session.new × (text.items ≡ answer_text answer)) }
    ensures fault { IfErr result (IsLost S.step (one S.fails) session.old by.now call session.new) }
{
    let Ok(answer) = session.call(by, call) else {
        return Err(ServeFault::NoAnswer);
    };
    match encode_answer_in(alloc, room, &answer) {
        Ok(text) => Ok(text),
        Err(_) => Err(ServeFault::OutOfMemory),
    }
}

/// Holds the answer to a line, or, where there is no room for it, settles, and writes it behind what was held.
fn put<W: Write, S: Session>(
    answers: &mut AnswerBuffer,
    writer: &mut Tap<W>,
    session: &mut S,
    text: &[u8],
) -> Result<(), ServeFault>
    requires { has_failed writer.old ≡ false }
    ensures ok { OnOk result (Puts W.contents S.step S.keeps_together S.fails S.settles S.breaks_off S.moment writer.old writer.new session.old session.new answers.old answers.new (text.now ++ 10 ∷ [])) }
    ensures err { IfErr result (Holds W.contents S.step S.keeps_together S.fails S.settles S.breaks_off S.moment writer.old writer.new session.old session.new (answers.old ++ (text.now ++ 10 ∷ []))) }
    ensures works { OnOk result (has_failed writer.new ≡ false) }
    ensures flushed { OnOk result (is_flushed writer.old ≡ true → is_flushed writer.new ≡ true) }
    ensures out { IfErr result (IsOutFault (has_failed writer.new)) }
{
    if answers.hold(text) {
        return Ok(());
    }
    if session.settle().is_err() {
        return Err(ServeFault::NoAnswer);
    }
    write_whole(writer, session, answers.as_slice())?;
    write_line(writer, session, text)?;
    answers.clear();
    Ok(())
}

/// Writes what is held, if anything is.
fn send<W: Write, S: Session>(
    answers: &mut AnswerBuffer,
    writer: &mut Tap<W>,
    session: &mut S,
) -> Result<(), ServeFault>
    requires { has_failed writer.old ≡ false }
    ensures ok { OnOk result (((writer.new ≡ writer.old) × (session.new ≡ session.old) × (answers.old ≡ [])) ⊎ Releases W.contents S.step S.keeps_together S.fails S.settles S.breaks_off S.moment writer.old writer.new session.old session.new answers.old) }
    ensures empty { OnOk result (answers.new ≡ []) }
    ensures err { IfErr result (Holds W.contents S.step S.keeps_together S.fails S.settles S.breaks_off S.moment writer.old writer.new session.old session.new answers.old) }
    ensures works { OnOk result (has_failed writer.new ≡ false) }
    ensures flushed { OnOk result (is_flushed writer.old ≡ true → is_flushed writer.new ≡ true) }
    ensures out { IfErr result (IsOutFault (has_failed writer.new)) }
{
    if answers.is_empty() {
        return Ok(());
    }
    release(answers, writer, session)
}

/// Settles, and then writes what is held, and flushes it.
fn release<W: Write, S: Session>(
    answers: &mut AnswerBuffer,
    writer: &mut Tap<W>,
    session: &mut S,
) -> Result<(), ServeFault>
    requires { has_failed writer.old ≡ false }
    ensures ok { OnOk result (Releases W.contents S.step S.keeps_together S.fails S.settles S.breaks_off S.moment writer.old writer.new session.old session.new answers.old) }
    ensures empty { OnOk result (answers.new ≡ []) }
    ensures err { IfErr result (Holds W.contents S.step S.keeps_together S.fails S.settles S.breaks_off S.moment writer.old writer.new session.old session.new answers.old) }
    ensures works { OnOk result (has_failed writer.new ≡ false) }
    ensures flushed { OnOk result (is_flushed writer.old ≡ true → is_flushed writer.new ≡ true) }
    ensures out { IfErr result (IsOutFault (has_failed writer.new)) }
{
    if session.settle().is_err() {
        return Err(ServeFault::NoAnswer);
    }
    write_out(writer, session, answers.as_slice())?;
    answers.clear();
    Ok(())
}
