//! Lines whose calls are made together, where the session keeps together what they make.
ghost use Rattle.std.specs.Prelude.{◌≡◌, ◌<◌, ◌≤◌, ◌+◌, ◌==◌, List, ℕ, [], ◌++◌, ◌∷◌, Some, length, position, false, true, IfOk, IfErr, OnErr, OnOk};
ghost use Rattle.pana_wire.specs.Tap.{has_failed, is_flushed};
ghost use Rattle.pana_wire.specs.Lines.{ended, unended};
ghost use Rattle.pana_wire.specs.Session.{AnswersLines};
ghost use Rattle.pana_wire.specs.inner.Progress.{Advances, BreaksNext, Holds, IsHeldOf, IsOutFault, Puts, Releases};
ghost use Rattle.pana_wire.specs.inner.Rounds.{AddsText, AnswersSome, AreRead, AreTold, IsCut, LacksText, StopsAt};

use crate::answer_buffer::AnswerBuffer;
use crate::cutting::end_of_line;
use crate::fault::WireFault;
use crate::flushing::{write_out, write_whole};
use crate::line_buffer::LineBuffer;
use crate::reading::LineReader;
use crate::round::Round;
use crate::serving::{ServeFault, Served, take_line, take_lines};
use crate::tap::Tap;
use crate::writing::answer_bytes;
use pana_calls::{Answer, Session};
use std::alloc::{AllocError, Global};
use std::io::Write;

/// Makes the calls of the lines that end in the piece: together, where the session keeps together what they make.
pub(crate) fn take_ended<W: Write, S: Session>(
    lines: &mut LineReader,
    answers: &mut AnswerBuffer,
    writer: &mut Tap<W>,
    session: &mut S,
    held: &mut LineBuffer,
    piece: &[u8],
) -> Result<Served, ServeFault>
    requires { has_failed writer.old ≡ false }
    ensures ok { IfOk result (λ served. (begun : List ℕ) → IsHeldOf held.old begun → Advances W.contents S.step S.keeps_together S.fails S.settles S.breaks_off S.moment
        writer.old writer.new session.old session.new answers.old answers.new (ended begun piece.now) served.calls) }
    ensures fault { IfErr result (λ fault. (begun : List ℕ) → IsHeldOf held.old begun → BreaksNext W.contents S.step S.keeps_together S.fails S.settles S.breaks_off S.moment
        writer.old writer.new session.old session.new answers.old (ended begun piece.now) fault) }
    ensures held { OnOk result ((begun : List ℕ) → IsHeldOf held.old begun → IsHeldOf held.new (unended begun piece.now)) }
    ensures lines { IfOk result (λ served. (begun : List ℕ) → served.lines ≡ length (ended begun piece.now)) }
    ensures few { IfOk result (λ served. (served.calls ≤ served.lines) × (served.lines ≤ length piece.now)) }
    ensures works { OnOk result (has_failed writer.new ≡ false) }
    ensures flushed { OnOk result (is_flushed writer.old ≡ true → is_flushed writer.new ≡ true) }
    ensures out { IfErr result (IsOutFault (has_failed writer.new)) }
{
    if session.keeps_together() {
        take_together(lines, answers, writer, session, held, piece)
    } else {
        take_lines(lines, answers, writer, session, held, piece)
    }
}

/// Makes them together, in rounds of at most 100 lines.
fn take_together<W: Write, S: Session>(
    lines: &mut LineReader,
    answers: &mut AnswerBuffer,
    writer: &mut Tap<W>,
    session: &mut S,
    held: &mut LineBuffer,
    piece: &[u8],
) -> Result<Served, ServeFault>
    requires works { has_failed writer.old ≡ false }
    requires together { S.keeps_together ≡ true }
    ensures ok { IfOk result (λ served. (begun : List ℕ) → IsHeldOf held.old begun → Advances W.contents S.step S.keeps_together S.fails S.settles S.breaks_off S.moment
        writer.old writer.new session.old session.new answers.old answers.new (ended begun piece.now) served.calls) }
    ensures fault { IfErr result (λ fault. (begun : List ℕ) → IsHeldOf held.old begun → BreaksNext W.contents S.step S.keeps_together S.fails S.settles S.breaks_off S.moment
        writer.old writer.new session.old session.new answers.old (ended begun piece.now) fault) }
    ensures held { OnOk result ((begun : List ℕ) → IsHeldOf held.old begun → IsHeldOf held.new (unended begun piece.now)) }
    ensures lines { IfOk result (λ served. (begun : List ℕ) → served.lines ≡ length (ended begun piece.now)) }
    ensures few { IfOk result (λ served. (served.calls ≤ served.lines) × (served.lines ≤ length piece.now)) }
    ensures works { OnOk result (has_failed writer.new ≡ false) }
    ensures flushed { OnOk result (is_flushed writer.old ≡ true → is_flushed writer.new ≡ true) }
    ensures out { IfErr result (IsOutFault (has_failed writer.new)) }
{
    let mut served = Served::NOTHING;
    let mut rest = piece;
    while let Some(end) = end_of_line(rest) {
        let taken = take_some(lines, answers, writer, session, held, rest, end)?;
        served = served.and(taken.served);
        rest = taken.rest;
    }
    held.extend(rest);
    Ok(served)
}

/// The first lines of a piece, and what comes behind them.
#[derive(Drop)]
struct Taken<'a> {
    served: Served,
    rest: &'a [u8],
}

/// Makes the calls of a round of lines, or, where memory runs out for its lists, of one line: the first ends here.
fn take_some<'a, W: Write, S: Session>(
    lines: &mut LineReader,
    answers: &mut AnswerBuffer,
    writer: &mut Tap<W>,
    session: &mut S,
    held: &mut LineBuffer,
    piece: &'a [u8],
    end: usize,
) -> Result<Taken<'a>, ServeFault>
    requires works { has_failed writer.old ≡ false }
    requires together { S.keeps_together ≡ true }
    requires end { position (λ byte. byte == 10) piece.now ≡ Some end }
    ensures ok { IfOk result (λ taken. (begun : List ℕ) → IsHeldOf held.old begun → (ended_lines : List (List ℕ)) × (now : List ℕ) × IsCut begun piece.now ended_lines now taken.rest.now × IsHeldOf held.new now
        × Advances W.contents S.step S.keeps_together S.fails S.settles S.breaks_off S.moment
        writer.old writer.new session.old session.new answers.old answers.new ended_lines taken.served.calls) }
    ensures fault { IfErr result (λ fault. (begun : List ℕ) → IsHeldOf held.old begun → BreaksNext W.contents S.step S.keeps_together S.fails S.settles S.breaks_off S.moment
        writer.old writer.new session.old session.new answers.old (ended begun piece.now) fault) }
    ensures lines { IfOk result (λ taken. (begun now : List ℕ) → length (ended begun piece.now) ≡ taken.served.lines + length (ended now taken.rest.now)) }
    ensures few { IfOk result (λ taken. (taken.served.calls ≤ taken.served.lines) × (taken.served.lines + length taken.rest.now ≤ length piece.now) × (1 ≤ taken.served.lines)) }
    ensures works { OnOk result (has_failed writer.new ≡ false) }
    ensures flushed { OnOk result (is_flushed writer.old ≡ true → is_flushed writer.new ≡ true) }
    ensures out { IfErr result (IsOutFault (has_failed writer.new)) }
{
    let Ok(mut round) = Round::new(lines.alloc()) else {
        let served = take_line(lines, answers, writer, session, held, &piece[..end])?;
        let rest = &piece[end + 1..];
        return Ok(Taken { served, rest });
    };
    let rest = round.gather(lines, held, piece);
    let served = answer_round(lines.alloc(), answers, writer, session, round)?;
    Ok(Taken { served, rest })
}

/// Makes the calls of a round, and holds the answers to its lines.
fn answer_round<W: Write, S: Session>(
    alloc: Global,
    answers: &mut AnswerBuffer,
    writer: &mut Tap<W>,
    session: &mut S,
    round: Round,
) -> Result<Served, ServeFault>
    requires works { has_failed writer.old ≡ false }
    requires together { S.keeps_together ≡ true }
    ensures ok { IfOk result (λ served. (lines : List (List ℕ)) → AreRead lines round.messages round.faults → Advances W.contents S.step S.keeps_together S.fails S.settles S.breaks_off S.moment
        writer.old writer.new session.old session.new answers.old answers.new lines served.calls) }
    ensures fault { IfErr result (λ fault. (lines : List (List ℕ)) → AreRead lines round.messages round.faults → BreaksNext W.contents S.step S.keeps_together S.fails S.settles S.breaks_off S.moment
        writer.old writer.new session.old session.new answers.old lines fault) }
    ensures few { IfOk result (λ served. (served.calls ≤ served.lines) × (served.lines ≡ length round.faults)) }
    ensures works { OnOk result (has_failed writer.new ≡ false) }
    ensures flushed { OnOk result (is_flushed writer.old ≡ true → is_flushed writer.new ≡ true) }
    ensures out { IfErr result (IsOutFault (has_failed writer.new)) }
{
    let mut texts = Vec::new(alloc);
    let served = round.served();
    match make_all(alloc, session, round, &mut texts) {
        Ok(()) => put_texts(answers, writer, session, texts.as_slice())?,
        Err(fault) => {
            release_texts(answers, writer, session, texts.as_slice())?;
            return Err(fault);
        }
    }
    Ok(served)
}

/// Makes the calls of a round, and adds the texts of the answers to its lines, up to one whose call has no answer, or for which
/// memory runs out.
fn make_all<S: Session>(
    alloc: Global,
    session: &mut S,
    round: Round,
    texts: &mut Vec<u8>,
) -> Result<(), ServeFault>
    requires { texts.old.items ≡ [] }
    ensures ok { OnOk result ((lines : List (List ℕ)) → AreRead lines round.messages round.faults → AnswersLines S.step session.old lines texts.new.items session.new (length round.messages)) }
    ensures fault { IfErr result (λ fault. (lines : List (List ℕ)) → AreRead lines round.messages round.faults → AnswersSome S.step S.fails session.old lines texts.new.items session.new fault) }
    ensures out { IfErr result (IsOutFault false) }
{
    let Round {
        messages,
        faults,
        mut answers,
    } = round;
    let made = session.call_all(messages, &mut answers);
    write_texts(alloc, faults.as_slice(), answers.as_slice(), texts)?;
    match made {
        Ok(()) => Ok(()),
        Err(_) => Err(ServeFault::NoAnswer),
    }
}

/// Adds the texts of the faults, and of the answers where there is none, each with a newline.
fn write_texts(
    alloc: Global,
    faults: &[Option<WireFault>],
    answers: &[Answer],
    texts: &mut Vec<u8>,
) -> Result<(), ServeFault>
    requires { texts.old.items ≡ [] }
    ensures ok { OnOk result ((left : List Answer) × AreTold faults.now answers.now texts.new.items [] left) }
    ensures fault { IfErr result (StopsAt faults.now answers.now texts.new.items) }
    ensures out { IfErr result (IsOutFault false) }
{
    let mut left = answers;
    for fault in faults {
        left = write_one(alloc, *fault, left, texts)?;
    }
    Ok(())
}

/// Adds the text of a fault, or else of the first answer; the answers that are left.
fn write_one<'a>(
    alloc: Global,
    fault: Option<WireFault>,
    answers: &'a [Answer],
    texts: &mut Vec<u8>,
) -> Result<&'a [Answer], ServeFault>
    ensures ok { IfOk result (λ left. AddsText fault answers.now left.now texts.old.items texts.new.items) }
    ensures fault { IfErr result (LacksText fault answers.now) }
    ensures err { OnErr result (texts.new.items ≡ texts.old.items) }
{
    if let Some(fault) = fault {
        add(texts, fault.answer().as_bytes())?;
        return Ok(answers);
    }
    let Some((answer, left)) = answers.split_first() else {
        return Err(ServeFault::NoAnswer);
    };
    let Ok(text) = answer_bytes(alloc, answer) else {
        return Err(ServeFault::OutOfMemory);
    };
    add(texts, text.as_slice())?;
    Ok(left)
}

/// Adds a text and a newline.
fn add(texts: &mut Vec<u8>, text: &[u8]) -> Result<(), ServeFault>
    ensures ok { OnOk result (texts.new.items ≡ texts.old.items ++ (text.now ++ 10 ∷ [])) }
    ensures fault { IfErr result (λ fault. fault ≡ ServeFault.OutOfMemory) }
    ensures err { OnErr result (texts.new.items ≡ texts.old.items) }
{
    if texts.reserve(text.len() + 1).is_err() {
        return Err(ServeFault::OutOfMemory);
    }
    texts.extend_from_slice(text).unwrap();
    texts.push_reserved(b'\n');
    Ok(())
}

/// Holds the texts, or, where there is no room for them, settles, and writes them behind what was held.
fn put_texts<W: Write, S: Session>(
    answers: &mut AnswerBuffer,
    writer: &mut Tap<W>,
    session: &mut S,
    texts: &[u8],
) -> Result<(), ServeFault>
    requires { has_failed writer.old ≡ false }
    ensures ok { OnOk result (Puts W.contents S.step S.keeps_together S.fails S.settles S.breaks_off S.moment writer.old writer.new session.old session.new answers.old answers.new texts.now) }
    ensures err { IfErr result (Holds W.contents S.step S.keeps_together S.fails S.settles S.breaks_off S.moment writer.old writer.new session.old session.new (answers.old ++ texts.now)) }
    ensures works { OnOk result (has_failed writer.new ≡ false) }
    ensures flushed { OnOk result (is_flushed writer.old ≡ true → is_flushed writer.new ≡ true) }
    ensures out { IfErr result (IsOutFault (has_failed writer.new)) }
{
    if answers.hold_all(texts) {
        return Ok(());
    }
    release_texts(answers, writer, session, texts)
}

/// Settles, writes the texts behind what is held, and flushes both.
fn release_texts<W: Write, S: Session>(
    answers: &mut AnswerBuffer,
    writer: &mut Tap<W>,
    session: &mut S,
    texts: &[u8],
) -> Result<(), ServeFault>
    requires { has_failed writer.old ≡ false }
    ensures ok { OnOk result (Releases W.contents S.step S.keeps_together S.fails S.settles S.breaks_off S.moment writer.old writer.new session.old session.new (answers.old ++ texts.now)) }
    ensures empty { OnOk result (answers.new ≡ []) }
    ensures err { IfErr result (Holds W.contents S.step S.keeps_together S.fails S.settles S.breaks_off S.moment writer.old writer.new session.old session.new (answers.old ++ texts.now)) }
    ensures works { OnOk result (has_failed writer.new ≡ false) }
    ensures flushed { OnOk result (is_flushed writer.old ≡ true → is_flushed writer.new ≡ true) }
    ensures out { IfErr result (IsOutFault (has_failed writer.new)) }
{
    if session.settle().is_err() {
        return Err(ServeFault::NoAnswer);
    }
    write_whole(writer, session, answers.as_slice())?;
    write_out(writer, session, texts)?;
    answers.clear();
    Ok(())
}
