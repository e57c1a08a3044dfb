//! Lines that are read before their calls are made together.
ghost use Rattle.std.specs.Prelude.{◌≡◌, ◌+◌, ◌<◌, ◌≤◌, ◌==◌, List, ℕ, [], ◌++◌, Some, IfOk, length, position};
ghost use Rattle.pana_wire.specs.Lines.{ended};
ghost use Rattle.pana_wire.specs.inner.Progress.{IsHeldOf};
ghost use Rattle.pana_wire.specs.inner.Rounds.{IsGathered, IsRead, heard, no_lines};

use crate::cutting::end_of_line;
use crate::fault::WireFault;
use crate::line_buffer::{LineBuffer, first_bytes};
use crate::reading::LineReader;
use crate::serving::Served;
use pana_calls::{Answer, Message};
use std::alloc::{AllocError, Global};
use std::marker::Model;

/// How many lines a round has at most.
const MOST_LINES: usize = 100;

/// Lines that were read, whose calls are yet to be made, with room for their answers.
#[derive(Drop)]
pub struct Round {
    pub messages: Vec<Message>,
    /// For each line its fault, if it has one. Where it has none, the line has the next message.
    pub faults: Vec<Option<WireFault>>,
    /// No answer yet.
    pub answers: Vec<Answer>,
}

impl Model for Round {
    ghost use Rattle.std.specs.Prelude.{◌≡◌, ◌≤◌, [], vec_len, vec_capacity};
    ghost use Rattle.pana_wire.specs.inner.Rounds.{RoundView};

    ghost Value = { RoundView };

    ghost view = { λ round. record { messages = round.messages.items; faults = round.faults.items } };

    ghost invariant = { λ round. (vec_len round.messages ≤ vec_len round.faults) × (vec_len round.faults ≤ 100)
        × (100 ≤ vec_capacity round.messages) × (100 ≤ vec_capacity round.faults) × (100 ≤ vec_capacity round.answers) × (round.answers.items ≡ []) };
}

impl Round {
    /// No line. It takes all the memory that its lists ever take; the only error is that an allocation fails.
    pub fn new(alloc: Global) -> Result<Round, AllocError>
        ensures { IfOk result (λ round. round ≡ no_lines) }
    {
        let messages = Vec::with_capacity(alloc, MOST_LINES)?;
        let faults = Vec::with_capacity(alloc, MOST_LINES)?;
        let answers = Vec::with_capacity(alloc, MOST_LINES)?;
        Ok(Round {
            messages,
            faults,
            answers,
        })
    }

    /// How many lines it has, and how many calls these ask for.
    pub fn served(&self) -> Served
        ensures lines { result.lines ≡ length self.now.faults }
        ensures calls { result.calls ≡ length self.now.messages }
        ensures few { length self.now.messages ≤ length self.now.faults }
    {
        Served {
            lines: self.faults.len() as u64,
            calls: self.messages.len() as u64,
        }
    }

    /// Adds what was read of a line.
    fn push(&mut self, said: Result<Message, WireFault>)
        requires { length self.old.faults < 100 }
        ensures { self.new ≡ heard self.old said }
    {
        match said {
            Ok(message) => {
                self.messages.push_reserved(message);
                self.faults.push_reserved(None);
            }
            Err(fault) => self.faults.push_reserved(Some(fault)),
        }
    }

    /// Reads the lines that end in the piece, until there are 100 of them; what comes behind them.
    pub fn gather<'a>(
        &mut self,
        lines: &mut LineReader,
        held: &mut LineBuffer,
        piece: &'a [u8],
    ) -> &'a [u8]
        requires { self.old ≡ no_lines }
        ensures read { (begun : List ℕ) → IsHeldOf held.old begun → IsGathered begun piece.now self.new held.new result.now }
        ensures lines { (begun now : List ℕ) → length (ended begun piece.now) ≡ length self.new.faults + length (ended now result.now) }
        ensures few { length self.new.faults + length result.now ≤ length piece.now }
        ensures some { (end : ℕ) → position (λ byte. byte == 10) piece.now ≡ Some end → 1 ≤ length self.new.faults }
    {
        let mut rest = piece;
        for _ in 0..MOST_LINES {
            let Some(end) = end_of_line(rest) else {
                return rest;
            };
            self.push(read_line(lines, held, &rest[..end]));
            rest = &rest[end + 1..];
        }
        rest
    }
}

/// What the line says that ends with these bytes, behind those that are held.
fn read_line(
    lines: &mut LineReader,
    held: &mut LineBuffer,
    last: &[u8],
) -> Result<Message, WireFault>
    ensures said { (begun : List ℕ) → IsHeldOf held.old begun → IsRead (begun ++ last.now) result }
    ensures held { held.new ≡ [] }
{
    if held.is_empty() {
        return lines.read(first_bytes(last));
    }
    held.extend(last);
    let said = lines.read(held.as_slice());
    held.clear();
    said
}
