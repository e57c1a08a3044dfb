//! Lines whose calls are made together: how many come at once is said by no clause.

use crate::wire::Numbering;
use pana_calls::{Answer, Call, Message, NoAnswer, Session};
use pana_copies::DeviceName;
use pana_wire::{ServeFault, Served, Tap, serve};
use std::alloc::{AllocError, Global};
use std::marker::Model;
use std::test::Fail;

/// A session that numbers its calls, and counts the lists that they come in.
#[derive(Drop)]
struct Gathering {
    numbering: Numbering,
    lists: u64,
}

impl Model for Gathering {
    ghost use Rattle.pana_line_tests.specs.declared.wire.Numbering.{Numbering};

    ghost Value = { Numbering };

    ghost view = { λ session. session.numbering };
}

impl Session for Gathering {
    ghost use Rattle.std.specs.Prelude.{◌≡◌, ◌+◌, true};

    ghost step = { λ old by call answer new. new.made ≡ old.made + 1 };

    ghost fails = { λ old calls new. new ≡ old };

    ghost keeps_together = { true };

    fn call(&mut self, by: &DeviceName, call: Call) -> Result<Answer, NoAnswer> {
        self.numbering.call(by, call)
    }

    fn call_all(&mut self, calls: Vec<Message>, answers: &mut Vec<Answer>) -> Result<(), NoAnswer> {
        self.lists = self.lists.saturating_add(1);
        self.numbering.call_all(calls, answers)
    }

    fn keeps_together(&self) -> bool {
        true
    }

    fn settle(&mut self) -> Result<(), NoAnswer> {
        Ok(())
    }
}

fn session_of(most: u64) -> Gathering {
    Gathering {
        numbering: Numbering { made: 0, most },
        lists: 0,
    }
}

const EDIT: &[u8] = b"{\"by\":\"a\",\"do\":\"edit\",\"copy\":1}\n";

/// So many lines, of which each tenth has a fault.
fn some_faulty(alloc: Global, count: u64) -> Result<Vec<u8>, AllocError> {
    let mut input = Vec::new(alloc);
    for number in 0..count {
        input.extend_from_slice(if number % 10 == 9 { b"x\n" } else { EDIT })?;
    }
    Ok(input)
}

/// The answers to the first of them.
fn some_answers(alloc: Global, count: u64) -> Result<Vec<u8>, AllocError> {
    let mut output = Vec::new(alloc);
    let mut made = 0u64;
    for number in 0..count {
        if number % 10 == 9 {
            output.extend_from_slice(b"{\"fault\":\"NotJson\"}\n")?;
        } else {
            made = made.saturating_add(1);
            let line = format!(in alloc; "{{\"done\":{made}}}\n")?;
            output.extend_from_slice(line.as_bytes())?;
        }
    }
    Ok(output)
}

#[test]
fn a_hundred_lines_are_one_list(rt: HostRuntime) -> Result<(), Fail> {
    let alloc = rt.alloc();
    let input = some_faulty(alloc, 250)?;
    let mut session = session_of(1000);
    let mut reader = Tap::new(input.as_slice());
    let mut writer = Tap::new(Vec::new(alloc));
    let served = serve(alloc, &mut reader, &mut writer, &mut session, 100);
    assert_eq!(rt;
        served,
        Ok(Served {
            lines: 250,
            calls: 225
        })
    );
    assert_eq!(rt; session.lists, 3);
    let expected = some_answers(alloc, 250)?;
    let output: Vec<u8> = writer.into_inner();
    assert_eq!(rt; output.as_slice(), expected.as_slice());
    Ok(())
}

#[test]
fn lines_before_a_call_without_an_answer_are_answered(rt: HostRuntime) -> Result<(), Fail> {
    let alloc = rt.alloc();
    let input = some_faulty(alloc, 250)?;
    let mut session = session_of(117);
    let mut reader = Tap::new(input.as_slice());
    let mut writer = Tap::new(Vec::new(alloc));
    let served = serve(alloc, &mut reader, &mut writer, &mut session, 100);
    assert_eq!(rt; served, Err(ServeFault::NoAnswer));
    assert_eq!(rt; session.lists, 2);
    let expected = some_answers(alloc, 130)?;
    let output: Vec<u8> = writer.into_inner();
    assert_eq!(rt; output.as_slice(), expected.as_slice());
    Ok(())
}

/// Its answers have more bytes than are held.
#[test]
fn a_piece_of_short_lines_is_answered(rt: HostRuntime) -> Result<(), Fail> {
    let alloc = rt.alloc();
    let input = some_faulty(alloc, 20_000)?;
    let mut session = session_of(100_000);
    let mut reader = Tap::new(input.as_slice());
    let mut writer = Tap::new(Vec::new(alloc));
    let served = serve(alloc, &mut reader, &mut writer, &mut session, 100);
    assert_eq!(rt;
        served,
        Ok(Served {
            lines: 20_000,
            calls: 18_000
        })
    );
    let expected = some_answers(alloc, 20_000)?;
    let output: Vec<u8> = writer.into_inner();
    assert_eq!(rt; output.as_slice(), expected.as_slice());
    Ok(())
}
