//! What no clause says of a hall at a desk: that calls succeed where memory is there, that a board sees another pass's
//! call, and that a hall settles. Where an allocation fails, the test ends with that error.

ghost use Rattle.std.specs.Prelude.{◌≡◌};

use pana_calls::{Answer, Call, Cause, Message, Query, Reply};
use pana_copies::{CopyPath, DeviceName, Place};
use pana_daemon::{Request, Response, Shared};
use pana_hall::Hall;
use pana_journal::Report;
use pana_turn::{Desk, Pass, Spent};
use std::alloc::{AllocError, Global};
use std::process::Abort;
use std::sync::Wait;
use std::test::Fail;

/// A report of a new file at the path `a`.
fn register(alloc: Global) -> Result<Message, Fail> {
    let place = Place {
        device: DeviceName::new("laptop")?,
        path: CopyPath::new(alloc, "a")?,
    };
    Ok(Message {
        by: DeviceName::new("laptop")?,
        call: Call::Report(Report::Register { place, sum: None }),
    })
}

/// The number of the entry that a report made, or 0 where it made none. Fails where memory ran out.
fn entry_of(response: Result<Response, Spent>) -> Result<u64, AllocError> {
    match &response {
        Ok(Response::Answer(Answer::Given(Reply::Done { entry }))) => Ok(*entry),
        Ok(Response::Answer(Answer::Given(Reply::Refused(Cause::OutOfMemory)))) => Err(AllocError),
        _ => Ok(0),
    }
}

/// How many rows the board has, or 0 where the reply is none. Fails where memory ran out.
fn rows_of(response: Result<Response, Spent>) -> Result<usize, AllocError> {
    match &response {
        Ok(Response::Answer(Answer::Given(Reply::Board(board)))) => Ok(board.rows.as_slice().len()),
        Ok(Response::Answer(Answer::Given(Reply::Refused(Cause::OutOfMemory)))) => Err(AllocError),
        _ => Ok(0),
    }
}

/// A question for the board of the first family.
fn board_wanted() -> Result<Message, Fail> {
    Ok(Message {
        by: DeviceName::new("laptop")?,
        call: Call::Query(Query::Board { family: 1 }),
    })
}

/// What two passes get of a desk that no call was made at.
fn use_desk<T: Wait + Abort>(
    rt: &T,
    alloc: Global,
    desk: &Desk<Shared<Hall>>,
    first: &mut Pass<Shared<Hall>>,
    second: &mut Pass<Shared<Hall>>,
) -> Result<(), Fail>
    requires first { first.old.desk ≡ desk.now.id }
    requires second { second.old.desk ≡ desk.now.id }
{
    let done = desk.call(rt, first, Request::Make(register(alloc)?));
    assert_eq!(rt; entry_of(done)?, 1);
    assert_eq!(rt; desk.glance(second), 1);
    let shown = desk.call(rt, second, Request::Make(board_wanted()?));
    assert_eq!(rt; rows_of(shown)?, 1);
    let settled = desk.call(rt, second, Request::Settle);
    assert!(rt; matches!(settled, Ok(Response::Settled)));
    let note = desk.note(first);
    desk.meet(second, note);
    assert_eq!(rt; desk.glance(first), 3);
    Ok(())
}

#[test]
fn shared_desk(rt: HostRuntime) -> Result<(), Fail> {
    let alloc = rt.alloc();
    let (desk, mut passes) = Desk::open(alloc, 2, Shared::new(Hall::new(alloc)?))?;
    let (Some(mut second), Some(mut first)) = (passes.pop(), passes.pop()) else {
        return Ok(());
    };
    use_desk(&rt, alloc, &desk, &mut first, &mut second)
}
