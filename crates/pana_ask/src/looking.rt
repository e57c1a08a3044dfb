//! The numbers of copies at places.
ghost use Rattle.std.specs.Prelude.{◌≡◌, [], ◌∷◌, Some, IfOk, IfErr};
ghost use Rattle.pana_calls.specs.Session.{one};
ghost use Rattle.pana_ask.specs.Looking.{Finds, LooksInVain, found_in};

use crate::ask_fault::AskFault;
use pana_calls::{Answer, Call, Query, Reply, Session};
use pana_copies::{DeviceName, Place};

/// The number of the copy that an answer has found, or none where no copy is at the place; nothing where it is no answer to
/// that.
fn found_in(answer: &Answer) -> Option<Option<u64>>
    ensures { result ≡ found_in answer.now }
{
    match answer {
        Answer::Given(Reply::At(Some(standing))) => Some(Some(standing.copy)),
        Answer::Given(Reply::At(None)) => Some(None),
        _ => None,
    }
}

/// The number of the copy at a place.
pub(crate) fn copy_at<S: Session>(
    session: &mut S,
    by: &DeviceName,
    place: &Place,
) -> Result<u64, AskFault>
    ensures ok { IfOk result (λ copy. Finds S.step by.now (place.now ∷ []) session.old (copy ∷ []) session.new) }
    ensures err { IfErr result (LooksInVain S.step (one S.fails) by.now (place.now ∷ []) session.old session.new) }
{
    let missing = place.copy_of()?;
    let at = Query::At {
        place: place.copy_of()?,
    };
    let answer = session.call(by, Call::Query(at))?;
    let found = found_in(&answer);
    drop(answer);
    match found {
        Some(Some(copy)) => Ok(copy),
        Some(None) => Err(AskFault::NoCopy(missing)),
        None => Err(AskFault::OutOfMemory),
    }
}

/// The numbers of the copies at two places.
pub(crate) fn copies_at<S: Session>(
    session: &mut S,
    by: &DeviceName,
    a: &Place,
    b: &Place,
) -> Result<(u64, u64), AskFault>
    ensures ok { IfOk result (λ copies. Finds S.step by.now (a.now ∷ b.now ∷ []) session.old (copies.0 ∷ copies.1 ∷ []) session.new) }
    ensures err { IfErr result (LooksInVain S.step (one S.fails) by.now (a.now ∷ b.now ∷ []) session.old session.new) }
{
    let first = copy_at(session, by, a)?;
    let second = copy_at(session, by, b)?;
    Ok((first, second))
}
