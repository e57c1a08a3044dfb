//! One session where there may be two kinds of them.

use pana_calls::{Answer, Call, Message, NoAnswer, Session};
use pana_copies::DeviceName;

/// A session of one kind or of another. It does what that one does, and stays of its kind.
///
/// What takes a session is compiled once for each type of them: once for this one, where its two kinds would be two.
#[derive(Drop)]
pub enum EitherSession<L, R> {
    Left(L),
    Right(R),
}

impl<L: Session + Drop, R: Session + Drop> Session for EitherSession<L, R> {
    ghost use Rattle.std.specs.Prelude.{if◌then◌else◌, true};
    ghost use Rattle.pana_either.specs.Either.{alike, moment_of};

    ghost step = { λ old by call answer new. alike (λ a b. L.step a by call answer b) (λ a b. R.step a by call answer b) old new };

    ghost moment = { moment_of L.moment R.moment };

    ghost fails = { λ old calls new. alike (λ a b. L.fails a calls b) (λ a b. R.fails a calls b) old new };

    ghost keeps_together = { if L.keeps_together then true else R.keeps_together };

    ghost settles = { alike L.settles R.settles };

    ghost breaks_off = { alike L.breaks_off R.breaks_off };

    /// Makes the call as the session that it is does.
    fn call(&mut self, by: &DeviceName, call: Call) -> Result<Answer, NoAnswer> {
        match self {
            EitherSession::Left(session) => session.call(by, call),
            EitherSession::Right(session) => session.call(by, call),
        }
    }

    /// Makes the calls as the session that it is does.
    fn call_all(&mut self, calls: Vec<Message>, answers: &mut Vec<Answer>) -> Result<(), NoAnswer> {
        match self {
            EitherSession::Left(session) => session.call_all(calls, answers),
            EitherSession::Right(session) => session.call_all(calls, answers),
        }
    }

    /// Settles as the session that it is does.
    fn settle(&mut self) -> Result<(), NoAnswer> {
        match self {
            EitherSession::Left(session) => session.settle(),
            EitherSession::Right(session) => session.settle(),
        }
    }

    fn entries(&self) -> u64 {
        match self {
            EitherSession::Left(session) => session.entries(),
            EitherSession::Right(session) => session.entries(),
        }
    }

    fn is_slow(&self) -> bool {
        match self {
            EitherSession::Left(session) => session.is_slow(),
            EitherSession::Right(session) => session.is_slow(),
        }
    }

    fn is_shared(&self) -> bool {
        match self {
            EitherSession::Left(session) => session.is_shared(),
            EitherSession::Right(session) => session.is_shared(),
        }
    }

    fn keeps_together(&self) -> bool {
        match self {
            EitherSession::Left(session) => session.keeps_together(),
            EitherSession::Right(session) => session.keeps_together(),
        }
    }

    fn may_recover(&self) -> bool {
        match self {
            EitherSession::Left(session) => session.may_recover(),
            EitherSession::Right(session) => session.may_recover(),
        }
    }
}
