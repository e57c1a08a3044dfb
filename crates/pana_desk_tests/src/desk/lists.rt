//! Lists of calls at a desk over a session that keeps them together: how many requests they are is said by no clause.

use crate::desk::sessions::{NoFolder, post};
use pana_calls::{Answer, Call, Message, NoAnswer, Reply, Session};
use pana_copies::DeviceName;
use pana_daemon::{DaemonFault, IdleSupervisor, Post, attend};
use std::alloc::AllocError;
use std::marker::Model;
use std::test::Fail;

/// A session that numbers so many calls at most.
#[derive(Drop)]
pub struct Numbering {
    made: u64,
    most: u64,
}

impl Session for Numbering {
    ghost use Rattle.std.specs.Prelude.{◌≡◌, ◌+◌};

    ghost step = { λ old by call answer new. new.made ≡ old.made + 1 };

    ghost fails = { λ old calls new. new ≡ old };

    fn call(&mut self, _by: &DeviceName, _call: Call) -> Result<Answer, NoAnswer> {
        if self.made >= self.most {
            return Err(NoAnswer);
        }
        self.made += 1;
        Ok(Answer::Given(Reply::Done { entry: self.made }))
    }

    fn settle(&mut self) -> Result<(), NoAnswer> {
        Ok(())
    }
}

/// A session that numbers its calls, and counts the lists that they come in.
#[derive(Drop)]
pub struct Gathering {
    numbering: Numbering,
    lists: u64,
}

impl Model for Gathering {
    ghost use Rattle.pana_desk_tests.specs.declared.desk.lists.Numbering.{Numbering};

    ghost Value = { Numbering };

    ghost view = { λ session. session.numbering };
}

impl Session for Gathering {
    ghost use Rattle.std.specs.Prelude.{◌≡◌, ◌+◌, true};

    ghost step = { λ old by call answer new. new.made ≡ old.made + 1 };

    ghost fails = { λ old calls new. new ≡ old };

    ghost keeps_together = { true };

    fn call(&mut self, by: &DeviceName, call: Call) -> Result<Answer, NoAnswer> {
        self.numbering.call(by, call)
    }

    fn call_all(&mut self, calls: Vec<Message>, answers: &mut Vec<Answer>) -> Result<(), NoAnswer> {
        self.lists = self.lists.saturating_add(1);
        self.numbering.call_all(calls, answers)
    }

    fn keeps_together(&self) -> bool {
        true
    }

    fn settle(&mut self) -> Result<(), NoAnswer> {
        Ok(())
    }
}

fn make_gathering(most: u64) -> Gathering {
    Gathering {
        numbering: Numbering { made: 0, most },
        lists: 0,
    }
}

const EDITS: &str =
    "{\"by\":\"a\",\"do\":\"edit\",\"copy\":1}\n{\"by\":\"a\",\"do\":\"edit\",\"copy\":1}\n{\"by\":\"a\",\"do\":\"edit\",\"copy\":1}\n";

/// Two callers, each with three lines that come together: each list is a request, and so is each settling.
#[test]
fn lines_of_two_callers_are_two_lists(rt: HostRuntime) -> Result<(), Fail> {
    let alloc = rt.alloc();
    let posts: Vec<Post<'_, _, NoFolder>> = vec![in alloc; post(alloc, EDITS), post(alloc, EDITS)]?;
    let begin = || -> Result<(), DaemonFault> { Ok(()) };
    let session = make_gathering(100);
    let Ok(ended) = attend(&rt, alloc, &IdleSupervisor, session, posts, begin) else {
        return Err(Fail::from(AllocError));
    };
    assert_eq!(rt; ended.requests, 4);
    assert_eq!(rt; ended.session.lists, 2);
    assert_eq!(rt; ended.session.numbering.made, 6);
    Ok(())
}
