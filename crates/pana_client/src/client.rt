//! A client of a daemon that runs.

use crate::lines::{read_reply, write_call};
use pana_calls::{Answer, Call, NoAnswer, Session};
use pana_copies::DeviceName;
use std::alloc::Global;
use std::io::{BufRead, Write};

/// A session at a daemon that runs: each call is written as a line to a writer, and its answer is read as a line from a
/// reader.
///
/// Once a call has got no answer, no later one gets any. So an answer that comes late is never taken for another call's.
pub struct Client<R, W> {
    alloc: Global,
    reader: R,
    writer: W,
    /// Whether each call so far has got its answer.
    works: bool,
}

impl<R: Drop, W: Drop> Drop for Client<R, W> {
    fn drop(self) {
        let Client {
            alloc: _,
            reader: _,
            writer: _,
            works: _,
        } = self;
    }
}

impl<R, W> Client<R, W> {
    ghost use Rattle.std.specs.Prelude.{◌≡◌, true};
    ghost use Rattle.pana_client.specs.Client.{reader_of, works, writer_of};

    /// A client of the daemon that reads what the writer takes, and whose answers come from the reader. Takes no memory.
    pub fn new(alloc: Global, reader: R, writer: W) -> Client<R, W>
        ensures reader { reader_of result ≡ reader }
        ensures writer { writer_of result ≡ writer }
        ensures works { works result ≡ true }
    {
        Client {
            alloc,
            reader,
            writer,
            works: true,
        }
    }
}

impl<R: BufRead, W: Write> Client<R, W> {
    ghost use Rattle.std.specs.Prelude.{IfOk, OnErr};
    ghost use Rattle.pana_client.specs.Client.{IsAnswered, IsUnanswered};

    /// Writes the call's line, and reads that of its answer.
    fn exchange(&mut self, by: &DeviceName, call: &Call) -> Result<Answer, NoAnswer>
        ensures answered { IfOk result (λ answer. IsAnswered R.remaining W.contents self.old by.now call.now answer self.new) }
        ensures unanswered { OnErr result (IsUnanswered R.remaining W.contents self.old by.now call.now self.new) }
    {
        if !self.works {
            return Err(NoAnswer);
        }
        self.works = false;
        let Ok(()) = write_call(self.alloc, &mut self.writer, by, call) else {
            return Err(NoAnswer);
        };
        let Ok(answer) = read_reply(self.alloc, &mut self.reader) else {
            return Err(NoAnswer);
        };
        self.works = true;
        Ok(answer)
    }
}

impl<R: BufRead + Drop, W: Write + Drop> Session for Client<R, W> {
    ghost use Rattle.std.specs.Prelude.{IfOk, OnErr};
    ghost use Rattle.pana_calls.specs.Session.{alone};
    ghost use Rattle.pana_client.specs.Client.{IsAnswered, IsUnanswered};

    ghost step = { IsAnswered R.remaining W.contents };

    ghost fails = { alone (IsUnanswered R.remaining W.contents) };

    /// Writes the call's line, and waits for the line of its answer. It takes memory for both, and for the answer.
    ///
    /// # Errors
    ///
    /// `NoAnswer` where a call before has got none; where a write or a read fails, or the reader ends; where memory runs
    /// out; and where the line that is read is the text of no answer, as that of a fault.
    fn call(&mut self, by: &DeviceName, call: Call) -> Result<Answer, NoAnswer>
        ensures step { IfOk result (λ answer. IsAnswered R.remaining W.contents self.old by.now call answer self.new) }
        ensures fails { OnErr result (IsUnanswered R.remaining W.contents self.old by.now call self.new) }
    {
        let answer = self.exchange(by, &call);
        drop(call);
        answer
    }

    /// Does nothing: the daemon keeps a report, where it keeps any, before it writes the answer.
    fn settle(&mut self) -> Result<(), NoAnswer> {
        Ok(())
    }
}
