use crate::answer::{Answer, NoAnswer};
use crate::call::Call;
use crate::message::Message;
use pana_copies::DeviceName;

/// What answers the calls of a session: a hall, or a share in one.
pub trait Session {
    ghost use Rattle.std.specs.Prelude.{◌≡◌, ◌+◌, ◌≤◌, Bool, List, ℕ, IfOk, OnOk, OnErr, false, length, true, vec_len, vec_capacity};
    ghost use Rattle.pana_calls.specs.declared.call.Call.{Call};
    ghost use Rattle.pana_calls.specs.declared.answer.Answer.{Answer};
    ghost use Rattle.pana_calls.specs.declared.message.Message.{Message};
    ghost use Rattle.pana_calls.specs.Session.{AddsAll, AddsSome, one};

    // What one call does: the state, the device that calls, its call, the answer, and the state after.
    ghost step: { Self → List ℕ → Call → Answer → Self → Type 0 };

    // How many things have happened to what the session keeps its state in.
    ghost moment: { Self → ℕ } = { λ s. 0 };

    // What calls do that have no answers: the state, the calls in their order, and the state after. An impl may leave it open.
    ghost fails: { Self → List Message → Self → Type 0 } = { λ old calls new. Unit {0} };

    // Whether it may keep what several calls make together, where they are made by one `call_all`.
    ghost keeps_together: { Bool } = { false };

    // What it is to settle: the state before and after. Nothing, where each call is kept once it is made.
    ghost settles: { Self → Self → Type 0 } = { λ old new. new ≡ old };

    // What is left where the calls can't be kept.
    ghost breaks_off: { Self → Self → Type 0 } = { λ old new. ⊥ };

    /// Makes a call for the device.
    fn call(&mut self, by: &DeviceName, call: Call) -> Result<Answer, NoAnswer>
        ensures step { IfOk result (λ answer. step self.old by.now call answer self.new) }
        ensures fails { OnErr result (one fails self.old by.now call self.new) };

    /// Makes calls one after another, and adds their answers to those that are given. A session may keep the entries of several at
    /// once, so where one has no answer, those next to it may have none either. Those before them are answered.
    ///
    /// # Errors
    ///
    /// `NoAnswer` where one or more have none. None is made behind them.
    fn call_all(&mut self, calls: Vec<Message>, answers: &mut Vec<Answer>) -> Result<(), NoAnswer>
        requires room { vec_len answers.old + length calls.items ≤ vec_capacity answers.old }
        ensures step { OnOk result (AddsAll step self.old calls.items answers.old.items answers.new.items self.new) }
        ensures fails { OnErr result (AddsSome step fails self.old calls.items answers.old.items answers.new.items self.new) }
    {
        for Message { by, call } in calls {
            let answer = self.call(&by, call)?;
            answers.push_reserved(answer);
        }
        Ok(())
    }

    /// Keeps what the calls so far have made. Until then their answers mustn't be given to anybody.
    ///
    /// # Errors
    ///
    /// `NoAnswer` where they can't be kept: none of those since the last time has an answer.
    fn settle(&mut self) -> Result<(), NoAnswer>
        ensures settles { OnOk result (settles self.old self.new) }
        ensures breaks_off { OnErr result (breaks_off self.old self.new) };

    /// How many entries its journal has, as far as it knows: for who waits for a further one, and no part of any answer.
    fn entries(&self) -> u64 {
        0
    }

    /// Whether a report takes as long as a disk does.
    fn is_slow(&self) -> bool {
        false
    }

    /// Whether its journal grows by others' calls too, of which it learns only when it is called.
    fn is_shared(&self) -> bool {
        false
    }

    /// Whether it keeps what several calls make together, where they are made by one `call_all`: such a list takes no longer than one
    /// call.
    fn keeps_together(&self) -> bool
        ensures { result ≡ true → keeps_together ≡ true }
    {
        false
    }

    /// Whether calls may have answers again, though one had none.
    fn may_recover(&self) -> bool {
        false
    }
}
