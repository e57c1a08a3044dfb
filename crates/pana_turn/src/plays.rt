use crate::finished_call::FinishedCall;
use crate::machine::Machine;
use crate::view::View;
use atomic_table::{Join, Play, Split};
use std::marker::{Brand, PhantomData};

/// A look at how many calls are finished.
pub(crate) struct Glance<M> {
    of: PhantomData<M>,
}

impl<M: Machine> Play<Option<M>, View<M, M::Call, M::Reply>> for Glance<M> {
    ghost use Rattle.pana_turn.specs.inner.Steps.{Glances};

    ghost then = { λ _. Glances M.step };
}

/// The same, before a ticket is drawn: are calls left?
pub(crate) struct Test<M> {
    of: PhantomData<M>,
}

impl<M: Machine> Play<Option<M>, View<M, M::Call, M::Reply>> for Test<M> {
    ghost use Rattle.pana_turn.specs.inner.Steps.{Tests};

    ghost then = { λ _. Tests M.step };
}

/// A ticket is drawn.
pub(crate) struct Draw;

impl<M: Machine> Play<Option<M>, View<M, M::Call, M::Reply>> for Draw {
    ghost use Rattle.pana_turn.specs.inner.Steps.{Draws};

    ghost then = { λ _. Draws };
}

/// A look at how many calls are finished, with a ticket: where the turn has come, it takes the machine.
pub(crate) struct Await<M> {
    of: PhantomData<M>,
}

impl<M: Machine> Play<Option<M>, View<M, M::Call, M::Reply>> for Await<M> {
    ghost use Rattle.pana_turn.specs.inner.Steps.{Awaits};

    ghost then = { λ _. Awaits M.step };
}

/// Names the call that is finished, as the one of a list. A step can't see it, so whoever makes the step picks it.
pub(crate) trait Naming<S, C, R> {
    ghost use Rattle.std.specs.Prelude.{List};
    ghost use Rattle.pana_turn.specs.declared.finished_call.FinishedCall.{FinishedCall};

    ghost finished: { List (FinishedCall S C R) };
}

impl<S, C, R> Naming<S, C, R> for Brand {
    ghost use Rattle.std.specs.Prelude.{[]};

    ghost finished = { [] };
}

/// The call is finished, and the machine goes back to its slot.
pub(crate) struct Finish<M, N> {
    of: PhantomData<(M, N)>,
}

impl<M: Machine, N: Naming<M, M::Call, M::Reply>> Play<Option<M>, View<M, M::Call, M::Reply>>
    for Finish<M, N> {
    ghost use Rattle.pana_turn.specs.inner.Steps.{Finishes};

    ghost then = { λ _. Finishes M.step N.finished };
}

/// A seat for one pass is divided off from the first seat; at the end it is taken in again.
pub(crate) struct Dealing;

impl<S, C, R> Split<View<S, C, R>> for Dealing {
    ghost use Rattle.pana_turn.specs.inner.Views.{dealt, kept};

    ghost left = { kept };

    ghost right = { dealt };
}

impl<S, C, R> Join<View<S, C, R>> for Dealing {
    ghost use Rattle.pana_turn.specs.inner.Views.{gathered, spent};

    ghost both = { gathered };

    ghost spent = { spent };
}

/// A seat that speaks for no pass is divided off, and is taken in by the seat that meets it.
pub(crate) struct Noting;

impl<S, C, R> Split<View<S, C, R>> for Noting {
    ghost use Rattle.pana_turn.specs.inner.Views.{noted};

    ghost left = { λ view. view };

    ghost right = { noted };
}

impl<S, C, R> Join<View<S, C, R>> for Noting {
    ghost use Rattle.pana_turn.specs.inner.Views.{informed, spent};

    ghost both = { informed };

    ghost spent = { spent };
}
