//! What is prepared, made in the hall or taken back.
ghost use Rattle.std.specs.Prelude.{◌≡◌, ◌++◌};
ghost use Rattle.pana_hall.specs.Prepared.{entries_of};

use pana_calls::Reply;
use pana_hall::{Hall, Prepared};
use std::mem;

/// Makes the entries that are prepared the next ones of their hall, and returns the reply.
pub(crate) fn commit_into(hall: &mut Hall, prepared: Prepared) -> Reply
    ensures hall { hall.new ≡ prepared.journal ++ entries_of prepared }
    ensures reply { result ≡ prepared.reply }
{
    let (made, reply) = prepared.commit();
    put_into(hall, made);
    reply
}

/// The same, where nobody asks for the reply.
pub(crate) fn commit_all(hall: &mut Hall, prepared: Prepared)
    ensures { hall.new ≡ prepared.journal ++ entries_of prepared }
{
    drop(commit_into(hall, prepared));
}

/// Leaves the hall without the entries that are prepared.
pub(crate) fn cancel_into(hall: &mut Hall, prepared: Prepared)
    ensures { hall.new ≡ prepared.journal }
{
    put_into(hall, prepared.cancel());
}

/// Puts a hall in the place of another.
pub(crate) fn put_into(hall: &mut Hall, made: Hall)
    ensures { hall.new ≡ made }
{
    drop(mem::replace(hall, made));
}
