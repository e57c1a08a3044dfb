//! The laws.

ghost use Rattle.std.specs.Prelude.{ℕ, IsTrue, List, Option};
ghost use Rattle.pana_shared.specs.declared.record.Record.{Record};
ghost use Rattle.pana_shared_laws.specs.Lives.{Life, Share};
ghost use Rattle.pana_shared_laws.specs.OneHistory.{IsOneHistory};

use pana_shared::SharedLog;

/// Any number of stores that share a log, each with a writer of its own, have one history.
pub fn stores_have_one_history<L: SharedLog>()
    ensures { IsTrue L.is_known → (stores : ℕ → Option Life) (records : List Record) → Share L.is_known stores records → IsOneHistory stores records }
{}
