//! Calls of a store, one after another: what the law of stores that share a log supposes of each of them.
ghost use Rattle.std.specs.Prelude.{◌≡◌, List, IfOk, IsTrue};
ghost use Rattle.pana_shared_store.specs.Store.{IsFresh};
ghost use Rattle.pana_shared_laws.specs.Lives.{Deed, IsLife, Life, Lives};
ghost use Rattle.pana_shared_tests.specs.Life.{Made, asked_in};

use pana_calls::{Answer, Call, NoAnswer, Session};
use pana_copies::DeviceName;
use pana_shared::{ReadFault, SharedLog};
use pana_shared_store::SharedStore;
use std::alloc::Global;

/// Makes one call of a device.
fn call_one<L: SharedLog>(
    store: &mut SharedStore<L>,
    by: DeviceName,
    call: Call,
) -> Result<Answer, NoAnswer>
    ensures { Made L.is_known store.old by call store.new }
{
    store.call(&by, call)
}

/// Makes calls of devices, and goes on where one has no answer. Returns how many had one.
pub fn call_all<L: SharedLog>(store: &mut SharedStore<L>, calls: Vec<(DeviceName, Call)>) -> u64
    ensures { (deeds : List Deed) × Lives L.is_known store.old deeds store.new × (asked_in deeds ≡ calls.items) }
{
    let mut answers: u64 = 0;
    for (by, call) in calls {
        if call_one(store, by, call).is_ok() {
            answers = answers.saturating_add(1);
        }
    }
    answers
}

/// Opens a store of a log, a stale one or not, and makes calls.
///
/// # Errors
///
/// As `SharedStore::open`.
pub fn live<L: SharedLog + Drop>(
    alloc: Global,
    log: L,
    is_stale: bool,
    calls: Vec<(DeviceName, Call)>,
) -> Result<SharedStore<L>, ReadFault>
    requires { IsTrue L.is_known → IsFresh (L.seen log) }
    ensures { IfOk result (λ store. IsTrue L.is_known → (life : Life) × IsLife L.is_known (L.seen log).writer store.seen.records life × (asked_in life.deeds ≡ calls.items) × (life.last ≡ store) × (life.opened.is_stale ≡ is_stale)) }
{
    let mut store = SharedStore::open(alloc, log, is_stale)?;
    call_all(&mut store, calls);
    Ok(store)
}
