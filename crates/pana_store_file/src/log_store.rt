//! The stores of logs in etcd.
ghost use Rattle.std.specs.Prelude.{◌≡◌, IfOk, IsTrue, [], false, is_some};

use pana_calls::{Answer, Call, Message, NoAnswer, Session};
use pana_copies::DeviceName;
use pana_etcd::{EtcdLog, TcpConnect};
use pana_shared::ReadFault;
use pana_shared_store::SharedStore;
use std::alloc::Global;
use std::marker::Model;

/// The store of a log in etcd. To contracts it is the entries that it has followed, and whether it is broken.
pub struct LogStore {
    store: SharedStore<EtcdLog<TcpConnect>>,
}

impl Drop for LogStore {
    fn drop(self) {
        let LogStore { store: _ } = self;
    }
}

impl Model for LogStore {
    ghost use Rattle.pana_store_file.specs.LogStore.{LogView};

    ghost Value = { LogView };

    ghost view = { λ log_store. record { entries = log_store.store.entries; broken = log_store.store.broken } };
}

impl LogStore {
    /// The store of a log, all of which is read. Nothing has been put into it by this writer. A stale one answers questions from what
    /// it has followed so far.
    ///
    /// # Errors
    ///
    /// Those of reading; `Foreign` also where an entry isn't the next one of a journal.
    pub(crate) fn open(
        alloc: Global,
        log: EtcdLog<TcpConnect>,
        is_stale: bool,
    ) -> Result<LogStore, ReadFault>
        ensures { IfOk result (λ store. store.broken ≡ false) }
    {
        let store = SharedStore::open(alloc, log, is_stale)?;
        Ok(LogStore { store })
    }

    /// The number of what stands in the log and is no entry, if that was met: no call is answered any more. Takes no memory.
    pub fn foreign(&self) -> Option<u64>
        ensures { is_some result ≡ self.now.broken }
    {
        self.store.foreign()
    }
}

impl Session for LogStore {
    ghost use Rattle.std.specs.Prelude.{◌≡◌, true};
    ghost use Rattle.pana_shared_store.specs.Store.{GoesOn};
    ghost use Rattle.pana_store_file.specs.LogStore.{Answers};

    ghost step = { Answers };

    ghost fails = { λ old calls new. GoesOn old.entries new.entries };

    ghost keeps_together = { true };

    /// Makes one call of a device, as `SharedStore` does.
    fn call(&mut self, by: &DeviceName, call: Call) -> Result<Answer, NoAnswer> {
        self.store.call(by, call)
    }

    /// Makes calls as `SharedStore` does.
    fn call_all(&mut self, calls: Vec<Message>, answers: &mut Vec<Answer>) -> Result<(), NoAnswer> {
        self.store.call_all(calls, answers)
    }

    /// Does nothing: what a call makes is kept before it is answered.
    fn settle(&mut self) -> Result<(), NoAnswer> {
        self.store.settle()
    }

    fn entries(&self) -> u64 {
        self.store.entries()
    }

    fn is_slow(&self) -> bool {
        self.store.is_slow()
    }

    fn is_shared(&self) -> bool {
        self.store.is_shared()
    }

    fn keeps_together(&self) -> bool {
        self.store.keeps_together()
    }

    fn may_recover(&self) -> bool {
        self.store.may_recover()
    }
}
