//! Holdings of a device in an answer.
ghost use Rattle.std.specs.Prelude.{◌≡◌, []};

use pana_copies::{CopyPath, Sum};
use std::alloc::Global;
use std::marker::Model;

/// A living copy on the device that was asked for, the entry that changed it last, and the sum of what it holds, where that is
/// known.
#[derive(PartialEq, Eq)]
pub struct Holding {
    pub copy: u64,
    pub family: u64,
    pub path: CopyPath,
    pub sum: Option<Sum>,
    pub touch: u64,
}

impl Drop for Holding {
    fn drop(self) {
        let Holding {
            copy: _,
            family: _,
            path: _,
            sum: _,
            touch: _,
        } = self;
    }
}

/// Copies on one device, no two of them with one path. To contracts it is the list of them.
pub struct HoldingList {
    holdings: Vec<Holding>,
}

impl Drop for HoldingList {
    fn drop(self) {
        let HoldingList { holdings: _ } = self;
    }
}

impl Model for HoldingList {
    ghost use Rattle.std.specs.Prelude.{List};
    ghost use Rattle.pana_calls.specs.declared.holding.Holding.{Holding};
    ghost use Rattle.pana_calls.specs.Holdings.{HaveOwnPaths};

    ghost Value = { List Holding };

    ghost view = { λ list. list.holdings.items };

    ghost invariant = { λ list. HaveOwnPaths list.holdings.items };
}

impl HoldingList {
    ghost use Rattle.pana_calls.specs.Holdings.{HaveOwnPaths};

    /// The list without holdings. Takes no memory.
    pub fn new(alloc: Global) -> HoldingList
        ensures { result ≡ [] }
    {
        HoldingList {
            holdings: Vec::new(alloc),
        }
    }

    /// The list of these holdings. Takes no memory.
    pub fn from_vec(holdings: Vec<Holding>) -> HoldingList
        requires { HaveOwnPaths holdings.items }
        ensures { result ≡ holdings.items }
    {
        HoldingList { holdings }
    }

    /// The holdings in order. Takes no memory.
    pub fn as_slice(&self) -> &[Holding]
        ensures holdings { result.now ≡ self.now }
        ensures apart { HaveOwnPaths self.now }
    {
        self.holdings.as_slice()
    }
}
