//! What it costs to grow.
ghost use Rattle.std.specs.Prelude.{◌≡◌, ◌+◌, ◌^◌, ◌<◌};
ghost use Rattle.pana_stamp.specs.Cost.{is_cheaper, one_up};

/// What it costs to grow at a place.
#[derive(Clone, Copy, PartialEq, Eq)]
pub struct Cost {
    /// The number of steps to the place at which a leaf of the event is opened.
    pub opened: u32,
    /// The number of steps from the root to the place.
    pub levels: u32,
}

impl Cost {
    /// Whether this costs less: the leaves are compared first, then the steps. Takes no memory.
    pub fn is_below(self, other: Cost) -> bool
        ensures { result ≡ is_cheaper self other }
    {
        self.opened < other.opened || (self.opened == other.opened && self.levels < other.levels)
    }

    /// The cost one level up, where a step opened so many leaves.
    pub(crate) fn one_up(self, opened: u32) -> Cost
        requires opened { self.opened + opened < 2 ^ 32 }
        requires levels { self.levels + 1 < 2 ^ 32 }
        ensures { result ≡ one_up opened self }
    {
        Cost {
            opened: self.opened + opened,
            levels: self.levels + 1,
        }
    }
}
