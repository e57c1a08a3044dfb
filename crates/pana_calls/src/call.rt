ghost use Rattle.std.specs.Prelude.{◌≡◌, IfOk};

use pana_copies::{DeviceName, Place, Sum};
use pana_journal::Report;
use std::alloc::{AllocError, Global};

/// What is asked of a hall. No query changes it.
#[derive(PartialEq, Eq)]
pub enum Query {
    /// Each family with a living copy.
    Families,
    /// The board of the family with this number.
    Board {
        family: u64,
    },
    /// The stamps of the living copies of the family with this number.
    Stamps {
        family: u64,
    },
    /// How the first copy relates to the second.
    Pair {
        a: u64,
        b: u64,
    },
    /// The living copies on this device: those with a number from this one on, at most 1,000; where there is none, all.
    Holdings {
        device: DeviceName,
        from: Option<u64>,
    },
    /// The living copy at this place, if one is there.
    At {
        place: Place,
    },
    /// The copies that are obsolete or in conflict, on this device, or where there is none on all: those with a number from this
    /// one on, at most 100.
    Status {
        device: Option<DeviceName>,
        from: u64,
    },
    /// The entries from this number on, at most 100.
    JournalFrom {
        entry: u64,
    },
    /// The same. Whoever asks would wait so many seconds for an entry with this number; a hall by itself answers at once.
    JournalAwaited {
        entry: u64,
        seconds: u64,
    },
    /// How many copies live, and on how many devices.
    Counts,
}

impl Drop for Query {
    fn drop(self) {
        match self {
            Query::Families => {}
            Query::Board { family: _ } => {}
            Query::Stamps { family: _ } => {}
            Query::Pair { a: _, b: _ } => {}
            Query::Holdings { device: _, from: _ } => {}
            Query::At { place: _ } => {}
            Query::Status { device: _, from: _ } => {}
            Query::JournalFrom { entry: _ } => {}
            Query::JournalAwaited {
                entry: _,
                seconds: _,
            } => {}
            Query::Counts => {}
        }
    }
}

/// What was seen at a place, by whoever looks at files and knows no numbers of copies.
#[derive(PartialEq, Eq, Drop)]
pub enum Sighting {
    /// A file is there, whose bytes have this sum.
    Found { place: Place, sum: Sum },
    /// No file is there.
    Missing { place: Place },
}

/// What a session or a scanner sends to a hall: it reports a change, or what it saw, or asks for an answer.
#[derive(PartialEq, Eq, Drop)]
pub enum Call {
    Report(Report),
    Sighting(Sighting),
    Query(Query),
}

impl Sighting {
    /// The same sighting once more. Fails only where memory runs out.
    pub fn copy_of(&self, alloc: Global) -> Result<Sighting, AllocError>
        ensures { IfOk result (λ copy. copy ≡ self.now) }
    {
        Ok(match self {
            Sighting::Found { place, sum } => Sighting::Found {
                place: place.copy_of()?,
                sum: sum.copy_of(alloc)?,
            },
            Sighting::Missing { place } => Sighting::Missing {
                place: place.copy_of()?,
            },
        })
    }
}

impl Query {
    /// The same question once more. Fails only where memory runs out.
    pub fn copy_of(&self) -> Result<Query, AllocError>
        ensures { IfOk result (λ copy. copy ≡ self.now) }
    {
        Ok(match self {
            Query::Families => Query::Families,
            Query::Board { family } => Query::Board { family: *family },
            Query::Stamps { family } => Query::Stamps { family: *family },
            Query::Pair { a, b } => Query::Pair { a: *a, b: *b },
            Query::Holdings { device, from } => Query::Holdings {
                device: device.copy_of(),
                from: *from,
            },
            Query::At { place } => Query::At {
                place: place.copy_of()?,
            },
            Query::Status {
                device: Some(device),
                from,
            } => Query::Status {
                device: Some(device.copy_of()),
                from: *from,
            },
            Query::Status { device: None, from } => Query::Status {
                device: None,
                from: *from,
            },
            Query::JournalFrom { entry } => Query::JournalFrom { entry: *entry },
            Query::JournalAwaited { entry, seconds } => Query::JournalAwaited {
                entry: *entry,
                seconds: *seconds,
            },
            Query::Counts => Query::Counts,
        })
    }
}

impl Call {
    /// The same call once more. Fails only where memory runs out.
    pub fn copy_of(&self, alloc: Global) -> Result<Call, AllocError>
        ensures { IfOk result (λ copy. copy ≡ self.now) }
    {
        Ok(match self {
            Call::Report(report) => Call::Report(report.copy_of(alloc)?),
            Call::Sighting(sighting) => Call::Sighting(sighting.copy_of(alloc)?),
            Call::Query(query) => Call::Query(query.copy_of()?),
        })
    }
}
