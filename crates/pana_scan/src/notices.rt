//! What a scan notices, and the calls that report it.
ghost use Rattle.std.specs.Prelude.{◌≡◌, IfOk};
ghost use Rattle.pana_scan.specs.Notice.{call_of};

use pana_calls::{Call, Sighting};
use pana_copies::{CopyPath, DeviceName, Place, Sum};
use pana_journal::Report;
use pana_list::PlainList;
use std::alloc::{AllocError, Global};

/// What a scan notices at one path.
#[derive(Drop)]
pub enum Notice {
    /// The file of this copy, which is gone from its path, is at this one.
    Renamed { copy: u64, path: CopyPath },
    /// A file is there, whose bytes have this sum.
    Found { path: CopyPath, sum: Sum },
    /// No file is there, and a copy was.
    Missing { path: CopyPath },
}

/// Notices in the order in which they are to be reported.
pub type NoticeList = PlainList<Notice>;

impl Notice {
    /// The call that reports this of a device. Fails only where memory runs out.
    pub fn call(&self, alloc: Global, device: &DeviceName) -> Result<Call, AllocError>
        ensures { IfOk result (λ call. call ≡ call_of device.now self.now) }
    {
        Ok(match self {
            Notice::Renamed { copy, path } => Call::Report(Report::Relocate {
                copy: *copy,
                place: place(device, path)?,
            }),
            Notice::Found { path, sum } => Call::Sighting(Sighting::Found {
                place: place(device, path)?,
                sum: sum.copy_of(alloc)?,
            }),
            Notice::Missing { path } => Call::Sighting(Sighting::Missing {
                place: place(device, path)?,
            }),
        })
    }
}

/// The path on the device.
fn place(device: &DeviceName, path: &CopyPath) -> Result<Place, AllocError>
    ensures { IfOk result (λ place. place ≡ record { device = device.now; path = path.now }) }
{
    Ok(Place {
        device: device.copy_of(),
        path: path.copy_of()?,
    })
}
