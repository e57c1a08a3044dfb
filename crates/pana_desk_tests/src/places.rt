//! Places, for the tests.

use pana_copies::{CopyPath, DeviceName, NameFault, Place};
use std::alloc::Global;

/// The place with this path on this device.
pub fn place(alloc: Global, device: &str, path: &str) -> Result<Place, NameFault> {
    Ok(Place {
        device: DeviceName::new(device)?,
        path: CopyPath::new(alloc, path)?,
    })
}
