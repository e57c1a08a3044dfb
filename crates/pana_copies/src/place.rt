ghost use Rattle.std.specs.Prelude.{◌≡◌, IfOk};

use crate::copy_path::CopyPath;
use crate::device_name::DeviceName;
use std::alloc::AllocError;

/// Where a copy is kept: a path on a device.
#[derive(Debug, PartialEq, Eq, Hash)]
pub struct Place {
    pub device: DeviceName,
    pub path: CopyPath,
}

impl Drop for Place {
    fn drop(self) {
        let Place { device: _, path: _ } = self;
    }
}

impl Place {
    /// The same place once more. Fails only where memory runs out.
    pub fn copy_of(&self) -> Result<Place, AllocError>
        ensures { IfOk result (λ place. place ≡ self.now) }
    {
        let device = self.device.copy_of();
        let path = self.path.copy_of()?;
        Ok(Place { device, path })
    }

    /// The path, where the device is wanted no more. Takes no memory.
    pub fn into_path(self) -> CopyPath
        ensures { result ≡ self.path }
    {
        let Place { device: _, path } = self;
        path
    }
}
