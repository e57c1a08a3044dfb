ghost use Rattle.std.specs.Prelude.{true, false, []};

use crate::device::Device;
use crate::device_fault::DeviceFault;
use std::alloc::Global;
use std::fs;
use std::fs::File;
use std::io::{self, ErrorKind, Read, Seek, SeekFrom};
use std::os::unix::fs::{FileExt, MetadataExt};

/// A file of the system, with the name by which it is found. Nothing is known of its bytes, so nothing is proved of what
/// its calls do.
pub struct FileDevice {
    rt: HostRuntime,
    name: String,
    file: File,
}

impl Drop for FileDevice {
    fn drop(self) {
        let FileDevice {
            rt: _,
            name: _,
            file: _,
        } = self;
    }
}

impl FileDevice {
    /// The device of a file with this name, opened to read and write, and not to append: there a write would go to the
    /// end. A sync fails once the name leads to another file, or to none.
    pub fn new(rt: HostRuntime, name: String, file: File) -> FileDevice {
        FileDevice { rt, name, file }
    }

    /// Whether the file is a regular one, and the one that its name leads to now.
    pub fn is_named(&self) -> io::Result<bool> {
        let found = self.file.metadata()?;
        let named = fs::metadata(&self.rt, self.name.as_str())?;
        Ok(found.is_file() && found.dev() == named.dev() && found.ino() == named.ino())
    }

    fn sync_named(&self) -> io::Result<()> {
        self.file.sync_data()?;
        if self.is_named()? {
            Ok(())
        } else {
            Err(ErrorKind::NotFound.into())
        }
    }
}

fn fault_of(error: &io::Error) -> DeviceFault {
    match error.kind() {
        ErrorKind::OutOfMemory => DeviceFault::OutOfMemory,
        ErrorKind::StorageFull | ErrorKind::QuotaExceeded | ErrorKind::FileTooLarge => {
            DeviceFault::StorageFull
        }
        _ => DeviceFault::Failed,
    }
}

fn read_all(file: &mut File, alloc: Global) -> io::Result<Vec<u8>> {
    let mut bytes = Vec::new(alloc);
    file.seek(SeekFrom::Start(0))?;
    file.read_to_end(&mut bytes)?;
    Ok(bytes)
}

impl Device for FileDevice {
    ghost use Rattle.std.specs.Prelude.{◌≡◌};

    ghost is_known = { false };

    ghost seen = { λ _. [] };

    ghost may_leave = { λ _ c. c ≡ [] };

    ghost moment = { λ _. 0 };

    ghost left_since = { λ _ t c. c ≡ [] };

    ghost is_usable = { λ _. true };

    ghost has_failed = { λ _. true };

    ghost counts_now = { λ f t c le now. now };

    ghost only_now = { λ f c left. left };

    fn read(&mut self, alloc: Global) -> Result<Vec<u8>, DeviceFault> {
        read_all(&mut self.file, alloc).map_err(|error| fault_of(&error))
    }

    fn write_at(&mut self, at: usize, bytes: &[u8]) -> Result<(), DeviceFault> {
        self.file
            .write_all_at(bytes, at as u64)
            .map_err(|error| fault_of(&error))
    }

    fn cut(&mut self, len: usize) -> Result<(), DeviceFault> {
        self.file
            .set_len(len as u64)
            .map_err(|error| fault_of(&error))
    }

    fn sync(&mut self) -> Result<(), DeviceFault> {
        self.sync_named().map_err(|error| fault_of(&error))
    }
}
