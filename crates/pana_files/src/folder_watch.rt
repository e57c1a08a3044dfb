//! What the program does while a folder is scanned.

use crate::naming::{NamedFolder, Naming};
use crate::progress::Progress;
use pana_scan::{Entry, Watch};
use std::alloc::AllocError;

/// Follows the scan of a folder: shows how far it is, and names what is passed over, where that is wanted. The threads of a scan
/// share it.
#[derive(Drop)]
pub struct FolderWatch<'a> {
    progress: Progress<'a>,
    naming: Option<Naming<'a>>,
}

impl<'a> FolderWatch<'a> {
    /// Before a scan, in which what is passed over is named where there is such a folder. Takes no memory.
    pub fn new(rt: &'a HostRuntime, named: Option<NamedFolder<'a>>) -> FolderWatch<'a> {
        FolderWatch {
            progress: Progress::new(rt),
            naming: match named {
                Some(folder) => Some(Naming::new(rt, folder)),
                None => None,
            },
        }
    }

    /// The watch, where it names what is passed over.
    pub fn naming(&self) -> Option<&FolderWatch<'a>> {
        match &self.naming {
            Some(_) => Some(self),
            None => None,
        }
    }

    /// Another folder is listed.
    pub(crate) fn begin_folder(&self) {
        if let Some(naming) = &self.naming {
            naming.begin_folder();
        }
    }

    /// What was met in the folder with this whole path.
    pub(crate) fn meet(&self, folder: &str, entry: &Entry) {
        if let Some(naming) = &self.naming {
            self.progress.clear();
            naming.name_entry(folder, entry);
        }
    }

    /// The file with this whole path can't be read.
    pub(crate) fn fail(&self, file: &str) {
        if let Some(naming) = &self.naming {
            self.progress.clear();
            naming.name_unread(file);
        }
    }

    /// Ends what is shown.
    ///
    /// # Errors
    ///
    /// `AllocError` where memory ran out for a line.
    pub fn end(self) -> Result<(), AllocError> {
        self.progress.end();
        match self.naming {
            Some(naming) => naming.end(),
            None => Ok(()),
        }
    }
}

impl Watch for FolderWatch<'_> {
    fn files_listed(&self, count: usize) {
        self.progress.files_listed(count);
    }

    fn file_begun(&self) {
        self.progress.file_begun();
    }

    fn bytes_read(&self, count: usize) {
        self.progress.bytes_read(count);
    }
}
