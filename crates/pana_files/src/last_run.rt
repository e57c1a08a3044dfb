//! What a run of `track` that had nothing to report printed, kept in a file beside its journal. A later run that finds the journal and
//! the folders as they were then prints it again, and reads neither the journal nor a file.

use crate::folders::{ReadingWishes, own_files};
use crate::last_file::{HEAD, Kept, file_of, kept_in};
use crate::look::Look;
use crate::own_file::{bytes_of, may_replace, replace};
use crate::patterns::{OwnFile, RootPatterns, patterns_with, report_own};
use pana_roots::Root;
use pana_scan::Listing;
use pana_track::ReadFolder;
use std::alloc::AllocError;
use std::time::Clock;

/// How many bytes the file has at most.
const MOST_BYTES: u64 = 16_777_216;

/// A text that was printed, and the status with it.
#[derive(Drop)]
pub struct Printed {
    pub text: String,
    pub status: u8,
}

/// A run of `track` on a journal's file.
#[derive(Clone, Copy)]
pub struct TrackRun<'a> {
    rt: &'a HostRuntime,
    journal: &'a str,
    roots: &'a [Root<'a>],
    wishes: ReadingWishes<'a>,
    asked: &'a str,
    /// The second of the system's clock at which it began.
    begun: i64,
    /// How the journal looked then.
    look: [u8; 32],
}

/// How a journal looks: by the digest at the end of its last line, all that stands before is as it was.
fn journal_look(rt: &HostRuntime, journal: &str, begun: i64) -> Option<[u8; 32]> {
    let mut look = Look::new(rt, begun);
    look.take_end_of(journal)?;
    Some(look.end())
}

impl<'a> TrackRun<'a> {
    /// A run that begins now, where the system has a time, there is a journal, and what is printed may be kept: nothing is named, and
    /// not all files are to be read. Beside its wishes stands all else that decides what it prints.
    pub fn begin(
        rt: &'a HostRuntime,
        journal: &'a str,
        roots: &'a [Root<'a>],
        wishes: ReadingWishes<'a>,
        asked: &'a str,
    ) -> Option<TrackRun<'a>> {
        if wishes.is_verbose || wishes.reads_all {
            return None;
        }
        let begun = i64::try_from(rt.since_1970().ok()?.as_secs()).ok()?;
        let look = journal_look(rt, journal, begun)?;
        Some(TrackRun {
            rt,
            journal,
            roots,
            wishes,
            asked,
            begun,
            look,
        })
    }

    /// The name of the file.
    fn name(&self) -> Option<String> {
        format!(in self.rt.alloc(); "{}.last", self.journal).ok()
    }

    /// The digest of how the journal looked as the run began, and of all that is asked for.
    fn asked_look(&self) -> [u8; 32] {
        let mut look = Look::new(self.rt, self.begun);
        look.take_digest(&self.look);
        look.take_text(self.asked);
        look.take_text(if self.wishes.stays { "stays" } else { "enters" });
        for text in self.wishes.ignored {
            look.take_text(text);
        }
        for root in self.roots {
            look.take_text("");
            look.take_text(root.device.as_str());
            look.take_text(root.folder);
        }
        look.end()
    }

    /// How the folders look. Where they were scanned, just the files that were found have to be there.
    fn folders_look(&self, scanned: &[&Listing]) -> Option<[u8; 32]> {
        let own = own_files(self.rt, self.wishes).ok()?;
        let patterns = patterns_with(self.rt, self.roots, own.as_slice(), self.wishes.ignored);
        drop(own);
        self.look_without(patterns.ok()?.as_slice(), scanned)
    }

    /// How the folders look without what these patterns ignore.
    fn look_without(&self, all: &[RootPatterns], scanned: &[&Listing]) -> Option<[u8; 32]> {
        let mut look = Look::new(self.rt, self.begun);
        for (at, patterns) in all.iter().enumerate() {
            let found = match scanned.get(at) {
                Some(listing) => Some(listing.rows()),
                None => None,
            };
            let slices = patterns.slices(self.rt).ok()?;
            let stays = self.wishes.stays;
            look.take_root(patterns.folder(), slices.as_slice(), stays, found)?;
        }
        Some(look.end())
    }

    /// What is to be printed, where all is as it was in a run that had nothing to report.
    fn found(&self) -> Option<Printed> {
        let bytes = bytes_of(self.rt, self.name()?.as_str(), MOST_BYTES).ok()?;
        let kept = kept_in(bytes.as_slice())?;
        if kept.asked != self.asked_look() || kept.folders != self.folders_look(&[])? {
            return None;
        }
        Some(Printed {
            text: String::from_str(self.rt.alloc(), kept.text).ok()?,
            status: kept.status,
        })
    }

    /// What this run is to print, where all is as it was in a run that had nothing to report. Which of the program's own files are
    /// passed over is printed then.
    pub fn printed(&self) -> Result<Option<Printed>, AllocError> {
        let found = self.found();
        if found.is_some() {
            report_own(
                self.rt,
                self.roots,
                own_files(self.rt, self.wishes)?.as_slice(),
            )?;
        }
        Ok(found)
    }

    /// The listings of all folders, if each was read.
    fn listings<'b>(&self, folders: &'b [ReadFolder]) -> Option<Vec<&'b Listing>> {
        let mut listings = Vec::new(self.rt.alloc());
        for folder in folders {
            match &folder.given {
                Ok(found) => listings.push(&found.listing).ok()?,
                Err(_) => return None,
            }
        }
        Some(listings)
    }

    /// The file that says what was printed; none where the journal isn't as it was, or the folders aren't as they were read, or may
    /// still change and look the same.
    fn file_of(&self, folders: &[ReadFolder], text: &str, status: u8) -> Option<Vec<u8>> {
        if self.look != journal_look(self.rt, self.journal, self.begun)? {
            return None;
        }
        let kept = Kept {
            asked: self.asked_look(),
            folders: self.folders_look(self.listings(folders)?.as_slice())?,
            status,
            text,
        };
        file_of(self.rt.alloc(), &kept).ok()
    }

    /// Keeps what this run has printed, where it may be printed again while all is as it is: the run had nothing to report, since the
    /// journal is as it was, the files are those that it has read, and all have been as they are since some seconds before.
    pub fn keep(&self, folders: &[ReadFolder], text: &str, status: u8) {
        let Some(name) = self.name() else {
            return;
        };
        if !may_replace(self.rt, name.as_str(), HEAD) {
            return;
        }
        if let Some(bytes) = self.file_of(folders, text, status) {
            let _ = replace(self.rt, name.as_str(), bytes.as_slice());
        }
    }
}
