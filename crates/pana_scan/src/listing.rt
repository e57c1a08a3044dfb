//! What a scan of a folder finds.
ghost use Rattle.std.specs.Prelude.{◌≡◌, ◌↔◌, [], ◌∷◌, ◌++◌, IsTrue, OnOk, OnErr};

use pana_copies::{CopyPath, DeviceName};
use std::alloc::{AllocError, Global};
use std::marker::Model;

/// What a scan finds at a path.
#[derive(Clone, Copy, PartialEq, Eq)]
pub enum Found {
    /// A file with this fingerprint, the SHA-256 of its bytes.
    Seen([u8; 32]),
    /// A file that couldn't be read.
    Unreadable,
}

/// A path, and what a scan finds there.
#[derive(PartialEq, Eq)]
pub struct FoundRow {
    pub path: CopyPath,
    pub found: Found,
}

impl Drop for FoundRow {
    fn drop(self) {
        let FoundRow { path: _, found: _ } = self;
    }
}

/// What a scan finds on a device: paths that rise in byte order, and how many names were passed over.
pub struct Listing {
    device: DeviceName,
    rows: Vec<FoundRow>,
    skipped: u64,
}

impl Drop for Listing {
    fn drop(self) {
        let Listing {
            device: _,
            rows: _,
            skipped: _,
        } = self;
    }
}

impl Model for Listing {
    ghost use Rattle.pana_scan.specs.Listing.{Contents, RowsRise};

    ghost Value = { Contents };

    ghost view = { λ listing. record { device = listing.device; rows = listing.rows.items; skipped = listing.skipped } };

    ghost invariant = { λ listing. RowsRise listing.rows.items };
}

impl Listing {
    ghost use Rattle.pana_scan.specs.Listing.{RowsRise, IsAbove, counted};

    /// The listing of this device without a path. Takes no memory.
    pub fn new(alloc: Global, device: DeviceName) -> Listing
        ensures { result ≡ record { device = device; rows = []; skipped = 0 } }
    {
        Listing {
            device,
            rows: Vec::new(alloc),
            skipped: 0,
        }
    }

    /// The listing of this device with these rows, and so many names that were passed over. Takes no memory.
    pub(crate) fn of_rows(device: DeviceName, rows: Vec<FoundRow>, skipped: u64) -> Listing
        requires { RowsRise rows.items }
        ensures { result ≡ record { device = device; rows = rows.items; skipped = skipped } }
    {
        Listing {
            device,
            rows,
            skipped,
        }
    }

    /// The device. Takes no memory.
    pub fn device(&self) -> &DeviceName
        ensures { result.now ≡ self.now.device }
    {
        &self.device
    }

    /// The paths in byte order, with what is found at each. Takes no memory.
    pub fn rows(&self) -> &[FoundRow]
        ensures rows { result.now ≡ self.now.rows }
        ensures rise { RowsRise self.now.rows }
    {
        self.rows.as_slice()
    }

    /// How many names were passed over. Takes no memory.
    pub fn skipped(&self) -> u64
        ensures { result ≡ self.now.skipped }
    {
        self.skipped
    }

    /// Whether the path is above all that are there. Takes no memory.
    pub fn is_above(&self, path: &CopyPath) -> bool
        ensures { IsTrue result ↔ IsAbove self.now.rows path.now }
    {
        match self.rows.last() {
            Some(last) => last.path.as_str() < path.as_str(),
            None => true,
        }
    }

    /// Puts a path at the end, above all that are there. Fails only where memory runs out, and then changes nothing.
    pub fn push(&mut self, path: CopyPath, found: Found) -> Result<(), AllocError>
        requires { IsAbove self.old.rows path }
        ensures ok { OnOk result (self.new ≡ record self.old { rows = self.old.rows ++ record { path = path; found = found } ∷ [] }) }
        ensures err { OnErr result (self.new ≡ self.old) }
    {
        self.rows.push(FoundRow { path, found })?;
        Ok(())
    }

    /// Counts this many names more that were passed over. The count stays at the greatest `u64`. Takes no memory.
    pub fn skip(&mut self, names: u64)
        ensures { self.new ≡ record self.old { skipped = counted self.old.skipped names } }
    {
        self.skipped = self.skipped.saturating_add(names);
    }
}
