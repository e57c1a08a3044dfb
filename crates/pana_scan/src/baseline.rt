//! What earlier scans of a device have found and reported.
ghost use Rattle.std.specs.Prelude.{◌≡◌, [], MatchResult, OnOk, OnErr};

use crate::ordering::path_order;
use crate::step::Step;
use pana_copies::CopyPath;
use std::alloc::{AllocError, Global};
use std::marker::Model;

/// A fingerprint, and the entry that had changed the copy last when it was taken.
#[derive(Clone, Copy, PartialEq, Eq)]
pub struct Mark {
    pub fingerprint: [u8; 32],
    pub touch: u64,
}

/// A path, and what is kept of it.
pub struct BaselineRow {
    pub path: CopyPath,
    pub mark: Mark,
}

impl Drop for BaselineRow {
    fn drop(self) {
        let BaselineRow { path: _, mark: _ } = self;
    }
}

/// What is kept of a device from one scan to the next: a row for each path that was found and reported, in byte order.
pub struct Baseline {
    rows: Vec<BaselineRow>,
}

impl Drop for Baseline {
    fn drop(self) {
        let Baseline { rows: _ } = self;
    }
}

impl Model for Baseline {
    ghost use Rattle.std.specs.Prelude.{List};
    ghost use Rattle.pana_scan.specs.declared.baseline.BaselineRow.{BaselineRow};
    ghost use Rattle.pana_scan.specs.Baseline.{MarksRise};

    ghost Value = { List BaselineRow };

    ghost view = { λ baseline. baseline.rows.items };

    ghost invariant = { λ baseline. MarksRise baseline.rows.items };
}

impl Baseline {
    ghost use Rattle.pana_scan.specs.Baseline.{MarksRise, settled, with_row, without};
    ghost use Rattle.pana_scan.specs.inner.Position.{IsAt, IsGap};

    /// The baseline without a row, before the first scan. Takes no memory.
    pub fn new(alloc: Global) -> Baseline
        ensures { result ≡ [] }
    {
        Baseline {
            rows: Vec::new(alloc),
        }
    }

    /// The baseline of these rows. Takes no memory.
    pub fn from_vec(rows: Vec<BaselineRow>) -> Baseline
        requires { MarksRise rows.items }
        ensures { result ≡ rows.items }
    {
        Baseline { rows }
    }

    /// The rows in byte order of their paths. Takes no memory.
    pub fn rows(&self) -> &[BaselineRow]
        ensures rows { result.now ≡ self.now }
        ensures rise { MarksRise self.now }
    {
        self.rows.as_slice()
    }

    /// After the report of this step is done, as the entry of this number: the row of its path has its fingerprint and
    /// this number, and after a Remove there is none. Fails only where memory runs out, and then changes nothing.
    ///
    /// O(n) for n rows, and O(log n) where the path is above all of them.
    pub fn settle(&mut self, step: &Step, entry: u64) -> Result<(), AllocError>
        ensures ok { OnOk result (self.new ≡ settled self.old step.now entry) }
        ensures err { OnErr result (self.new ≡ self.old) }
    {
        match step.fingerprint {
            Some(fingerprint) => self.put(
                &step.path,
                Mark {
                    fingerprint,
                    touch: entry,
                },
            ),
            None => {
                self.take_out(&step.path);
                Ok(())
            }
        }
    }

    fn put(&mut self, path: &CopyPath, mark: Mark) -> Result<(), AllocError>
        ensures ok { OnOk result (self.new ≡ with_row (record { path = path.now; mark = mark }) self.old) }
        ensures err { OnErr result (self.new ≡ self.old) }
    {
        match self.position(path) {
            Ok(at) => self.rows[at].mark = mark,
            Err(at) => {
                let path = path.copy_of()?;
                self.rows.insert(at, BaselineRow { path, mark })?;
            }
        }
        Ok(())
    }

    fn take_out(&mut self, path: &CopyPath)
        ensures { self.new ≡ without path.now self.old }
    {
        if let Ok(at) = self.position(path) {
            self.rows.remove(at);
        }
    }

    /// Where the row of this path is, or else where it goes.
    fn position(&self, path: &CopyPath) -> Result<usize, usize>
        ensures { MatchResult result (IsAt path.now self.now) (IsGap path.now self.now) }
    {
        self.rows
            .as_slice()
            .binary_search_by(|row| path_order(&row.path, path))
    }
}
