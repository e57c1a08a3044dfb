//! The sums of files, which several disks read and keep.
ghost use Rattle.std.specs.Prelude.{◌≡◌, ◌⊎◌, [], IfOk, OnOk};
ghost use Rattle.pana_sums.specs.Table.{all_inserted, sum_of};

use pana_sums::{Signature, SumTable};
use std::alloc::{AllocError, Global};
use std::marker::Model;
use std::sync::Arc;

/// Sums that are known. Any number of disks have them at once, and none changes them.
pub struct KnownSums {
    table: Option<Arc<SumTable, Global>>,
}

impl Drop for KnownSums {
    fn drop(self) {
        let KnownSums { table: _ } = self;
    }
}

impl Model for KnownSums {
    ghost use Rattle.std.specs.Prelude.{List};
    ghost use Rattle.std.specs.Arc.{arc_value};
    ghost use Rattle.pana_sums.specs.Table.{Row};
    ghost use Rattle.pana_scan.specs.Quick.{rows_in};

    ghost Value = { List Row };

    ghost view = { λ known. rows_in arc_value known.table };
}

impl KnownSums {
    /// No sum is known. Takes no memory.
    pub fn none() -> KnownSums
        ensures { result ≡ [] }
    {
        KnownSums { table: None }
    }

    /// The sums of this table are known.
    ///
    /// # Errors
    ///
    /// `AllocError` where an allocation failed.
    pub fn of(alloc: Global, table: SumTable) -> Result<KnownSums, AllocError>
        ensures { IfOk result (λ known. known ≡ table) }
    {
        let table = Arc::new(alloc, table)?;
        Ok(KnownSums { table: Some(table) })
    }

    /// The same sums for another disk, in the same memory.
    ///
    /// # Errors
    ///
    /// `AllocError` where there are too many disks.
    pub fn share(&self) -> Result<KnownSums, AllocError>
        ensures { IfOk result (λ known. known ≡ self.now) }
    {
        let Some(table) = &self.table else {
            return Ok(KnownSums::none());
        };
        let table = Arc::try_clone(table)?;
        Ok(KnownSums { table: Some(table) })
    }

    /// The SHA-256 that is known of this signature. Takes no memory; O(1) on average.
    pub fn get(&self, signature: &Signature) -> Option<[u8; 32]>
        ensures { result ≡ sum_of self.now signature.now }
    {
        match &self.table {
            Some(table) => table.get(signature),
            None => None,
        }
    }
}

/// The sums of files: those that earlier scans have read, and those that are kept for the next one.
#[derive(Drop)]
pub struct Sums {
    pub known: KnownSums,
    pub kept: SumTable,
}

impl Sums {
    /// These are known, and none is kept. Takes no memory.
    pub fn of(alloc: Global, known: KnownSums) -> Sums
        ensures known { result.known ≡ known }
        ensures kept { result.kept ≡ [] }
    {
        Sums {
            known,
            kept: SumTable::new(alloc),
        }
    }

    /// No sum is known, and none is kept. Takes no memory.
    pub fn none(alloc: Global) -> Sums
        ensures known { result.known ≡ [] }
        ensures kept { result.kept ≡ [] }
    {
        Sums::of(alloc, KnownSums::none())
    }

    /// The sums for the next scan: those that were kept are known. Where memory runs out none is known, and that scan reads
    /// all files.
    pub fn next(self, alloc: Global) -> Sums
        ensures known { (result.known ≡ self.kept) ⊎ (result.known ≡ []) }
        ensures kept { result.kept ≡ [] }
    {
        match KnownSums::of(alloc, self.kept) {
            Ok(known) => Sums::of(alloc, known),
            Err(_) => Sums::none(alloc),
        }
    }

    /// The sums for another disk: the same are known, and none is kept.
    ///
    /// # Errors
    ///
    /// `AllocError` where there are too many disks.
    pub fn share(&self, alloc: Global) -> Result<Sums, AllocError>
        ensures known { IfOk result (λ sums. sums.known ≡ self.now.known) }
        ensures kept { IfOk result (λ sums. sums.kept ≡ []) }
    {
        Ok(Sums::of(alloc, self.known.share()?))
    }

    /// Keeps what another disk has kept, too.
    ///
    /// # Errors
    ///
    /// `AllocError` where an allocation failed. Some of them are kept then.
    pub fn take_in(&mut self, other: &Sums) -> Result<(), AllocError>
        ensures known { self.new.known ≡ self.old.known }
        ensures kept { OnOk result (self.new.kept ≡ all_inserted self.old.kept other.now.kept) }
    {
        self.kept.insert_all(&other.kept)
    }
}
