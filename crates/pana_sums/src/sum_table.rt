ghost use Rattle.std.specs.Prelude.{◌≡◌, ◌↔◌, [], List, ℕ, Some, IfOk, IfSome, IfNone, OnOk, OnErr, IsTrue, length, if◌then◌else◌, ◌||◌, is_some, nat_lt, ◌&&◌};
ghost use Rattle.std.specs.List.{flat_map};
ghost use Rattle.pana_sums.specs.Table.{Row, IsTable, all_inserted, inserted, same_signature, sum_of};
ghost use Rattle.pana_sums.specs.File.{file_of, record_of, IsWhole};

use crate::reading::{HEAD, records_of, row_in};
use crate::signature::Signature;
use crate::writing::push_record;
use indexmap::IndexMap;
use sha2::{Digest, Sha256};
use std::alloc::{AllocError, Global};
use std::marker::Model;

/// How many sums are kept at most.
const MOST_SUMS: usize = 4_000_000;

/// How many bytes a record has.
const RECORD: usize = 80;

/// The SHA-256 of files by their signatures: at most 4,000,000, and no signature twice.
///
/// A look-up takes O(1) time on average, and so does each change.
pub struct SumTable {
    sums: IndexMap<Signature, [u8; 32]>,
}

impl Drop for SumTable {
    fn drop(self) {
        let SumTable { sums: _ } = self;
    }
}

impl Model for SumTable {
    ghost use Rattle.std.specs.Prelude.{List};
    ghost use Rattle.pana_sums.specs.Table.{Row, IsTable};

    ghost Value = { List Row };

    ghost view = { λ table. table.sums.entries };

    ghost invariant = { λ table. IsTable table.sums.entries };
}

impl SumTable {
    /// A table of no sums. Takes no memory.
    pub fn new(alloc: Global) -> SumTable
        ensures { result ≡ [] }
    {
        SumTable {
            sums: IndexMap::new(alloc),
        }
    }

    /// How many sums are kept.
    pub fn len(&self) -> usize
        ensures len { result ≡ length self.now }
        ensures table { IsTable self.now }
    {
        self.sums.len()
    }

    /// Whether no sum is kept.
    pub fn is_empty(&self) -> bool
        ensures { IsTrue result ↔ (self.now ≡ []) }
    {
        self.sums.is_empty()
    }

    /// The SHA-256 that is kept for this signature. Takes no memory; O(1) on average.
    pub fn get(&self, signature: &Signature) -> Option<[u8; 32]>
        ensures { result ≡ sum_of self.now signature.now }
    {
        self.sums.get(signature).copied()
    }

    /// Keeps the SHA-256 of the file with this signature, in the place of the one before. Where 4,000,000 are kept, a new
    /// one isn't. Nothing changes where an allocation failed. O(1) on average.
    pub fn insert(&mut self, signature: Signature, digest: [u8; 32]) -> Result<(), AllocError>
        ensures ok { OnOk result (self.new ≡ inserted self.old signature digest) }
        ensures sums { OnOk result ((other : Signature) → sum_of self.new other ≡ (if same_signature signature other && (is_some (sum_of self.old signature) || nat_lt (length self.old) 4000000) then Some digest else sum_of self.old other)) }
        ensures err { OnErr result (self.new ≡ self.old) }
    {
        if self.sums.len() >= MOST_SUMS && !self.sums.contains_key(&signature) {
            return Ok(());
        }
        self.sums.insert(signature, digest)?;
        Ok(())
    }

    /// Keeps all sums of another table, one after another.
    ///
    /// # Errors
    ///
    /// `AllocError` where an allocation failed. Some of the sums are kept then.
    pub fn insert_all(&mut self, other: &SumTable) -> Result<(), AllocError>
        ensures { OnOk result (self.new ≡ all_inserted self.old other.now) }
    {
        for (signature, digest) in other.sums.iter() {
            self.insert(*signature, *digest)?;
        }
        Ok(())
    }

    /// The table's file: a line, a record of each sum, and the SHA-256 of all that. Fails only where memory runs out.
    pub fn to_bytes(&self, alloc: Global) -> Result<Vec<u8>, AllocError>
        ensures file { IfOk result (λ bytes. bytes.items ≡ file_of self.now) }
        ensures table { IsTable self.now }
    {
        let len = HEAD.len() + self.sums.len() * RECORD + 32;
        let mut bytes = Vec::with_capacity(alloc, len)?;
        bytes.extend_from_slice(HEAD)?;
        for (signature, digest) in self.sums.iter() {
            push_record(&mut bytes, signature, digest)?;
        }
        let digest = Sha256::digest(&bytes);
        bytes.extend_from_slice(&digest)?;
        Ok(bytes)
    }

    /// The table whose file these bytes are. None where they are no table's: the line isn't there, what follows isn't
    /// whole records, a signature stands twice, there are more than 4,000,000, or the digest at the end is another.
    ///
    /// # Errors
    ///
    /// `AllocError` where an allocation failed.
    pub fn from_bytes(alloc: Global, bytes: &[u8]) -> Result<Option<SumTable>, AllocError>
        ensures some { IfOk result (λ found. IfSome found (λ table. file_of table ≡ bytes.now)) }
        ensures table { IfOk result (λ found. IfSome found IsTable) }
        ensures none { IfOk result (λ found. IfNone found (¬ IsWhole bytes.now)) }

        // What `to_bytes` wrote is read as the table that it was.
        ensures all { (table : List Row) → IsTable table → file_of table ≡ bytes.now → IfOk result (λ found. found ≡ Some table) }
    {
        match records_of(bytes) {
            None => Ok(None),
            Some(records) => SumTable::from_records(alloc, records),
        }
    }

    /// The table whose records these bytes are, if they are some table's.
    ///
    /// # Errors
    ///
    /// `AllocError` where an allocation failed.
    fn from_records(alloc: Global, records: &[u8]) -> Result<Option<SumTable>, AllocError>
        ensures some { IfOk result (λ found. IfSome found (λ table. flat_map record_of table ≡ records.now)) }
        ensures table { IfOk result (λ found. IfSome found IsTable) }
        ensures all { (table : List Row) → IsTable table → flat_map record_of table ≡ records.now → IfOk result (λ found. found ≡ Some table) }
    {
        let (chunks, rest) = records.as_chunks::<RECORD>();
        if !rest.is_empty() || chunks.len() > MOST_SUMS {
            return Ok(None);
        }
        let mut sums = IndexMap::with_capacity(alloc, chunks.len())?;
        for record in chunks {
            let (signature, digest) = row_in(record);
            if sums.insert(signature, digest)?.is_some() {
                return Ok(None);
            }
        }
        Ok(Some(SumTable { sums }))
    }
}
