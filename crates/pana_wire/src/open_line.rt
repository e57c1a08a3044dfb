//! The line of many entries in the making, whose digest comes last.
ghost use Rattle.std.specs.Prelude.{◌≡◌, ◌≤◌, ◌+◌, [], ◌∷◌, ◌++◌, List, ℕ, IfOk, OnOk, OnErr, length, take, option_copied, option_to_list};
ghost use Rattle.pana_journal.specs.declared.entry.Entry.{Entry};
ghost use Rattle.pana_wire.specs.Seal.{IsSealedLine};
ghost use Rattle.pana_wire.specs.inner.LongLine.{is_none, IsOpenLine, IsBody, IsTextOf};

use crate::entry_writing::encode_one;
use pana_journal::Entry;
use std::alloc::{AllocError, Global};
use std::marker::Model;

/// How long a line is at most, with its newline.
const LONGEST: usize = 1048577;

/// How a line of entries begins.
const OPENING: &[u8] = b"{\"entries\":[";

/// What stands between the entries and the digits of the digest, and behind them.
const MARK: &[u8] = b",\"sha256\":\"";

const CLOSE: &[u8] = b"\"}\n";

/// How long the text of an entry may be, and a line before the entries of a call are added: far more than any is.
const MOST_TEXT: usize = 60_000;

const MOST_BEFORE: usize = 920_000;

/// A line of entries that isn't whole yet.
#[derive(Drop)]
pub struct OpenLine {
    bytes: Vec<u8>,
}

impl Model for OpenLine {
    ghost use Rattle.std.specs.Prelude.{◌≤◌, List, ℕ, vec_len, vec_capacity};

    ghost Value = { List ℕ };

    ghost view = { λ line. line.bytes.items };

    ghost invariant = { λ line. (vec_len line.bytes ≤ 1048577) × (1048577 ≤ vec_capacity line.bytes) };
}

impl OpenLine {
    /// A line without an entry. Takes all the memory that it ever takes, 1,048,577 bytes; the only error is that this
    /// allocation fails.
    pub fn new(alloc: Global) -> Result<OpenLine, AllocError>
        ensures { IfOk result (λ line. IsOpenLine [] line) }
    {
        let bytes = Vec::with_capacity(alloc, LONGEST)?;
        let mut line = OpenLine { bytes };
        line.clear();
        Ok(line)
    }

    /// How many bytes there are. Takes no memory.
    pub fn len(&self) -> usize
        ensures { result ≡ length self.now }
    {
        self.bytes.len()
    }

    /// The bytes so far. Takes no memory.
    pub fn as_slice(&self) -> &[u8]
        ensures { result.now ≡ self.now }
    {
        self.bytes.as_slice()
    }

    /// Begins a new line, without an entry. Takes no memory.
    pub fn clear(&mut self)
        ensures { IsOpenLine [] self.new }
    {
        self.bytes.clear();
        self.push(OPENING);
    }

    /// The entry of a call more, or its two; where they are the first ones, `is_first`. Fails, and changes nothing, where memory
    /// runs out for their texts, or where the line has no room for them, and for the 80 bytes behind the last entry.
    pub fn add(
        &mut self,
        alloc: Global,
        is_first: bool,
        entry: &Entry,
        second: Option<&Entry>,
    ) -> Result<(), AllocError>
        ensures line { OnOk result ((entries : List Entry) → IsOpenLine entries self.old → is_first ≡ is_none entries → IsOpenLine (entries ++ (entry.now ∷ option_to_list (option_copied second.entry))) self.new) }
        ensures longer { OnOk result ((added : List ℕ) × (self.new ≡ self.old ++ added)) }
        ensures room { OnOk result (length self.new + 80 ≤ 1048577) }
        ensures err { OnErr result (self.new ≡ self.old) }
    {
        let first = encode_one(alloc, entry)?;
        match second {
            Some(second) => {
                let second = encode_one(alloc, second)?;
                self.add_two(is_first, first.as_str(), second.as_str())
            }
            None => self.add_one(is_first, first.as_str()),
        }
    }

    fn add_one(&mut self, is_first: bool, text: &str) -> Result<(), AllocError>
        ensures line { OnOk result ((entries : List Entry) → (entry : Entry) → IsOpenLine entries self.old → is_first ≡ is_none entries → IsTextOf entry text.now → IsOpenLine (entries ++ entry ∷ []) self.new) }
        ensures longer { OnOk result ((added : List ℕ) × (self.new ≡ self.old ++ added)) }
        ensures room { OnOk result (length self.new + 80 ≤ 1048577) }
        ensures err { OnErr result (self.new ≡ self.old) }
    {
        if text.len() > MOST_TEXT || self.bytes.len() > MOST_BEFORE {
            return Err(AllocError);
        }
        self.push_entry(is_first, text);
        Ok(())
    }

    fn add_two(&mut self, is_first: bool, text: &str, second: &str) -> Result<(), AllocError>
        ensures line { OnOk result ((entries : List Entry) → (entry : Entry) → (next : Entry) → IsOpenLine entries self.old → is_first ≡ is_none entries → IsTextOf entry text.now → IsTextOf next second.now → IsOpenLine (entries ++ (entry ∷ next ∷ [])) self.new) }
        ensures longer { OnOk result ((added : List ℕ) × (self.new ≡ self.old ++ added)) }
        ensures room { OnOk result (length self.new + 80 ≤ 1048577) }
        ensures err { OnErr result (self.new ≡ self.old) }
    {
        if text.len() > MOST_TEXT || second.len() > MOST_TEXT || self.bytes.len() > MOST_BEFORE {
            return Err(AllocError);
        }
        self.push_entry(is_first, text);
        self.push_entry(false, second);
        Ok(())
    }

    /// Takes back what was added since the line had so many bytes. Takes no memory.
    pub fn truncate(&mut self, len: usize)
        ensures { self.new ≡ take len self.old }
    {
        self.bytes.truncate(len);
    }

    /// One entry more, whose text this is, the first or another. Takes no memory.
    fn push_entry(&mut self, is_first: bool, text: &str)
        requires room { length self.old + length text.now + 1 ≤ 1048577 }
        ensures line { (entries : List Entry) → (entry : Entry) → IsOpenLine entries self.old → is_first ≡ is_none entries → IsTextOf entry text.now → IsOpenLine (entries ++ entry ∷ []) self.new }
        ensures longer { (added : List ℕ) × (self.new ≡ self.old ++ added) }
        ensures length { length self.new ≤ length self.old + length text.now + 1 }
    {
        if !is_first {
            self.push(b",");
        }
        self.push(text.as_bytes());
    }

    /// Ends the list of entries. Takes no memory.
    pub fn close(&mut self)
        requires room { length self.old + 1 ≤ 1048577 }
        ensures line { (entries : List Entry) → IsOpenLine entries self.old → IsBody entries self.new }
        ensures length { length self.new ≡ length self.old + 1 }
    {
        self.push(b"]");
    }

    /// Ends the line, whose entries are ended, with a digest. Takes no memory.
    pub fn seal(&mut self, digest: &[u8; 32])
        requires room { length self.old + 78 ≤ 1048577 }
        ensures { (entries : List Entry) → IsBody entries self.old → IsSealedLine entries digest.now self.new }
    {
        let mut digits = [0u8; 64];
        let _ = hex::encode_to_slice(digest, &mut digits);
        self.push(MARK);
        self.push(&digits);
        self.push(CLOSE);
    }

    /// Adds these bytes. Takes no memory.
    pub fn push(&mut self, bytes: &[u8])
        requires room { length self.old + length bytes.now ≤ 1048577 }
        ensures { self.new ≡ self.old ++ bytes.now }
    {
        for byte in bytes {
            self.bytes.push_reserved(*byte);
        }
    }
}
