ghost use Rattle.std.specs.Prelude.{◌≡◌, ◌+◌, ◌==◌, [], ◌∷◌, ◌++◌, IfOk, length, nat_lt, if◌then◌else◌};

use std::alloc::{AllocError, Global};
use std::marker::Model;

/// How many bytes of answers are held at most.
const MOST_HELD: usize = 65536;

/// Answers that aren't written yet, each with a newline.
#[derive(Drop)]
pub struct AnswerBuffer {
    bytes: Vec<u8>,
}

impl Model for AnswerBuffer {
    ghost use Rattle.std.specs.Prelude.{◌≤◌, List, ℕ, vec_len, vec_capacity};

    ghost Value = { List ℕ };

    ghost view = { λ held. held.bytes.items };

    ghost invariant = { λ held. (vec_len held.bytes ≤ 65536) × (65536 ≤ vec_capacity held.bytes) };
}

impl AnswerBuffer {
    /// No answer. Takes all the memory that it ever takes, 65,536 bytes; the only error is that this allocation fails.
    pub fn new(alloc: Global) -> Result<AnswerBuffer, AllocError>
        ensures { IfOk result (λ held. held ≡ []) }
    {
        let bytes = Vec::with_capacity(alloc, MOST_HELD)?;
        Ok(AnswerBuffer { bytes })
    }

    /// Whether there is room for an answer of this text, and its newline.
    pub fn has_room(&self, text: &[u8]) -> bool
        ensures { result ≡ nat_lt (length self.now + length text.now) 65536 }
    {
        let room = MOST_HELD - self.bytes.len();
        text.len() < room
    }

    /// Holds one answer more, where there is room for it.
    pub fn hold(&mut self, text: &[u8]) -> bool
        ensures held { self.new ≡ (if result then self.old ++ (text.now ++ 10 ∷ []) else self.old) }
        ensures room { result ≡ nat_lt (length self.old + length text.now) 65536 }
    {
        if !self.has_room(text) {
            return false;
        }
        self.bytes.extend_from_slice(text).unwrap();
        self.bytes.push_reserved(b'\n');
        true
    }

    /// Holds answers that have their newlines, where there is room for them all.
    pub fn hold_all(&mut self, texts: &[u8]) -> bool
        ensures { self.new ≡ (if result then self.old ++ texts.now else self.old) }
    {
        if texts.len() > MOST_HELD - self.bytes.len() {
            return false;
        }
        self.bytes.extend_from_slice(texts).unwrap();
        true
    }

    /// Holds none.
    pub fn clear(&mut self)
        ensures { self.new ≡ [] }
    {
        self.bytes.clear();
    }

    /// Whether none is held.
    pub fn is_empty(&self) -> bool
        ensures { result ≡ (length self.now == 0) }
    {
        self.bytes.is_empty()
    }

    /// The bytes of all that are held.
    pub fn as_slice(&self) -> &[u8]
        ensures { result.now ≡ self.now }
    {
        self.bytes.as_slice()
    }
}
