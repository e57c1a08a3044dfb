ghost use Rattle.std.specs.Prelude.{◌≡◌, ◌==◌, [], IfOk, length, take};
ghost use Rattle.pana_wire.specs.inner.Kept.{keep};

use std::alloc::{AllocError, Global};
use std::marker::Model;

/// How many bytes of a line are kept: one more than the longest line has, so that a longer one is known.
const MOST_KEPT: usize = 65537;

/// What is kept of a line that stands whole in these bytes.
pub fn first_bytes(line: &[u8]) -> &[u8]
    ensures { result.now ≡ take 65537 line.now }
{
    at_most(line, MOST_KEPT)
}

fn at_most(bytes: &[u8], most: usize) -> &[u8]
    ensures { result.now ≡ take most bytes.now }
{
    if bytes.len() > most {
        &bytes[..most]
    } else {
        bytes
    }
}

/// The first bytes of a line that hasn't ended yet.
#[derive(Drop)]
pub struct LineBuffer {
    bytes: Vec<u8>,
}

impl Model for LineBuffer {
    ghost use Rattle.std.specs.Prelude.{◌≤◌, List, ℕ, vec_len, vec_capacity};

    ghost Value = { List ℕ };

    ghost view = { λ held. held.bytes.items };

    ghost invariant = { λ held. (vec_len held.bytes ≤ 65537) × (65537 ≤ vec_capacity held.bytes) };
}

impl LineBuffer {
    /// No byte. Takes all the memory that it ever takes, 65,537 bytes; the only error is that this allocation fails.
    pub fn new(alloc: Global) -> Result<LineBuffer, AllocError>
        ensures { IfOk result (λ held. held ≡ []) }
    {
        let bytes = Vec::with_capacity(alloc, MOST_KEPT)?;
        Ok(LineBuffer { bytes })
    }

    /// Keeps these bytes too, while there are fewer than 65,537.
    pub fn extend(&mut self, bytes: &[u8])
        ensures { self.new ≡ keep self.old bytes.now }
    {
        let room = MOST_KEPT - self.bytes.len();
        self.bytes.extend_from_slice(at_most(bytes, room)).unwrap();
    }

    /// Begins a new line.
    pub fn clear(&mut self)
        ensures { self.new ≡ [] }
    {
        self.bytes.clear();
    }

    /// Whether there is no byte.
    pub fn is_empty(&self) -> bool
        ensures { result ≡ (length self.now == 0) }
    {
        self.bytes.is_empty()
    }

    /// The bytes that are kept.
    pub fn as_slice(&self) -> &[u8]
        ensures { result.now ≡ self.now }
    {
        self.bytes.as_slice()
    }
}
