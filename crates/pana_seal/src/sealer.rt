//! What stands before a line, as its digest takes it up.
ghost use Rattle.std.specs.Prelude.{◌≡◌, ◌++◌, [], List, ℕ, IfOk, OnOk, string_bytes};
ghost use Rattle.pana_wire.specs.Seal.{seal_with};
ghost use Rattle.pana_seal.specs.Seal.{Covers, digest_of, body_of, end_of, is_marked, is_sealed};

use sha2::{Digest, Sha256};
use std::alloc::{AllocError, Global};

/// How a line goes on behind its own text, before the digits of its digest.
const MARK: &[u8] = b",\"sha256\":\"";

/// How many bytes come behind its own text: this, the 64 digits, and the end of a string and of an object.
const SEAL_LENGTH: usize = 77;

/// The bytes of a file up to a line, as far as the line's digest is concerned.
#[derive(Drop)]
pub struct Sealer {
    hasher: Sha256,
}

impl Sealer {
    /// No byte so far.
    pub fn new() -> Sealer
        ensures { Covers result [] }
    {
        Sealer {
            hasher: Sha256::new(),
        }
    }

    /// Takes up the next bytes of the file.
    pub fn push(&mut self, bytes: &[u8])
        ensures { (before : List ℕ) → Covers self.old before → Covers self.new (before ++ bytes.now) }
    {
        self.hasher.update(bytes);
    }

    /// One more that has taken up the same bytes. Fails only where memory runs out.
    pub fn copy(&self) -> Result<Sealer, AllocError>
        ensures { IfOk result (λ copy. (before : List ℕ) → Covers self.now before → Covers copy before) }
    {
        let hasher = self.hasher.clone()?;
        Ok(Sealer { hasher })
    }

    /// The digest of a line that begins so behind the bytes. Takes no memory.
    pub fn finish(self, body: &[u8]) -> [u8; 32]
        ensures { (before : List ℕ) → Covers self before → result ≡ digest_of before body.now }
    {
        let Sealer { mut hasher } = self;
        hasher.update(body);
        hasher.update(MARK);
        hasher.finalize()
    }

    /// The digest of a line that begins so behind the bytes. Fails only where memory runs out.
    pub fn digest(&self, body: &[u8]) -> Result<[u8; 32], AllocError>
        ensures { IfOk result (λ digest. (before : List ℕ) → Covers self.now before → digest ≡ digest_of before body.now) }
    {
        let copy = self.copy()?;
        Ok(copy.finish(body))
    }

    /// Takes up a line, and returns whether it is sealed, behind the bytes before it. Fails only where memory runs out.
    pub fn push_sealed(&mut self, alloc: Global, line: &[u8]) -> Result<bool, AllocError>
        ensures is { IfOk result (λ is. (before : List ℕ) → Covers self.old before → is ≡ is_sealed before line.now) }
        ensures covers { OnOk result ((before : List ℕ) → Covers self.old before → Covers self.new (before ++ line.now)) }
    {
        let (body, end) = split_seal(line);
        self.push(body);
        let digest = self.digest(&[])?;
        let seal = seal_with(alloc, &digest)?;
        self.push(end);
        Ok(seal.as_bytes() == end)
    }
}

/// How a line ends that has this digest. Fails only where memory runs out.
fn seal_with(alloc: Global, digest: &[u8; 32]) -> Result<String, AllocError>
    ensures { IfOk result (λ seal. string_bytes seal ≡ seal_with digest.now) }
{
    let digits = hex::encode(alloc, digest)?;
    let digits = digits.as_str();
    format!(in alloc; ",\"sha256\":\"{digits}\"}}")
}

/// What stands in a line before its last 77 bytes, as many as a seal has, and these.
fn split_seal(line: &[u8]) -> (&[u8], &[u8])
    ensures body { result.0.now ≡ body_of line.now }
    ensures end { result.1.now ≡ end_of line.now }
{
    line.split_at(line.len().saturating_sub(SEAL_LENGTH))
}

/// Whether a line looks as if it was sealed.
pub(crate) fn is_marked(line: &[u8]) -> bool
    ensures { result ≡ is_marked line.now }
{
    split_seal(line).1.starts_with(MARK)
}
