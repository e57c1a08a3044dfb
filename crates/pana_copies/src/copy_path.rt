ghost use Rattle.std.specs.Prelude.{◌≡◌, ◌⊎◌, ◌↔◌, true, false, IfOk, IfErr, IsErrOf};
ghost use Rattle.std.specs.List.{list_all};
ghost use Rattle.pana_copies.specs.Names.{is_path, is_path_byte};

use crate::name_fault::NameFault;
use std::alloc::{AllocError, Global};
use std::hash::{Hash, Hasher};
use std::marker::Model;
use std::sync::ArcStr;

/// The longest path, in bytes.
const LONGEST_PATH: usize = 1024;

/// The path of a copy on its device: 1 to 1,024 bytes of UTF-8 with no character below U+0020 and no U+007F.
///
/// Its copies share its text.
#[derive(Debug)]
pub struct CopyPath {
    text: ArcStr,
}

impl Drop for CopyPath {
    fn drop(self) {
        let CopyPath { text: _ } = self;
    }
}

impl Model for CopyPath {
    ghost use Rattle.std.specs.Prelude.{◌≡◌, List, ℕ, true};
    ghost use Rattle.std.specs.Arc.{arc_str_bytes};
    ghost use Rattle.pana_copies.specs.Names.{is_path};

    ghost Value = { List ℕ };

    ghost view = { λ path. arc_str_bytes path.text };

    ghost invariant = { λ path. is_path (arc_str_bytes path.text) ≡ true };
}

fn is_path_byte(byte: u8) -> bool
    ensures { result ≡ is_path_byte byte }
{
    byte >= 32 && byte != 127
}

fn are_path_bytes(bytes: &[u8]) -> bool
    ensures { result ≡ list_all is_path_byte bytes.now }
{
    bytes.iter().all(|byte| is_path_byte(*byte))
}

fn is_path(text: &str) -> bool
    ensures { result ≡ is_path text.now }
{
    !text.is_empty() && text.len() <= LONGEST_PATH && are_path_bytes(text.as_bytes())
}

impl CopyPath {
    /// Takes a text as a copy's path.
    ///
    /// # Errors
    ///
    /// `BadPath` where the text is no such path; `OutOfMemory`.
    pub fn new(alloc: Global, text: &str) -> Result<CopyPath, NameFault>
        ensures ok { IfOk result (λ path. path ≡ text.now) }
        ensures bad { IsErrOf result NameFault.BadPath ↔ (is_path text.now ≡ false) }
        ensures others { IfErr result (λ fault. (fault ≡ NameFault.BadPath) ⊎ (fault ≡ NameFault.OutOfMemory)) }
    {
        if !is_path(text) {
            return Err(NameFault::BadPath);
        }
        match ArcStr::from_str(alloc, text) {
            Ok(text) => Ok(CopyPath { text }),
            Err(_) => Err(NameFault::OutOfMemory),
        }
    }

    /// The path as text. Takes no memory.
    pub fn as_str(&self) -> &str
        ensures text { result.now ≡ self.now }
        ensures path { is_path self.now ≡ true }
    {
        self.text.as_str()
    }

    /// The same path once more, which takes no memory. Fails only where there are 2^63 already.
    pub fn copy_of(&self) -> Result<CopyPath, AllocError>
        ensures { IfOk result (λ path. path ≡ self.now) }
    {
        Ok(CopyPath {
            text: self.text.clone()?,
        })
    }
}

impl PartialEq for CopyPath {
    ghost use Rattle.std.specs.Str.{bytes_eq};
    ghost use Rattle.std.specs.Cmp.Rules.{comparing};
    ghost use Rattle.std.proofs.Common.{rules};

    ghost eq = { λ a b. bytes_eq a b };

    ghost laws = { Prim.search (comparing, rules) };

    fn eq(&self, other: &CopyPath) -> bool {
        self.text == other.text
    }
}

impl Eq for CopyPath {
    ghost use Rattle.std.specs.Cmp.Rules.{comparing};
    ghost use Rattle.std.proofs.Common.{rules};

    ghost laws = { Prim.search (comparing, rules) };
}

impl Hash for CopyPath {
    ghost use Rattle.std.specs.Hash as fed;
    ghost use Rattle.std.specs.Cmp.Rules.{hashing};
    ghost use Rattle.std.proofs.Common.{rules};

    ghost hash_input = { λ path. fed.str path };

    ghost respects_eq = { Prim.search (hashing, rules) };

    fn hash<H: Hasher>(&self, state: &mut H) {
        self.text.hash(state)
    }
}
