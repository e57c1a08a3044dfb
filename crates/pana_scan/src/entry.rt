//! What is met in a folder.
ghost use Rattle.std.specs.Prelude.{◌≡◌, IfOk};

use std::alloc::{AllocError, Global};
use std::marker::Model;

/// What a name in a folder stands for. Symbolic links aren't followed.
#[derive(Clone, Copy, PartialEq, Eq, Drop)]
pub enum Kind {
    /// A regular file.
    File,
    Folder,
    /// Neither, as a symbolic link.
    Other,
    /// What was gone before it could be looked at.
    Gone,
}

/// A name in a folder. To contracts it is its bytes.
pub struct EntryName {
    text: String,
}

impl Drop for EntryName {
    fn drop(self) {
        let EntryName { text: _ } = self;
    }
}

impl Model for EntryName {
    ghost use Rattle.std.specs.Prelude.{List, ℕ, string_bytes};

    ghost Value = { List ℕ };

    ghost view = { λ name. string_bytes name.text };
}

impl EntryName {
    /// The name with this text. Fails only where memory runs out.
    pub fn new(alloc: Global, text: &str) -> Result<EntryName, AllocError>
        ensures { IfOk result (λ name. name ≡ text.now) }
    {
        Ok(EntryName {
            text: String::from_str(alloc, text)?,
        })
    }

    /// The name as text. Takes no memory.
    pub fn as_str(&self) -> &str
        ensures { result.now ≡ self.now }
    {
        self.text.as_str()
    }

    /// The same name once more. Fails only where memory runs out.
    pub fn copy_of(&self) -> Result<EntryName, AllocError>
        ensures { IfOk result (λ name. name ≡ self.now) }
    {
        Ok(EntryName {
            text: self.text.clone()?,
        })
    }
}

/// What is met in a folder.
#[derive(Drop)]
pub enum Entry {
    Named { name: EntryName, kind: Kind },
    /// A name that isn't UTF-8.
    NotText,
}

impl Entry {
    /// The same entry once more. Fails only where memory runs out.
    pub fn copy_of(&self) -> Result<Entry, AllocError>
        ensures { IfOk result (λ entry. entry ≡ self.now) }
    {
        Ok(match self {
            Entry::Named { name, kind } => Entry::Named {
                name: name.copy_of()?,
                kind: *kind,
            },
            Entry::NotText => Entry::NotText,
        })
    }
}
