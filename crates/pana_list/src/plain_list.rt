ghost use Rattle.std.specs.Prelude.{◌≡◌, [], ◌∷◌, ◌++◌, OnOk, OnErr, length};

use std::alloc::{AllocError, Global};
use std::marker::Model;

/// Items in order. To contracts it is the list of them, so whatever holds one is plain data there.
#[derive(Drop)]
pub struct PlainList<T> {
    items: Vec<T>,
}

impl<T> Model for PlainList<T> {
    ghost use Rattle.std.specs.Prelude.{List};

    ghost Value = { List T };

    ghost view = { λ list. list.items.items };
}

impl<T> PlainList<T> {
    /// The list without items. Takes no memory.
    pub fn new(alloc: Global) -> PlainList<T>
        ensures { result ≡ [] }
    {
        PlainList {
            items: Vec::new(alloc),
        }
    }

    /// The list of these items. Takes no memory.
    pub fn from_vec(items: Vec<T>) -> PlainList<T>
        ensures { result ≡ items.items }
    {
        PlainList { items }
    }

    /// The items in a `Vec`. Takes no memory.
    pub fn into_vec(self) -> Vec<T>
        ensures { result.items ≡ self }
    {
        let PlainList { items } = self;
        items
    }

    /// The items in order. Takes no memory.
    pub fn as_slice(&self) -> &[T]
        ensures { result.now ≡ self.now }
    {
        self.items.as_slice()
    }

    /// Puts the items of the other list behind those of this one. Fails only where memory runs out, and then changes
    /// nothing.
    pub fn append(&mut self, other: PlainList<T>) -> Result<(), AllocError>
    where
        T: Drop,
        ensures ok { OnOk result (self.new ≡ self.old ++ other) }
        ensures err { OnErr result (self.new ≡ self.old) }
    {
        let PlainList { items: mut more } = other;
        self.items.append(&mut more)?;
        Ok(())
    }
}
