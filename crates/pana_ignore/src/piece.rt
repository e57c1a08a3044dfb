ghost use Rattle.std.specs.Prelude.{◌≡◌};
ghost use Rattle.std.specs.List.{list_any};
ghost use Rattle.pana_ignore.specs.Pattern.{item_has, is_star, fits_byte};
ghost use Rattle.pana_ignore.specs.Reading.{is_slash};

use crate::byte_class::ByteClass;
use pana_list::PlainList;

/// Some of the bytes that a set has.
#[derive(Clone, Copy)]
pub enum SetItem {
    /// The bytes from the first to the last.
    Range(u8, u8),
    Class(ByteClass),
}

impl SetItem {
    fn has(self, byte: u8) -> bool
        ensures { result ≡ item_has self byte }
    {
        match self {
            SetItem::Range(first, last) => first <= byte && byte <= last,
            SetItem::Class(class) => class.has(byte),
        }
    }
}

/// A set of bytes: those that an item has, or, where it is negated, those that none has.
#[derive(Drop)]
pub struct ByteSet {
    pub is_negated: bool,
    pub items: PlainList<SetItem>,
}

/// What stands for bytes of a name.
#[derive(Drop)]
pub enum Piece {
    /// Any number of bytes.
    Star,
    /// This byte.
    Byte(u8),
    /// One byte of the set.
    Set(ByteSet),
}

fn any_has(items: &[SetItem], byte: u8) -> bool
    ensures { result ≡ list_any (λ item. item_has item byte) items.now }
{
    items.iter().any(|item| item.has(byte))
}

impl Piece {
    pub(crate) fn is_star(&self) -> bool
        ensures { result ≡ is_star self.now }
    {
        matches!(self, Piece::Star)
    }

    /// Whether the piece stands between names.
    pub(crate) fn is_slash(&self) -> bool
        ensures { result ≡ is_slash self.now }
    {
        matches!(self, Piece::Byte(b'/'))
    }

    /// Whether one byte of a name matches the piece.
    pub(crate) fn fits(&self, byte: u8) -> bool
        ensures { result ≡ fits_byte self.now byte }
    {
        match self {
            Piece::Star => false,
            Piece::Byte(wanted) => byte == *wanted,
            Piece::Set(set) => any_has(set.items.as_slice(), byte) != set.is_negated,
        }
    }
}
