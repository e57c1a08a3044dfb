//! The parts of a pattern in its text.
ghost use Rattle.std.specs.Prelude.{◌≡◌, ◌<◌, ◌≤◌, ◌∷◌, ◌++◌, IfOk, OnOk, IfSome, List, [], None, Some, if◌then◌else◌, length, option_map};
ghost use Rattle.pana_ignore.specs.declared.part.Part.TheVariants.{Folders, Name};
ghost use Rattle.std.specs.List.{list_all};
ghost use Rattle.pana_ignore.specs.declared.piece.Piece.{Piece};
ghost use Rattle.pana_ignore.specs.Pattern.{is_star};
ghost use Rattle.pana_ignore.specs.Spelling.{piece_at, pieces_of};
ghost use Rattle.pana_ignore.specs.Reading.{is_stars, part_of, last_parts, parts_of};
ghost use Rattle.pana_ignore.specs.inner.Parts.{parts_behind};

use crate::part::Part;
use crate::piece::{ByteSet, Piece};
use crate::set::set_at;
use crate::set_item::byte_at;
use pana_list::PlainList;
use std::alloc::{AllocError, Global};
use std::mem;

/// The piece at the head of a text, and how many bytes it takes. `None` where there is none.
fn piece_at(alloc: Global, text: &[u8]) -> Result<Option<(Piece, usize)>, AllocError>
    ensures piece { IfOk result (λ found. found ≡ piece_at text.now) }
    ensures some { IfOk result (λ found. IfSome found (λ piece. 0 < piece.1)) }
    ensures within { IfOk result (λ found. IfSome found (λ piece. piece.1 ≤ length text.now)) }
{
    match text {
        [] => Ok(None),
        [b'*', ..] => Ok(Some((Piece::Star, 1))),
        [b'?', ..] => {
            let any = ByteSet {
                is_negated: true,
                items: PlainList::new(alloc),
            };
            Ok(Some((Piece::Set(any), 1)))
        }
        [b'[', behind @ ..] => set_at(alloc, behind),
        _ => Ok(byte_at(text).map(|(byte, length)| (Piece::Byte(byte), length))),
    }
}

fn all_stars(name: &[Piece]) -> bool
    ensures { result ≡ list_all is_star name.now }
{
    name.iter().all(|piece| piece.is_star())
}

/// Whether there are stars, two or more, and nothing else.
fn are_stars(name: &[Piece]) -> bool
    ensures { result ≡ is_stars name.now }
{
    name.len() >= 2 && all_stars(name)
}

/// The parts that were read of a text, and the pieces of a name that isn't done.
#[derive(Drop)]
struct Reading {
    alloc: Global,
    parts: Vec<Part>,
    name: Vec<Piece>,
}

impl Reading {
    /// Before a text: any folders, where the pattern isn't anchored.
    fn begin(&mut self, is_anchored: bool) -> Result<(), AllocError>
        ensures parts { OnOk result (self.new.parts.items ≡ self.old.parts.items ++ (if is_anchored then [] else Folders ∷ [])) }
        ensures name { self.new.name.items ≡ self.old.name.items }
    {
        if !is_anchored {
            self.parts.push(Part::Folders)?;
        }
        Ok(())
    }

    /// Ends the name.
    fn push_name(&mut self) -> Result<(), AllocError>
        ensures parts { OnOk result (self.new.parts.items ≡ self.old.parts.items ++ Name self.old.name.items ∷ []) }
        ensures name { self.new.name.items ≡ [] }
    {
        let name = mem::replace(&mut self.name, Vec::new(self.alloc));
        self.parts.push(Part::Name(PlainList::from_vec(name)))?;
        Ok(())
    }

    /// Ends the name before a slash.
    fn end_name(&mut self) -> Result<(), AllocError>
        ensures parts { OnOk result (self.new.parts.items ≡ self.old.parts.items ++ part_of self.old.name.items ∷ []) }
        ensures name { OnOk result (self.new.name.items ≡ []) }
    {
        if !are_stars(self.name.as_slice()) {
            return self.push_name();
        }
        self.name.clear();
        self.parts.push(Part::Folders)?;
        Ok(())
    }

    /// Ends the last name.
    fn end(&mut self) -> Result<(), AllocError>
        ensures { OnOk result (self.new.parts.items ≡ self.old.parts.items ++ last_parts self.old.name.items) }
    {
        if are_stars(self.name.as_slice()) {
            self.parts.push(Part::Folders)?;
            self.name.truncate(1);
        }
        self.push_name()
    }

    /// Takes the next piece.
    fn take(&mut self, piece: Piece) -> Result<(), AllocError>
        ensures { OnOk result ((pieces : List Piece) → self.old.parts.items ++ parts_behind self.old.name.items (piece ∷ pieces) ≡ self.new.parts.items ++ parts_behind self.new.name.items pieces) }
    {
        if piece.is_slash() {
            drop(piece);
            return self.end_name();
        }
        self.name.push(piece)?;
        Ok(())
    }

    /// Takes the pieces of a text. Whether it spells some.
    fn read(&mut self, text: &[u8], is_anchored: bool) -> Result<bool, AllocError>
        ensures { IfOk result (λ is_read. option_map (λ pieces. (self.old.parts.items ++ (if is_anchored then [] else Folders ∷ [])) ++ parts_behind self.old.name.items pieces) (pieces_of text.now) ≡ (if is_read then Some self.new.parts.items else None)) }
    {
        self.begin(is_anchored)?;
        let mut rest = text;
        while !rest.is_empty() {
            let Some((piece, length)) = piece_at(self.alloc, rest)? else {
                return Ok(false);
            };
            self.take(piece)?;
            rest = rest.split_at(length).1;
        }
        self.end()?;
        Ok(true)
    }
}

/// The parts that a text spells. `None` where it spells none.
pub(crate) fn read_parts(
    alloc: Global,
    text: &[u8],
    is_anchored: bool,
) -> Result<Option<PlainList<Part>>, AllocError>
    ensures { IfOk result (λ found. found ≡ option_map (parts_of is_anchored) (pieces_of text.now)) }
{
    let mut reading = Reading {
        alloc,
        parts: Vec::new(alloc),
        name: Vec::new(alloc),
    };
    let is_read = reading.read(text, is_anchored);
    let Reading { parts, name, .. } = reading;
    drop(name);
    match is_read {
        Ok(true) => Ok(Some(PlainList::from_vec(parts))),
        Ok(false) => {
            drop(parts);
            Ok(None)
        }
        Err(fault) => {
            drop(parts);
            Err(fault)
        }
    }
}
