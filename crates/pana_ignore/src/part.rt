ghost use Rattle.std.specs.Prelude.{◌≡◌};
ghost use Rattle.pana_ignore.specs.Pattern.{is_folders, fits_name};

use crate::name::is_name_match;
use crate::piece::Piece;
use pana_list::PlainList;

/// What stands for names of a path.
#[derive(Drop)]
pub enum Part {
    /// Any number of folders.
    Folders,
    /// One name that matches these pieces.
    Name(PlainList<Piece>),
}

impl Part {
    pub(crate) fn is_folders(&self) -> bool
        ensures { result ≡ is_folders self.now }
    {
        matches!(self, Part::Folders)
    }

    /// Whether one name of a path matches the part.
    pub(crate) fn fits(&self, name: &[u8]) -> bool
        ensures { result ≡ fits_name self.now name.now }
    {
        match self {
            Part::Folders => false,
            Part::Name(pieces) => is_name_match(pieces.as_slice(), name),
        }
    }
}
