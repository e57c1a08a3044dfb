//! Laws of patterns: each function ensures one, and does nothing.
ghost use Rattle.pana_ignore.specs.laws.InParts.{NamesMatchInParts, PathsMatchInParts};
ghost use Rattle.pana_ignore.specs.laws.Below.{AFolderDecidesFirst};

/// A name matches pieces exactly where it is parts in a row, one for each piece: any bytes for a star, and for another
/// piece one byte that fits it.
pub fn names_match_in_parts()
    ensures { NamesMatchInParts }
{}

/// Names match the parts of a pattern exactly where they are parts in a row: any names for `**`, and for another part one
/// name that fits it.
pub fn paths_match_in_parts()
    ensures { PathsMatchInParts }
{}

/// What is in a folder is ignored where the folder is, and else where the patterns say so of this very path: so who goes
/// down folder by folder, and enters none that is ignored, needs `ignores_here` alone.
pub fn a_folder_decides_first()
    ensures { AFolderDecidesFirst }
{}
