//! The words of `panad load`.

use crate::command_text::CommandText;
use crate::item::{Item, Kind, Need};
use crate::options::{FILE, value_of};
use clap::ArgMatches;

/// The name of the command.
pub const LOAD: &str = "load";

const EXAMPLE: &str = "\
A dump is the answers to `journal` questions, a line each, or a journal's file.
Example:

    $ panad load backup.dump
    family 1: copies 2, newest 1, split no
    COPY  PLACE            STATE     NEWER  OLDER  EQUAL  CONFLICT
       1  laptop:plan.txt  newest        0      1      0         0
       2  usb:plan.txt     obsolete      1      0      0         0";

/// What the words of `load` ask for.
#[derive(Clone, Copy)]
pub struct LoadArguments<'a> {
    /// The name of the file with the dump.
    pub file: &'a str,
}

/// The words and options of the command.
const ITEMS: [Item; 1] = [Item {
    name: FILE,
    kind: Kind::Word,
    need: Need::Required,
    help: "The file with the dump",
}];

/// What the words of `load` may be.
pub const LOAD_COMMAND: CommandText = CommandText {
    name: LOAD,
    about: "Loads a dump of a journal, and prints a table of each family's copies",
    example: EXAMPLE,
    items: &ITEMS,
};

impl<'a> LoadArguments<'a> {
    /// What these words ask for.
    pub fn of(words: &'a ArgMatches) -> LoadArguments<'a> {
        LoadArguments {
            file: value_of(words, FILE),
        }
    }
}
