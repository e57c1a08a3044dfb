//! The words of `panad compare`.

use crate::command_text::CommandText;
use crate::item::{Item, Kind, Need};
use crate::options::value_of;
use clap::ArgMatches;

/// The name of the command.
pub const COMPARE: &str = "compare";

const EXAMPLE: &str = "\
A stamp is an id and an event of an Interval Tree Clock. Example:

    $ panad compare '((1,0),(0,1,0))' '((0,1),0)'
    Newer";

/// The names of the two stamps on the command line.
const FIRST: &str = "FIRST";

const SECOND: &str = "SECOND";

/// What the words of `compare` ask for.
#[derive(Clone, Copy)]
pub struct CompareArguments<'a> {
    /// The text of a stamp.
    pub first: &'a str,
    /// The text of the stamp that it is compared with.
    pub second: &'a str,
}

/// The words and options of the command.
const ITEMS: [Item; 2] = [
    Item {
        name: FIRST,
        kind: Kind::Word,
        need: Need::Required,
        help: "The text of a stamp",
    },
    Item {
        name: SECOND,
        kind: Kind::Word,
        need: Need::Required,
        help: "The text of the stamp that it is compared with",
    },
];

/// What the words of `compare` may be.
pub const COMPARE_COMMAND: CommandText = CommandText {
    name: COMPARE,
    about: "Prints how two stamps relate: Equal, Older, Newer or Conflict",
    example: EXAMPLE,
    items: &ITEMS,
};

impl<'a> CompareArguments<'a> {
    /// What these words ask for.
    pub fn of(words: &'a ArgMatches) -> CompareArguments<'a> {
        CompareArguments {
            first: value_of(words, FIRST),
            second: value_of(words, SECOND),
        }
    }
}
