//! The words of `panad why`.

use crate::command_text::CommandText;
use crate::item::{Item, Kind, Need};
use crate::options::{
    ASKED_PORT, KeptBy, LOG_PATIENCE, PLACE, PLACE_WORD, READ_JOURNAL, SHARED_LOG, value_of,
};
use clap::ArgMatches;

/// The name of the command.
pub const WHY: &str = "why";

const EXAMPLE: &str = "\
Example:

    $ panad why usb:plan.txt laptop:plan.txt --journal files.journal
    usb:plan.txt has 5 edit by usb
    laptop:plan.txt has 4 edit by laptop

Each line is an update that one copy knows and the other lacks: the number of its
entry in the journal, and who reported it. Where only one copy has such lines, the
other is obsolete. The status is 0, 1 where a place has no copy or the copies are
of two files, 2 for a command line that is refused, and 3 where there is no answer.";

/// The name of the second place on the command line.
const OTHER: &str = "OTHER";

/// What the words of `why` ask for.
#[derive(Clone, Copy)]
pub struct WhyArguments<'a> {
    /// The word that names the place of a copy.
    pub first: &'a str,
    /// That of the copy that it is compared with.
    pub second: &'a str,
    pub kept_by: KeptBy<'a>,
}

/// The words and options of the command.
const ITEMS: [Item; 6] = [
    PLACE_WORD,
    Item {
        name: OTHER,
        kind: Kind::Word,
        need: Need::Required,
        help: "The place of the copy that it is compared with",
    },
    READ_JOURNAL,
    SHARED_LOG,
    LOG_PATIENCE,
    ASKED_PORT,
];

/// What the words of `why` may be.
pub const WHY_COMMAND: CommandText = CommandText {
    name: WHY,
    about: "Prints what each of two copies knows that the other lacks",
    example: EXAMPLE,
    items: &ITEMS,
};

impl<'a> WhyArguments<'a> {
    /// What these words ask for.
    pub fn of(words: &'a ArgMatches) -> WhyArguments<'a> {
        WhyArguments {
            first: value_of(words, PLACE),
            second: value_of(words, OTHER),
            kept_by: KeptBy::of(words),
        }
    }
}
