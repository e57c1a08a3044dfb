//! The words of `panad may-overwrite`.

use crate::command_text::CommandText;
use crate::item::{Item, Kind, Need};
use crate::options::{ASKED_PORT, KeptBy, LOG_PATIENCE, PLACE, READ_JOURNAL, SHARED_LOG, value_of};
use clap::ArgMatches;

/// The name of the command.
pub const MAY_OVERWRITE: &str = "may-overwrite";

const EXAMPLE: &str = "\
A tool that is about to replace a file asks first. Example:

    $ panad may-overwrite usb:plan.txt --by laptop:plan.txt --port 7000
    conflict: usb:plan.txt has changes that laptop:plan.txt lacks

It prints `yes`, and the status is 0, where the copy at PLACE has no change that the
other one lacks. Else the status is 1, and the line begins with `conflict:`, or with
`newer:` where the other has none that the copy lacks, with `unrelated:` where they
are copies of two files, and with `unknown:` where no copy is at one of the places.
The status is 2 for a command line that is refused, and 3 where there is no answer.";

/// The name of the place of the other copy on the command line.
const BY: &str = "by";

/// What the words of `may-overwrite` ask for.
#[derive(Clone, Copy)]
pub struct OverwriteArguments<'a> {
    /// The word that names the place of the copy that is to be overwritten.
    pub target: &'a str,
    /// That of the copy that it is to be overwritten with.
    pub source: &'a str,
    pub kept_by: KeptBy<'a>,
}

/// The words and options of the command.
const ITEMS: [Item; 6] = [
    READ_JOURNAL,
    SHARED_LOG,
    LOG_PATIENCE,
    ASKED_PORT,
    Item {
        name: BY,
        kind: Kind::Text(PLACE),
        need: Need::Required,
        help: "The place of the copy that it is to be overwritten with",
    },
    Item {
        name: PLACE,
        kind: Kind::Word,
        need: Need::Required,
        help: "The place of the copy that is to be overwritten, DEVICE:PATH",
    },
];

/// What the words of `may-overwrite` may be.
pub const MAY_OVERWRITE_COMMAND: CommandText = CommandText {
    name: MAY_OVERWRITE,
    about: "Prints whether a copy may be overwritten with another one",
    example: EXAMPLE,
    items: &ITEMS,
};

impl<'a> OverwriteArguments<'a> {
    /// What these words ask for.
    pub fn of(words: &'a ArgMatches) -> OverwriteArguments<'a> {
        OverwriteArguments {
            target: value_of(words, PLACE),
            source: value_of(words, BY),
            kept_by: KeptBy::of(words),
        }
    }
}
