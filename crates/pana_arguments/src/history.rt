//! The words of `panad history`.

use crate::command_text::CommandText;
use crate::item::{Item, Kind, Need};
use crate::options::{
    ASKED_PORT, KeptBy, LOG_PATIENCE, PLACE, PLACE_WORD, READ_JOURNAL, SHARED_LOG, value_of,
};
use clap::ArgMatches;

/// The name of the command.
pub const HISTORY: &str = "history";

const EXAMPLE: &str = "\
Example:

    $ panad history usb:plan.txt --journal files.journal
    o    copy 1 laptop:plan.txt
      o  copy 2 usb:plan.txt
    *    1 register by laptop of laptop:plan.txt
    | *  2 duplicate by laptop of laptop:plan.txt to usb:plan.txt
    | x  3 edit by usb of usb:plan.txt (withdrawn by 4)
    | |  4 withdraw by usb of 3

A lane for each copy that the file has had, named at its head by where the copy is
now, or gone. Each further line is an entry of the journal, the oldest first: `*`
in the lanes of copies that it makes or changes, `x` where it is withdrawn, and `|`
where a copy lives. The status is 0, 1 where the place has no copy, 2 for a command
line that is refused, and 3 where there is no answer, or the picture isn't written.";

/// The name of the picture's file on the command line.
const SVG: &str = "svg";

/// What the words of `history` ask for.
#[derive(Clone, Copy)]
pub struct HistoryArguments<'a> {
    /// The word that names the place of a copy.
    pub place: &'a str,
    /// The file that a picture is drawn to; text is printed where there is no name.
    pub svg: Option<&'a str>,
    pub kept_by: KeptBy<'a>,
}

/// The words and options of the command.
const ITEMS: [Item; 6] = [
    PLACE_WORD,
    Item {
        name: SVG,
        kind: Kind::Text("FILE"),
        need: Need::Optional,
        help: "Draw a picture to this file, in place of printing text",
    },
    READ_JOURNAL,
    SHARED_LOG,
    LOG_PATIENCE,
    ASKED_PORT,
];

/// What the words of `history` may be.
pub const HISTORY_COMMAND: CommandText = CommandText {
    name: HISTORY,
    about: "Prints all that was reported of a file, a lane for each of its copies",
    example: EXAMPLE,
    items: &ITEMS,
};

impl<'a> HistoryArguments<'a> {
    /// What these words ask for.
    pub fn of(words: &'a ArgMatches) -> HistoryArguments<'a> {
        HistoryArguments {
            place: value_of(words, PLACE),
            svg: words.get_str(SVG),
            kept_by: KeptBy::of(words),
        }
    }
}
