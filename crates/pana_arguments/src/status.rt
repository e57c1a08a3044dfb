//! The words of `panad status`.

use crate::command_text::CommandText;
use crate::item::{Item, Kind, Need};
use crate::options::{
    AS_JSON, ASKED_PORT, JSON, KeptBy, LOG_PATIENCE, NO_TABLE, PLACE, READ_JOURNAL, SHARED_LOG,
    ShownAs, values_of,
};
use clap::ArgMatches;

/// The name of the command.
pub const STATUS: &str = "status";

const EXAMPLE: &str = "\
It looks at no folder: `panad track` does, and the daemon. Example:

    $ panad status --port 7000 usb:plan.txt laptop:photos/
    STATE     COPY          WHAT TO DO
    obsolete  usb:plan.txt  take laptop:plan.txt
    1 obsolete, 0 in conflict

`usb:` is all copies of a device, `usb:photos/` those below a folder. Without a
place all are meant, and the last line says how many copies there are. Of a place
where no copy is nothing is shown. The status is 0 where nothing is obsolete or in
conflict, 1 where something is, 2 for a command line that is refused, and 3 where
there is no answer.";

/// The name of the wish that newest copies are listed too.
const ALL: &str = "all";

/// What the words of `status` ask for.
#[derive(Clone, Copy)]
pub struct StatusArguments<'a> {
    /// The words that name places, devices or folders of devices; all copies are meant where there is none.
    pub places: &'a [&'a str],
    pub kept_by: KeptBy<'a>,
    /// Whether newest copies are listed too.
    pub lists_all: bool,
    pub shown_as: ShownAs,
}

/// The words and options of the command.
const ITEMS: [Item; 8] = [
    READ_JOURNAL,
    SHARED_LOG,
    LOG_PATIENCE,
    ASKED_PORT,
    NO_TABLE,
    AS_JSON,
    Item {
        name: ALL,
        kind: Kind::Flag,
        need: Need::Without(&[JSON]),
        help: "List the newest copies too, below the others",
    },
    Item {
        name: PLACE,
        kind: Kind::Words,
        need: Need::Optional,
        help: "A device and a path, DEVICE:PATH, or all of a device, or below a folder",
    },
];

/// What the words of `status` may be.
pub const STATUS_COMMAND: CommandText = CommandText {
    name: STATUS,
    about: "Prints what is obsolete or in conflict, by a journal or a daemon",
    example: EXAMPLE,
    items: &ITEMS,
};

impl<'a> StatusArguments<'a> {
    /// What these words ask for.
    pub fn of(words: &'a ArgMatches) -> StatusArguments<'a> {
        StatusArguments {
            places: values_of(words, PLACE),
            kept_by: KeptBy::of(words),
            lists_all: words.get_flag(ALL),
            shown_as: ShownAs::of(words),
        }
    }
}
