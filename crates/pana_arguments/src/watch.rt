//! The words of `panad watch`.

use crate::command_text::CommandText;
use crate::item::{Item, Kind, Need};
use crate::options::PORT;
use clap::ArgMatches;

/// The name of the command.
pub const WATCH: &str = "watch";

const EXAMPLE: &str = "\
Example:

    $ panad watch --port 7000
    12 edit by usb: copy 2
    13 edit by laptop: copy 1
    family 1 is split

Each entry is printed once, in order, as it comes. A family is split where two of
its newest copies are in conflict, and else whole; what was so when the command was
started isn't printed. Ctrl-C ends it. The status is 2 for a command line that is
refused, and 3 where the daemon has gone or gives no answer.";

/// The name of the first entry on the command line.
const FROM: &str = "from";

/// What the words of `watch` ask for.
#[derive(Clone, Copy)]
pub struct WatchArguments {
    /// The port of 127.0.0.1 on which the daemon listens.
    pub port: u16,
    /// The first entry that is printed; the next one where there is none.
    pub from: Option<u64>,
}

/// The words and options of the command.
const ITEMS: [Item; 2] = [
    Item {
        name: PORT,
        kind: Kind::Port,
        need: Need::Required,
        help: "The port of 127.0.0.1 on which the daemon listens",
    },
    Item {
        name: FROM,
        kind: Kind::Number("N"),
        need: Need::Optional,
        help: "Begin with this entry, in place of the next one",
    },
];

/// What the words of `watch` may be.
pub const WATCH_COMMAND: CommandText = CommandText {
    name: WATCH,
    about: "Prints each entry of a daemon's journal as it comes, and each new conflict",
    example: EXAMPLE,
    items: &ITEMS,
};

impl WatchArguments {
    /// What these words ask for.
    pub fn of(words: &ArgMatches) -> WatchArguments {
        WatchArguments {
            // The port is required, so it is there.
            port: words.get_one(PORT).unwrap_or(0),
            from: words.get_one(FROM),
        }
    }
}
