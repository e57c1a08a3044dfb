//! The words of `panad serve`.

use crate::command_text::CommandText;
use crate::item::{Item, Kind, Need};
use crate::options::{
    IGNORE, KeptBy, MAY_BE_STALE, ONE_FILE_SYSTEM, OWN_JOURNAL, OWN_LOG, OWN_PATIENCE, PORT, ROOT,
    ROOTS_HELP, STAY, values_of,
};
use clap::ArgMatches;

/// The name of the command.
pub const SERVE: &str = "serve";

const EXAMPLE: &str = "\
It listens on 127.0.0.1 alone, and prints where. Each connection is a session as
that of `panad run`, and all sessions share one journal. Without --journal nothing
is kept after it ends. Example:

    $ panad serve --port 7000 --track usb=/media/usb laptop=/home/me/papers
    listening 127.0.0.1:7000

At the start, and again after each newline on standard input, each folder is looked
at, and what appeared, changed or went is reported by its device: with --track by
contents, as `panad track` does, and else by paths alone. Without a folder standard
input isn't read. Without --sessions it runs until it is killed, or until the
journal's file fails.";

/// The name of the number of sessions on the command line.
const SESSIONS: &str = "sessions";

/// The names of what a client may take its time for, and the seconds where they aren't given.
const HURRY: &str = "hurry";

const HURRY_SECONDS: u32 = 5;

const IDLE: &str = "idle";

const IDLE_SECONDS: u32 = 300;

/// The names of how folders are looked at.
const TRACKED: &str = "track";

const EVERY: &str = "every";

/// What the words of `serve` ask for.
#[derive(Clone, Copy)]
pub struct ServeArguments<'a> {
    /// The port of 127.0.0.1 to listen on.
    pub port: u16,
    /// The journal or the log, if there is to be one.
    pub kept_by: Option<KeptBy<'a>>,
    /// The words that name devices and their folders.
    pub roots: &'a [&'a str],
    /// Whether the folders are tracked by contents.
    pub is_tracked: bool,
    /// After how many seconds they are looked at again, where no newline has come before.
    pub every: Option<u32>,
    /// Patterns of paths that are passed over in folders that are tracked.
    pub ignored: &'a [&'a str],
    /// Whether folders of other file systems than a root's are passed over.
    pub stays: bool,
    /// How many connections are wanted; all where there is no number.
    pub sessions: Option<u64>,
    /// How many seconds a client may take to a first line, or to take an answer, while others wait.
    pub hurry: u32,
    /// How many seconds it may take to a further line.
    pub idle: u32,
}

/// The words and options of the command.
const ITEMS: [Item; 13] = [
    Item {
        name: PORT,
        kind: Kind::Port,
        need: Need::Required,
        help: "The port of 127.0.0.1 to listen on; 0 lets the system choose",
    },
    Item {
        name: SESSIONS,
        kind: Kind::Number("S"),
        need: Need::Optional,
        help: "End after S sessions, and with a folder the end of standard input",
    },
    OWN_JOURNAL,
    OWN_LOG,
    OWN_PATIENCE,
    MAY_BE_STALE,
    Item {
        name: ROOT,
        kind: Kind::Words,
        need: Need::Optional,
        help: ROOTS_HELP,
    },
    Item {
        name: TRACKED,
        kind: Kind::Flag,
        need: Need::Optional,
        help: "Track the folders by contents, as `panad track` does",
    },
    Item {
        name: EVERY,
        kind: Kind::Seconds,
        need: Need::Optional,
        help: "Look at the folders again after so many seconds too",
    },
    Item {
        name: IGNORE,
        kind: Kind::Texts("PATTERN"),
        need: Need::Optional,
        help: "With --track, pass over paths that match, as a line of .gitignore does",
    },
    STAY,
    Item {
        name: HURRY,
        kind: Kind::Seconds,
        need: Need::Optional,
        help: "Time to a first line, or to take an answer, while others wait; 5 by default",
    },
    Item {
        name: IDLE,
        kind: Kind::Seconds,
        need: Need::Optional,
        help: "Time to a further line while others wait; 300 by default",
    },
];

/// What the words of `serve` may be.
pub const SERVE_COMMAND: CommandText = CommandText {
    name: SERVE,
    about: "Answers lines over TCP, up to 16 sessions at a time, and looks at folders",
    example: EXAMPLE,
    items: &ITEMS,
};

impl<'a> ServeArguments<'a> {
    /// What these words ask for.
    pub fn of(words: &'a ArgMatches) -> ServeArguments<'a> {
        ServeArguments {
            // The port is required, so it is there.
            port: words.get_one(PORT).unwrap_or(0),
            kept_by: KeptBy::own(words),
            roots: values_of(words, ROOT),
            is_tracked: words.get_flag(TRACKED),
            every: words.get_one(EVERY),
            ignored: values_of(words, IGNORE),
            stays: words.get_flag(ONE_FILE_SYSTEM),
            sessions: words.get_one(SESSIONS),
            hurry: words.get_one(HURRY).unwrap_or(HURRY_SECONDS),
            idle: words.get_one(IDLE).unwrap_or(IDLE_SECONDS),
        }
    }
}
