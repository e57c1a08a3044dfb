//! The words of `panad track`.

use crate::command_text::CommandText;
use crate::item::{Item, Kind, Need};
use crate::options::{
    AS_JSON, IGNORE, KeptBy, LOG_PATIENCE, NAMES_PASSED, NO_TABLE, ONE_FILE_SYSTEM,
    REPORTED_JOURNAL, REPORTED_PORT, ROOT, ROOTS_HELP, SHARED_LOG, STAY, ShownAs, VERBOSE,
    values_of,
};
use clap::ArgMatches;

/// The name of the command.
pub const TRACK: &str = "track";

const EXAMPLE: &str = "\
Give it the folders that are meant to hold the same files. It notices what was
changed, copied, renamed or removed since the last time, by the contents of files,
records that in the journal, and prints which copies are obsolete or in conflict.
What a file .panadignore in a folder lists, in the language of .gitignore, is
passed over.
Example:

    $ panad track --journal files.journal laptop=papers usb=/media/usb
    STATE     COPY          WHAT TO DO
    obsolete  usb:plan.txt  take laptop:plan.txt

The status is 0 where nothing is obsolete or in conflict, 1 where something is, 2
for a command line that is refused, and 3 where something couldn't be reported.";

/// The names of the options that no other command has.
const SUMS: &str = "sums";

const EMPTY: &str = "empty";

const READ_ALL: &str = "read-all";

/// What the words of `track` ask for.
#[derive(Clone, Copy)]
pub struct TrackArguments<'a> {
    /// The words that name devices and their folders.
    pub roots: &'a [&'a str],
    pub kept_by: KeptBy<'a>,
    /// The file that keeps sums; that beside the journal where there is no name.
    pub sums: Option<&'a str>,
    /// Whether an empty folder is one whose files were removed.
    pub may_be_empty: bool,
    /// Patterns of paths that are passed over.
    pub ignored: &'a [&'a str],
    /// Whether files are read also where they haven't changed.
    pub reads_all: bool,
    /// Whether folders of other file systems than a root's are passed over.
    pub stays: bool,
    /// Whether what is passed over is named on standard error.
    pub is_verbose: bool,
    pub shown_as: ShownAs,
}

/// The words and options of the command.
const ITEMS: [Item; 13] = [
    REPORTED_JOURNAL,
    SHARED_LOG,
    LOG_PATIENCE,
    REPORTED_PORT,
    Item {
        name: SUMS,
        kind: Kind::Text("FILE"),
        need: Need::Optional,
        help: "The file that keeps sums of files between runs; by default that beside the journal",
    },
    Item {
        name: EMPTY,
        kind: Kind::Flag,
        need: Need::Optional,
        help: "Take an empty folder as one whose files were removed, not as an unmounted disk",
    },
    Item {
        name: IGNORE,
        kind: Kind::Texts("PATTERN"),
        need: Need::Optional,
        help: "Pass over paths that match, as a line of .gitignore does; once for each pattern",
    },
    Item {
        name: READ_ALL,
        kind: Kind::Flag,
        need: Need::Optional,
        help: "Read all files, also those whose size, times and inode are as at the last run",
    },
    STAY,
    NAMES_PASSED,
    NO_TABLE,
    AS_JSON,
    Item {
        name: ROOT,
        kind: Kind::Words,
        need: Need::Required,
        help: ROOTS_HELP,
    },
];

/// What the words of `track` may be.
pub const TRACK_COMMAND: CommandText = CommandText {
    name: TRACK,
    about: "Tracks folders by contents, and prints what is obsolete or in conflict",
    example: EXAMPLE,
    items: &ITEMS,
};

impl<'a> TrackArguments<'a> {
    /// What these words ask for.
    pub fn of(words: &'a ArgMatches) -> TrackArguments<'a> {
        TrackArguments {
            roots: values_of(words, ROOT),
            kept_by: KeptBy::of(words),
            sums: words.get_str(SUMS),
            may_be_empty: words.get_flag(EMPTY),
            ignored: values_of(words, IGNORE),
            reads_all: words.get_flag(READ_ALL),
            stays: words.get_flag(ONE_FILE_SYSTEM),
            is_verbose: words.get_flag(VERBOSE),
            shown_as: ShownAs::of(words),
        }
    }
}
