//! Words and options that several commands have.

use crate::item::{Item, Kind, Need};
use clap::ArgMatches;

/// The name of the journal's file on the command line.
pub const JOURNAL: &str = "journal";

/// The name of a log in etcd on the command line.
pub const LOG: &str = "log";

/// The name of the daemon's port on the command line.
pub const PORT: &str = "port";

/// The name of a file with lines or a dump on the command line.
pub const FILE: &str = "FILE";

/// The name of a copy's place on the command line.
pub const PLACE: &str = "PLACE";

/// The name of the folders on the command line.
pub const ROOT: &str = "DEVICE=DIR";

/// The name of the patterns of paths that are passed over.
pub const IGNORE: &str = "ignore";

/// The name of the wish to stay on one file system.
pub const ONE_FILE_SYSTEM: &str = "one-file-system";

/// The name of the wish for a line of JSON.
pub const JSON: &str = "json";

/// The name of the wish that what is passed over is named.
pub const VERBOSE: &str = "verbose";

const QUIET: &str = "quiet";

/// The name of the time for an answer of a log, and the seconds where it isn't given.
pub const PATIENCE: &str = "patience";

const PATIENCE_SECONDS: u32 = 10;

/// The name of the wish that questions are answered from what was read of a log before.
const STALE: &str = "stale";

/// The option that names the file of a journal that is only read.
pub const READ_JOURNAL: Item = Item {
    name: JOURNAL,
    kind: Kind::Text("FILE"),
    need: Need::InPlaceOf(&[PORT, LOG]),
    help: "The file that keeps the reports, which is only read",
};

/// The option for a log that is asked, or gets reports.
pub const SHARED_LOG: Item = Item {
    name: LOG,
    kind: Kind::Text("URL"),
    need: Need::Without(&[JOURNAL, PORT]),
    help: "A journal in etcd that other machines share, etcd://HOST:PORT/NAME",
};

/// The option for a log that gets reports, where no daemon may do so.
pub const OWN_LOG: Item = Item {
    name: LOG,
    kind: Kind::Text("URL"),
    need: Need::Without(&[JOURNAL]),
    help: "A journal in etcd that other machines share, etcd://HOST:PORT/NAME",
};

const PATIENCE_HELP: &str = "Time for an answer of the journal in etcd; 10 by default";

/// The option for the time that an answer of a log may take.
pub const LOG_PATIENCE: Item = Item {
    name: PATIENCE,
    kind: Kind::Seconds,
    need: Need::With(LOG, &[JOURNAL, PORT]),
    help: PATIENCE_HELP,
};

/// The same, where no daemon may be named in place of a log.
pub const OWN_PATIENCE: Item = Item {
    name: PATIENCE,
    kind: Kind::Seconds,
    need: Need::With(LOG, &[JOURNAL]),
    help: PATIENCE_HELP,
};

/// The option that questions are answered from what was read of a log before.
pub const MAY_BE_STALE: Item = Item {
    name: STALE,
    kind: Kind::Flag,
    need: Need::With(LOG, &[JOURNAL]),
    help: "Answer questions by the journal in etcd as it was a moment ago",
};

/// The option for a daemon that is asked.
pub const ASKED_PORT: Item = Item {
    name: PORT,
    kind: Kind::Port,
    need: Need::Optional,
    help: "Ask the daemon on this port of 127.0.0.1, in place of a journal",
};

const MADE: &str = "The file that keeps the reports; it is made if it isn't there";

/// The option that names the file of a journal that gets reports, where there may be none.
pub const OWN_JOURNAL: Item = Item {
    name: JOURNAL,
    kind: Kind::Text("FILE"),
    need: Need::Optional,
    help: MADE,
};

/// The option that names the file of a journal that gets reports, where else a daemon does.
pub const REPORTED_JOURNAL: Item = Item {
    name: JOURNAL,
    kind: Kind::Text("FILE"),
    need: Need::InPlaceOf(&[PORT, LOG]),
    help: MADE,
};

/// The option for a daemon that gets reports.
pub const REPORTED_PORT: Item = Item {
    name: PORT,
    kind: Kind::Port,
    need: Need::Optional,
    help: "Report to the daemon on this port of 127.0.0.1, in place of a journal",
};

/// The word that names the place of a copy.
pub const PLACE_WORD: Item = Item {
    name: PLACE,
    kind: Kind::Word,
    need: Need::Required,
    help: "A device and a path, DEVICE:PATH",
};

/// What is said of the words that name devices and their folders.
pub const ROOTS_HELP: &str = "A device and the folder with its copies, up to 8 of them";

/// The option that no folder of another file system is entered.
pub const STAY: Item = Item {
    name: ONE_FILE_SYSTEM,
    kind: Kind::Flag,
    need: Need::Optional,
    help: "Enter no folder that is of another file system than DIR",
};

/// The option that what is passed over is named.
pub const NAMES_PASSED: Item = Item {
    name: VERBOSE,
    kind: Kind::Flag,
    need: Need::Optional,
    help: "Name on standard error what is passed over, and why",
};

/// The options for how copies are shown.
pub const NO_TABLE: Item = Item {
    name: QUIET,
    kind: Kind::Flag,
    need: Need::Optional,
    help: "Print no table",
};

pub const AS_JSON: Item = Item {
    name: JSON,
    kind: Kind::Flag,
    need: Need::Without(&[QUIET]),
    help: "Print a line of JSON for each copy in place of the table",
};

/// A log that keeps the reports.
#[derive(Clone, Copy)]
pub struct KeptLog<'a> {
    pub address: &'a str,
    /// For how many seconds an answer is waited for.
    pub patience: u32,
    /// Whether questions are answered from what was read before.
    pub is_stale: bool,
}

/// For how many seconds an answer of a log is waited for.
pub fn patience_of(words: &ArgMatches) -> u32 {
    words.get_one(PATIENCE).unwrap_or(PATIENCE_SECONDS)
}

/// How the address of a log begins, which no name of a journal's file needs to.
const SCHEME: &str = "etcd://";

/// Who keeps the reports.
#[derive(Clone, Copy)]
pub enum KeptBy<'a> {
    /// The journal in the file with this name.
    Journal(&'a str),
    /// This log.
    Log(KeptLog<'a>),
    /// The daemon on this port of 127.0.0.1.
    Daemon(u16),
}

impl<'a> KeptBy<'a> {
    /// Whom the words name, if anyone.
    pub fn named(words: &'a ArgMatches) -> Option<KeptBy<'a>> {
        if let Some(port) = words.get_one(PORT) {
            return Some(KeptBy::Daemon(port));
        }
        KeptBy::own(words)
    }

    /// The log at this address, where it begins as one, or else the journal in the file with this name.
    pub fn named_so(name: &'a str, patience: u32) -> KeptBy<'a> {
        if name.starts_with(SCHEME) {
            KeptBy::Log(KeptLog {
                address: name,
                patience,
                is_stale: false,
            })
        } else {
            KeptBy::Journal(name)
        }
    }

    /// The journal or the log that the words name, if they do.
    pub fn own(words: &'a ArgMatches) -> Option<KeptBy<'a>> {
        if let Some(address) = words.get_str(LOG) {
            return Some(KeptBy::Log(KeptLog {
                address,
                patience: patience_of(words),
                // A command that has no such option finds none.
                is_stale: words.get_flag(STALE),
            }));
        }
        match words.get_str(JOURNAL) {
            Some(name) => Some(KeptBy::Journal(name)),
            None => None,
        }
    }

    /// Whom the words of a command name that has to name one.
    pub fn of(words: &'a ArgMatches) -> KeptBy<'a> {
        match KeptBy::named(words) {
            Some(kept_by) => kept_by,
            // The journal is required where there is neither a port nor a log, so this isn't met.
            None => KeptBy::Journal(""),
        }
    }
}

/// How copies are shown.
#[derive(Clone, Copy)]
pub enum ShownAs {
    /// As a table for people.
    Table,
    /// As lines of JSON.
    Json,
    /// Not at all.
    Nothing,
}

impl ShownAs {
    /// How they are to be shown by words of a command with these options.
    pub fn of(words: &ArgMatches) -> ShownAs {
        if words.get_flag(QUIET) {
            ShownAs::Nothing
        } else if words.get_flag(JSON) {
            ShownAs::Json
        } else {
            ShownAs::Table
        }
    }
}

/// The value of a word or an option that is required, so it is there.
pub fn value_of<'a>(words: &'a ArgMatches, name: &str) -> &'a str {
    match words.get_str(name) {
        Some(value) => value,
        None => "",
    }
}

/// All values of a word or an option, in their order.
pub fn values_of<'a>(words: &'a ArgMatches, name: &str) -> &'a [&'a str] {
    words.get_strs(name).unwrap_or(&[])
}
