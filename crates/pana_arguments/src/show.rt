//! The words of `panad show`.

use crate::command_text::CommandText;
use crate::item::{Item, Kind, Need};
use crate::options::{FILE, JOURNAL, KeptBy, LOG, LOG_PATIENCE, PORT};
use clap::ArgMatches;

/// The name of the command.
pub const SHOW: &str = "show";

const EXAMPLE: &str = "\
Example: the same lines, and how the copies compare?

    $ panad show <<END
    {\"by\":\"laptop\",\"do\":\"register\",\"device\":\"laptop\",\"path\":\"plan.txt\"}
    {\"by\":\"laptop\",\"do\":\"duplicate\",\"copy\":1,\"device\":\"usb\",\"path\":\"plan.txt\"}
    {\"by\":\"laptop\",\"do\":\"edit\",\"copy\":1}
    END
    family 1: copies 2, newest 1, split no
    COPY  PLACE            STATE     NEWER  OLDER  EQUAL  CONFLICT
       1  laptop:plan.txt  newest        0      1      0         0
       2  usb:plan.txt     obsolete      1      0      0         0

A line that is faulty or refused is reported with its number, and the rest goes
on; the status is 1 then.";

/// The names of the wishes which tables are shown.
const FAMILY: &str = "family";

const SPLIT: &str = "split";

/// Which tables are shown.
#[derive(Clone, Copy)]
pub enum Wanted {
    /// Those of all families.
    All,
    /// Those of families of which two newest copies are in conflict.
    Split,
    /// That of the family with this number.
    Family(u64),
}

/// What the words of `show` ask for.
#[derive(Clone, Copy)]
pub enum ShowArguments<'a> {
    /// The tables of the journal that lines leave: those in the file with this name, or on standard input.
    OfLines(Option<&'a str>),
    /// Such tables of who keeps the reports.
    Kept(KeptBy<'a>, Wanted),
}

/// The words and options of the command.
const ITEMS: [Item; 7] = [
    Item {
        name: FILE,
        kind: Kind::Word,
        need: Need::Optional,
        help: "The file with the lines; standard input where there is none",
    },
    Item {
        name: JOURNAL,
        kind: Kind::Text("FILE"),
        need: Need::Without(&[FILE]),
        help: "Print the tables of this journal's file, and take no lines",
    },
    Item {
        name: LOG,
        kind: Kind::Text("URL"),
        need: Need::Without(&[FILE, JOURNAL]),
        help: "Print the tables of this journal in etcd, and take no lines",
    },
    LOG_PATIENCE,
    Item {
        name: PORT,
        kind: Kind::Port,
        need: Need::Without(&[FILE, JOURNAL, LOG]),
        help: "Print the tables of the daemon on this port of 127.0.0.1, and take no lines",
    },
    Item {
        name: FAMILY,
        kind: Kind::Number("N"),
        need: Need::Without(&[SPLIT]),
        help: "Of a journal or a daemon, print the table of this family alone",
    },
    Item {
        name: SPLIT,
        kind: Kind::Flag,
        need: Need::Optional,
        help: "Of a journal or a daemon, print the tables of families in conflict alone",
    },
];

/// What the words of `show` may be.
pub const SHOW_COMMAND: CommandText = CommandText {
    name: SHOW,
    about: "Takes lines as `run` does, and prints a table of each family's copies",
    example: EXAMPLE,
    items: &ITEMS,
};

impl Wanted {
    fn of(words: &ArgMatches) -> Wanted {
        match words.get_one(FAMILY) {
            Some(family) => Wanted::Family(family),
            None if words.get_flag(SPLIT) => Wanted::Split,
            None => Wanted::All,
        }
    }
}

impl<'a> ShowArguments<'a> {
    /// What these words ask for, or why they are refused.
    pub fn of(words: &'a ArgMatches) -> Result<ShowArguments<'a>, &'static str> {
        match (KeptBy::named(words), Wanted::of(words)) {
            (Some(kept_by), wanted) => Ok(ShowArguments::Kept(kept_by, wanted)),
            (None, Wanted::All) => Ok(ShowArguments::OfLines(words.get_str(FILE))),
            (None, _) => Err("--family and --split need --journal, --log or --port"),
        }
    }
}
