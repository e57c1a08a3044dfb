//! The words of `panad report`.

use crate::command_text::CommandText;
use crate::item::{Item, Kind, Need};
use crate::options::{
    KeptBy, LOG_PATIENCE, PLACE, REPORTED_JOURNAL, REPORTED_PORT, SHARED_LOG, value_of, values_of,
};
use clap::ArgMatches;

/// The name of the command.
pub const REPORT: &str = "report";

const EXAMPLE: &str = "\
The words, and what stands behind them:

    register PLACE           this is the first copy of a file
    duplicate PLACE PLACE    the first copy was copied to the second place
    edit PLACE               the copy was changed
    reconcile PLACE PLACE    one of the two copies replaced the other
    merge PLACE PLACE        the two copies were merged, and both hold the result
    relocate PLACE PLACE     the copy was moved from the first place to the second
    remove PLACE             the copy was deleted; --heir names another copy
    note PLACE --sum SUM     the copy holds bytes with this sum
    confirm ENTRY            the entry is right, and can't be withdrawn any more
    withdraw ENTRY           the entry is wrong
    found PLACE --sum SUM    a file with this sum is at the place
    missing PLACE            no file is at the place

Example:

    $ panad report edit usb:plan.txt --journal files.journal
    entry 7

It prints the number of the entry, of `found` and `missing` behind what it came to,
as `edit, entry 7`, or `known`. The status is 0 then; 1 where it prints why the
report is refused, as `refused: PlaceTaken 2`, or that no copy is at a place; 2 for
a command line that is refused; and 3 where there is no answer.";

/// The name of the report's word on the command line.
const WORD: &str = "WORD";

/// The names of the options that only a report has.
const SUM: &str = "sum";

const HEIR: &str = "heir";

const BY: &str = "by";

/// What the words of `report` ask for.
#[derive(Clone, Copy)]
pub struct ReportArguments<'a> {
    /// What is reported.
    pub word: &'a str,
    /// The words that name the places that it is about, or the number of an entry.
    pub names: &'a [&'a str],
    /// The device that reports; that of the first place where there is none.
    pub by: Option<&'a str>,
    /// The sum that the copies hold from then on.
    pub sum: Option<&'a str>,
    /// The place of the heir of a copy that is removed.
    pub heir: Option<&'a str>,
    pub kept_by: KeptBy<'a>,
}

/// The words and options of the command.
const ITEMS: [Item; 9] = [
    REPORTED_JOURNAL,
    SHARED_LOG,
    LOG_PATIENCE,
    REPORTED_PORT,
    Item {
        name: BY,
        kind: Kind::Text("DEVICE"),
        need: Need::Optional,
        help: "The device that reports; by default that of the first place",
    },
    Item {
        name: SUM,
        kind: Kind::Text("SUM"),
        need: Need::Optional,
        help: "The SHA-256 of the bytes that the copies hold from then on",
    },
    Item {
        name: HEIR,
        kind: Kind::Text(PLACE),
        need: Need::Optional,
        help: "Of a copy that is removed the heir, another copy of its file",
    },
    Item {
        name: WORD,
        kind: Kind::Word,
        need: Need::Required,
        help: "What is reported",
    },
    Item {
        name: PLACE,
        kind: Kind::Words,
        need: Need::Required,
        help: "The places that it is about, DEVICE:PATH, or the number of an entry",
    },
];

/// What the words of `report` may be.
pub const REPORT_COMMAND: CommandText = CommandText {
    name: REPORT,
    about: "Reports one change of copies that are named by their places",
    example: EXAMPLE,
    items: &ITEMS,
};

impl<'a> ReportArguments<'a> {
    /// What these words ask for.
    pub fn of(words: &'a ArgMatches) -> ReportArguments<'a> {
        ReportArguments {
            word: value_of(words, WORD),
            names: values_of(words, PLACE),
            by: words.get_str(BY),
            sum: words.get_str(SUM),
            heir: words.get_str(HEIR),
            kept_by: KeptBy::of(words),
        }
    }
}
