//! The words of `panad run`.

use crate::command_text::CommandText;
use crate::item::Item;
use crate::options::{KeptBy, MAY_BE_STALE, OWN_JOURNAL, OWN_LOG, OWN_PATIENCE};
use clap::ArgMatches;

/// The name of the command.
pub const RUN: &str = "run";

const EXAMPLE: &str = "\
Example: a file on a laptop, its copy on a stick, an edit, and which is newest?

    $ panad run <<END
    {\"by\":\"laptop\",\"do\":\"register\",\"device\":\"laptop\",\"path\":\"plan.txt\"}
    {\"by\":\"laptop\",\"do\":\"duplicate\",\"copy\":1,\"device\":\"usb\",\"path\":\"plan.txt\"}
    {\"by\":\"laptop\",\"do\":\"edit\",\"copy\":1}
    {\"by\":\"laptop\",\"do\":\"board\",\"family\":1}
    END";

/// What the words of `run` ask for.
#[derive(Clone, Copy)]
pub struct RunArguments<'a> {
    /// The journal or the log, if there is to be one.
    pub kept_by: Option<KeptBy<'a>>,
}

/// The words and options of the command.
const ITEMS: [Item; 4] = [OWN_JOURNAL, OWN_LOG, OWN_PATIENCE, MAY_BE_STALE];

/// What the words of `run` may be.
pub const RUN_COMMAND: CommandText = CommandText {
    name: RUN,
    about: "Answers the lines on standard input, each a report or a question",
    example: EXAMPLE,
    items: &ITEMS,
};

impl<'a> RunArguments<'a> {
    /// What these words ask for.
    pub fn of(words: &'a ArgMatches) -> RunArguments<'a> {
        RunArguments {
            kept_by: KeptBy::own(words),
        }
    }
}
