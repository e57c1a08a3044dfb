//! The words of `panad log copy`.

use crate::command_text::CommandText;
use crate::item::{Item, Kind, Need};
use crate::options::{KeptBy, PATIENCE, patience_of, value_of};
use clap::{ArgMatches, Command};
use std::alloc::{AllocError, Global};

/// The name of the command.
pub const LOG: &str = "log";

/// The name of the only one of its commands.
const COPY: &str = "copy";

const EXAMPLE: &str = "\
Example: a file's journal is moved into etcd, to be shared by several machines.

    $ panad log copy --from files.journal --to etcd://127.0.0.1:2379/family
    copied 3 entries

The target has to be empty; where it isn't, nothing is copied. What it is copied
from isn't changed. The status is 2 for a command line that is refused, and 3 where
not all is copied: then the target has the first entries, and is of no use.";

const FROM: &str = "from";

const TO: &str = "to";

/// What the words of `log copy` ask for.
#[derive(Clone, Copy)]
pub struct CopyArguments<'a> {
    /// The journal that is read.
    pub from: KeptBy<'a>,
    /// The journal that is made.
    pub to: KeptBy<'a>,
}

/// The words and options of the command.
const ITEMS: [Item; 3] = [
    Item {
        name: FROM,
        kind: Kind::Text("JOURNAL"),
        need: Need::Required,
        help: "The journal that is read: a file, or etcd://HOST:PORT/NAME",
    },
    Item {
        name: TO,
        kind: Kind::Text("JOURNAL"),
        need: Need::Required,
        help: "The journal that is made: a file, or etcd://HOST:PORT/NAME",
    },
    Item {
        name: PATIENCE,
        kind: Kind::Seconds,
        need: Need::Optional,
        help: "Time for an answer of a journal in etcd; 10 by default",
    },
];

/// What the words of `log copy` may be.
const COPY_COMMAND: CommandText = CommandText {
    name: COPY,
    about: "Copies a journal into one that is empty",
    example: EXAMPLE,
    items: &ITEMS,
};

/// What the words of `log` may be, whose only command is this one.
pub fn log_command<'a>(alloc: Global) -> Result<Command<'a>, AllocError> {
    let copy = COPY_COMMAND.command(alloc)?;
    Command::new(alloc, LOG)
        .about("Moves journals between files and etcd")
        .subcommand_required(true)
        .arg_required_else_help(true)
        .subcommand(copy)
}

impl<'a> CopyArguments<'a> {
    /// What these words ask for, or why they are refused.
    pub fn of(words: &'a ArgMatches) -> Result<CopyArguments<'a>, &'static str> {
        let Some((_, words)) = words.subcommand() else {
            return Err("a command of `log` is required");
        };
        let patience = patience_of(words);
        Ok(CopyArguments {
            from: KeptBy::named_so(value_of(words, FROM), patience),
            to: KeptBy::named_so(value_of(words, TO), patience),
        })
    }
}
