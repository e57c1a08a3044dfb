//! `panad status`: what is obsolete or in conflict, by a journal or a daemon.

use crate::asking::refuse_place;
use pana_arguments::StatusArguments;
use pana_calls::Session;
use pana_commands::{Untracked, status_on};
use pana_copies::DeviceName;
use pana_keeper::{Inquiry, Keeper, Sessions, asker, form_of, keeper_of, print_out_tables, report};
use pana_streams::{ProgramFault, Tables};
use std::process::ExitCode;

/// Whether the word begins with a device and a colon.
fn is_place(word: &str) -> bool {
    match word.split_once(':') {
        Some((device, _)) => DeviceName::new(device).is_ok(),
        None => false,
    }
}

/// The first of the words that names no place.
fn first_bad<'a>(words: &[&'a str]) -> Option<&'a str> {
    for word in words {
        if !is_place(word) {
            return Some(word);
        }
    }
    None
}

/// What the words ask for.
#[derive(Drop)]
struct Asked<'a> {
    arguments: StatusArguments<'a>,
}

impl Inquiry for Asked<'_> {
    /// Asks, and prints what is obsolete or in conflict.
    fn make<S: Session>(
        self,
        rt: &HostRuntime,
        session: &mut S,
        keeper: Keeper<'_>,
    ) -> Result<ExitCode, ProgramFault> {
        let arguments = self.arguments;
        let form = form_of(rt, arguments.shown_as)?;
        match status_on(
            rt.alloc(),
            session,
            &asker()?,
            arguments.places,
            arguments.lists_all,
            form,
        ) {
            Ok(printout) => print_out_tables(rt, Tables::Status, &printout),
            Err(Untracked::NoAnswer) => report(rt, keeper.no_answer()),
            Err(Untracked::OutOfMemory) => Err(ProgramFault::OutOfMemory),
        }
    }
}

/// Shows what the words ask for, or refuses them.
pub fn run<K: Sessions>(
    rt: &HostRuntime,
    sessions: &K,
    arguments: StatusArguments<'_>,
) -> Result<ExitCode, ProgramFault> {
    match first_bad(arguments.places) {
        Some(word) => refuse_place(rt, word),
        None => sessions.ask(rt, keeper_of(arguments.kept_by), Asked { arguments }),
    }
}
