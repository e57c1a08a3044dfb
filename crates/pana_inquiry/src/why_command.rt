//! `panad why`: what each of two copies knows that the other lacks, by a journal or a daemon.

use crate::asking::{place_of, print_unexplained, refuse_place};
use pana_arguments::WhyArguments;
use pana_calls::Session;
use pana_copies::Place;
use pana_history::why_on;
use pana_keeper::{Inquiry, Keeper, Sessions, asker, keeper_of, print_line};
use pana_streams::ProgramFault;
use std::process::ExitCode;

/// The two places.
#[derive(Drop)]
struct Why<'a> {
    first: &'a Place,
    second: &'a Place,
}

impl Inquiry for Why<'_> {
    /// Asks, and prints what is said of the places.
    fn make<S: Session>(
        self,
        rt: &HostRuntime,
        session: &mut S,
        keeper: Keeper<'_>,
    ) -> Result<ExitCode, ProgramFault> {
        match why_on(rt.alloc(), session, &asker()?, self.first, self.second) {
            Ok(explanation) => {
                let status = if explanation.is_of_one_file { 0 } else { 1 };
                print_line(rt, explanation.text, status)
            }
            Err(fault) => print_unexplained(rt, keeper, fault),
        }
    }
}

/// Asks about the places that the words name, or refuses the words.
pub fn run<K: Sessions>(
    rt: &HostRuntime,
    sessions: &K,
    arguments: WhyArguments<'_>,
) -> Result<ExitCode, ProgramFault> {
    let Some(ours) = place_of(rt, arguments.first)? else {
        return refuse_place(rt, arguments.first);
    };
    let Some(theirs) = place_of(rt, arguments.second)? else {
        return refuse_place(rt, arguments.second);
    };
    let why = Why {
        first: &ours,
        second: &theirs,
    };
    sessions.ask(rt, keeper_of(arguments.kept_by), why)
}
