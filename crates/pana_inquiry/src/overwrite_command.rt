//! `panad may-overwrite`: whether a copy may be overwritten with another one, by a journal or a daemon.

use crate::asking::{place_of, print_fault, refuse_place};
use pana_arguments::OverwriteArguments;
use pana_ask::may_overwrite;
use pana_calls::Session;
use pana_copies::Place;
use pana_keeper::{Inquiry, Keeper, Sessions, asker, keeper_of, print_line};
use pana_streams::ProgramFault;
use std::process::ExitCode;

/// The place of the copy that would be overwritten, and that of the other one.
#[derive(Drop)]
struct Overwrite<'a> {
    target: &'a Place,
    source: &'a Place,
}

impl Inquiry for Overwrite<'_> {
    /// Asks, and prints what it comes to.
    fn make<S: Session>(
        self,
        rt: &HostRuntime,
        session: &mut S,
        keeper: Keeper<'_>,
    ) -> Result<ExitCode, ProgramFault> {
        match may_overwrite(session, &asker()?, self.target, self.source) {
            Ok(verdict) => {
                let line = verdict.line(rt.alloc(), self.target, self.source)?;
                print_line(rt, line, verdict.status())
            }
            Err(fault) => print_fault(rt, keeper, fault),
        }
    }
}

/// Asks about the places that the words name, or refuses the words.
pub fn run<K: Sessions>(
    rt: &HostRuntime,
    sessions: &K,
    arguments: OverwriteArguments<'_>,
) -> Result<ExitCode, ProgramFault> {
    let Some(target) = place_of(rt, arguments.target)? else {
        return refuse_place(rt, arguments.target);
    };
    let Some(source) = place_of(rt, arguments.source)? else {
        return refuse_place(rt, arguments.source);
    };
    let overwrite = Overwrite {
        target: &target,
        source: &source,
    };
    sessions.ask(rt, keeper_of(arguments.kept_by), overwrite)
}
