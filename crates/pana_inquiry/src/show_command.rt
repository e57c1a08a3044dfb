//! `panad show` of a journal or a daemon.

use pana_arguments::Wanted;
use pana_calls::Session;
use pana_commands::{Printout, Untracked, table_on, tables_on};
use pana_copies::DeviceName;
use pana_keeper::{Inquiry, Keeper, Sessions, asker, print_out_tables, print_reported};
use pana_streams::{ProgramFault, Tables, terminal_width};
use std::process::ExitCode;

/// The tables that are wanted.
#[derive(Drop)]
struct Shown {
    wanted: Wanted,
}

/// Asks for the tables that are wanted.
fn tables_by<S: Session>(
    rt: &HostRuntime,
    session: &mut S,
    by: &DeviceName,
    terminal: Option<usize>,
    wanted: Wanted,
) -> Result<Printout, Untracked> {
    match wanted {
        Wanted::All => tables_on(rt.alloc(), terminal, session, by, false),
        Wanted::Split => tables_on(rt.alloc(), terminal, session, by, true),
        Wanted::Family(family) => table_on(rt.alloc(), terminal, session, by, family),
    }
}

impl Inquiry for Shown {
    /// Asks, and prints the tables.
    fn make<S: Session>(
        self,
        rt: &HostRuntime,
        session: &mut S,
        keeper: Keeper<'_>,
    ) -> Result<ExitCode, ProgramFault> {
        match tables_by(rt, session, &asker()?, terminal_width(rt)?, self.wanted) {
            Ok(printout) => print_out_tables(rt, Tables::Boards, &printout),
            Err(Untracked::NoAnswer) => Shown::refuse(rt, keeper.no_answer()),
            Err(Untracked::OutOfMemory) => Err(ProgramFault::OutOfMemory),
        }
    }

    fn refuse(rt: &HostRuntime, text: &str) -> Result<ExitCode, ProgramFault> {
        print_reported(rt, text)
    }
}

/// Prints the tables of who keeps the reports.
pub fn show_tables<K: Sessions>(
    rt: &HostRuntime,
    sessions: &K,
    keeper: Keeper<'_>,
    wanted: Wanted,
) -> Result<ExitCode, ProgramFault> {
    sessions.ask(rt, keeper, Shown { wanted })
}
