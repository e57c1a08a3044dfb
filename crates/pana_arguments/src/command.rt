//! What the words of the command line may be.

use crate::command_text::CommandText;
use crate::compare::COMPARE_COMMAND;
use crate::history::HISTORY_COMMAND;
use crate::load::LOAD_COMMAND;
use crate::log_copy::log_command;
use crate::may_overwrite::MAY_OVERWRITE_COMMAND;
use crate::report::REPORT_COMMAND;
use crate::run::RUN_COMMAND;
use crate::scan::SCAN_COMMAND;
use crate::serve::SERVE_COMMAND;
use crate::show::SHOW_COMMAND;
use crate::status::STATUS_COMMAND;
use crate::track::TRACK_COMMAND;
use crate::version::VERSION;
use crate::watch::WATCH_COMMAND;
use crate::why::WHY_COMMAND;
use clap::Command;
use std::alloc::{AllocError, Global};

const LINES: &str = "\
Each line of input to `panad run` is what a device reports, or asks:

    {\"by\":\"laptop\",\"do\":\"register\",\"device\":\"laptop\",\"path\":\"plan.txt\"}
    {\"by\":\"laptop\",\"do\":\"duplicate\",\"copy\":1,\"device\":\"usb\",\"path\":\"plan.txt\"}
    {\"by\":\"usb\",\"do\":\"edit\",\"copy\":2}
    {\"by\":\"desk\",\"do\":\"board\",\"family\":1}

Reports: register, duplicate, edit, reconcile, merge, relocate, remove, note,
confirm, withdraw. Sightings: found, missing. Questions: families, board, stamps,
pair, holdings, at, status, journal, counts.

`panad show` takes such lines and prints tables in place of the answers, and
`panad serve` answers them over TCP, to several devices at a time.
`panad track` needs no lines: it looks at folders, and `panad status` shows what is
obsolete or in conflict. `panad may-overwrite` says whether a copy may be replaced,
`panad why` what each of two copies knows that the other lacks, `panad history` all
that was reported of a file, as a graph, and `panad report` makes one report of
copies that are named by their places. `panad watch` prints what is reported to a
daemon, as it comes, and `panad log copy` moves a journal into etcd or out.
`panad COMMAND --help` shows an example. docs/PROTOCOL.md has all answers, and
docs/PROMISES.md what is proved of them, and what isn't.";

/// The commands but for `log`, in the order of the help.
const TEXTS: [&CommandText; 13] = [
    &RUN_COMMAND,
    &SHOW_COMMAND,
    &LOAD_COMMAND,
    &SCAN_COMMAND,
    &COMPARE_COMMAND,
    &TRACK_COMMAND,
    &STATUS_COMMAND,
    &MAY_OVERWRITE_COMMAND,
    &WHY_COMMAND,
    &HISTORY_COMMAND,
    &REPORT_COMMAND,
    &WATCH_COMMAND,
    &SERVE_COMMAND,
];

/// All commands, in the order of the help.
fn commands_of<'a>(alloc: Global) -> Result<Vec<Command<'a>>, AllocError> {
    let mut commands = Vec::new(alloc);
    for text in &TEXTS {
        commands.push(text.command(alloc)?)?;
    }
    commands.push(log_command(alloc)?)?;
    Ok(commands)
}

/// What the words of the command line may be.
pub fn panad_command<'a>(alloc: Global) -> Result<Command<'a>, AllocError> {
    let commands = commands_of(alloc)?;
    Command::new(alloc, "panad")
        .about("Answers which copies of a file are newest, obsolete or in conflict")
        .version(VERSION)
        .after_help(LINES)
        .subcommand_required(true)
        .arg_required_else_help(true)
        .subcommands(commands)
}
