//! The names of the commands.

use crate::compare::COMPARE;
use crate::history::HISTORY;
use crate::load::LOAD;
use crate::log_copy::LOG;
use crate::may_overwrite::MAY_OVERWRITE;
use crate::report::REPORT;
use crate::run::RUN;
use crate::scan::SCAN;
use crate::serve::SERVE;
use crate::show::SHOW;
use crate::status::STATUS;
use crate::track::TRACK;
use crate::watch::WATCH;
use crate::why::WHY;

/// The commands.
#[derive(Clone, Copy)]
pub enum CommandName {
    Run,
    Show,
    Load,
    Scan,
    Compare,
    Track,
    Status,
    MayOverwrite,
    Why,
    History,
    Report,
    Watch,
    Serve,
    Log,
}

/// Their names on the command line.
const NAMES: [(&str, CommandName); 14] = [
    (RUN, CommandName::Run),
    (SHOW, CommandName::Show),
    (LOAD, CommandName::Load),
    (SCAN, CommandName::Scan),
    (COMPARE, CommandName::Compare),
    (TRACK, CommandName::Track),
    (STATUS, CommandName::Status),
    (MAY_OVERWRITE, CommandName::MayOverwrite),
    (WHY, CommandName::Why),
    (HISTORY, CommandName::History),
    (REPORT, CommandName::Report),
    (WATCH, CommandName::Watch),
    (SERVE, CommandName::Serve),
    (LOG, CommandName::Log),
];

impl CommandName {
    /// Whether the command answers by its status, 0 or 1, so that a fault has another one.
    pub fn answers_by_status(self) -> bool {
        match self {
            CommandName::Track
            | CommandName::Status
            | CommandName::MayOverwrite
            | CommandName::Why
            | CommandName::History
            | CommandName::Report
            | CommandName::Watch
            | CommandName::Log => true,
            CommandName::Run
            | CommandName::Show
            | CommandName::Load
            | CommandName::Scan
            | CommandName::Compare
            | CommandName::Serve => false,
        }
    }
}

/// The command with this name. Takes no memory.
pub fn command_named(name: &str) -> Option<CommandName> {
    for (own, command) in &NAMES {
        if *own == name {
            return Some(*command);
        }
    }
    None
}
