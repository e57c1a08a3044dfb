//! What options that several commands have come to.

use crate::keeper::Keeper;
use pana_arguments::{KeptBy, KeptLog, ShownAs};
use pana_commands::StatusForm;
use pana_store_file::LogPlace;
use pana_streams::{ProgramFault, terminal_width};

/// Where a log is, how long it has for an answer, and whether questions may be answered without it.
pub fn place_of(log: KeptLog<'_>) -> LogPlace<'_> {
    LogPlace {
        address: log.address,
        patience: log.patience,
        is_stale: log.is_stale,
    }
}

/// Who keeps the reports.
pub fn keeper_of<'a>(kept_by: KeptBy<'a>) -> Keeper<'a> {
    match kept_by {
        KeptBy::Journal(name) => Keeper::Journal(name),
        KeptBy::Log(log) => Keeper::Log(place_of(log)),
        KeptBy::Daemon(port) => Keeper::Daemon(port),
    }
}

/// How what is obsolete or in conflict is to be shown: a table is as wide as the terminal.
pub fn form_of(rt: &HostRuntime, shown_as: ShownAs) -> Result<StatusForm, ProgramFault> {
    match shown_as {
        ShownAs::Table => Ok(StatusForm::Table(terminal_width(rt)?)),
        ShownAs::Json => Ok(StatusForm::Json),
        ShownAs::Nothing => Ok(StatusForm::Nothing),
    }
}
