//! What the words of a command line ask for.

use crate::command_name::{CommandName, command_named};
use crate::compare::CompareArguments;
use crate::history::HistoryArguments;
use crate::load::LoadArguments;
use crate::log_copy::CopyArguments;
use crate::may_overwrite::OverwriteArguments;
use crate::options::KeptBy;
use crate::report::ReportArguments;
use crate::run::RunArguments;
use crate::scan::ScanArguments;
use crate::serve::ServeArguments;
use crate::show::ShowArguments;
use crate::status::StatusArguments;
use crate::track::TrackArguments;
use crate::watch::WatchArguments;
use crate::why::WhyArguments;
use clap::ArgMatches;

/// What the words of a command line ask for, by its command.
#[derive(Clone, Copy)]
pub enum Arguments<'a> {
    Run(RunArguments<'a>),
    Show(ShowArguments<'a>),
    Load(LoadArguments<'a>),
    Scan(ScanArguments<'a>),
    Compare(CompareArguments<'a>),
    Track(TrackArguments<'a>),
    Status(StatusArguments<'a>),
    MayOverwrite(OverwriteArguments<'a>),
    Why(WhyArguments<'a>),
    History(HistoryArguments<'a>),
    Report(ReportArguments<'a>),
    Watch(WatchArguments),
    Serve(ServeArguments<'a>),
    LogCopy(CopyArguments<'a>),
}

impl<'a> Arguments<'a> {
    /// Who is to keep the reports, or keeps them, if the words name one alone.
    pub fn kept_by(self) -> Option<KeptBy<'a>> {
        match self {
            Arguments::Run(arguments) => arguments.kept_by,
            Arguments::Serve(arguments) => arguments.kept_by,
            Arguments::Show(ShowArguments::Kept(kept_by, _)) => Some(kept_by),
            Arguments::Track(arguments) => Some(arguments.kept_by),
            Arguments::Status(arguments) => Some(arguments.kept_by),
            Arguments::MayOverwrite(arguments) => Some(arguments.kept_by),
            Arguments::Why(arguments) => Some(arguments.kept_by),
            Arguments::History(arguments) => Some(arguments.kept_by),
            Arguments::Report(arguments) => Some(arguments.kept_by),
            Arguments::Show(ShowArguments::OfLines(_))
            | Arguments::Load(_)
            | Arguments::Scan(_)
            | Arguments::Compare(_)
            | Arguments::Watch(_)
            | Arguments::LogCopy(_) => None,
        }
    }
}

/// What the words of this command ask for, or why they are refused.
fn arguments_to<'a>(
    name: CommandName,
    words: &'a ArgMatches,
) -> Result<Arguments<'a>, &'static str> {
    Ok(match name {
        CommandName::Run => Arguments::Run(RunArguments::of(words)),
        CommandName::Show => Arguments::Show(ShowArguments::of(words)?),
        CommandName::Load => Arguments::Load(LoadArguments::of(words)),
        CommandName::Scan => Arguments::Scan(ScanArguments::of(words)),
        CommandName::Compare => Arguments::Compare(CompareArguments::of(words)),
        CommandName::Track => Arguments::Track(TrackArguments::of(words)),
        CommandName::Status => Arguments::Status(StatusArguments::of(words)),
        CommandName::MayOverwrite => Arguments::MayOverwrite(OverwriteArguments::of(words)),
        CommandName::Why => Arguments::Why(WhyArguments::of(words)),
        CommandName::History => Arguments::History(HistoryArguments::of(words)),
        CommandName::Report => Arguments::Report(ReportArguments::of(words)),
        CommandName::Watch => Arguments::Watch(WatchArguments::of(words)),
        CommandName::Serve => Arguments::Serve(ServeArguments::of(words)),
        CommandName::Log => Arguments::LogCopy(CopyArguments::of(words)?),
    })
}

/// What the words ask for, or why they are refused.
pub fn arguments_of<'a>(words: &'a ArgMatches) -> Result<Arguments<'a>, &'static str> {
    if let Some((name, words)) = words.subcommand() {
        if let Some(name) = command_named(name) {
            return arguments_to(name, words);
        }
    }
    Err("a command is required")
}
