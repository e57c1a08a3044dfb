//! What the command line may be, and what its words ask for, as a value.
#![tactic(auto)]

mod arguments;
mod command;
mod command_line;
mod command_name;
mod command_text;
mod compare;
mod explanation;
mod history;
mod item;
mod load;
mod log_copy;
mod may_overwrite;
mod options;
mod report;
mod run;
mod scan;
mod serve;
mod show;
mod status;
mod track;
mod version;
mod watch;
mod why;

pub use crate::arguments::Arguments;
pub use crate::command_line::CommandLine;
pub use crate::command_name::{CommandName, command_named};
pub use crate::compare::CompareArguments;
pub use crate::explanation::{Explanation, Unread, refusal};
pub use crate::history::HistoryArguments;
pub use crate::load::LoadArguments;
pub use crate::log_copy::CopyArguments;
pub use crate::may_overwrite::OverwriteArguments;
pub use crate::options::{KeptBy, KeptLog, ShownAs};
pub use crate::report::ReportArguments;
pub use crate::run::RunArguments;
pub use crate::scan::ScanArguments;
pub use crate::serve::ServeArguments;
pub use crate::show::{ShowArguments, Wanted};
pub use crate::status::StatusArguments;
pub use crate::track::TrackArguments;
pub use crate::version::VERSION;
pub use crate::watch::WatchArguments;
pub use crate::why::WhyArguments;
