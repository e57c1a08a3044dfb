//! What is asked of who keeps the reports, or reported to them.

use crate::faults::report;
use crate::keeper::Keeper;
use pana_calls::Session;
use pana_streams::ProgramFault;
use std::process::ExitCode;

/// What a command asks of a session, or reports to it.
pub trait Inquiry {
    /// Makes the calls, and prints what has come of them.
    fn make<S: Session>(
        self,
        rt: &HostRuntime,
        session: &mut S,
        keeper: Keeper<'_>,
    ) -> Result<ExitCode, ProgramFault>;

    /// Prints why there is no session, and returns the status.
    fn refuse(rt: &HostRuntime, text: &str) -> Result<ExitCode, ProgramFault> {
        report(rt, text)
    }
}

/// What opens sessions at who keeps the reports. The commands that make inquiries need no more of them.
pub trait Sessions {
    /// Asks who keeps the reports. A journal isn't changed, and a log is asked as it is when it is read.
    fn ask<I: Inquiry + Drop>(
        &self,
        rt: &HostRuntime,
        keeper: Keeper<'_>,
        inquiry: I,
    ) -> Result<ExitCode, ProgramFault>;

    /// Reports to who keeps the reports.
    fn report<I: Inquiry + Drop>(
        &self,
        rt: &HostRuntime,
        keeper: Keeper<'_>,
        inquiry: I,
    ) -> Result<ExitCode, ProgramFault>;
}
