//! Words of the command line that are refused.

use pana_arguments::{Explanation, KeptBy, refusal};
use pana_store_file::fault_of_address;
use pana_streams::{ProgramFault, complain, print_text};
use std::process::ExitCode;

/// Prints help, the version, or why the words are refused, and returns the status for it.
pub fn explain(rt: &HostRuntime, explanation: &Explanation) -> Result<ExitCode, ProgramFault> {
    if explanation.is_refusal {
        complain(rt, &explanation.text)?;
    } else {
        print_text(rt, &explanation.text)?;
    }
    Ok(ExitCode::from(explanation.status()))
}

/// Refuses the words for a reason.
pub fn refuse(rt: &HostRuntime, reason: &str) -> Result<ExitCode, ProgramFault> {
    explain(rt, &refusal(rt.alloc(), reason)?)
}

/// What is wrong with the words for a log, if something is.
pub fn fault_of_log(
    rt: &HostRuntime,
    kept_by: Option<KeptBy<'_>>,
) -> Result<Option<String>, ProgramFault> {
    match kept_by {
        Some(KeptBy::Log(log)) => fault_of_address(rt, log.address),
        _ => Ok(None),
    }
}
