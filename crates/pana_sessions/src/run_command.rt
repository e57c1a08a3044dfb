//! `panad run`: lines of standard input are answered.

use crate::keeping::{READS, run_kept, run_shared};
use pana_arguments::{KeptBy, RunArguments};
use pana_commands::run_on;
use pana_keeper::place_of;
use pana_streams::{ProgramFault, output};
use pana_wire::Tap;
use std::process::ExitCode;

/// Answers lines of standard input.
pub fn run(rt: &HostRuntime, arguments: RunArguments<'_>) -> Result<ExitCode, ProgramFault> {
    match arguments.kept_by {
        Some(KeptBy::Journal(name)) => return run_kept(rt, name),
        Some(KeptBy::Log(log)) => return run_shared(rt, place_of(log)),
        _ => {}
    }
    let mut reader = Tap::new(rt.reader());
    let mut writer = Tap::new(output(rt)?);
    match run_on(rt.alloc(), &mut reader, &mut writer, READS) {
        Ok(_) => Ok(ExitCode::SUCCESS),
        Err(fault) => Err(ProgramFault::of_serving(fault)),
    }
}
