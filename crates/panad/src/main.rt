//! `panad` answers which copies of a file are newest, which are obsolete, and which are in conflict.
#![tactic(auto)]

mod command;

use std::process::ExitCode;

fn main(rt: HostRuntime) -> ExitCode {
    command::start(&rt, &rt)
}
