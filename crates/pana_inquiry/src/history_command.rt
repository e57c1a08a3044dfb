//! `panad history`: all that was reported of a file as a graph, by a journal or a daemon.

use crate::asking::{place_of, print_unexplained, refuse_place};
use crate::picture_file::{may_write_picture, write_picture};
use pana_arguments::HistoryArguments;
use pana_calls::Session;
use pana_copies::Place;
use pana_history::{Form, History, history_on};
use pana_keeper::{Inquiry, Keeper, Sessions, asker, keeper_of, print_line, report};
use pana_streams::{ProgramFault, print_text};
use std::process::ExitCode;

/// Where the history goes.
#[derive(Clone, Copy)]
enum Target<'a> {
    /// To standard output, as text.
    Output,
    /// To this file, as a picture.
    Picture(&'a str),
}

impl Target<'_> {
    fn form(self) -> Form {
        match self {
            Target::Output => Form::Text,
            Target::Picture(_) => Form::Svg,
        }
    }
}

/// Writes the picture to its file.
fn write_svg(rt: &HostRuntime, name: &str, picture: &str) -> Result<ExitCode, ProgramFault> {
    if write_picture(rt, name, picture).is_ok() {
        return Ok(ExitCode::SUCCESS);
    }
    let text = format!(in rt.alloc(); "cannot write {name}")?;
    report(rt, text.as_str())
}

/// Prints what is said of the place, or writes the picture.
fn present(
    rt: &HostRuntime,
    history: History,
    target: Target<'_>,
) -> Result<ExitCode, ProgramFault> {
    if !history.is_known {
        return print_line(rt, history.text, 1);
    }
    match target {
        Target::Output => {
            print_text(rt, history.text.as_str())?;
            Ok(ExitCode::SUCCESS)
        }
        Target::Picture(name) => write_svg(rt, name, history.text.as_str()),
    }
}

/// A place, and where its history goes.
#[derive(Drop)]
struct Asked<'a> {
    place: &'a Place,
    target: Target<'a>,
}

impl Inquiry for Asked<'_> {
    /// Asks, and prints what is said of the place, or draws it.
    fn make<S: Session>(
        self,
        rt: &HostRuntime,
        session: &mut S,
        keeper: Keeper<'_>,
    ) -> Result<ExitCode, ProgramFault> {
        let form = self.target.form();
        match history_on(rt.alloc(), session, &asker()?, self.place, form) {
            Ok(history) => present(rt, history, self.target),
            Err(fault) => print_unexplained(rt, keeper, fault),
        }
    }
}

/// Asks about the place. A file that has something else than a picture is left as it is.
fn ask<K: Sessions>(
    rt: &HostRuntime,
    sessions: &K,
    place: &Place,
    arguments: HistoryArguments<'_>,
) -> Result<ExitCode, ProgramFault> {
    let target = match arguments.svg {
        Some(name) if !may_write_picture(rt, name) => {
            let text = format!(in rt.alloc(); "{name} is no picture")?;
            return report(rt, text.as_str());
        }
        Some(name) => Target::Picture(name),
        None => Target::Output,
    };
    sessions.ask(rt, keeper_of(arguments.kept_by), Asked { place, target })
}

/// Asks about the place that the words name, or refuses the words.
pub fn run<K: Sessions>(
    rt: &HostRuntime,
    sessions: &K,
    arguments: HistoryArguments<'_>,
) -> Result<ExitCode, ProgramFault> {
    match place_of(rt, arguments.place)? {
        Some(place) => ask(rt, sessions, &place, arguments),
        None => refuse_place(rt, arguments.place),
    }
}
