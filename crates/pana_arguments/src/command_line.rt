//! A command line that was read.

use crate::arguments::{Arguments, arguments_of};
use crate::command::panad_command;
use crate::explanation::Unread;
use clap::ArgMatches;
use std::alloc::Global;

/// The words of a command line that are such as it may have.
#[derive(Drop)]
pub struct CommandLine<'a> {
    words: ArgMatches<'a>,
}

impl<'a> CommandLine<'a> {
    /// Reads words, of which the first is the program's name.
    pub fn read(alloc: Global, words: &'a [String]) -> Result<CommandLine<'a>, Unread> {
        let command = panad_command(alloc)?;
        match command.try_get_matches_from(words) {
            Ok(words) => Ok(CommandLine { words }),
            Err(error) => Err(Unread::of(alloc, &error)),
        }
    }

    /// What the words ask for, or the reason for a `refusal`.
    pub fn arguments(&self) -> Result<Arguments<'_>, &'static str> {
        arguments_of(&self.words)
    }
}
