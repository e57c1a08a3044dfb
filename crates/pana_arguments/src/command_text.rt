//! A command, as data.

use crate::item::{Item, args_of};
use clap::Command;
use std::alloc::{AllocError, Global};

/// What a command is called, what help says of it, and its words and options.
#[derive(Clone, Copy)]
pub struct CommandText {
    pub name: &'static str,
    /// What it does, in a line.
    pub about: &'static str,
    /// What its help says at the end.
    pub example: &'static str,
    /// The words and options, in the order of the help.
    pub items: &'static [Item],
}

impl CommandText {
    /// The command that the text is of.
    pub fn command<'a>(&self, alloc: Global) -> Result<Command<'a>, AllocError> {
        let args = args_of(alloc, self.items)?;
        Command::new(alloc, self.name)
            .about(self.about)
            .after_help(self.example)
            .args(args)
    }
}
