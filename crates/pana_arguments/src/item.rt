//! The words and options of a command, as data.

use clap::builder::ValueParser;
use clap::{Arg, ArgAction, value_parser};
use std::alloc::{AllocError, Global};

/// What a word or an option is, and what is read behind an option's name.
#[derive(Clone, Copy)]
pub enum Kind {
    /// A word.
    Word,
    /// Words, as many as there are.
    Words,
    /// An option without a value.
    Flag,
    /// An option with a text, which help calls by this name.
    Text(&'static str),
    /// The same, as often as it is given.
    Texts(&'static str),
    /// An option with a port.
    Port,
    /// An option with a number, which help calls by this name.
    Number(&'static str),
    /// An option with a number of seconds.
    Seconds,
}

/// Beside which others a word or an option may or has to be there.
#[derive(Clone, Copy)]
pub enum Need {
    Optional,
    Required,
    /// It may stand only beside the first of these, and beside none of the others.
    With(&'static str, &'static [&'static str]),
    /// It may stand beside none of these.
    Without(&'static [&'static str]),
    /// One of it and these is there, and no other of them.
    InPlaceOf(&'static [&'static str]),
}

/// A word or an option of a command.
#[derive(Clone, Copy)]
pub struct Item {
    pub name: &'static str,
    pub kind: Kind,
    pub need: Need,
    pub help: &'static str,
}

/// What a use of a word or an option of this kind does.
fn action_of(kind: Kind) -> ArgAction {
    match kind {
        Kind::Words | Kind::Texts(_) => ArgAction::Append,
        Kind::Flag => ArgAction::SetTrue,
        _ => ArgAction::Set,
    }
}

/// What help calls the value of an option of this kind, if it has one.
fn value_of_option(kind: Kind) -> Option<&'static str> {
    match kind {
        Kind::Text(value) | Kind::Texts(value) | Kind::Number(value) => Some(value),
        Kind::Port => Some("N"),
        Kind::Seconds => Some("SECONDS"),
        Kind::Word | Kind::Words | Kind::Flag => None,
    }
}

/// What a value of this kind has to be.
fn parser_of<'a>(kind: Kind) -> ValueParser<'a> {
    match kind {
        Kind::Port => value_parser!(u16),
        Kind::Number(_) => value_parser!(u64),
        Kind::Seconds => value_parser!(u32),
        _ => ValueParser::String,
    }
}

/// An argument of this kind, which is optional.
fn plain<'a>(alloc: Global, item: &Item) -> Arg<'a> {
    let arg = Arg::new(alloc, item.name)
        .help(item.help)
        .action(action_of(item.kind));
    match value_of_option(item.kind) {
        Some(value) => arg
            .long(item.name)
            .value_name(value)
            .value_parser(parser_of(item.kind)),
        None if matches!(item.kind, Kind::Flag) => arg.long(item.name),
        None => arg,
    }
}

/// The argument that the item is.
fn arg_of<'a>(alloc: Global, item: &Item) -> Result<Arg<'a>, AllocError> {
    let arg = plain(alloc, item);
    match item.need {
        Need::Optional => Ok(arg),
        Need::Required => Ok(arg.required(true)),
        Need::With(other, without) => arg.requires_arg(other)?.conflicts_with_all(without),
        Need::Without(others) => arg.conflicts_with_all(others),
        Need::InPlaceOf(others) => arg
            .required_unless_present_any(others)?
            .conflicts_with_all(others),
    }
}

/// The arguments that the items are, in their order.
pub fn args_of<'a>(alloc: Global, items: &[Item]) -> Result<Vec<Arg<'a>>, AllocError> {
    let mut args = Vec::new(alloc);
    for item in items {
        args.push(arg_of(alloc, item)?)?;
    }
    Ok(args)
}
