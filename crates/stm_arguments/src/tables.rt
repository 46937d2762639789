//! The commands as tables, and how `clap` is told of them.

use clap::builder::ValueParser;
use clap::{Arg, ArgAction, Command};
use std::alloc::{AllocError, Global};

/// How an argument stands in a command line.
#[derive(Clone, Copy)]
pub(crate) enum Form {
    /// In its place, where it has to be.
    Required,
    /// In its place, where it may be.
    Optional,
    /// The same, with this in its place in the help.
    Named(&'static str),
    /// As a flag, which is set where it stands.
    Flag,
    /// As a flag, which is set where it stands, unless `=never` stands behind it; `=always` may, too.
    When,
    /// As an option with a value, of this name in the help, that may be there.
    Value(&'static str, ValueParser<'static>),
    /// The same, but that it has to be there.
    RequiredValue(&'static str, ValueParser<'static>),
    /// As an option with a text, of this name in the help, as often as need be.
    Values(&'static str),
    /// As an option with as many texts as there are names of them here.
    Texts(&'static [&'static str]),
}

/// An argument: its name, how it stands, and what the help says of it.
pub(crate) type Argument = (&'static str, Form, &'static str);

/// What an argument says of the others beside it.
#[derive(Clone, Copy)]
pub(crate) enum Beside {
    /// None of these stands there.
    Without,
    /// All of these do.
    With,
}

/// A command.
#[derive(Clone, Copy)]
pub(crate) struct Table {
    pub name: &'static str,
    /// What the help says of it in a line.
    pub about: &'static str,
    /// What its long help says behind the arguments.
    pub example: &'static str,
    pub arguments: &'static [Argument],
    /// Of which arguments something is said about others.
    pub rules: &'static [(&'static str, Beside, &'static [&'static str])],
}

/// Whether a fault is explained.
pub(crate) const EXPLAIN: Argument = (
    "explain",
    Form::When,
    "Explains faults, of an input or of a run: where each stands and what was found there; where standard error is a terminal this is the default, which --explain=never ends",
);

/// What stands for a flag that does not say when.
const ALWAYS: &str = "always";

/// When a flag is set.
const WHEN: &[&str] = &[ALWAYS, "never"];

/// An option with a value.
fn option<'a>(
    alloc: Global,
    name: &'static str,
    value: &'static str,
    parser: ValueParser<'static>,
) -> Arg<'a> {
    Arg::new(alloc, name)
        .long(name)
        .value_name(value)
        .value_parser(parser)
}

/// A flag that may say when.
fn when<'a>(alloc: Global, name: &'static str) -> Arg<'a> {
    option(alloc, name, "WHEN", ValueParser::Names(WHEN))
        .num_args(0..=1)
        .require_equals(true)
        .default_missing_value(ALWAYS)
}

/// An argument of this name, without its help.
fn formed<'a>(alloc: Global, name: &'static str, form: Form) -> Arg<'a> {
    match form {
        Form::Required => Arg::new(alloc, name).required(true),
        Form::Optional => Arg::new(alloc, name),
        Form::Named(value) => Arg::new(alloc, name).value_name(value),
        Form::Flag => Arg::new(alloc, name).long(name).action(ArgAction::SetTrue),
        Form::When => when(alloc, name),
        Form::Value(value, parser) => option(alloc, name, value, parser),
        Form::RequiredValue(value, parser) => option(alloc, name, value, parser).required(true),
        Form::Values(value) => {
            option(alloc, name, value, ValueParser::String).action(ArgAction::Append)
        }
        Form::Texts(values) => Arg::new(alloc, name)
            .long(name)
            .value_names(values)
            .value_parser(ValueParser::String),
    }
}

/// An argument, and what is said of the others beside it.
fn ruled<'a>(
    arg: Arg<'a>,
    beside: Beside,
    others: &'static [&'static str],
) -> Result<Arg<'a>, AllocError> {
    match beside {
        Beside::Without => arg.conflicts_with_all(&*others),
        Beside::With => arg.requires_all(&*others),
    }
}

/// An argument of a table.
fn arg_of<'a>(alloc: Global, argument: Argument, table: &Table) -> Result<Arg<'a>, AllocError> {
    let (name, form, help) = argument;
    let mut arg = formed(alloc, name, form).help(help);
    for (of, beside, others) in table.rules {
        if *of == name {
            arg = ruled(arg, *beside, *others)?;
        }
    }
    Ok(arg)
}

/// A command and one more argument of its table.
fn with_argument<'a>(
    alloc: Global,
    command: Command<'a>,
    argument: Argument,
    table: &Table,
) -> Result<Command<'a>, AllocError> {
    match arg_of(alloc, argument, table) {
        Ok(arg) => command.arg(arg),
        Err(error) => {
            drop(command);
            Err(error)
        }
    }
}

/// The command of a table.
fn command_of<'a>(alloc: Global, table: &Table) -> Result<Command<'a>, AllocError> {
    let mut command = Command::new(alloc, table.name)
        .about(table.about)
        .after_long_help(table.example);
    for argument in table.arguments {
        command = with_argument(alloc, command, *argument, table)?;
    }
    Ok(command)
}

/// A command and the one of a table below it.
pub(crate) fn with_command<'a>(
    alloc: Global,
    command: Command<'a>,
    table: &Table,
) -> Result<Command<'a>, AllocError> {
    match command_of(alloc, table) {
        Ok(subcommand) => command.subcommand(subcommand),
        Err(error) => {
            drop(command);
            Err(error)
        }
    }
}
