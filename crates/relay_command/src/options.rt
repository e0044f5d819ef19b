//! The options of a command as rows of a table. One function gives each row to the parser, so that its calls are proved once and not
//! once an option.
use clap::builder::ValueParser;
use clap::{Arg, ArgAction, Command};
use std::alloc::{AllocError, Global};

/// An option or an argument of a command.
#[derive(Clone, Copy)]
pub(crate) struct OptionRow {
    /// The name, which comes after `--`, and by which the value is read.
    pub(crate) name: &'static str,
    /// What comes after the name.
    pub(crate) takes: Takes,
    /// The value if the line doesn't have the option.
    pub(crate) default: Option<&'static str>,
    /// What it says of another option of the command.
    pub(crate) other: Other,
    /// Its text in the help.
    pub(crate) help: &'static str,
}

/// What comes after the name of an option. The text is the value's name in the help.
#[derive(Clone, Copy)]
pub(crate) enum Takes {
    /// Nothing, since the option is a switch.
    Nothing,
    /// A text that is required, without a name before it.
    Argument(&'static str),
    /// A text.
    Text(&'static str),
    /// A number: `Signed(1, 4095)` is what `value_parser!(u16).range(1..4096)` makes, and `Unsigned` is of `u64`.
    Number(&'static str, ValueParser<'static>),
}

/// What an option says of another option of its command.
#[derive(Clone, Copy)]
pub(crate) enum Other {
    /// Nothing.
    Any,
    /// A line with both is refused.
    Excludes(&'static str),
    /// The last of the two counts.
    Undoes(&'static str),
    /// A line with this option alone is refused.
    Needs(&'static str),
}

/// A command without its options.
#[derive(Clone, Copy)]
pub(crate) struct CommandRow {
    /// The name, the first word of a line.
    pub(crate) name: &'static str,
    /// What it does, in a line.
    pub(crate) about: &'static str,
    /// An example, after the options.
    pub(crate) example: &'static str,
}

/// Returns the command of a row with the options of a table.
pub(crate) fn command_of<'a>(
    alloc: Global,
    row: CommandRow,
    options: &[OptionRow],
) -> Result<Command<'a>, AllocError> {
    let mut command = Command::new(alloc, row.name)
        .about(row.about)
        .after_help(row.example);
    for option in options {
        command = command.arg(option_of(alloc, *option)?)?;
    }
    Ok(command)
}

/// Returns the option of a row.
fn option_of<'a>(alloc: Global, row: OptionRow) -> Result<Arg<'a>, AllocError> {
    let arg = match row.takes {
        Takes::Nothing => switch(alloc, row.name),
        Takes::Argument(value) => argument(alloc, row.name, value),
        Takes::Text(value) => text(alloc, row.name, value),
        Takes::Number(value, parser) => number(alloc, row.name, value, parser),
    };
    let arg = match row.default {
        Some(value) => arg.default_value(value),
        None => arg,
    };
    let arg = arg.help(row.help);
    match row.other {
        Other::Any => Ok(arg),
        Other::Excludes(name) => arg.conflicts_with(name),
        Other::Undoes(name) => arg.overrides_with(name),
        Other::Needs(name) => arg.requires_arg(name),
    }
}

fn switch<'a>(alloc: Global, name: &'static str) -> Arg<'a> {
    Arg::new(alloc, name).long(name).action(ArgAction::SetTrue)
}

fn argument<'a>(alloc: Global, name: &'static str, value: &'static str) -> Arg<'a> {
    Arg::new(alloc, name)
        .value_name(value)
        .required(true)
        .action(ArgAction::Set)
}

fn text<'a>(alloc: Global, name: &'static str, value: &'static str) -> Arg<'a> {
    Arg::new(alloc, name).long(name).value_name(value)
}

fn number<'a>(
    alloc: Global,
    name: &'static str,
    value: &'static str,
    parser: ValueParser<'static>,
) -> Arg<'a> {
    Arg::new(alloc, name)
        .long(name)
        .value_name(value)
        .value_parser(parser)
}
