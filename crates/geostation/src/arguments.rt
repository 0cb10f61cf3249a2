//! The arguments of the program.

use crate::subcommand::{Subcommand, matched_format, subcommand_of};
use clap::error::ErrorKind;
use clap::{Command, Error};
use cmd_arguments::terminal::Console;
use cmd_arguments::{BadArgument, add_commands, command_named};
use cmd_quoting::OneLine;
use cmd_reporting::OutputFormat;
use sim_runs::VERSION;
use std::alloc::{AllocError, Global};

/// The name of the program.
const PROGRAM: &str = "geostation";

/// The program with its commands, in the order of its help.
fn whole<'a>(alloc: Global) -> Result<Command<'a>, AllocError> {
    let program = Command::new(alloc, PROGRAM)
        .about("Show, check and make captures of GeoNetworking frames, and run scenarios")
        .version(VERSION)
        .subcommand_required(true);
    add_commands(alloc, program)
}

/// Reads the arguments, the program's own name first, for a program with these streams. An error is
/// help or the version, if these were asked for, or why the arguments were refused. It shows each
/// argument on one line.
pub fn read<'a>(
    alloc: Global,
    arguments: &'a [String],
    console: Console,
) -> Result<(Subcommand<'a>, OutputFormat), Error> {
    match read_as_given(alloc, arguments, console) {
        Ok(read) => Ok(read),
        Err(error) => Err(shown_error(alloc, arguments, console, error)?),
    }
}

/// Returns the error of these arguments, with each of them as a line shows it. `error` shows them
/// unchanged.
fn shown_error(
    alloc: Global,
    arguments: &[String],
    console: Console,
    error: Error,
) -> Result<Error, AllocError> {
    if !error.use_stderr() {
        return Ok(error);
    }
    let mut escaped = Vec::new(alloc);
    for argument in arguments {
        escaped.push(format!(in alloc; "{}", OneLine(argument.as_str()))?)?;
    }
    Ok(match read_as_given(alloc, escaped.as_slice(), console) {
        Err(shown) => shown,
        Ok(_) => error,
    })
}

/// Reads the arguments. An error shows them unchanged.
fn read_as_given<'a>(
    alloc: Global,
    arguments: &'a [String],
    console: Console,
) -> Result<(Subcommand<'a>, OutputFormat), Error> {
    let mut program = whole(alloc)?;
    let matches = program.try_get_matches_from_mut(arguments)?;
    let format = matched_format(&matches, console);
    match subcommand_of(alloc, &matches, console) {
        Ok(Some(subcommand)) => Ok((subcommand, format)),
        Ok(None) => Err(program.error(ErrorKind::MissingSubcommand, "no command was given")?),
        Err(BadArgument::OutOfMemory) => Err(Error::from(AllocError)),
        Err(bad) => Err(refusal(alloc, &mut program, matches.subcommand_name(), bad)?),
    }
}

/// Returns the refusal of an argument's value, with the usage of the command that was matched.
fn refusal(
    alloc: Global,
    program: &mut Command<'_>,
    name: Option<&str>,
    bad: BadArgument<'_>,
) -> Result<Error, Error> {
    let sentence = sentence_of(alloc, bad)?;
    if let Some(name) = name
        && let Some(mut command) = command_named(alloc, PROGRAM, name)?
    {
        return Ok(command.error(ErrorKind::InvalidValue, sentence.as_str())?);
    }
    Ok(program.error(ErrorKind::InvalidValue, sentence.as_str())?)
}

/// Returns what is wrong with an argument's value, and a similar value, if there is one.
fn sentence_of(alloc: Global, bad: BadArgument<'_>) -> Result<String, AllocError> {
    match bad.tip(alloc)? {
        Some(word) => { format!(in alloc; "{bad}\n\n  tip: a similar value exists: '{word}'") }
        None => format!(in alloc; "{bad}"),
    }
}
