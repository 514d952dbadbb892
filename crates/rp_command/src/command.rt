//! The command line.
ghost use Rattle.std.specs.Prelude.{◌≡◌, IfOk, map, slice_get, string_bytes, Some};
ghost use Rattle.clap.specs.Words.{kind_of};
ghost use Rattle.clap.specs.declared.error.kind.ErrorKind.TheVariants.{ValueValidation};
ghost use Rattle.clap.specs.declared.error.Error.{Error};
ghost use Rattle.rp_command.specs.Jobs.{IsCause, IsFaultless, IsRead, NamesJob, command_in, command_of, name_of};

use crate::arguments::{error_of, line_fault};
use crate::commands::new_command;
use crate::help;
use crate::job::{CommandName, Job, JobFault};
use crate::reading::read_job;
use clap::error::ErrorKind;
use clap::{Command, Error};
use std::alloc::{AllocError, Global};

/// What `--version` tells.
const VERSION: &str = "0.1.0";

/// The job of the words after the program's name. The first one names it, and clap reads those after it: of the words
/// `trace` and `A*` the job is to trace the pattern `A*`. Help that is asked for is a fault too.
pub fn read_command(alloc: Global, words: &[String]) -> Result<Job, JobFault>
    ensures named { IfOk result (λ job. slice_get (map string_bytes words.now) 0 ≡ Some (name_of job)) }
    ensures value { IfOk result (IsRead (map string_bytes words.now)) }
    ensures taken { IfOk result (IsFaultless (map string_bytes words.now)) }
    ensures cause { (error : Error) → result ≡ Err (JobFault.Line error) → IsCause (map string_bytes words.now) error }
    ensures line { (error : Error) → result ≡ Err (JobFault.Line error) → NamesJob (map string_bytes words.now) → ⊥ }
{
    let Some(command) = first_command(words) else {
        return Err(no_job(alloc, words));
    };
    read_job(alloc, command, words)
}

/// The command that the first of the words names.
fn first_command(words: &[String]) -> Option<CommandName>
    ensures { result ≡ command_in (map string_bytes words.now) }
{
    match words.first() {
        Some(name) => command_named(name.as_str()),
        None => None,
    }
}

/// The command of this name.
fn command_named(name: &str) -> Option<CommandName>
    ensures { result ≡ command_of name.now }
{
    if name == "trace" {
        Some(CommandName::Trace)
    } else if name == "whole" {
        Some(CommandName::Whole)
    } else if name == "node" {
        Some(CommandName::Node)
    } else if name == "source" {
        Some(CommandName::Source)
    } else if name == "check" {
        Some(CommandName::Check)
    } else if name == "why" {
        Some(CommandName::Why)
    } else {
        None
    }
}

/// The fault of a command line with an argument that isn't UTF-8, for whoever reads the words: a mistake in the line, unless memory was
/// refused.
pub fn not_utf8(alloc: Global) -> JobFault
    ensures { (error : Error) → result ≡ JobFault.Line error → kind_of error ≡ ValueValidation }
{
    match line_of_no_text(alloc) {
        Ok(error) => line_fault(error),
        Err(_) => JobFault::OutOfMemory,
    }
}

fn line_of_no_text(alloc: Global) -> Result<Error, AllocError>
    ensures { IfOk result (λ error. kind_of error ≡ ValueValidation) }
{
    error_of(
        program(alloc),
        ErrorKind::ValueValidation,
        "an argument isn't UTF-8",
    )
}

/// The fault of words whose first one names no job: what all commands together make of them.
fn no_job(alloc: Global, words: &[String]) -> JobFault {
    match line_of_no_job(alloc, words) {
        Ok(error) => line_fault(error),
        Err(_) => JobFault::OutOfMemory,
    }
}

/// All commands together.
fn program<'a>(alloc: Global) -> Result<Command<'a>, AllocError> {
    let commands = new_commands(alloc, LISTED)?;
    let program = Command::new(alloc, "rowmatch").bin_name("rowmatch")?;
    program
        .version(VERSION)
        .no_binary_name(true)
        .subcommand_required(true)
        .after_help(help::EXAMPLES)
        .subcommands(commands)
}

/// The commands, in the order in which help lists them.
const LISTED: &[CommandName] = &[
    CommandName::Trace,
    CommandName::Whole,
    CommandName::Node,
    CommandName::Source,
    CommandName::Check,
    CommandName::Why,
];

/// These commands.
fn new_commands<'a>(alloc: Global, listed: &[CommandName]) -> Result<Vec<Command<'a>>, AllocError> {
    let mut commands = Vec::new(alloc);
    for command in listed {
        commands.push(new_command(alloc, *command)?)?;
    }
    Ok(commands)
}

fn line_of_no_job(alloc: Global, words: &[String]) -> Result<Error, AllocError> {
    match program(alloc)?.try_get_matches_from(words) {
        Err(error) => Ok(error),
        Ok(_) => error_of(
            program(alloc),
            ErrorKind::InvalidSubcommand,
            "no such command",
        ),
    }
}
