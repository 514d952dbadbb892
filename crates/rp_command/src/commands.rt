//! The commands, and what clap has of them.
ghost use Rattle.std.specs.Prelude.{◌≡◌, IfOk};
ghost use Rattle.clap.specs.Words.{app_of};
ghost use Rattle.rp_command.specs.Jobs.{app_by};
ghost use Rattle.rp_command.specs.Listed.{app_with};

use crate::argument::{Argument, new_arguments};
use crate::job::CommandName;
use crate::{help, options};
use clap::Command;
use std::alloc::{AllocError, Global};

/// A command, as help shows it.
pub(crate) struct CommandText {
    /// The word that names it.
    pub(crate) name: &'static str,
    /// Its name in the usage line.
    pub(crate) usage_name: &'static str,
    /// What help tells in one line.
    pub(crate) summary: &'static str,
    /// What help tells below all.
    pub(crate) details: &'static str,
    /// What it takes.
    pub(crate) arguments: &'static [Argument],
}

static TRACE: CommandText = CommandText {
    name: "trace",
    usage_name: "rowmatch trace",
    summary: "Prints the variables of each line's match, a row for each letter",
    details: help::TRACE,
    arguments: options::TRACE,
};

static WHOLE: CommandText = CommandText {
    name: "whole",
    usage_name: "rowmatch whole",
    summary: "Prints the answer of a clause over a file, partition by partition",
    details: help::WHOLE,
    arguments: options::WHOLE,
};

static NODE: CommandText = CommandText {
    name: "node",
    usage_name: "rowmatch node",
    summary: "Takes rows over connections, and gives the items of their answers",
    details: help::NODE,
    arguments: options::NODE,
};

static SOURCE: CommandText = CommandText {
    name: "source",
    usage_name: "rowmatch source",
    summary: "Hands the rows of an input to nodes, and prints the items that they give",
    details: help::SOURCE,
    arguments: options::SOURCE,
};

static CHECK: CommandText = CommandText {
    name: "check",
    usage_name: "rowmatch check",
    summary: "Says what is wrong with a table, a clause or a file",
    details: help::CHECK,
    arguments: options::CHECK,
};

static WHY: CommandText = CommandText {
    name: "why",
    usage_name: "rowmatch why",
    summary: "Says why there is no match, partition by partition",
    details: help::WHY,
    arguments: options::WHY,
};

/// The command, as clap has it.
pub(crate) fn new_command<'a>(
    alloc: Global,
    command: CommandName,
) -> Result<Command<'a>, AllocError>
    ensures { IfOk result (λ made. app_of made ≡ app_by command) }
{
    command_with(alloc, text_of(command))
}

/// The texts of a command.
fn text_of(command: CommandName) -> &'static CommandText
    ensures { app_with result.now ≡ app_by command }
{
    match command {
        CommandName::Trace => &TRACE,
        CommandName::Whole => &WHOLE,
        CommandName::Node => &NODE,
        CommandName::Source => &SOURCE,
        CommandName::Check => &CHECK,
        CommandName::Why => &WHY,
    }
}

/// The command with these texts, as clap has it.
fn command_with<'a>(alloc: Global, text: &CommandText) -> Result<Command<'a>, AllocError>
    ensures { IfOk result (λ made. app_of made ≡ app_with text.now) }
{
    let arguments = new_arguments(alloc, text.arguments)?;
    let command = Command::new(alloc, text.name).bin_name(text.usage_name)?;
    command
        .about(text.summary)
        .after_help(text.details)
        .args(arguments)
}
