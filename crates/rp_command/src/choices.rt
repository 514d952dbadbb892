//! Options that take some words alone: the fault of a word that is none of these.
ghost use Rattle.std.specs.Prelude.{◌≡◌, IfOk};
ghost use Rattle.clap.specs.Words.{kind_of};
ghost use Rattle.clap.specs.declared.error.kind.ErrorKind.TheVariants.{InvalidValue};
ghost use Rattle.clap.specs.declared.error.Error.{Error};

use crate::arguments::{error_of, line_fault};
use crate::commands::new_command;
use crate::job::{CommandName, JobFault};
use clap::Error;
use clap::error::ErrorKind;
use std::alloc::{AllocError, Global};

/// The fault of a word that an option of the command doesn't take, where these are the words that it takes.
pub(crate) fn no_such_word(
    alloc: Global,
    command: CommandName,
    option: &str,
    words: &str,
    word: &str,
) -> JobFault
    ensures { (error : Error) → result ≡ JobFault.Line error → kind_of error ≡ InvalidValue }
{
    match line_of_no_such_word(alloc, command, option, words, word) {
        Ok(error) => line_fault(error),
        Err(_) => JobFault::OutOfMemory,
    }
}

fn line_of_no_such_word(
    alloc: Global,
    command: CommandName,
    option: &str,
    words: &str,
    word: &str,
) -> Result<Error, AllocError>
    ensures { IfOk result (λ error. kind_of error ≡ InvalidValue) }
{
    let text = format!(in alloc;
        "invalid value '{word}' for '{option}'\n  [possible values: {words}]"
    )?;
    error_of(
        new_command(alloc, command),
        ErrorKind::InvalidValue,
        text.as_str(),
    )
}
