//! The options that say how an input is read.
ghost use Rattle.std.specs.Prelude.{◌≡◌, false, IfOk, IfSome, codes};
ghost use Rattle.clap.specs.Words.{found_of, kind_of, rows_of};
ghost use Rattle.clap.specs.declared.error.Error.{Error};
ghost use Rattle.clap.specs.declared.error.kind.ErrorKind.TheVariants.{InvalidValue};
ghost use Rattle.clap.specs.declared.builder.value_parser.ValueParser.TheVariants as parser;
ghost use Rattle.rp_command.specs.Jobs.{HasInput, input_word};
ghost use Rattle.rp_command.specs.Values.{HasOther, HasText, HasValue, Passes};
ghost use Rattle.rp_command.specs.declared.job.InputFormat.{InputFormat as Named};

use crate::arguments::{Memory, flag_of, given_word, text_if_any, texts_if_any};
use crate::choices::no_such_word;
use crate::job::{CommandName, InputFormat, InputOptions, JobFault};
use clap::ArgMatches;
use std::alloc::Global;

/// The words that `--from` takes.
const INPUTS: &str = "csv, jsonl";

/// What the input is, as the command's option says.
pub(crate) fn input_of(
    alloc: Global,
    matches: &ArgMatches,
    command: CommandName,
) -> Result<InputFormat, JobFault>
    requires { HasValue (codes "from") matches.now }
    ensures value { IfOk result (λ from. HasText (rows_of (found_of matches.now)) (codes "from") (input_word from)) }
    ensures other { (error : Error) → result ≡ Err (JobFault.Line error) →
        (kind_of error ≡ InvalidValue) × HasOther (rows_of (found_of matches.now)) (codes "from") input_word }
{
    let word = given_word(matches, "from");
    match input_named(word) {
        Some(from) => Ok(from),
        None => Err(no_such_word(alloc, command, "--from <FORMAT>", INPUTS, word)),
    }
}

/// The values that clap found of these options, beside what the input is, unless memory is refused.
pub(crate) fn input_options(
    memory: &mut Memory,
    matches: &ArgMatches,
    from: InputFormat,
) -> InputOptions
    requires header { Passes false parser.Bool (codes "no-header") matches.now }
    requires from { HasText (rows_of (found_of matches.now)) (codes "from") (input_word from) }
    ensures value { memory.new.is_refused ≡ false → HasInput (rows_of (found_of matches.now)) result }
    ensures refused { memory.new.is_refused ≡ false → memory.old.is_refused ≡ false }
{
    InputOptions {
        table: text_if_any(memory, matches, "table"),
        columns: text_if_any(memory, matches, "columns"),
        delimiter: text_if_any(memory, matches, "delimiter"),
        nulls: texts_if_any(memory, matches, "null"),
        no_header: flag_of(matches, "no-header"),
        from,
    }
}

/// What the input is that the word is for.
fn input_named(word: &str) -> Option<InputFormat>
    ensures named { IfSome result (λ from. word.now ≡ input_word from) }
    ensures other { result ≡ None → (from : Named) → word.now ≡ input_word from → ⊥ }
{
    if word == "csv" {
        Some(InputFormat::Csv)
    } else if word == "jsonl" {
        Some(InputFormat::JsonLines)
    } else {
        None
    }
}
