//! The command `whole`.
ghost use Rattle.std.specs.Prelude.{◌≡◌, false, IfOk, IfSome, codes};
ghost use Rattle.clap.specs.Words.{found_of, kind_of, rows_of};
ghost use Rattle.clap.specs.declared.error.Error.{Error};
ghost use Rattle.clap.specs.declared.error.kind.ErrorKind.TheVariants.{InvalidValue};
ghost use Rattle.rp_command.specs.Commands.{whole_app};
ghost use Rattle.rp_command.specs.Jobs.{HasWhole, IsJobOf, IsNoSuchWord, answer_word, input_word};
ghost use Rattle.rp_command.specs.declared.job.CommandName.TheVariants as command_name;
ghost use Rattle.rp_command.specs.Values.{HasOther, HasText, HasValue, MeetsRules};
ghost use Rattle.rp_command.specs.declared.job.AnswerFormat.{AnswerFormat as Named};

use crate::arguments::{
    Memory, flag_of, given_word, number_of, text_if_any, text_of, texts_if_any,
};
use crate::choices::no_such_word;
use crate::input::{input_of, input_options};
use crate::job::{AnswerFormat, CommandName, InputFormat, Job, JobFault, WholeJob};
use clap::ArgMatches;
use std::alloc::Global;

/// The words that `--format` takes.
const ANSWERS: &str = "lines, csv, objects";

/// The job of what clap found.
pub(crate) fn whole_found(alloc: Global, matches: &ArgMatches) -> Result<Job, JobFault>
    requires { MeetsRules whole_app matches.now }
    ensures value { IfOk result (IsJobOf command_name.Whole (rows_of (found_of matches.now))) }
    ensures other { (error : Error) → result ≡ Err (JobFault.Line error) →
        IsNoSuchWord command_name.Whole (rows_of (found_of matches.now)) error }
{
    let from = input_of(alloc, matches, CommandName::Whole)?;
    let format = answer_of(alloc, matches)?;
    let mut memory = Memory::new(alloc);
    let job = whole_job(&mut memory, matches, from, format);
    memory.finish(Job::Whole(job))
}

/// The values that clap found, beside what the input is and how the answer is printed.
fn whole_job(
    memory: &mut Memory,
    matches: &ArgMatches,
    from: InputFormat,
    format: AnswerFormat,
) -> WholeJob
    requires rules { MeetsRules whole_app matches.now }
    requires from { HasText (rows_of (found_of matches.now)) (codes "from") (input_word from) }
    requires format { HasText (rows_of (found_of matches.now)) (codes "format") (answer_word format) }
    ensures value { memory.new.is_refused ≡ false → HasWhole (rows_of (found_of matches.now)) result }
    ensures refused { memory.new.is_refused ≡ false → memory.old.is_refused ≡ false }
{
    let clause = text_of(memory, matches, "clause");
    let filter = text_if_any(memory, matches, "where");
    let files = texts_if_any(memory, matches, "FILE");
    let input = input_options(memory, matches, from);
    WholeJob {
        input,
        clause,
        format,
        progress: flag_of(matches, "progress"),
        filter,
        most_turns: number_of(matches, "most-turns"),
        files,
    }
}

/// How the answer is printed, as the option says.
fn answer_of(alloc: Global, matches: &ArgMatches) -> Result<AnswerFormat, JobFault>
    requires { HasValue (codes "format") matches.now }
    ensures value { IfOk result (λ format. HasText (rows_of (found_of matches.now)) (codes "format") (answer_word format)) }
    ensures other { (error : Error) → result ≡ Err (JobFault.Line error) →
        (kind_of error ≡ InvalidValue) × HasOther (rows_of (found_of matches.now)) (codes "format") answer_word }
{
    let word = given_word(matches, "format");
    match answer_named(word) {
        Some(format) => Ok(format),
        None => Err(no_such_word(
            alloc,
            CommandName::Whole,
            "--format <FORMAT>",
            ANSWERS,
            word,
        )),
    }
}

/// How the answer is printed that the word is for.
fn answer_named(word: &str) -> Option<AnswerFormat>
    ensures named { IfSome result (λ format. word.now ≡ answer_word format) }
    ensures other { result ≡ None → (format : Named) → word.now ≡ answer_word format → ⊥ }
{
    if word == "lines" {
        Some(AnswerFormat::Lines)
    } else if word == "csv" {
        Some(AnswerFormat::Csv)
    } else if word == "objects" {
        Some(AnswerFormat::Objects)
    } else {
        None
    }
}
