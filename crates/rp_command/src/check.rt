//! The command `check`.
ghost use Rattle.std.specs.Prelude.{◌≡◌, false, IfOk, IfSome, codes};
ghost use Rattle.clap.specs.Words.{found_of, kind_of, rows_of};
ghost use Rattle.clap.specs.declared.error.Error.{Error};
ghost use Rattle.clap.specs.declared.error.kind.ErrorKind.TheVariants.{InvalidValue};
ghost use Rattle.rp_command.specs.Commands.{check_app};
ghost use Rattle.rp_command.specs.Jobs.{HasCheck, IsJobOf, IsNoSuchWord, input_word, report_word};
ghost use Rattle.rp_command.specs.declared.job.CommandName.TheVariants as command_name;
ghost use Rattle.rp_command.specs.Values.{HasOther, HasText, HasValue, MeetsRules};
ghost use Rattle.rp_command.specs.declared.job.ReportFormat.{ReportFormat as Named};

use crate::arguments::{Memory, given_word, text_if_any, texts_if_any};
use crate::choices::no_such_word;
use crate::input::{input_of, input_options};
use crate::job::{CheckJob, CommandName, InputFormat, Job, JobFault, ReportFormat};
use clap::ArgMatches;
use std::alloc::Global;

/// The words that `--format` takes.
const REPORTS: &str = "text, json";

/// The job of what clap found.
pub(crate) fn check_found(alloc: Global, matches: &ArgMatches) -> Result<Job, JobFault>
    requires { MeetsRules check_app matches.now }
    ensures value { IfOk result (IsJobOf command_name.Check (rows_of (found_of matches.now))) }
    ensures other { (error : Error) → result ≡ Err (JobFault.Line error) →
        IsNoSuchWord command_name.Check (rows_of (found_of matches.now)) error }
{
    let from = input_of(alloc, matches, CommandName::Check)?;
    let format = report_of(alloc, matches, CommandName::Check)?;
    let mut memory = Memory::new(alloc);
    let job = check_job(&mut memory, matches, from, format);
    memory.finish(Job::Check(job))
}

/// The values that clap found, beside what the input is and how what is found is printed.
fn check_job(
    memory: &mut Memory,
    matches: &ArgMatches,
    from: InputFormat,
    format: ReportFormat,
) -> CheckJob
    requires rules { MeetsRules check_app matches.now }
    requires from { HasText (rows_of (found_of matches.now)) (codes "from") (input_word from) }
    requires format { HasText (rows_of (found_of matches.now)) (codes "format") (report_word format) }
    ensures value { memory.new.is_refused ≡ false → HasCheck (rows_of (found_of matches.now)) result }
    ensures refused { memory.new.is_refused ≡ false → memory.old.is_refused ≡ false }
{
    let clause = text_if_any(memory, matches, "clause");
    let filter = text_if_any(memory, matches, "where");
    let files = texts_if_any(memory, matches, "FILE");
    let input = input_options(memory, matches, from);
    CheckJob {
        input,
        clause,
        format,
        filter,
        files,
    }
}

/// How what is found is printed, as the command's option says.
pub(crate) fn report_of(
    alloc: Global,
    matches: &ArgMatches,
    command: CommandName,
) -> Result<ReportFormat, JobFault>
    requires { HasValue (codes "format") matches.now }
    ensures value { IfOk result (λ format. HasText (rows_of (found_of matches.now)) (codes "format") (report_word format)) }
    ensures other { (error : Error) → result ≡ Err (JobFault.Line error) →
        (kind_of error ≡ InvalidValue) × HasOther (rows_of (found_of matches.now)) (codes "format") report_word }
{
    let word = given_word(matches, "format");
    match report_named(word) {
        Some(format) => Ok(format),
        None => Err(no_such_word(alloc, command, "--format <FORMAT>", REPORTS, word)),
    }
}

/// How what is found is printed that the word is for.
fn report_named(word: &str) -> Option<ReportFormat>
    ensures named { IfSome result (λ format. word.now ≡ report_word format) }
    ensures other { result ≡ None → (format : Named) → word.now ≡ report_word format → ⊥ }
{
    if word == "text" {
        Some(ReportFormat::Text)
    } else if word == "json" {
        Some(ReportFormat::Json)
    } else {
        None
    }
}
