//! The command `why`.
ghost use Rattle.std.specs.Prelude.{◌≡◌, false, IfOk, codes};
ghost use Rattle.clap.specs.Words.{found_of, rows_of};
ghost use Rattle.clap.specs.declared.error.Error.{Error};
ghost use Rattle.rp_command.specs.Commands.{why_app};
ghost use Rattle.rp_command.specs.Jobs.{HasWhy, IsJobOf, IsNoSuchWord, input_word, report_word};
ghost use Rattle.rp_command.specs.declared.job.CommandName.TheVariants as command_name;
ghost use Rattle.rp_command.specs.Values.{HasText, MeetsRules};

use crate::arguments::{Memory, number_of, text_if_any, text_of, texts_if_any};
use crate::check::report_of;
use crate::input::{input_of, input_options};
use crate::job::{CommandName, InputFormat, Job, JobFault, ReportFormat, WhyJob};
use clap::ArgMatches;
use std::alloc::Global;

/// The job of what clap found.
pub(crate) fn why_found(alloc: Global, matches: &ArgMatches) -> Result<Job, JobFault>
    requires { MeetsRules why_app matches.now }
    ensures value { IfOk result (IsJobOf command_name.Why (rows_of (found_of matches.now))) }
    ensures other { (error : Error) → result ≡ Err (JobFault.Line error) →
        IsNoSuchWord command_name.Why (rows_of (found_of matches.now)) error }
{
    let from = input_of(alloc, matches, CommandName::Why)?;
    let format = report_of(alloc, matches, CommandName::Why)?;
    let mut memory = Memory::new(alloc);
    let job = why_job(&mut memory, matches, from, format);
    memory.finish(Job::Why(job))
}

/// The values that clap found, beside what the input is and how what is found is printed.
fn why_job(
    memory: &mut Memory,
    matches: &ArgMatches,
    from: InputFormat,
    format: ReportFormat,
) -> WhyJob
    requires rules { MeetsRules why_app matches.now }
    requires from { HasText (rows_of (found_of matches.now)) (codes "from") (input_word from) }
    requires format { HasText (rows_of (found_of matches.now)) (codes "format") (report_word format) }
    ensures value { memory.new.is_refused ≡ false → HasWhy (rows_of (found_of matches.now)) result }
    ensures refused { memory.new.is_refused ≡ false → memory.old.is_refused ≡ false }
{
    let clause = text_of(memory, matches, "clause");
    let key = text_if_any(memory, matches, "key");
    let filter = text_if_any(memory, matches, "where");
    let files = texts_if_any(memory, matches, "FILE");
    let input = input_options(memory, matches, from);
    WhyJob {
        input,
        clause,
        format,
        key,
        row: number_of(matches, "row"),
        filter,
        most_turns: number_of(matches, "most-turns"),
        files,
    }
}
