//! The command `source`.
ghost use Rattle.std.specs.Prelude.{◌≡◌, false, IfOk, codes};
ghost use Rattle.clap.specs.Words.{found_of, rows_of};
ghost use Rattle.clap.specs.declared.error.Error.{Error};
ghost use Rattle.rp_command.specs.Commands.{source_app};
ghost use Rattle.rp_command.specs.Jobs.{HasSource, IsJobOf, IsNoSuchWord, input_word};
ghost use Rattle.rp_command.specs.declared.job.CommandName.TheVariants as command_name;
ghost use Rattle.rp_command.specs.Values.{HasText, MeetsRules};

use crate::arguments::{Memory, count_of, flag_of, number_of, text_of, texts_of};
use crate::input::{input_of, input_options};
use crate::job::{CommandName, InputFormat, Job, JobFault, SourceJob};
use clap::ArgMatches;
use std::alloc::Global;

/// The job of what clap found.
pub(crate) fn source_found(alloc: Global, matches: &ArgMatches) -> Result<Job, JobFault>
    requires { MeetsRules source_app matches.now }
    ensures value { IfOk result (IsJobOf command_name.Source (rows_of (found_of matches.now))) }
    ensures other { (error : Error) → result ≡ Err (JobFault.Line error) →
        IsNoSuchWord command_name.Source (rows_of (found_of matches.now)) error }
{
    let from = input_of(alloc, matches, CommandName::Source)?;
    let mut memory = Memory::new(alloc);
    let job = source_job(&mut memory, matches, from);
    memory.finish(Job::Source(job))
}

/// The values that clap found, beside what the input is.
fn source_job(memory: &mut Memory, matches: &ArgMatches, from: InputFormat) -> SourceJob
    requires rules { MeetsRules source_app matches.now }
    requires from { HasText (rows_of (found_of matches.now)) (codes "from") (input_word from) }
    ensures value { memory.new.is_refused ≡ false → HasSource (rows_of (found_of matches.now)) result }
    ensures refused { memory.new.is_refused ≡ false → memory.old.is_refused ≡ false }
{
    let clause = text_of(memory, matches, "clause");
    let addresses = texts_of(memory, matches, "ADDR");
    let input = input_options(memory, matches, from);
    SourceJob {
        input,
        clause,
        budget: count_of(matches, "budget"),
        idle: number_of(matches, "idle"),
        acknowledge: flag_of(matches, "acknowledge"),
        verbose: flag_of(matches, "verbose"),
        addresses,
    }
}
