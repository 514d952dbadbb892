//! The command `trace`.
ghost use Rattle.std.specs.Prelude.{◌≡◌, IfOk};
ghost use Rattle.clap.specs.Words.{found_of, rows_of};
ghost use Rattle.clap.specs.declared.error.Error.{Error};
ghost use Rattle.rp_command.specs.Commands.{trace_app};
ghost use Rattle.rp_command.specs.Jobs.{IsJobOf};
ghost use Rattle.rp_command.specs.Values.{MeetsRules};
ghost use Rattle.rp_command.specs.declared.job.CommandName.TheVariants as command_name;

use crate::arguments::{Memory, text_of};
use crate::job::{Job, JobFault};
use clap::ArgMatches;
use std::alloc::Global;

/// The job of what clap found.
pub(crate) fn trace_found(alloc: Global, matches: &ArgMatches) -> Result<Job, JobFault>
    requires { MeetsRules trace_app matches.now }
    ensures value { IfOk result (IsJobOf command_name.Trace (rows_of (found_of matches.now))) }
    ensures other { (error : Error) → result ≡ Err (JobFault.Line error) → ⊥ }
{
    let mut memory = Memory::new(alloc);
    let pattern = text_of(&mut memory, matches, "PATTERN");
    memory.finish(Job::Trace { pattern })
}
