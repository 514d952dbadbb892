//! The command `node`.
ghost use Rattle.std.specs.Prelude.{◌≡◌, false, IfOk};
ghost use Rattle.clap.specs.Words.{found_of, rows_of};
ghost use Rattle.clap.specs.declared.error.Error.{Error};
ghost use Rattle.rp_command.specs.Commands.{node_app};
ghost use Rattle.rp_command.specs.Jobs.{HasNode, IsJobOf};
ghost use Rattle.rp_command.specs.Values.{MeetsRules};
ghost use Rattle.rp_command.specs.declared.job.CommandName.TheVariants as command_name;

use crate::arguments::{Memory, flag_of, number_of, text_of};
use crate::job::{Job, JobFault, NodeJob};
use clap::ArgMatches;
use std::alloc::Global;

/// The job of what clap found.
pub(crate) fn node_found(alloc: Global, matches: &ArgMatches) -> Result<Job, JobFault>
    requires { MeetsRules node_app matches.now }
    ensures value { IfOk result (IsJobOf command_name.Node (rows_of (found_of matches.now))) }
    ensures other { (error : Error) → result ≡ Err (JobFault.Line error) → ⊥ }
{
    let mut memory = Memory::new(alloc);
    let job = node_job(&mut memory, matches);
    memory.finish(Job::Node(job))
}

/// The values that clap found.
fn node_job(memory: &mut Memory, matches: &ArgMatches) -> NodeJob
    requires { MeetsRules node_app matches.now }
    ensures value { memory.new.is_refused ≡ false → HasNode (rows_of (found_of matches.now)) result }
    ensures refused { memory.new.is_refused ≡ false → memory.old.is_refused ≡ false }
{
    NodeJob {
        table: text_of(memory, matches, "table"),
        clause: text_of(memory, matches, "clause"),
        listen: text_of(memory, matches, "listen"),
        state: text_of(memory, matches, "state"),
        connections: number_of(matches, "connections"),
        idle: number_of(matches, "idle"),
        acknowledge: flag_of(matches, "acknowledge"),
        verbose: flag_of(matches, "verbose"),
    }
}
