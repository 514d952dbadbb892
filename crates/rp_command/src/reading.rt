//! From the words of a command to its job.
ghost use Rattle.std.specs.Prelude.{◌≡◌, [], true, IfOk, OnOk, map, string_bytes};
ghost use Rattle.clap.specs.Words.{IsAmong, found_of, kind_of, rows_of};
ghost use Rattle.clap.specs.declared.error.Error.{Error};
ghost use Rattle.rp_command.specs.Commands.{are_taken, faults_by, rows_by};
ghost use Rattle.rp_command.specs.Jobs.{AreUnderstood, IsFaultBy, IsFaultless, IsJobOf, IsNoSuchWord, IsRead, app_by, command_by};
ghost use Rattle.rp_command.specs.Values.{MeetsRules};

use crate::arguments::matched;
use crate::check::check_found;
use crate::commands::new_command;
use crate::job::{CommandName, Job, JobFault};
use crate::node::node_found;
use crate::source::source_found;
use crate::trace::trace_found;
use crate::whole::whole_found;
use crate::why::why_found;
use clap::ArgMatches;
use std::alloc::Global;

/// The job of the words for the command.
pub(crate) fn read_job(
    alloc: Global,
    command: CommandName,
    words: &[String],
) -> Result<Job, JobFault>
    ensures named { IfOk result (λ job. command_by job ≡ command) }
    ensures value { IfOk result (IsRead (map string_bytes words.now)) }
    ensures taken { IfOk result (IsFaultless (map string_bytes words.now)) }
    ensures cause { (error : Error) → result ≡ Err (JobFault.Line error) →
        IsFaultBy command (map string_bytes words.now) error }
    ensures line { (error : Error) → result ≡ Err (JobFault.Line error) →
        AreUnderstood command (map string_bytes words.now) → ⊥ }
{
    let matches = matches_of(alloc, command, words)?;
    job_found(alloc, command, &matches)
}

/// What clap finds in the words for the command.
fn matches_of<'a>(
    alloc: Global,
    command: CommandName,
    words: &'a [String],
) -> Result<ArgMatches<'a>, JobFault>
    ensures rules { IfOk result (MeetsRules (app_by command)) }
    ensures rows { IfOk result (λ matches.
        rows_of (found_of matches) ≡ rows_by (app_by command) (map string_bytes words.entry.now)) }
    ensures faultless { OnOk result (faults_by (app_by command) (map string_bytes words.entry.now) ≡ []) }
    ensures cause { (error : Error) → result ≡ Err (JobFault.Line error) →
        IsAmong (kind_of error) (faults_by (app_by command) (map string_bytes words.entry.now)) }
    ensures line { (error : Error) → result ≡ Err (JobFault.Line error) →
        are_taken (app_by command) (map string_bytes words.entry.now) ≡ true → ⊥ }
{
    let command = new_command(alloc, command)?;
    matched(command, words)
}

/// The job of what clap found for the command.
fn job_found(alloc: Global, command: CommandName, matches: &ArgMatches) -> Result<Job, JobFault>
    requires { MeetsRules (app_by command) matches.now }
    ensures value { IfOk result (IsJobOf command (rows_of (found_of matches.now))) }
    ensures other { (error : Error) → result ≡ Err (JobFault.Line error) →
        IsNoSuchWord command (rows_of (found_of matches.now)) error }
{
    match command {
        CommandName::Trace => trace_found(alloc, matches),
        CommandName::Whole => whole_found(alloc, matches),
        CommandName::Node => node_found(alloc, matches),
        CommandName::Source => source_found(alloc, matches),
        CommandName::Check => check_found(alloc, matches),
        CommandName::Why => why_found(alloc, matches),
    }
}
