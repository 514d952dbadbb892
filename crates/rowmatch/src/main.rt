//! Row pattern matching over lines and streams.
#![tactic(auto)]

use rp_check_job::run_check;
use rp_command::{Job, named_job};
use rp_input_jobs::{run_answer, run_source, run_trace_job, run_why};
use rp_job::{ProgramFault, Verdict, end_with};
use rp_node_job::run_node;
use std::io;
use std::process::ExitCode;

fn main(rt: HostRuntime) -> io::Result<ExitCode> {
    let status = match run(&rt) {
        Ok(verdict) => verdict.status(),
        Err(fault) => end_with(&rt, &fault),
    };
    Ok(ExitCode::from(status))
}

/// Does the job that the command line names.
fn run(rt: &HostRuntime) -> Result<Verdict, ProgramFault> {
    let job = named_job(rt)?;
    run_job(rt, job.as_ref())
}

/// Does a job. Only `check`, `whole` and `why` have a verdict.
fn run_job(rt: &HostRuntime, job: &Job) -> Result<Verdict, ProgramFault> {
    match job {
        Job::Trace { pattern } => run_trace_job(rt, pattern.as_str())?,
        Job::Whole(job) => return run_answer(rt, job),
        Job::Node(job) => run_node(rt, job)?,
        Job::Source(job) => run_source(rt, job)?,
        Job::Check(job) => return run_check(rt, job),
        Job::Why(job) => return run_why(rt, job),
    }
    Ok(Verdict::Clean)
}
