//! `whole`: the answer of a clause over an input, printed as lines, as CSV or as objects.
use rp_command::{AnswerFormat, WholeJob};
use rp_io::CountedDevice;
use rp_job::{Asked, JobInputs, ProgramFault, Progress, Verdict, seeded_hasher, shown_key};
use rp_question::{AnswerFault, Question};
use rp_whole::{EndedEarly, Halted, Stopped};
use std::alloc::AllocError;
use std::collections::hash_map::RandomState;
use std::num::NonZeroU64;

/// Prints the answer. What has no place in it is reported at the end: a skip fault, unless the answer is printed as lines, and a
/// partition that was given up.
pub fn run_answer<'a>(rt: &'a HostRuntime, job: &'a WholeJob) -> Result<Verdict, ProgramFault> {
    let mut progress = if job.progress {
        Some(Progress::new(rt))
    } else {
        None
    };
    let asked = Asked {
        input: &job.input,
        clause: job.clause.as_str(),
        filter: &job.filter,
        files: job.files.as_slice(),
    };
    let (layout, ready) = asked.layout(rt, &mut progress)?;
    let question = asked.question(rt.alloc(), &layout)?;
    let mut inputs = JobInputs::new(rt, asked, &layout, &question.query, ready, progress);
    print_answer(rt, job, &question, &mut inputs)
}

/// Prints the answer to a question over these inputs.
fn print_answer(
    rt: &HostRuntime,
    job: &WholeJob,
    question: &Question<'_>,
    inputs: &mut JobInputs<'_>,
) -> Result<Verdict, ProgramFault> {
    let hasher = seeded_hasher(rt)?;
    match write_answer(rt, job, question, inputs, hasher) {
        Ok(early) => tell_early(rt, &early),
        Err(AnswerFault::Input(fault)) => Err(inputs.program_fault(fault)),
        Err(AnswerFault::Output(fault)) => Err(ProgramFault::from(fault)),
    }
}

/// Prints the answer, and gives the partitions whose answers ended early.
fn write_answer(
    rt: &HostRuntime,
    job: &WholeJob,
    question: &Question<'_>,
    inputs: &mut JobInputs<'_>,
    hasher: RandomState,
) -> Result<EndedEarly, AnswerFault> {
    let (alloc, limit) = (rt.alloc(), most_turns(job));
    let mut writer = CountedDevice::new(rt.stdout());
    match job.format {
        AnswerFormat::Lines => question.answer_lines(alloc, inputs, limit, &mut writer, hasher),
        AnswerFormat::Csv => question.answer_csv(alloc, inputs, limit, &mut writer, hasher),
        AnswerFormat::Objects => question.answer_objects(alloc, inputs, limit, &mut writer, hasher),
    }
}

/// Reports the partitions whose answers ended early.
fn tell_early(rt: &HostRuntime, early: &EndedEarly) -> Result<Verdict, ProgramFault> {
    tell_stopped(rt, early.stopped.as_slice())?;
    tell_halted(rt, early.halted.as_slice())?;
    Ok(verdict_of(early))
}

/// The most turns of a start row's search.
fn most_turns(job: &WholeJob) -> Option<NonZeroU64> {
    NonZeroU64::new(u64::from(job.most_turns?))
}

/// Reports the partitions whose answers skip faults ended, a line each.
fn tell_stopped(rt: &HostRuntime, stopped: &[Stopped]) -> Result<(), AllocError> {
    for partition in stopped {
        let key = shown_key(rt.alloc(), &partition.key)?;
        let fault = partition.fault;
        let _ = eprintln!(rt; "rowmatch: partition {key}: {fault:?}");
    }
    Ok(())
}

/// Reports the partitions that were given up, a line each.
fn tell_halted(rt: &HostRuntime, halted: &[Halted]) -> Result<(), AllocError> {
    for partition in halted {
        let key = shown_key(rt.alloc(), &partition.key)?;
        let row = partition.row;
        let _ = eprintln!(rt; "rowmatch: partition {key}, row {row}: more turns than --most-turns");
    }
    Ok(())
}

/// How the job ended, by the partitions whose answers ended early.
fn verdict_of(early: &EndedEarly) -> Verdict {
    if !early.halted.is_empty() {
        Verdict::GivenUp
    } else if early.stopped.is_empty() {
        Verdict::Clean
    } else {
        Verdict::Findings
    }
}
