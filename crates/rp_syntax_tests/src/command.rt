//! Jobs of nodes and sources, whose values no output shows, and the fault of a word that is no UTF-8. The other jobs and all texts
//! are in cases/command.cases.
use crate::support::same;
use rp_command::{InputOptions, Job, JobFault, NodeJob, SourceJob, not_utf8, read_command};
use std::alloc::{AllocError, Global};
use std::process::Abort;
use std::test::Fail;

/// Command lines, their words with a blank between, and the values of their jobs: with all that they can be given, and with few words.
const JOBS: &[(&str, &str)] = &[
    (
        "node --verbose --connections 4294967295 --idle=1 --state node.state --listen 127.0.0.1:7000 \
         --clause c --table=t",
        "\
node c, table t, listen 127.0.0.1:7000, state node.state
connections Some(4294967295), idle Some(1), acknowledge false, verbose true",
    ),
    (
        "node --table=t --clause=c --listen=l --state=s --acknowledge",
        "\
node c, table t, listen l, state s
connections None, idle None, acknowledge true, verbose false",
    ),
    (
        "source b:2 a:1 b:2 --budget=7 --table=t --clause=c --idle=30 --acknowledge --verbose",
        r#"source c
table Some("t"), columns None, delimiter None, nulls [], no header false, from Csv
budget 7, idle Some(30), acknowledge true, verbose true, addresses ["b:2", "a:1", "b:2"]"#,
    ),
    (
        "source --columns t --clause c --null= --null n/a --delimiter ; --no-header --from jsonl a:1",
        r#"source c
table None, columns Some("t"), delimiter Some(";"), nulls ["", "n/a"], no header true, from JsonLines
budget 100000, idle None, acknowledge false, verbose false, addresses ["a:1"]"#,
    ),
];

/// How an input is read.
fn told_of_input(alloc: Global, input: &InputOptions) -> Result<String, AllocError> {
    format!(in alloc;
        "table {:?}, columns {:?}, delimiter {:?}, nulls {:?}, no header {}, from {:?}",
        input.table, input.columns, input.delimiter, input.nulls, input.no_header, input.from
    )
}

fn told_of_node(alloc: Global, job: &NodeJob) -> Result<String, AllocError> {
    format!(in alloc;
        "node {}, table {}, listen {}, state {}\nconnections {:?}, idle {:?}, acknowledge {}, verbose {}",
        job.clause,
        job.table,
        job.listen,
        job.state,
        job.connections,
        job.idle,
        job.acknowledge,
        job.verbose
    )
}

fn told_of_source(alloc: Global, job: &SourceJob) -> Result<String, AllocError> {
    let input = told_of_input(alloc, &job.input)?;
    format!(in alloc;
        "source {}\n{input}\nbudget {}, idle {:?}, acknowledge {}, verbose {}, addresses {:?}",
        job.clause, job.budget, job.idle, job.acknowledge, job.verbose, job.addresses
    )
}

/// The values of a job.
fn told_of(alloc: Global, job: &Job) -> Result<String, AllocError> {
    match job {
        Job::Node(job) => told_of_node(alloc, job),
        Job::Source(job) => told_of_source(alloc, job),
        _ => String::from_str(alloc, "another job"),
    }
}

fn words_of(alloc: Global, line: &str) -> Result<Vec<String>, AllocError> {
    let mut words = Vec::new(alloc);
    for word in line.split(' ') {
        words.push(String::from_str(alloc, word)?)?;
    }
    Ok(words)
}

/// The values of the job that these words name.
fn told_of_words(alloc: Global, words: &[String]) -> Result<String, AllocError> {
    match read_command(alloc, words) {
        Ok(job) => told_of(alloc, &job),
        Err(JobFault::OutOfMemory) => Err(AllocError),
        Err(JobFault::Line(_)) => String::from_str(alloc, "no job"),
    }
}

/// Asserts that each command line names this job.
fn check_jobs(rt: &impl Abort, alloc: Global, jobs: &[(&str, &str)]) -> Result<(), AllocError> {
    for (line, wanted) in jobs {
        let words = words_of(alloc, line)?;
        let told = told_of_words(alloc, &words)?;
        same(rt, told.as_str(), wanted);
    }
    Ok(())
}

#[test]
fn jobs_of_nodes_and_sources(rt: HostRuntime) -> Result<(), Fail> {
    Ok(check_jobs(&rt, rt.alloc(), JOBS)?)
}

/// The first line that is written of a fault of the words.
fn first_line(alloc: Global, fault: JobFault) -> Result<String, AllocError> {
    let JobFault::Line(error) = fault else {
        return Err(AllocError);
    };
    let text = format!(in alloc; "{error}")?;
    String::from_str(alloc, text.lines().next().unwrap_or(""))
}

#[test]
fn an_argument_that_is_no_utf8(rt: HostRuntime) -> Result<(), Fail> {
    let line = first_line(rt.alloc(), not_utf8(rt.alloc()))?;
    same(&rt, line.as_str(), "error: an argument isn't UTF-8");
    Ok(())
}
