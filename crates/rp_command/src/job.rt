//! What the program is asked to do.

ghost use Rattle.std.specs.Prelude.{◌≡◌};
ghost use Rattle.rp_command.specs.declared.job.JobFault.TheVariants.{OutOfMemory};

use clap::Error;
use std::alloc::{AllocError, AllocFailed};
use thiserror::Error as Fault;

/// What the program is asked to do.
pub enum Job {
    /// Matches lines of letters against the pattern.
    Trace { pattern: String },
    /// Answers a clause over the rows of an input.
    Whole(WholeJob),
    /// Takes rows over connections, and gives the items of their answers.
    Node(NodeJob),
    /// Hands the rows of an input to nodes.
    Source(SourceJob),
    /// Tells what is wrong with a table, a clause or an input.
    Check(CheckJob),
    /// Tells what is in the way of a match.
    Why(WhyJob),
}

/// It is let go of by a call, wherever it is held.
impl Drop for Job {
    fn drop(self) {
        match self {
            Job::Trace { pattern: _ } => {}
            Job::Whole(_) => {}
            Job::Node(_) => {}
            Job::Source(_) => {}
            Job::Check(_) => {}
            Job::Why(_) => {}
        }
    }
}

/// The commands, of which each has jobs of its own.
#[derive(Clone, Copy)]
pub(crate) enum CommandName {
    Trace,
    Whole,
    Node,
    Source,
    Check,
    Why,
}

/// An input, and how it is read.
#[derive(Drop)]
pub struct InputOptions {
    /// The text of the table; None where there is none.
    pub table: Option<String>,
    /// The text of the columns, in place of a table's; None where there is none.
    pub columns: Option<String>,
    /// What is between the fields of a record, as it is typed; None where it is a comma.
    pub delimiter: Option<String>,
    /// The words that are null. Where there is none, an empty field is.
    pub nulls: Vec<String>,
    /// Whether the first record is a row, and no header.
    pub no_header: bool,
    /// What the input is.
    pub from: InputFormat,
}

/// What an input is.
#[derive(Clone, Copy, Debug, PartialEq, Eq)]
pub enum InputFormat {
    /// `csv`: records of CSV.
    Csv,
    /// `jsonl`: an object of JSON in each line.
    JsonLines,
}

/// An answer over the rows of an input.
#[derive(Drop)]
pub struct WholeJob {
    /// How the input is read.
    pub input: InputOptions,
    /// The text of the clause.
    pub clause: String,
    /// How the answer is printed.
    pub format: AnswerFormat,
    /// Whether standard error tells, every few seconds, how far it is.
    pub progress: bool,
    /// The text of a condition, of which only rows that meet it are looked at; None where all are.
    pub filter: Option<String>,
    /// The most turns of a start row's search, at least 1; None where there is no limit.
    pub most_turns: Option<u32>,
    /// The paths of the input's files; none where it is standard input.
    pub files: Vec<String>,
}

/// How an answer is printed.
#[derive(Clone, Copy)]
pub enum AnswerFormat {
    /// `lines`: a line of JSON for each item.
    Lines,
    /// `csv`: a header of the output columns, and a record of CSV for each row.
    Csv,
    /// `objects`: for each row an object of JSON, with the names of the output columns.
    Objects,
}

/// A node that is served at an address.
#[derive(Drop)]
pub struct NodeJob {
    /// The text of the table.
    pub table: String,
    /// The text of the clause.
    pub clause: String,
    /// The address to listen at, as `127.0.0.1:7000`.
    pub listen: String,
    /// The path of the file in which the node keeps its state.
    pub state: String,
    /// How many connections are served, at least 1; None where the node serves until it is ended.
    pub connections: Option<u32>,
    /// How many seconds a connection may be silent, and one line may take, at least 1; None where there is no limit.
    pub idle: Option<u32>,
    /// Whether a line says at the end of a connection how many lines were answered and are saved.
    pub acknowledge: bool,
    /// Whether standard error tells what goes on.
    pub verbose: bool,
}

/// A source of rows for nodes.
#[derive(Drop)]
pub struct SourceJob {
    /// How standard input is read.
    pub input: InputOptions,
    /// The text of the clause.
    pub clause: String,
    /// The most turns that a poll may take, at least 1.
    pub budget: u32,
    /// After how many seconds of a node's silence it ends, at least 1; None where that is never.
    pub idle: Option<u32>,
    /// Whether each node has to say that it saved what it was sent.
    pub acknowledge: bool,
    /// Whether standard error tells what a node refused.
    pub verbose: bool,
    /// The addresses of the nodes, at least one.
    pub addresses: Vec<String>,
}

/// What is to be checked.
#[derive(Drop)]
pub struct CheckJob {
    /// How the input is read. Without a table and columns some are proposed.
    pub input: InputOptions,
    /// The text of the clause; None where none is checked.
    pub clause: Option<String>,
    /// How what is found is printed.
    pub format: ReportFormat,
    /// The text of a condition, of which only rows that meet it are looked at; None where all are.
    pub filter: Option<String>,
    /// The paths of the input's files; none where it is standard input.
    pub files: Vec<String>,
}

/// What is asked of partitions without a match.
#[derive(Drop)]
pub struct WhyJob {
    /// How the input is read.
    pub input: InputOptions,
    /// The text of the clause.
    pub clause: String,
    /// How what is found is printed.
    pub format: ReportFormat,
    /// The key of the partition that is asked about, a list of JSON; None where each partition is.
    pub key: Option<String>,
    /// The row that a match should begin with, at least 1; None where it may be any.
    pub row: Option<u32>,
    /// The text of a condition, of which only rows that meet it are looked at; None where all are.
    pub filter: Option<String>,
    /// The most turns of the searches for a match, at least 1; None where the program's own limit holds.
    pub most_turns: Option<u32>,
    /// The paths of the input's files; none where it is standard input.
    pub files: Vec<String>,
}

/// How what is found is printed.
#[derive(Clone, Copy)]
pub enum ReportFormat {
    /// `text`: for people.
    Text,
    /// `json`: one object of JSON, for programs.
    Json,
}

/// Why the command line names no job.
#[derive(Debug, Drop, Fault)]
pub enum JobFault {
    /// What the command line lacks, or the help or version that was asked for, as clap tells it.
    #[error("{0}")]
    Line(Error),
    /// Memory was refused.
    #[error("out of memory")]
    OutOfMemory,
}

impl From<AllocError> for JobFault {
    ghost from_gives = { λ _ fault. fault ≡ OutOfMemory };

    fn from(_: AllocError) -> JobFault {
        JobFault::OutOfMemory
    }
}

impl<T: Drop> From<AllocFailed<T>> for JobFault {
    ghost from_gives = { λ _ fault. fault ≡ OutOfMemory };

    fn from(_: AllocFailed<T>) -> JobFault {
        JobFault::OutOfMemory
    }
}
