//! The command line of rowmatch: which job the words name, with its values.
//!
//!     trace PATTERN
//!     whole [INPUT] --clause TEXT [--format FORMAT] [--progress] [--where CONDITION] [--most-turns N] [FILE]..
//!     node --table TEXT --clause TEXT --listen ADDR --state FILE --connections N [--idle SECONDS] [--verbose]
//!     source [INPUT] --clause TEXT [--budget N] [--idle SECONDS] [--acknowledge] [--verbose] ADDR..
//!     check [INPUT] [--clause TEXT] [--format FORMAT] [FILE]
//!     why [INPUT] --clause TEXT [--format FORMAT] [--key JSON] [--row N] [--where CONDITION] [--most-turns N] [FILE]..
//!
//! where INPUT says how the input is read:
//!
//!     [--table TEXT] [--columns TEXT] [--delimiter CHARACTER] [--null WORD].. [--no-header] [--from FORMAT]
//!
//! clap reads the words, once the texts that come from files are among them. What each job's command takes is said in
//! `specs/Commands`, and which values a job has in `specs/Jobs`, by the words of `specs/Values`.
#![tactic(auto)]

mod argument;
mod arguments;
mod check;
mod choices;
mod command;
mod commands;
mod fault;
pub mod help;
mod input;
mod job;
mod node;
mod options;
mod program_words;
mod reading;
mod source;
mod texts;
mod trace;
mod whole;
mod why;

pub use command::{not_utf8, read_command};
pub use fault::CommandLineFault;
pub use job::{
    AnswerFormat, CheckJob, InputFormat, InputOptions, Job, JobFault, NodeJob, ReportFormat,
    SourceJob, WholeJob, WhyJob,
};
pub use program_words::named_job;
