//! The jobs that read an input: `whole`, `why` and `source`, with a clause over it, and `trace`.
#![tactic(auto)]

mod printed;
mod source;
mod stream;
mod trace;
mod whole;
mod why;

pub use source::run_source;
pub use trace::run_trace_job;
pub use whole::run_answer;
pub use why::run_why;
