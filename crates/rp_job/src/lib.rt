//! What the jobs have in common: how the program ends, by a verdict, or early by a fault, which has a line on standard error and an exit
//! status; and what a job is asked, and of which inputs, by the options that say so: the columns and the form of an input, its files,
//! time zones by name; what is reported of them, and how far a long answer is.
//!
//! Which fault of the program comes of which fault of a crate below is said by `specs/Faults`, and the exit status of each by
//! `specs/Statuses`.
#![tactic(auto)]

mod asked;
mod fault;
mod files;
mod input;
mod input_fault;
mod job_inputs;
mod never_found;
mod progress;
mod remarks;
mod seed;
mod shown;
mod telling;
mod texts;
mod verdict;
mod zones;

pub use asked::{Asked, no_columns};
pub use fault::ProgramFault;
pub use files::bytes_of;
pub use input::{InputForm, InputLayout, columns_of, named_shape, table_of};
pub use job_inputs::JobInputs;
pub use never_found::columns_never_found;
pub use progress::Progress;
pub use seed::seeded_hasher;
pub use shown::shown_key;
pub use telling::{end_with, tell};
pub use texts::{condition_clause, condition_query, notes_on_given};
pub use verdict::Verdict;
