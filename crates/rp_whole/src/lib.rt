//! From rows to their matches: rows are put into their partitions, and of each partition the answer is written, a line for each
//! item, or a record of CSV or an object of JSON for each row. A CSV input is read whole before.
//!
//!     sym,t,p         {"cells":["x",1,10,6,9],"key":["x"],"number":1,"place":"1"}
//!     x,2,8           {"end":true,"key":["x"],"place":"2"}
//!     y,1,5           {"end":true,"key":["y"],"place":"1"}
//!     x,1,10
//!     ..              by a clause with PARTITION BY sym ORDER BY t
//!
//! What is written over which rows is said in `specs/Answers`, and by the forms of `AnswerLines`, `AnswerRecords` and
//! `AnswerObjects`.
#![tactic(auto)]

mod answers;
mod blocks;
mod closed;
mod fault;
mod gathered;
mod halted;
mod laws;
mod lines;
mod next;
mod objects;
mod part;
mod parts;
mod records;
mod shown;
mod stopped;
mod turns;
mod watch;
mod whole;

pub use answers::{EndedEarly, write_csv, write_lines, write_objects};
pub use fault::WholeFault;
pub use halted::Halted;
pub use laws::{law_fitting, law_fitting_columns, law_header, law_limits};
pub use shown::shown_number;
pub use stopped::Stopped;
pub use watch::{Unwatched, Watch};
pub use whole::{run_whole, run_whole_csv};
