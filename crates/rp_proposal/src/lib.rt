//! Columns that are proposed for an input by what is seen in it, and what an input is that is no CSV; and the lines of an input's
//! faults, as far as they name a column.
//!
//! Nothing here decides: hints are guesses. The only error is being out of memory.
#![tactic(auto)]

mod fault_lines;
mod fronts;
mod heading;
mod proposed;
mod records;
mod seen;

pub use fault_lines::{csv_fault_line, name_of, objects_fault_line, source_of};
pub use fronts::of_no_json;
pub use heading::of_above;
pub use proposed::{
    Proposal, are_text, is_named, is_shown, meaning, meanings, propose_columns, push_table,
};
pub use records::{Records, has_mark, record_start, start_of, without_mark};
pub use seen::{Seen, seen_in};
