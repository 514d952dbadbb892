//! What is wrong with columns, a CSV input or an input of objects, where it stands, and what to write in its place; and what is said of
//! columns that are proposed for an input.
//!
//! Nothing here decides: the fault is that of `read_columns`, `rows_of`, `rows_by` or `rows_by_objects`, and hints are guesses from the
//! bytes round its place. Each line ends in LF. The only error is being out of memory.
#![tactic(auto)]

mod by_columns;
mod columns_text;
mod csv_text;
mod field;
mod first_line;
mod lost_zeros;
mod mixed;
mod nested;
mod no_header;
mod no_object;
mod null_words;
mod number_cells;
mod object_fields;
mod objects;
mod proposal_notes;
mod quote_notes;
mod reading_words;
mod scan;
mod stray_lines;

pub use by_columns::explain_csv_by;
pub use columns_text::{explain_columns, explain_zone};
pub use csv_text::explain_csv;
pub use lost_zeros::describe_zeros;
pub use no_header::explain_no_header;
pub use objects::explain_objects;
pub use proposal_notes::explain_proposal;
pub use quote_notes::describe_quotes;
