//! What is wrong with a clause, with a condition of `--where` or with the text of a table, where it is, and what to write in its place.
//!
//! Every text is the line that the program prints, then the place with its line and a mark under it, then what is wrong there and
//! what to write:
//!
//!     clause: UnknownColumn at byte 129
//!       clause, line 7, column 22
//!        7 |        B AS p < PREV(prise)
//!          |                      ^^^^^ the table has no column prise
//!       help: write price
//!       help: the columns are sym, t, price
//!
//! Nothing here decides: the fault is that of `read_table` or `compile`, and hints are guesses from the words round its place. Each line
//! ends in LF. The only error is being out of memory.
#![tactic(auto)]

mod clause;
mod condition;
mod dates;
mod explained;
mod further;
mod literals;
mod meaning;
mod moments;
mod numbers;
mod passed;
mod statement;
mod table_kinds;
mod table_text;
mod tried;

pub use clause::explain_clause;
pub use condition::{explain_condition, explain_other_rows};
pub use explained::{Explained, explain_text};
pub use literals::{Compared, compared_literal};
pub use numbers::{AsNumbers, as_numbers};
pub use table_text::explain_table;
