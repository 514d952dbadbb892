//! What `check` finds, as one object of JSON for programs.
//!
//!     {"clause":{"order_by":["T"],"output":[{"from":"SYM","kind":"text","name":"SYM","written":"sym"},
//!      {"from":null,"kind":"int","name":"FALLS","written":"falls"}],"partition_by":["SYM"],
//!      "reads":["SYM","T","P"],"rows_per_match":"one"},
//!      "columns":[{"kind":"text","name":"SYM"},{"kind":"int","name":"T"},{"kind":"int","name":"P"}],
//!      "faults":[],"rows":4}
//!
//! `columns` are those that the clause sees, `reads` those of them that it names, and `rows` how many rows the input has. `written` is an
//! output column's name as the clause has it, and `from` the column whose value it is, unchanged; null where it is none's.
//! A fault has its text (`table`, `columns`, `clause`, `where`, `csv` or `json`), its kind, what is wrong, what to write, and its place: the
//! offset of its first byte in the text, how many bytes are meant, its line and the number of its character in the line.
//!
//! Of several files `rows` are those of all, `inputs` has each with its `file` and its rows, and a fault of one has that `file`. Where there is
//! a condition of `--where`, `kept` is how many of the rows meet it.
//!
//! Rows that have no fault and may not be read as they are meant have `notes`, each with a `message`, and of several files with the `file` that
//! it is about, unless it is about all.
//!
//! What isn't known isn't there: of a clause with a fault there is no `clause`, and without an input there are no `rows`.
//! Nothing here decides: the faults are those of the crates that read, and what a query reads is looked up in it.
#![tactic(auto)]

mod clause;
mod columns;
mod fault;
mod findings;
mod input;
mod note;
mod written;

pub use fault::FoundFault;
pub use findings::{Findings, findings_line};
pub use input::{FoundInput, FoundRows};
pub use note::FoundNote;
