//! JSON lines as rows: one object a line, each column's value under its path of names.
//!
//!     {"user":{"id":7},"price":12.34}      id = int("user.id"), cents = decimal(price, 2)      7, 1234
//!
//! A column's source is a path of names with dots. A key names a part of it as a field of a CSV's header does: it is the part,
//! or has the form of a name whose upper-case form the part is. What is under a path is said in `specs/Paths`, the cells of an
//! object in `specs/Cells`, and the rows of a text and its first fault in `specs/ObjectRows`.
#![tactic(auto)]

mod cells;
mod fault;
mod key;
mod lines;
mod path;
mod rows;

pub use fault::{FieldFault, ObjectsFault};
pub use rows::rows_by_objects;
