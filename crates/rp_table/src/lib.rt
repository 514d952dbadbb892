//! Names and cells as the records of a CSV text.
//!
//!     let mut records = Records::new(alloc);
//!     records.push_names(&[sym, p])?;                        // SYM,P
//!     records.push_cells(&[Value::Text(x), Value::Null])?;   // "a,b",
//!     write_all(&mut writer, records.take()?.as_slice())?;
//!
//! What a record's text is, is said by `specs/RecordTexts`.
#![tactic(auto)]

mod fields;
mod laws;
mod records;

pub use laws::law_reads_back;
pub use records::Records;
