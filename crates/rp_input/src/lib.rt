//! A CSV input as rows, by a table or by columns.
//!
//!     sym,t,p
//!     x,2,8           x, 2, 8
//!     y,1,            y, 1, null
//!     z,01,+5         z, 1, 5        by the table sym text, t int, p int
//!
//! What a text's rows and its first fault are is said in `specs/`: CsvRows, over Headers and Fields, and by columns in
//! ByColumns, over Placed and Layouts.
#![tactic(auto)]

mod by_columns;
mod columns_fault;
mod device;
mod fields;
mod header;
mod input;
mod laws;
mod layout;
mod placed;
mod places;
mod records;
mod rows;
mod taking;

pub use by_columns::rows_by;
pub use columns_fault::ColumnsCsvFault;
pub use fields::{first_misfit, is_value};
pub use header::names_column;
pub use input::{read_rows, read_rows_by};
pub use laws::{law_same_fields, law_same_rows};
pub use layout::{CsvLayout, is_delimiter};
pub use records::{reader_of, take_record};
pub use rows::{CsvFault, MAX_RECORDS, rows_of};
