//! Columns that are computed at the edge: how the fields of an input become whole numbers and texts.
//!
//! `read_columns` gives the columns of a text, as `t = seconds("Booked At"), cents = decimal(Amount, 2)`, and `read` the value of
//! a field by the reading of its column. What that is `specs/Readings` says, over Instants, Decimals, Formats and Fronts.
#![tactic(auto)]

mod columns;
mod columns_text;
mod decimal;
mod fault;
mod field;
mod formats;
mod formatted;
mod fronts;
mod grammar;
mod instant;
mod reading;
mod resolve;
mod texts;
mod written;
mod zone;

pub use columns::{Columns, InputColumn};
pub use columns_text::{ColumnsFault, read_columns};
pub use fault::ReadingFault;
pub use field::read;
pub use formats::Format;
pub use reading::{Marks, Reading, Unit};
pub use texts::Texts;
pub use zone::{Region, Rules, Zone, ZoneFault};
