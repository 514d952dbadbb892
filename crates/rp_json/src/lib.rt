//! Which JSON stands for which value: numbers, cells and fields of objects, each written and read.
//!
//! A reader gives None where the JSON has another form, so that its caller names the fault. What a writer gives reads
//! back as the same value. The forms are said in `specs/Forms`, objects and their fields in `specs/Objects`.
#![tactic(auto)]

mod digits;
mod fields;
mod numbers;
mod object;
mod values;

pub use digits::{digits_of, short_digits_of};
pub use fields::{cells, has, has_fields, optional, short_whole, whole};
pub use numbers::{json_of_optional, json_of_place, optional_of, place_of};
pub use object::object_of;
pub use values::{cells_of, json_of_cells};
