//! The values of SQL that a pattern's conditions and measures work on: null, whole numbers and texts, with their comparison,
//! arithmetic, three truth values and exact sums; and the tables and rows that hold them.
//!
//! A table says which rows it takes, and a row that it has made stays one of it:
//!
//!     let price = (String::from_str(alloc, "price")?, Kind::Int);
//!     let table = Table::new(alloc, vec![in alloc; price]?)?;
//!     let row = table.row(alloc, vec![in alloc; Value::Int(17)]?)?;
//!
//! Many rows that are made one after another lie in common blocks, so that a row costs no allocation of its own:
//!
//!     let mut rows = RowList::new(alloc);
//!     let mut cells = vec![in alloc; Value::Int(17)]?;
//!     rows.push(&mut cells)?;                                               // `cells` is empty again
//!     let rows = rows.into_rows()?;
//!
//! A comparison has one of three truth values, since with null nothing can be told; a condition over rows of which some
//! haven't come yet is `Judged`, told or open:
//!
//!     Value::Int(17).comparison_truth(Comparison::Less, &Value::Int(18))    // Tri::True
//!     Value::Null.comparison_truth(Comparison::Equal, &Value::Null)         // Tri::Unknown
//!
//! What these mean is said in `specs/`: Compared and Order, Arithmetic and Sums, Truth, Tables and Rows.
#![tactic(auto)]

mod cells;
mod comparison;
mod name;
mod row;
mod row_list;
mod sum;
mod table;
mod text;
mod truth;
mod value;

pub use cells::{Cells, same_values};
pub use comparison::Comparison;
pub use name::{is_name_byte, upper_case_name};
pub use row::{Row, RowFault, check_cells};
pub use row_list::RowList;
pub use sum::{RunningSum, law_sum, total};
pub use table::{Column, MAX_NAME_LEN, Table, TableFault};
pub use text::Text;
pub use truth::{Judged, Tri, law_told_stays};
pub use value::{Kind, Value, law_value_order};
