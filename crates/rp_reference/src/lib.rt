//! The items of a partition as the definitions say them, for the tests: each word of the pattern is listed, and each total
//! counted anew. Beside it items as text, and numbers that look random.
#![tactic(auto)]

mod dice;
mod fault;
mod plain;
mod text;

pub use dice::Dice;
pub use fault::PlainFault;
pub use plain::known_items;
pub use text::{item_text, write_cell};
