//! Notes on columns of texts that are numbers or times, where what a clause asks of them has another answer as texts, which are compared
//! byte by byte: each note says how the column is read as whole numbers. Notes on columns of whole numbers that are dates, where a clause
//! adds or subtracts them. And notes on columns that are given in different units.
//!
//! Nothing here decides: no value is changed, and which way of reading is meant is for people to say. A note is given only where its
//! reading reads each field. The only error is being out of memory.
#![tactic(auto)]

mod clocks;
mod compact_dates;
mod decimals;
mod example;
mod formats;
mod found;
mod given_units;
mod lines;
mod mixed_times;
mod notes;
mod null_texts;
mod null_words;
mod retyped;
mod same_form;
mod shell;
mod signs;
mod strays;
mod texts;
mod time_texts;
mod times;
mod units;
mod uses;
mod way;
mod whole;
mod written;

pub use given_units::notes_on_units;
pub use notes::{Note, Proposed, notes_on_proposed};
pub use uses::Asked;
