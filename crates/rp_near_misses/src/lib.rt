//! Near misses: texts of rows that are what a clause compares them with, but for capitals and for blanks at their ends. Texts are equal byte
//! by byte, so that `=` is true of none of them, and a match that is meant never comes. And texts of a clause that no row has.
//!
//!     outcome = 'fail'        while the rows have 'FAIL'; or ' fail', as in a CSV with a blank behind each comma
//!     outcome = 'failed'      while they have 'fail' and 'ok'
//!
//! Nothing here decides: no value is changed, and which texts are meant is for people to say. The only error is being out of memory.
#![tactic(auto)]

mod absent;
mod compared;
mod notes;
mod rows;

pub use absent::absent_texts;
pub use notes::near_misses;
