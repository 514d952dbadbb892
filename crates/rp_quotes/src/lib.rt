//! Quotes of a CSV text that csv takes otherwise than is meant, most likely: one that never closes, one behind which its field goes on, and
//! one behind a blank, which opens no field. csv finds no fault in any of them: it takes line ends and whole records into a field whose quote
//! isn't closed, and blank and quote into one that doesn't begin with its quote. So whoever has such a text read is told.
//!
//!     sym,t,p
//!     "x,1,10         the quote that begins in line 2 never closes: all of this is one record of one field
//!     y,2,20
#![tactic(auto)]

mod mark;
mod quoting;
mod remarks;
mod watch;

pub use quoting::Quoting;
pub use remarks::remarks_on;
pub use watch::{QuoteWatch, Stray};
