//! Where something stands in a text, and the drawing of its line with marks under it.
//!
//! ```text
//! let clause = "  DEFINE\n    B AS p < PREV(prise)";
//! let place = Place::of(clause, Span { start: 27, end: 32 });
//! draw(&mut out, "clause", &place, "the table has no column prise")?;
//! push_help(&mut out, "write price")?;
//!
//!   clause, line 2, column 19
//!    2 |     B AS p < PREV(prise)
//!      |                   ^^^^^ the table has no column prise
//!   help: write price
//! ```
//!
//! The column is a count of characters, as editors have it. The marks stand by what a terminal shows: a wide character
//! takes two columns there, a combining one none, and a control character, which would move the cursor, is shown as `?`.
//!
//! What a place is, is said by `specs/Places`, what a drawing is by `specs/Drawn`, and where its marks stand by `specs/Marks`.
#![tactic(auto)]

mod drawing;
mod laws;
mod place;
mod shown;

pub use drawing::{draw, push_help};
pub use laws::{law_lines, law_marks};
pub use place::{Place, Span, line_number};
pub use shown::shown_character;
