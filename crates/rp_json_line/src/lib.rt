//! A line of JSON that is written piece by piece. A piece that is refused memory is remembered, and reported at the end: so the code that
//! writes an object reads as a list of its pieces.
//!
//! ```text
//! let mut line = JsonLine::new(alloc);
//! line.begin_object();
//! line.text("kind", "int");
//! line.count("rows", 4);
//! line.end_object();
//! let bytes = line.finish()?; // {"kind":"int","rows":4}
//! ```
#![tactic(auto)]

mod line;

pub use line::JsonLine;
