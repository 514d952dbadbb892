//! A matcher gives the items of a partition's known answer, one after another, as early as they are certain.
//!
//! ```text
//! let table = read_table(rt.alloc(), "sym text, t int, p int")?;
//! let query = compile(rt.alloc(), CLAUSE, &table)?;
//! let mut matcher = Matcher::new(rt.alloc(), query);
//! matcher.push(row)?; // matcher.close() once no further row comes
//! match matcher.next(1_000)? {
//!     Poll::Item(place, item) => println!(rt; "    item {place}: {item:?}")?, // the last one is `Item::End` or a fault
//!     Poll::Paused => {}    // the budget is used up: call it again
//!     Poll::Idle => break,  // nothing more is certain until a row comes or the close, or at all
//! }
//! ```
//!
//! The whole program is the crate rp_example.
#![tactic(auto)]

mod kept;
mod matcher;

pub use matcher::Matcher;
