//! Why there is no match: which demands of a clause are in the way of one.
//!
//!     partition ["4111 **** **** 9002"], 4 rows: no match
//!       found T{3,} (T in rows 1 to 3) and no BIG after it: 1 of 2 parts
//!       without `t - FIRST(T.t) <= 1800` of BIG it matches, rows 1 to 4; at row 4 that is 1801 <= 1800
//!
//! A demand is a term of an AND in DEFINE (one that several variables demand is one), a lower bound of a quantifier, an anchor, or
//! that no row is between those of a match. Each is tried by the clause without it, compiled and searched as any other: so each line
//! says what that clause finds among the same rows, and nothing is guessed. How far the searches come is counted in parts of the
//! pattern: the first parts are searched as a pattern of their own.
//!
//! `Inquiry::why` gives what is found, `told` says it in lines for people, and `object_line` as JSON.
#![tactic(auto)]

mod between;
mod case;
mod demands;
mod edit;
mod empty;
mod extent;
mod inquiry;
mod lines;
mod list;
mod meaning;
mod object;
mod parts;
mod reached;
mod reasons;
mod seeking;
mod sides;
mod terms;
mod tokens;
mod variants;
mod way;

pub use inquiry::Inquiry;
pub use lines::told;
pub use object::object_line;
pub use reached::Reached;
pub use reasons::{Finding, Reasons};
pub use seeking::{Match, Sought, Wanted};
pub use sides::{Failure, Sides};
pub use way::{Demand, LowerBoundDemand, TermDemand, Way};
