//! What row patterns of SQL's `MATCH_RECOGNIZE` mean: the *words* of a pattern, which are the ways to map consecutive rows
//! to its variables, in the order in which the standard prefers them.
//!
//! The pattern `A B | A` has two words over two rows, `A B` and then `A`:
//! ```text
//! let both = Form::concatenation(alloc, Form::variable(0), Form::variable(1))?;
//! let form = Form::alternation(alloc, both, Form::variable(0))?;
//! let pattern = Pattern::new(form);
//! ```
//! Which words there are, and in which order, is said by rules in `specs/Maps` and `specs/Readings`; that the list of
//! `specs/Words` follows them is `law_words`. The crate rp_pattern lists them.
#![tactic(auto)]

mod builders;
mod form;
mod laws;
mod leading;
mod lexicographic;
mod word;

pub use form::{Form, MAX_BOUND, MAX_PARTS, Pattern};
pub use laws::{law_labels, law_leaders, law_words};
pub use lexicographic::{factorial, permutation_at, permutations};
pub use word::{End, Label, Mark, Seen, Word};
