//! The words of a row pattern, one by one, in the order in which the standard prefers them: for a search. What a pattern's words are is
//! said by the crate rp_words; rp_word_lists lists all of them at once.
//!
//! `Choices` lists the words one by one, for a search that tests each row and gives up what is refused. `Outlook` tells
//! whether any word would follow a row whose condition is open. `Stack` is what both are made of.
#![tactic(auto)]

mod choices;
mod compiled;
mod linked;
mod machine;
mod outlook;
mod prepared;
mod stack;
mod visited;
mod ways;

pub use choices::{Choices, SplitPoint, Taken};
pub use outlook::{Outlook, Sight};
pub use prepared::Prepared;
pub use stack::Stack;
