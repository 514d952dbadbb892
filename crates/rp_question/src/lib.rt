//! What is asked, and of which inputs: from the texts of a clause and of a condition, and the bytes of inputs, to the answer.
//!
//! ```text
//! let reading = Reading { shape: &shape, layout: CsvLayout::plain(), nulls: &nulls };
//! let question = Question::new(alloc, "PATTERN (A B+) DEFINE B AS p > PREV(p)", &condition, reading)?;
//! let early = question.answer_csv(alloc, &mut inputs, None, &mut writer, hasher)?;
//! ```
//!
//! The rows of all inputs are read, one input after another; those for which the condition is true are kept; and the answers of the
//! clause over these are written. Which rows an input has is `specs/Read`, which rows are asked of `specs/Asked`, and what a call leaves
//! `specs/Answered`.
#![tactic(auto)]

mod fault;
mod inputs;
mod question;
mod reading;
mod shape;

pub use fault::{AnswerFault, InputFault, QuestionFault};
pub use inputs::{Inputs, Texts, Unread};
pub use question::Question;
pub use reading::Reading;
pub use shape::InputShape;
