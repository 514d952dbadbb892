//! What is said of a fault, as far as clauses, tables, columns and inputs have it in common: the report with its place, its mark and
//! what to write; why a text has no tokens; the tokens and operands round a place of a text; names as they are told, and the one that
//! may be meant; and what a field of an input looks like.
//!
//! Nothing here decides, and nothing knows the faults of a clause or an input: those are explained by the crates above. The only error
//! is being out of memory.
#![tactic(auto)]

mod advice;
mod bad_places;
mod characters;
mod dates;
mod fields;
mod lexical;
mod names;
mod nouns;
mod operands;
mod pieces;
mod reading;
mod report;
mod text_report;
mod values;

pub use advice::{Advice, Entry, Hint, is_one_of, look_up, said};
pub use bad_places::{NO_NOT, OPPOSITE};
pub use dates::is_date;
pub use fields::{
    are_digits, are_digits_or, count_digits, has_zeros, is_null_word, is_whole, unsigned,
};
pub use lexical::explain_lex;
pub use names::{
    column_names, index_of, inside_quotes, is_plain, meant, nearest, quoted, shown, text_literal,
    upper_case,
};
pub use nouns::{kind_word, noun};
pub use operands::{
    closing, depth_behind, is_arithmetic, is_comparison, is_name, is_short, operand_end,
    operand_start, text_of,
};
pub use pieces::Pieces;
pub use reading::{Part, Reading, part_of, tokens_of};
pub use report::{Mark, Report, shown_line, shown_text};
pub use text_report::{Source, TextReport};
pub use values::{
    begins_condition, column_end, ends_condition, is_behind_not, short_text, value_end,
    value_start, whole_operand,
};
