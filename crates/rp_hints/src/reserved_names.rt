//! Reserved words that are meant as names of columns.

use rp_wording::{Advice, Part, Pieces, Reading, is_one_of};
use std::alloc::Global;

/// The functions that take a column.
const FUNCTIONS: &str = "FIRST LAST PREV NEXT COUNT SUM MIN MAX";

/// Reserved words in the brackets of a function of which something else is told.
const OTHERS: &str = "NULL CLASSIFIER MATCH_NUMBER";

/// The name of a function before the place, without its brackets, and a reserved word there in the brackets of a function.
pub(crate) fn as_column(alloc: Global, reading: &Reading<'_>) -> Option<Advice> {
    if !matches!(reading.part(), Part::Measures | Part::Define) {
        return None;
    }
    if is_one_of(reading.back(1), FUNCTIONS) && reading.here() != "(" {
        return Some(without_brackets(alloc, reading.back(1)));
    }
    if is_argument(reading) {
        return Some(reserved_word(alloc, reading.here()));
    }
    None
}

/// What to write in place of the name of a function without its brackets.
fn without_brackets(alloc: Global, word: &str) -> Advice {
    let mut help = Pieces::of(alloc, "as a function write ");
    help.push_upper(word);
    help.push(in_brackets(word));
    help.push("; as a name in quotes and in upper case, \"");
    help.push_upper(word);
    help.push("\"");
    let what = "a reserved word is before this, without its brackets";
    Advice::with_help(alloc, what, help)
}

/// What comes behind the name of a function.
fn in_brackets(word: &str) -> &'static str {
    if is_one_of(word, "COUNT") {
        return "(*)";
    }
    "(p)"
}

/// Whether a reserved word is at the place where the column of a function comes, with nothing else there.
fn is_argument(reading: &Reading<'_>) -> bool {
    reading.is_keyword()
        && is_one_of(reading.function(), FUNCTIONS)
        && matches!(reading.back(1), "(" | ".")
        && matches!(reading.next(1), ")" | ",")
        && !is_one_of(reading.here(), OTHERS)
}

/// What is told of a reserved word where a name comes.
pub(crate) fn reserved_word(alloc: Global, word: &str) -> Advice {
    let mut what = Pieces::new(alloc);
    what.push_upper(word);
    what.push(" is a reserved word, and can't come here");
    let mut help = Pieces::of(alloc, "as a name write \"");
    help.push_upper(word);
    help.push("\", in quotes and in upper case");
    Advice::of_pieces(what, help)
}
