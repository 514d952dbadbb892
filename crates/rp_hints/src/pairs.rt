//! What can't stand side by side.

use rp_wording::{Hint, is_one_of, said};

/// An entry of a table: words or signs with blanks between, those that may come behind them, what is wrong with two of them, and
/// what to write. Where none are written, any will do.
pub(crate) type Pair = (&'static str, &'static str, &'static str, &'static str);

/// What a table says of two words or signs, in any case.
pub(crate) fn look_up_pair(table: &[Pair], before: &str, behind: &str) -> Option<Hint> {
    for (one, other, what, help) in table {
        if is_meant(before, one) && is_meant(behind, other) {
            return said(what, help);
        }
    }
    None
}

/// Whether a word is one of some words, or any will do.
fn is_meant(word: &str, words: &str) -> bool {
    words.is_empty() || is_one_of(word, words)
}
