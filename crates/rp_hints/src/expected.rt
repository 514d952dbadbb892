//! A token that can't follow those before it in a clause, or a clause that ends too early.

use crate::behind::behind_values;
use crate::brackets::{never_closed, unclosed};
use crate::columns::near_line;
use crate::instead::instead;
use crate::parts::{before_parts, of_parts, of_structure};
use crate::pattern_hints::of_pattern;
use crate::reserved_names::{as_column, reserved_word};
use crate::rewriting::rewritten;
use crate::words::{KNOWN, misplaced_behind, misplaced_word, missing_function, missing_measure};
use rp_lexer::{Keyword, TokenKind};
use rp_wording::{Advice, Hint, Part, Pieces, Reading, is_one_of, said};
use std::alloc::{AllocError, Global};

/// The words with which the parts of a clause begin.
const PART_WORDS: &str =
    "PARTITION ORDER MEASURES ONE ALL AFTER PATTERN SUBSET DEFINE MATCH_RECOGNIZE";

/// The words with which a condition or a measure goes on, and the parts that may follow it.
const WORDS_BEHIND: &str = "AND OR NOT IS NULL AS ONE ALL AFTER PATTERN SUBSET DEFINE";

/// What is wrong at the token of the reading, which can't stand there.
pub fn unexpected(alloc: Global, reading: &Reading<'_>) -> Result<Advice, AllocError> {
    if let Some(advice) = unclosed(alloc, reading) {
        return Ok(advice);
    }
    if let Some(found) = outside(reading) {
        return Ok(Advice::of(alloc, found));
    }
    if let Some(advice) = as_column(alloc, reading) {
        return Ok(advice);
    }
    if let Some(advice) = rewritten(alloc, reading) {
        return Ok(advice);
    }
    if let Some(advice) = instead(alloc, reading)? {
        return Ok(advice);
    }
    briefly(alloc, reading)
}

/// The same by words and signs of which the same is said wherever they are.
fn briefly(alloc: Global, reading: &Reading<'_>) -> Result<Advice, AllocError> {
    if is_call(reading) {
        return no_function(alloc, reading);
    }
    if let Some(found) = plainly(reading) {
        return Ok(Advice::of(alloc, found));
    }
    otherwise(alloc, reading)
}

/// The same where the words and signs alone tell nothing.
fn otherwise(alloc: Global, reading: &Reading<'_>) -> Result<Advice, AllocError> {
    if reading.is_end() {
        return Ok(ends_early(alloc, reading));
    }
    if reading.is_keyword() {
        return Ok(reserved(alloc, reading));
    }
    if let Some(advice) = misspelled(alloc, reading)? {
        return Ok(advice);
    }
    Ok(by_structure(alloc, reading))
}

/// What the words and signs tell by themselves.
fn plainly(reading: &Reading<'_>) -> Option<Hint> {
    of_words(reading)
        .or(before_parts(reading))
        .or(of_pattern(reading))
        .or(behind_values(reading))
        .or(of_parts(reading))
}

/// An empty clause, and what stands before and behind MATCH_RECOGNIZE ( .. ).
fn outside(reading: &Reading<'_>) -> Option<Hint> {
    if reading.tokens.is_empty() {
        return said(
            "the clause is empty",
            "was its file found? a clause is written PATTERN (A B+) DEFINE B AS p > PREV(p)",
        );
    }
    if is_one_of(reading.back(1), "MATCH_RECOGNIZE") {
        return said(
            "a bracket comes after MATCH_RECOGNIZE",
            "write MATCH_RECOGNIZE ( .. )",
        );
    }
    if reading.is_behind() {
        return said(
            "nothing may follow the closing bracket",
            "leave the rest out: the answer has no alias, and nothing is selected from it",
        );
    }
    if reading.here() == ")" && reading.open_bracket().is_none() {
        return said("no bracket is open here", "leave this one out");
    }
    if reading.at == 0 && reading.kind(0) == Some(TokenKind::Keyword(Keyword::With)) {
        return misplaced_word("SELECT");
    }
    None
}

/// What the tables say of the word here and of the word before it.
fn of_words(reading: &Reading<'_>) -> Option<Hint> {
    let found = misplaced_word(word_here(reading));
    match reading.kind_back(1) {
        Some(TokenKind::Name) => found.or(misplaced_behind(reading.back(1))),
        _ => found,
    }
}

/// The name at the place, or the word behind a NOT there; nothing where neither stands there.
fn word_here<'a>(reading: &Reading<'a>) -> &'a str {
    match reading.kind_here() {
        Some(TokenKind::Name) => reading.here(),
        Some(TokenKind::Keyword(Keyword::Not)) => reading.next(1),
        _ => "",
    }
}

/// Whether a function is called that isn't one.
fn is_call(reading: &Reading<'_>) -> bool {
    matches!(reading.part(), Part::Measures | Part::Define)
        && reading.here() == "("
        && reading.kind_back(1) == Some(TokenKind::Name)
}

/// A function that there isn't.
fn no_function(alloc: Global, reading: &Reading<'_>) -> Result<Advice, AllocError> {
    let name = reading.back(1);
    let what = Pieces::filled(alloc, "there is no function {}", &[name]);
    if let Some(found) = missing_in(reading.part(), name) {
        return Ok(Advice::with_what(alloc, what, found.help));
    }
    let mut help = guess(alloc, name, KNOWN)?;
    help.push(
        "the functions are COUNT, SUM, MIN, MAX, FIRST, LAST, PREV, NEXT, CLASSIFIER and MATCH_NUMBER",
    );
    Ok(Advice::of_pieces(what, help))
}

/// What is said of a function that there isn't, by the part in which it is called.
fn missing_in(part: Part, name: &str) -> Option<Hint> {
    let found = missing_function(name);
    match part {
        Part::Measures => missing_measure(name).or(found),
        _ => found,
    }
}

/// A line with the word that is nearly this one, if one is.
fn guess(alloc: Global, written: &str, words: &str) -> Result<Pieces, AllocError> {
    let names = listed(alloc, words)?;
    near_line(alloc, written, names.as_slice())
}

/// Words with blanks between, one by one.
fn listed(alloc: Global, words: &str) -> Result<Vec<String>, AllocError> {
    let mut names = Vec::new(alloc);
    for word in words.split(' ') {
        names.push(String::from_str(alloc, word)?)?;
    }
    Ok(names)
}

/// A reserved word, perhaps in the place of a name.
fn reserved(alloc: Global, reading: &Reading<'_>) -> Advice {
    if !is_name_due(reading) {
        return by_structure(alloc, reading);
    }
    reserved_word(alloc, reading.here())
}

/// Whether a name may stand at the place, by what stands before it; words between conditions are meant as themselves.
fn is_name_due(reading: &Reading<'_>) -> bool {
    if is_one_of(reading.here(), "AND OR AS IS") {
        return false;
    }
    if reading.part() == Part::Pattern {
        return reading.is_in_brackets();
    }
    is_one_of(
        reading.back(1),
        "AS = < > <= >= <> + - * . ( | , BY AND OR NOT SUBSET DEFINE MEASURES TO",
    )
}

/// A word that is nearly one with which a part begins or a condition goes on.
fn misspelled(alloc: Global, reading: &Reading<'_>) -> Result<Option<Advice>, AllocError> {
    if !reading.is_name() {
        return Ok(None);
    }
    let words = match reading.part() {
        Part::Measures | Part::Define => WORDS_BEHIND,
        _ if reading.is_in_brackets() => return Ok(None),
        _ => PART_WORDS,
    };
    let help = guess(alloc, reading.here(), words)?;
    if help.is_empty() {
        return Ok(None);
    }
    Ok(Some(Advice::of_pieces(
        Pieces::filled(alloc, "no word of a clause is {}", &[reading.here()]),
        help,
    )))
}

/// A clause that ends where more has to come.
fn ends_early(alloc: Global, reading: &Reading<'_>) -> Advice {
    if let Some(index) = reading.open_bracket() {
        return never_closed(alloc, reading, index, ")");
    }
    by_structure(alloc, reading)
}

/// What is said by the part alone.
fn by_structure(alloc: Global, reading: &Reading<'_>) -> Advice {
    Advice::of(alloc, of_structure(reading).unwrap_or(generally(reading)))
}

/// What is said where nothing better is known.
fn generally(reading: &Reading<'_>) -> Hint {
    let help = match reading.part() {
        Part::Front =>
            "the parts come in this order: PARTITION BY, ORDER BY, MEASURES, ONE ROW or ALL ROWS PER MATCH, AFTER MATCH SKIP, PATTERN, SUBSET, DEFINE",
        Part::Partition => "write PARTITION BY sym, or PARTITION BY sym, day",
        Part::Order => "write ORDER BY t, or ORDER BY day DESC, t",
        Part::Measures => "write MEASURES A.p AS began, LAST(p) AS ended",
        Part::Rows =>
            "write ONE ROW PER MATCH, or ALL ROWS PER MATCH and perhaps SHOW EMPTY MATCHES, OMIT EMPTY MATCHES or WITH UNMATCHED ROWS",
        Part::Skip =>
            "write AFTER MATCH SKIP PAST LAST ROW, SKIP TO NEXT ROW, SKIP TO FIRST A or SKIP TO LAST A",
        Part::Pattern => "write PATTERN (A B+ C?), with | between alternatives",
        Part::Subset => "write SUBSET MOVE = (UP, DOWN)",
        Part::Define => "write DEFINE A AS p > 5, B AS p < PREV(p)",
    };
    if reading.is_end() {
        return Hint {
            what: "the clause ends too early",
            help,
        };
    }
    Hint {
        what: "this can't come here",
        help,
    }
}
