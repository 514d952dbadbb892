//! What can't stand in an expression: signs, numbers and arguments.

use crate::pairs::{Pair, look_up_pair};
use rp_lexer::TokenKind;
use rp_wording::{Hint, Part, Reading, is_one_of, said};

/// Signs that were doubled or put together as in other languages: the one before, the one here, what is wrong and what to write.
const SIGNS: [Pair; 12] = [
    ("=", "> >=", "there is no =>", "write >= for 'at least'"),
    ("=", "< <=", "there is no =<", "write <= for 'at most'"),
    ("=", "=", "there is no ==", "write = for 'equal'"),
    (
        "<",
        "=",
        "a sign of two characters has no blank inside",
        "write <=",
    ),
    (
        ">",
        "=",
        "a sign of two characters has no blank inside",
        "write >=",
    ),
    (
        "<",
        ">",
        "a sign of two characters has no blank inside",
        "write <> for 'not equal'",
    ),
    (">", "<", "there is no ><", "write <> for 'not equal'"),
    (
        "<=",
        ">",
        "there is no <=>",
        "write (p = q OR p IS NULL AND q IS NULL)",
    ),
    (">", ">", "there is no >>", "multiply by a power of two"),
    ("<", "<", "there is no <<", "multiply by a power of two"),
    ("<>", "=", "there is no <>=", "write <> for 'not equal'"),
    (
        "-",
        ">",
        "there is no ->",
        "a column of a variable's row is written A.p",
    ),
];

/// What can't stand in the brackets of a function: its name, the word or sign before the place, what is wrong and what to write.
const ARGUMENTS: [Pair; 9] = [
    (
        "CLASSIFIER",
        "",
        "CLASSIFIER() has nothing in its brackets",
        "for a union of UP and DOWN compare LAST(UP.t) with LAST(DOWN.t)",
    ),
    (
        "MATCH_NUMBER",
        "",
        "MATCH_NUMBER() has nothing in its brackets",
        "leave it out",
    ),
    (
        "COUNT",
        "",
        "COUNT counts rows or the values of one column",
        "write COUNT(*), COUNT(A.*), COUNT(p) or COUNT(A.p)",
    ),
    (
        "SUM",
        "",
        "an aggregate goes over one column",
        "write SUM(p) or SUM(A.p); for the sum of an expression let one more column of the file have it",
    ),
    (
        "MIN",
        "",
        "an aggregate goes over one column",
        "write MIN(p) or MIN(A.p); for the least of an expression let one more column of the file have it",
    ),
    (
        "MAX",
        "",
        "an aggregate goes over one column",
        "write MAX(p) or MAX(A.p); for the greatest of an expression let one more column of the file have it",
    ),
    (
        "PREV NEXT",
        ",",
        "an offset is a number that is written out",
        "write PREV(p, 2); for PREV(p, -2) write NEXT(p, 2)",
    ),
    (
        "FIRST LAST",
        ",",
        "an offset is a number that is written out",
        "it counts from 0, without a minus: FIRST(p, 1) is of the second row, LAST(p, 1) of the last but one",
    ),
    (
        "PREV NEXT FIRST LAST",
        "",
        "a navigation is of one column, and perhaps a number",
        "write PREV(p), PREV(A.p, 2), or PREV(p) + PREV(q) in place of PREV(p + q)",
    ),
];

/// CLASSIFIER and MATCH_NUMBER without their brackets, a point behind a bracket, and marks that mean nothing in an expression, or mean
/// something in PATTERN alone.
const MARKS: [Pair; 12] = [
    (
        "CLASSIFIER MATCH_NUMBER",
        "",
        "the brackets are missing",
        "write CLASSIFIER() and MATCH_NUMBER(); as a name in quotes, \"CLASSIFIER\"",
    ),
    (
        "FINAL",
        "PREV NEXT",
        "RUNNING and FINAL come before FIRST, LAST, COUNT, SUM, MIN and MAX alone",
        "write PREV(FINAL LAST(A.p)) in place of FINAL PREV(A.p)",
    ),
    (
        "RUNNING FINAL",
        "",
        "RUNNING and FINAL come before FIRST, LAST, COUNT, SUM, MIN and MAX alone",
        "write FINAL LAST(p) in place of FINAL p",
    ),
    (
        ")",
        ".",
        "a point can't follow a bracket",
        "write LAST(A.p) in place of LAST(A).p",
    ),
    (
        ".",
        "*",
        "A.* is for COUNT alone",
        "write COUNT(A.*), or a column, A.p",
    ),
    (
        "",
        "|",
        "| is for PATTERN alone",
        "in a condition write OR; texts can't be joined",
    ),
    ("", "^", "there are no powers", "write p * p"),
    ("*", "*", "there are no powers", "write p * p"),
    ("", "?", "there are no parameters", "write the value itself"),
    ("", "{ {-", "this bracket is for PATTERN alone", "write ( )"),
    ("", "$", "$ is for PATTERN alone", "write the value itself"),
    ("", "+", "a + before a value means nothing", "leave it out"),
];

/// What is wrong behind a value or in the place of one, in MEASURES and DEFINE.
pub(crate) fn behind_values(reading: &Reading<'_>) -> Option<Hint> {
    let found = of_signs(reading).or(of_numbers(reading));
    match reading.part() {
        Part::Measures | Part::Define => found.or(in_values(reading)),
        _ => found,
    }
}

/// The same of words, and of signs that are fine elsewhere.
fn in_values(reading: &Reading<'_>) -> Option<Hint> {
    of_null(reading)
        .or(of_arguments(reading))
        .or(of_marks(reading))
}

/// Signs that make none together.
fn of_signs(reading: &Reading<'_>) -> Option<Hint> {
    look_up_pair(&SIGNS, reading.back(1), reading.here())
}

/// Fractions, exponents and digits with signs between.
fn of_numbers(reading: &Reading<'_>) -> Option<Hint> {
    let number = Some(TokenKind::Number);
    let behind = reading.kind_back(1) == number;
    if reading.here() == "." && (behind || reading.kind(reading.at.saturating_add(1)) == number) {
        return a_fraction(reading);
    }
    if behind && reading.touches() && reading.is_name() {
        return said(
            "a number has digits alone",
            "write 1000 for 1e3, 1k and 1_000; a unit of time is left out",
        );
    }
    if behind && reading.kind_here() == number {
        return said(
            "two numbers are side by side",
            "write an operator between them; a number has no blanks inside",
        );
    }
    None
}

/// A fraction.
fn a_fraction(reading: &Reading<'_>) -> Option<Hint> {
    let what = "there are no fractions";
    if reading.part() == Part::Measures {
        return said(
            what,
            "take a smaller unit, as cents; 1.5 * p is in tenths 15 * p",
        );
    }
    said(
        what,
        "take a smaller unit, as cents, or multiply both sides: for p < 0.95 * q write p * 100 < 95 * q",
    )
}

/// NULL as a value, and IS before anything else.
fn of_null(reading: &Reading<'_>) -> Option<Hint> {
    if is_one_of(reading.here(), "NULL") && begins_measure(reading) {
        return said(
            "NULL is no measure",
            "leave it out, or write a value of the match, as LAST(p) AS ended",
        );
    }
    if is_one_of(reading.here(), "NULL") {
        return said(
            "NULL is no value that is compared",
            "write p IS NULL or p IS NOT NULL",
        );
    }
    if is_one_of(reading.back(1), "IS")
        || is_one_of(reading.back(2), "IS") && is_one_of(reading.back(1), "NOT")
    {
        return said(
            "after IS comes NULL or NOT NULL alone",
            "write p IS NULL, p IS NOT NULL, or a comparison",
        );
    }
    None
}

/// Whether a measure begins at the place.
fn begins_measure(reading: &Reading<'_>) -> bool {
    reading.part() == Part::Measures
        && is_one_of(reading.back(1), "MEASURES ,")
        && !reading.is_in_brackets()
}

/// What stands in the brackets of a function.
fn of_arguments(reading: &Reading<'_>) -> Option<Hint> {
    of_classifier(reading).or(of_union(reading)).or(look_up_pair(
        &ARGUMENTS,
        reading.function(),
        reading.back(1),
    ))
}

/// A union in the brackets of CLASSIFIER, in MEASURES, where nothing is compared.
fn of_union(reading: &Reading<'_>) -> Option<Hint> {
    if reading.part() != Part::Measures || !is_one_of(reading.function(), "CLASSIFIER") {
        return None;
    }
    said(
        "CLASSIFIER() has nothing in its brackets",
        "write CLASSIFIER(); for a union of UP and DOWN give LAST(UP.t) AS up, LAST(DOWN.t) AS down, of which the later one is meant",
    )
}

/// CLASSIFIER in the brackets of a navigation, in place of its column.
fn of_classifier(reading: &Reading<'_>) -> Option<Hint> {
    let is_navigated = is_one_of(reading.back(2), "PREV NEXT FIRST LAST");
    if !is_navigated || reading.back(1) != "(" || !is_one_of(reading.here(), "CLASSIFIER") {
        return None;
    }
    let what = "a navigation takes a column alone";
    if is_last_classifier(reading) {
        return said(what, "write CLASSIFIER() in place of LAST(CLASSIFIER())");
    }
    if reading.part() == Part::Measures {
        return said(
            what,
            "write CLASSIFIER() AS c and ALL ROWS PER MATCH: each row has its variable then; with ONE ROW PER MATCH it is that of the last row",
        );
    }
    said(
        what,
        "in the condition of A write PREV(t) = LAST(B.t) for PREV(CLASSIFIER()) = 'B', where no two rows have the same t",
    )
}

/// Whether the CLASSIFIER at the place is in a LAST(CLASSIFIER()) that is the variable of the row itself.
fn is_last_classifier(reading: &Reading<'_>) -> bool {
    reading.part() == Part::Measures
        && is_one_of(reading.back(2), "LAST")
        && !is_one_of(reading.back(3), "FINAL")
        && reading.next(2) == ")"
        && reading.next(3) == ")"
}

/// Words and marks by the one before. A bracket behind the name of a function is where it has to be.
fn of_marks(reading: &Reading<'_>) -> Option<Hint> {
    let here = reading.here();
    if here == "(" && !is_one_of(reading.back(1), "RUNNING FINAL") {
        return None;
    }
    look_up_pair(&MARKS, reading.back(1), here)
}
