//! The parts of a clause in another order, and what is missing inside of them.

use crate::pairs::{Pair, look_up_pair};
use rp_lexer::{Keyword, Mark, TokenKind};
use rp_wording::{Hint, Part, Reading, is_name, is_one_of, part_of, said};

/// The order of the parts.
const ORDER: &str =
    "the parts come in this order: PARTITION BY, ORDER BY, MEASURES, ONE ROW or ALL ROWS PER MATCH, AFTER MATCH SKIP, PATTERN, SUBSET, DEFINE";

/// What is missing behind two words of ONE ROW and ALL ROWS PER MATCH.
const ROWS: [Pair; 7] = [
    (
        "ONE",
        "ROW",
        "PER MATCH is missing",
        "write ONE ROW PER MATCH",
    ),
    (
        "ALL",
        "ROWS",
        "PER MATCH is missing",
        "write ALL ROWS PER MATCH",
    ),
    (
        "",
        "ONE ALL ROW PER",
        "the words are ONE ROW PER MATCH and ALL ROWS PER MATCH",
        "write one of the two",
    ),
    (
        "WITH",
        "UNMATCHED",
        "ROWS is missing",
        "write ALL ROWS PER MATCH WITH UNMATCHED ROWS",
    ),
    (
        "",
        "WITH",
        "UNMATCHED ROWS is missing",
        "write ALL ROWS PER MATCH WITH UNMATCHED ROWS",
    ),
    (
        "SHOW OMIT",
        "EMPTY",
        "MATCHES is missing",
        "write SHOW EMPTY MATCHES or OMIT EMPTY MATCHES",
    ),
    (
        "",
        "SHOW OMIT",
        "EMPTY MATCHES is missing",
        "write SHOW EMPTY MATCHES or OMIT EMPTY MATCHES",
    ),
];

/// What is missing behind two words of AFTER MATCH SKIP.
const SKIP: [Pair; 6] = [
    (
        "",
        "AFTER",
        "MATCH is missing",
        "write AFTER MATCH SKIP PAST LAST ROW, SKIP TO NEXT ROW, SKIP TO FIRST A or SKIP TO LAST A",
    ),
    (
        "AFTER",
        "MATCH",
        "SKIP is missing",
        "write AFTER MATCH SKIP PAST LAST ROW, SKIP TO NEXT ROW, SKIP TO FIRST A or SKIP TO LAST A",
    ),
    (
        "SKIP",
        "PAST",
        "LAST ROW comes after PAST",
        "write AFTER MATCH SKIP PAST LAST ROW, or SKIP TO NEXT ROW",
    ),
    (
        "PAST",
        "LAST",
        "ROW is missing",
        "write AFTER MATCH SKIP PAST LAST ROW",
    ),
    (
        "",
        "NEXT",
        "ROW is missing",
        "write AFTER MATCH SKIP TO NEXT ROW",
    ),
    (
        "",
        "SKIP",
        "PAST or TO comes after SKIP",
        "write AFTER MATCH SKIP PAST LAST ROW, SKIP TO NEXT ROW, SKIP TO FIRST A or SKIP TO LAST A",
    ),
];

/// A comma before the word with which a part begins, and a list of columns that has none.
pub(crate) fn before_parts(reading: &Reading<'_>) -> Option<Hint> {
    if reading.is_in_brackets() {
        return None;
    }
    match reading.part() {
        Part::Partition | Part::Order => behind_columns(reading),
        Part::Subset if reading.back(1) == "," && begins_part(reading) => comma_before_part(),
        Part::Rows | Part::Skip | Part::Pattern
            if reading.here() == "," && begins_part(&at_next(reading)) => { comma_before_part() }
        _ => None,
    }
}

/// The same behind PARTITION BY and ORDER BY.
fn behind_columns(reading: &Reading<'_>) -> Option<Hint> {
    if !begins_part(reading) || is_listed(reading) {
        return None;
    }
    if is_one_of(reading.back(1), "BY") {
        return said(
            "a column is missing after BY",
            "write PARTITION BY sym ORDER BY t, or leave the part without a column out",
        );
    }
    if reading.back(1) == "," {
        return comma_before_part();
    }
    None
}

/// The reading at the token behind the place.
fn at_next<'a>(reading: &Reading<'a>) -> Reading<'a> {
    Reading {
        at: reading.at.saturating_add(1),
        ..*reading
    }
}

/// Whether a list goes on behind the word at the place, or the next part begins there: then the word is meant as a column.
fn is_listed(reading: &Reading<'_>) -> bool {
    is_one_of(reading.next(1), ", ASC DESC ORDER MEASURES PATTERN")
}

/// A comma where none comes.
fn comma_before_part() -> Option<Hint> {
    said(
        "no comma comes between the parts of a clause",
        "leave it out: PARTITION BY sym ORDER BY t PATTERN (A B+) DEFINE B AS p > 5",
    )
}

/// What is missing where a part begins, and parts in another order.
pub(crate) fn of_parts(reading: &Reading<'_>) -> Option<Hint> {
    if reading.is_in_brackets() || !begins_part(reading) {
        return None;
    }
    let found = match reading.part() {
        Part::Measures if is_one_of(reading.back(1), ", MEASURES") => no_measure(),
        Part::Measures if !has_as(reading) => nameless(),
        Part::Skip => of_skip(reading),
        Part::Rows => of_rows(reading),
        _ => None,
    };
    found.or(of_order(reading))
}

/// Parts in another order.
fn of_order(reading: &Reading<'_>) -> Option<Hint> {
    if is_one_of(reading.here(), "DEFINE") && is_later_definition(reading) {
        return said(
            "DEFINE comes once",
            "leave this one out: definitions have commas between, DEFINE A AS p > 5, B AS p < 3",
        );
    }
    if is_unfinished(reading) {
        return None;
    }
    if is_one_of(reading.here(), "SUBSET") {
        return of_unions(reading);
    }
    if is_one_of(reading.here(), "DEFINE") && !has_pattern(reading) {
        return said("PATTERN comes before DEFINE", ORDER);
    }
    if is_one_of(reading.here(), "DEFINE") && reading.part() == Part::Define {
        return said(
            "there is one DEFINE, after SUBSET",
            "write the definitions with commas between: DEFINE A AS p > 5, B AS p < 3",
        );
    }
    said("this part comes earlier in a clause", ORDER)
}

/// SUBSET where it can't stand.
fn of_unions(reading: &Reading<'_>) -> Option<Hint> {
    if reading.part() == Part::Subset {
        return said(
            "SUBSET comes once",
            "write the unions with commas between: SUBSET U = (A, B), V = (B, C)",
        );
    }
    said(
        "SUBSET comes after PATTERN and before DEFINE",
        "write PATTERN (A B) SUBSET U = (A, B) DEFINE A AS p > 5",
    )
}

/// Whether the token before the place asks for one more in its part. Behind a comma a definition has AS behind its variable.
fn is_unfinished(reading: &Reading<'_>) -> bool {
    if reading.part() == Part::Define && reading.back(1) == "," {
        return is_one_of(reading.next(1), "AS");
    }
    is_one_of(
        reading.back(1),
        "AS . = < > <= >= <> + - , ( BY PARTITION ORDER DEFINE SUBSET MEASURES SKIP TO",
    )
}

/// Whether a definition begins behind a comma and the word at the place.
fn is_later_definition(reading: &Reading<'_>) -> bool {
    reading.part() == Part::Define && reading.back(1) == "," && is_one_of(reading.next(2), "AS")
}

/// Whether a part begins at the place.
pub(crate) fn begins_part(reading: &Reading<'_>) -> bool {
    let Some(kind) = reading.kind_here() else {
        return false;
    };
    match part_of(kind) {
        Some(Part::Partition) | Some(Part::Order) => is_one_of(reading.next(1), "BY"),
        Some(Part::Rows) => is_one_of(reading.next(1), "ROW ROWS"),
        Some(Part::Skip) => is_one_of(reading.next(1), "MATCH"),
        Some(_) => true,
        None => false,
    }
}

/// Whether PATTERN stands before the place.
fn has_pattern(reading: &Reading<'_>) -> bool {
    reading.has_before(TokenKind::Keyword(Keyword::Pattern))
}

/// A clause that ends without the parts that it has to have.
fn no_pattern() -> Option<Hint> {
    said(
        "PATTERN and DEFINE are missing",
        "write PATTERN (A B+) DEFINE B AS p > PREV(p)",
    )
}

/// No measure where one has to come.
fn no_measure() -> Option<Hint> {
    said(
        "a measure is missing here",
        "leave the last comma out, or write one more: LAST(p) AS ended",
    )
}

/// A measure without a name.
fn nameless() -> Option<Hint> {
    said(
        "this measure has no name",
        "write AS and a name after each: MEASURES LAST(p) AS ended",
    )
}

/// Whether AS stands in the item before the place: behind the last comma outside of brackets.
fn has_as(reading: &Reading<'_>) -> bool {
    let mut has = false;
    for token in reading.tokens.iter().take(reading.at) {
        has = has_as_behind(token.kind, has);
    }
    has
}

/// The same behind a token, by whether it stands before.
fn has_as_behind(kind: TokenKind, has: bool) -> bool {
    match kind {
        TokenKind::Keyword(Keyword::As) => true,
        TokenKind::Keyword(Keyword::Measures | Keyword::Define) => false,
        TokenKind::Mark(Mark::Comma) => false,
        _ => has,
    }
}

/// What is missing inside of a part.
pub(crate) fn of_structure(reading: &Reading<'_>) -> Option<Hint> {
    match reading.part() {
        Part::Front => of_front(reading),
        Part::Partition | Part::Order => of_lists(reading),
        Part::Measures => of_measures(reading),
        Part::Rows => of_rows(reading),
        Part::Skip => of_skip(reading),
        Part::Pattern => of_end(reading),
        Part::Subset => of_subset(reading),
        Part::Define => of_define(reading),
    }
}

/// A clause without any part.
fn of_front(reading: &Reading<'_>) -> Option<Hint> {
    if reading.is_end() {
        return no_pattern();
    }
    None
}

/// The lists of PARTITION BY and ORDER BY.
fn of_lists(reading: &Reading<'_>) -> Option<Hint> {
    if is_one_of(reading.back(1), "PARTITION ORDER") {
        return said("BY is missing", "write PARTITION BY sym, ORDER BY t");
    }
    if reading.is_end() && !is_one_of(reading.back(1), "BY ,") {
        return no_pattern();
    }
    if is_name(reading.kind_here()) && is_name(reading.kind_back(1)) {
        return said(
            "a comma comes between columns",
            "write PARTITION BY sym, day",
        );
    }
    said(
        "columns of the table are listed here by their names",
        "write PARTITION BY sym, day, or ORDER BY day DESC, t",
    )
}

/// The list of MEASURES.
fn of_measures(reading: &Reading<'_>) -> Option<Hint> {
    if is_one_of(reading.back(1), "AS") {
        return said(
            "a name comes after AS",
            "write AS low, or in double quotes AS \"lowest price\"",
        );
    }
    if reading.is_end() && has_as(reading) {
        return no_pattern();
    }
    if !has_as(reading) && (reading.here() == "," || reading.is_end()) {
        return nameless();
    }
    if !has_as(reading) && is_name(reading.kind_here()) && ends_value(reading) {
        return said(
            "AS is missing before the name",
            "write AS before it, as in LAST(p) AS ended",
        );
    }
    if has_as(reading) && is_name(reading.kind_back(1)) {
        return said(
            "a comma comes between measures",
            "write A.p AS began, LAST(p) AS ended",
        );
    }
    None
}

/// Whether a value may end before the place.
pub fn ends_value(reading: &Reading<'_>) -> bool {
    is_simple(reading.kind_back(1)) || is_one_of(reading.back(1), ") NULL")
}

/// Whether it is a name or a literal.
pub(crate) fn is_simple(kind: Option<TokenKind>) -> bool {
    matches!(
        kind,
        Some(TokenKind::Name | TokenKind::Quoted | TokenKind::Number | TokenKind::Text)
    )
}

/// ONE ROW and ALL ROWS PER MATCH.
fn of_rows(reading: &Reading<'_>) -> Option<Hint> {
    if is_one_of(reading.here(), "SHOW OMIT WITH") && is_one_of(reading.back(3), "ROW") {
        return said(
            "this comes after ALL ROWS PER MATCH alone",
            "write ALL ROWS PER MATCH before it, or leave it out: with ONE ROW PER MATCH an empty match has its row",
        );
    }
    look_up_pair(&ROWS, reading.back(2), reading.back(1))
}

/// AFTER MATCH SKIP.
fn of_skip(reading: &Reading<'_>) -> Option<Hint> {
    look_up_pair(&SKIP, reading.back(2), reading.back(1))
}

/// What follows a pattern.
fn of_end(reading: &Reading<'_>) -> Option<Hint> {
    if reading.is_in_brackets() {
        return None;
    }
    if reading.is_end() || reading.here() == ")" {
        return said(
            "the clause ends here: DEFINE is missing",
            "write DEFINE A AS p > 5; for a pattern that takes any row, DEFINE A AS 1 = 1",
        );
    }
    said(
        "after the pattern's brackets comes SUBSET or DEFINE",
        "write DEFINE A AS p > 5; the whole pattern is written in one pair of brackets",
    )
}

/// SUBSET.
fn of_subset(reading: &Reading<'_>) -> Option<Hint> {
    if reading.is_end() && reading.back(1) == ")" {
        return said(
            "the clause ends here: DEFINE is missing",
            "write DEFINE A AS p > 5; for any row, DEFINE A AS 1 = 1",
        );
    }
    said(
        "a union is a name, = and variables in brackets",
        "write SUBSET MOVE = (UP, DOWN)",
    )
}

/// DEFINE.
fn of_define(reading: &Reading<'_>) -> Option<Hint> {
    if reading.back(1) == "," && is_one_of(reading.here(), "AND OR") {
        return said(
            "no comma comes before AND and OR",
            "leave it out: a comma comes between the definitions of two variables",
        );
    }
    if is_one_of(reading.back(1), "DEFINE ,") && !reading.is_in_brackets() {
        return of_definition_start(reading);
    }
    if !has_as(reading) && !is_one_of(reading.here(), "AS") {
        return said(
            "AS is missing after the variable",
            "write AS after it, as in DEFINE A AS p > 5",
        );
    }
    if is_one_of(reading.back(1), "AS") {
        return said(
            "a condition is missing after AS",
            "write DEFINE A AS p > 5; for any row, A AS 1 = 1",
        );
    }
    if is_name(reading.kind_here()) && is_one_of(reading.next(1), "AS") {
        return said(
            "a comma comes between definitions",
            "write DEFINE A AS p > 5, B AS p < 3",
        );
    }
    if ends_value(reading) && !reading.is_end() {
        return said(
            "the condition can't go on with this",
            "write an operator, AND or OR before it, or a comma before the next definition",
        );
    }
    said(
        "a value is missing here",
        "write a column, a number or a text in single quotes",
    )
}

/// What stands where a definition begins.
fn of_definition_start(reading: &Reading<'_>) -> Option<Hint> {
    if reading.is_end() && reading.back(1) == "," {
        return said(
            "a definition is missing after the comma",
            "leave the last comma out",
        );
    }
    if reading.is_end() {
        return said(
            "a definition is missing",
            "write DEFINE A AS p > 5; for any row, DEFINE A AS 1 = 1",
        );
    }
    said(
        "a variable of the pattern is wanted here",
        "write DEFINE A AS p > 5",
    )
}
