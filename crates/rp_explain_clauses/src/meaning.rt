//! Clauses that can be read and mean nothing.

use crate::dates::of_dates;
use rp_hints::{unknown_column, unknown_variable};
use rp_lexer::TokenKind;
use rp_resolution::CheckKind;
use rp_value::Table;
use rp_wording::{
    Advice, Entry, Hint, Part, Pieces, Reading, is_comparison, is_name, is_one_of, kind_word,
    look_up, meant, operand_end, operand_start, said,
};
use std::alloc::{AllocError, Global};

/// What is wrong with signs and words over values of another kind.
const KINDS: [Entry; 3] = [
    (
        "+ - *",
        "only whole numbers are added, subtracted and multiplied",
        "both sides are columns of kind int, numbers or sums of them; texts can't be joined",
    ),
    (
        "AND OR NOT",
        "AND, OR and NOT come between conditions",
        "write a comparison on each side: p > 5 AND q = 'a'",
    ),
    (
        "IS",
        "IS NULL asks of a value",
        "a condition is before it: leave IS NULL out, or ask a column",
    ),
];

/// How a column of texts is read as whole numbers.
const READ: &str =
    "let --columns read it: {} = decimal({}, 2) for amounts, {} = seconds({}) for times";

/// How texts and numbers are told apart.
const QUOTES: &str =
    "a text is written in single quotes, a number in none; the kinds of columns are in the table";

/// What is wrong at the token of the reading, by the kind of the fault.
pub(crate) fn meaning(
    alloc: Global,
    table: &Table,
    reading: &Reading<'_>,
    kind: CheckKind,
) -> Result<Advice, AllocError> {
    let (what, help) = match kind {
        CheckKind::UnknownColumn => return unknown_column(alloc, table, reading),
        CheckKind::UnknownVariable => return unknown_variable(alloc, table, reading),
        CheckKind::DoubleName => return Ok(double_name(alloc, reading)),
        CheckKind::KindMismatch => return mismatch(alloc, table, reading),
        CheckKind::FinalInDefine => (
            "FINAL can't be used in DEFINE",
            "leave FINAL out: a condition sees the rows up to its own",
        ),
        CheckKind::NestedNavigation => (
            "this navigation can't be inside another",
            "only FIRST or LAST stand in PREV or NEXT: PREV(FIRST(A.p))\n\
            two rows back are PREV(p, 2); the second row of A is FIRST(A.p, 1)",
        ),
        CheckKind::BadBounds => bounds(reading),
        CheckKind::TooManyPermuted => (
            "PERMUTE has at most 8 parts",
            "write (A | B | ..){9}, and in each definition COUNT(A.*) = 1",
        ),
        CheckKind::ExclusionWithUnmatched => (
            "{- .. -} can't be with WITH UNMATCHED ROWS",
            "write ALL ROWS PER MATCH alone, or leave {- and -} out",
        ),
        CheckKind::MeasureOnly => (
            "this is for MEASURES alone",
            "in a condition count rows, COUNT(A.*), or give the rows a variable of their own",
        ),
    };
    Ok(Advice::new(alloc, what, help))
}

/// A bound or an offset: what is wrong, and what to write.
fn bounds(reading: &Reading<'_>) -> (&'static str, &'static str) {
    if reading.here() == "{" {
        return (
            "the bounds are at most 1000, the lower one first",
            "write {2,5}; for more than 1000 times (A{1000}){3}",
        );
    }
    (
        "an offset is at most 1000",
        "rows further away can't be asked for",
    )
}

/// A name that was given before.
fn double_name(alloc: Global, reading: &Reading<'_>) -> Advice {
    let (form, help) = match reading.part() {
        Part::Measures => (
            "the name {} is taken",
            "write another name after AS\n\
            the columns of PARTITION BY are in the answer anyway, with ALL ROWS PER MATCH every column does",
        ),
        Part::Define => (
            "{} has a definition already",
            "join the two conditions by AND or OR",
        ),
        Part::Subset => (
            "the name {} is taken by a variable or a union",
            "give the union another name",
        ),
        _ => (
            "{} is listed already",
            "leave it out here: all rows of a partition have the same value in its columns",
        ),
    };
    Advice::with_what(alloc, Pieces::filled(alloc, form, &[reading.here()]), help)
}

/// A value or a condition of another kind.
fn mismatch(alloc: Global, table: &Table, reading: &Reading<'_>) -> Result<Advice, AllocError> {
    let here = reading.here();
    if is_comparison(here) {
        return of_comparison(alloc, table, reading);
    }
    if here == "-" {
        if let Some(advice) = text_difference(alloc, table, reading)? {
            return Ok(advice);
        }
    }
    if is_one_of(here, "SUM") {
        return Ok(text_sum(alloc, reading));
    }
    let found = look_up(&KINDS, here).unwrap_or(of_whole(reading));
    Ok(Advice::of(alloc, found))
}

/// A difference of which a side is a column of texts.
fn text_difference(
    alloc: Global,
    table: &Table,
    reading: &Reading<'_>,
) -> Result<Option<Advice>, AllocError> {
    let behind = reading.at.saturating_add(1);
    let left = last_name(reading, operand_start(reading, reading.at), reading.at);
    let right = last_name(reading, behind, operand_end(reading, behind));
    for index in &[left, right] {
        if kind_at(alloc, table, reading, *index)? == "text" {
            let what = "only whole numbers are added, subtracted and multiplied";
            let form = "{} is text, and texts can't be subtracted\n";
            let help = read_as_numbers(alloc, form, reading.written(*index));
            return Ok(Some(Advice::with_help(alloc, what, help)));
        }
    }
    Ok(None)
}

/// A sum of a column of texts.
fn text_sum(alloc: Global, reading: &Reading<'_>) -> Advice {
    let end = operand_end(reading, reading.at);
    let column = last_name(reading, reading.at.saturating_add(1), end);
    let form = "{} is text: COUNT, MIN and MAX take it\n";
    let help = read_as_numbers(alloc, form, reading.written(column));
    Advice::with_help(alloc, "SUM goes over a column of whole numbers", help)
}

/// A line about a column of texts, and how it is read as whole numbers.
fn read_as_numbers(alloc: Global, form: &str, column: &str) -> Pieces {
    let mut help = Pieces::filled(alloc, form, &[column]);
    help.push_filled(READ, &[column, column, column, column]);
    help
}

/// The index of the last name from a token on to before another; the first index where there is none.
fn last_name(reading: &Reading<'_>, start: usize, end: usize) -> usize {
    let mut last = start;
    for index in start..end {
        if is_name(reading.kind(index)) {
            last = index;
        }
    }
    last
}

/// A comparison of two kinds.
fn of_comparison(
    alloc: Global,
    table: &Table,
    reading: &Reading<'_>,
) -> Result<Advice, AllocError> {
    if let Some(found) = of_conditions(reading) {
        return Ok(Advice::of(alloc, found));
    }
    let what = "a whole number and a text can't be compared";
    if let Some(help) = of_dates(alloc, table, reading)? {
        return Ok(Advice::with_help(alloc, what, help));
    }
    if let Some(help) = of_text(reading) {
        return Ok(Advice::new(alloc, what, help));
    }
    let help = two_kinds(alloc, table, reading)?;
    Ok(Advice::with_help(alloc, what, help))
}

/// A comparison of which a side, or both, is a condition in brackets.
fn of_conditions(reading: &Reading<'_>) -> Option<Hint> {
    let behind = reading.at.saturating_add(1);
    let left = is_condition(reading, operand_start(reading, reading.at), reading.at);
    let right = is_condition(reading, behind, operand_end(reading, behind));
    match (left, right) {
        (false, false) => None,
        (true, true) => said(
            "both sides are conditions, and conditions aren't compared",
            "c = d is written (c AND d OR NOT c AND NOT d), c <> d is written (c AND NOT d OR d AND NOT c)",
        ),
        _ => said(
            "a side is a condition, and conditions aren't compared",
            "write the condition alone, or NOT before its bracket",
        ),
    }
}

/// Whether what stands from a token on to before another is a condition.
fn is_condition(reading: &Reading<'_>, start: usize, end: usize) -> bool {
    for index in start..end {
        let word = reading.written(index);
        if is_comparison(word) || is_one_of(word, "AND OR NOT IS") {
            return true;
        }
    }
    false
}

/// What to write where the text behind the place is a number.
fn of_text(reading: &Reading<'_>) -> Option<&'static str> {
    if reading.kind(reading.at.saturating_add(1)) != Some(TokenKind::Text) {
        return None;
    }
    let inside = reading.next(1).trim_matches('\'');
    if is_digits(inside) {
        return Some(
            "a number stands without quotes: p = 5\n\
            if the file's column is one of texts, its kind in the table is text",
        );
    }
    None
}

/// Which side of a comparison has which kind, as far as its tokens tell.
fn two_kinds(alloc: Global, table: &Table, reading: &Reading<'_>) -> Result<Pieces, AllocError> {
    let mut index = reading.at.saturating_add(1);
    if reading.next(2) == "." {
        index = reading.at.saturating_add(3);
    }
    let right = kind_at(alloc, table, reading, index)?;
    let left = match reading.at.checked_sub(1) {
        Some(before) => kind_at(alloc, table, reading, before)?,
        None => "",
    };
    if left.is_empty() || right.is_empty() {
        return Ok(Pieces::of(alloc, QUOTES));
    }
    Ok(sides(alloc, reading, index, left, right))
}

/// The same, where both kinds are known.
fn sides(alloc: Global, reading: &Reading<'_>, index: usize, left: &str, right: &str) -> Pieces {
    let form = "{} is {}, {} is {}\n";
    let values = &[reading.back(1), left, reading.written(index), right];
    let mut kinds = Pieces::filled(alloc, form, values);
    kinds.push(QUOTES);
    kinds
}

/// The kind of a literal or a column at a token; nothing where it is something else.
fn kind_at(
    alloc: Global,
    table: &Table,
    reading: &Reading<'_>,
    index: usize,
) -> Result<&'static str, AllocError> {
    match reading.kind(index) {
        Some(TokenKind::Number) => Ok("int"),
        Some(TokenKind::Text) => Ok("text"),
        Some(TokenKind::Name) | Some(TokenKind::Quoted) => {
            let name = meant(alloc, reading.written(index))?;
            Ok(column_kind(table, name.as_str()))
        }
        _ => Ok(""),
    }
}

/// The kind of the column of this name; nothing where there is none.
fn column_kind(table: &Table, name: &str) -> &'static str {
    for column in table.columns() {
        if column.name.as_str() == name {
            return kind_word(column.kind);
        }
    }
    ""
}

/// Whether a text has digits alone, and perhaps signs.
fn is_digits(inside: &str) -> bool {
    for byte in inside.bytes() {
        if !byte.is_ascii_digit() && byte != b'-' {
            return false;
        }
    }
    !inside.is_empty()
}

/// A measure that is a condition, or a definition that is none.
fn of_whole(reading: &Reading<'_>) -> Hint {
    match reading.part() {
        Part::Measures => Hint {
            what: "a measure is a value, and this is a condition",
            help: "give rows for which it holds a variable of their own, and write CLASSIFIER() or COUNT(A.*)",
        },
        _ => Hint {
            what: "a definition is a condition, and this is a value",
            help: "compare it: p > 5, p <> 0, p IS NOT NULL",
        },
    }
}
