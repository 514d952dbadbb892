//! What to do about fields that should be whole numbers, and aren't.

use crate::quote_notes::of_quote;
use rp_wording::{are_digits, are_digits_or, count_digits, is_date, is_one_of, unsigned};

/// What spreadsheets write where a formula failed.
const SHEET_ERRORS: &str = "#REF! #DIV/0! #VALUE! #NAME? #NUM! #NULL!";

/// What to do about a number with its unit.
const UNIT: &str = "write the digits alone, without the sign of a unit";

/// What to do about a field that should be a whole number.
pub(crate) fn of_number(field: &str) -> &'static str {
    if let Some(help) = of_quote(field.as_bytes()) {
        return help;
    }
    let inside = field.trim();
    if inside.len() != field.len() && inside.parse::<i64>().is_ok() {
        return "the blanks round the number are to be taken out of the file";
    }
    if inside.is_empty() {
        return "a null is an empty field, without a blank";
    }
    if is_one_of(inside, "TRUE FALSE YES NO") {
        return "write 1 and 0";
    }
    if is_date(inside) {
        return "dates as 2024-01-05 are ordered and compared as text; to subtract them let the file have seconds, as sqlite's unixepoch(t) or date -d .. +%s give them";
    }
    if let Some(help) = of_sign(inside) {
        return help;
    }
    if let Some(help) = of_known_fraction(inside) {
        return help;
    }
    of_digits(inside)
}

/// What to do about a number that has its sign in another way or a blank that can't be told from others, or is none because of a
/// formula.
pub(crate) fn of_sign(text: &str) -> Option<&'static str> {
    if is_one_of(text, SHEET_ERRORS) {
        return Some(
            "a spreadsheet writes this where a formula failed: mend the formula, or leave the cell empty for a null",
        );
    }
    if text.contains('\u{2212}') {
        return Some(
            "the sign is U+2212, and no minus sign, which is U+002D: sed 's/\u{2212}/-/g' FILE | rowmatch ..",
        );
    }
    if is_bracketed(text) {
        return Some(
            "accountants write -10 as (10): write the minus sign, and leave the brackets out",
        );
    }
    of_no_break(text)
}

/// What to do about a number with a blank between its digits that looks as others do.
fn of_no_break(text: &str) -> Option<&'static str> {
    if !text
        .bytes()
        .all(|byte| !byte.is_ascii() || is_of_number(byte))
    {
        return None;
    }
    if text.contains('\u{a0}') {
        return Some(
            "the blank in it is U+00A0, a no-break space: sed 's/\\xc2\\xa0//g' FILE | rowmatch .., where no text has one",
        );
    }
    if text.contains('\u{202f}') {
        return Some(
            "the blank in it is U+202F, a narrow no-break space: sed 's/\\xe2\\x80\\xaf//g' FILE | rowmatch .., where no text has one",
        );
    }
    None
}

/// Whether it is a digit, or a sign that numbers have.
fn is_of_number(byte: u8) -> bool {
    byte.is_ascii_digit() || matches!(byte, b'.' | b',' | b'-' | b'+')
}

/// Whether it is a number in brackets.
fn is_bracketed(text: &str) -> bool {
    text.starts_with('(') && text.ends_with(')') && are_digits_or(text, "().,")
}

/// What to do about a number with signs between thousands, one whose fraction is 0, and seconds with a fraction.
pub(crate) fn of_known_fraction(text: &str) -> Option<&'static str> {
    if is_grouped(text) {
        return Some(
            "write the digits alone, without separators; or decimal(C, 0, ',') of --columns reads them",
        );
    }
    let (whole, rest) = text.split_once('.')?;
    if !are_digits(rest) || !are_digits(unsigned(whole)) {
        return None;
    }
    if rest.trim_start_matches('0').is_empty() {
        return Some(
            "pandas writes whole numbers so in a column with a null: astype(\"Int64\") before to_csv; or decimal(C, 0) of --columns reads them",
        );
    }
    if is_epoch(whole) {
        return of_seconds(rest.len());
    }
    None
}

/// What to do about a number with one comma, behind which there are digits, and not three of them: it is the point.
pub(crate) fn of_comma_point(text: &str) -> Option<&'static str> {
    let (whole, rest) = text.split_once(',')?;
    if !are_digits(unsigned(whole)) || !are_digits(rest) {
        return None;
    }
    match rest.len() {
        1 => Some("the comma seems to be its point: decimal(C, 1, '', ',') reads it"),
        2 => Some("the comma seems to be its point: decimal(C, 2, '', ',') reads it"),
        4 => Some("the comma seems to be its point: decimal(C, 4, '', ',') reads it"),
        5 | 6 => Some("the comma seems to be its point: decimal(C, 6, '', ',') reads it"),
        _ => None,
    }
}

/// What to do about seconds with so many places behind the point.
fn of_seconds(places: usize) -> Option<&'static str> {
    match places {
        0 | 1 | 2 | 3 => Some(
            "seconds with a fraction: let the file have milliseconds; or decimal(C, 3) of --columns reads them as milliseconds",
        ),
        4 | 5 | 6 => Some(
            "seconds with a fraction: let the file have microseconds; or decimal(C, 6) of --columns reads them as microseconds",
        ),
        7 | 8 | 9 => Some(
            "seconds with a fraction: let the file have nanoseconds; or decimal(C, 9) of --columns reads them as nanoseconds",
        ),
        _ => None,
    }
}

/// Whether it may be seconds since 1970, of the years 2001 to 2065.
fn is_epoch(text: &str) -> bool {
    text.len() == 10 && (text.starts_with('1') || text.starts_with('2'))
}

/// Whether there are commas between groups of three digits, as in 1,234,567.
fn is_grouped(text: &str) -> bool {
    let mut groups = 0usize;
    for group in unsigned(text).split(',') {
        let fits = group.len() == 3 || groups == 0 && group.len() < 3;
        if !fits || !are_digits(group) {
            return false;
        }
        groups = groups.saturating_add(1);
    }
    groups > 1
}

/// What to do about a number that is no whole one.
fn of_digits(text: &str) -> &'static str {
    if count_digits(text) == 0 {
        return "is the column one of text?";
    }
    if are_digits_or(text, "-+") {
        return "it has more than 64 bits, or its sign is in a wrong place";
    }
    if is_decimal(text, '.') || is_decimal(text, ',') {
        return "there are no fractions: let the file have a smaller unit, as cents";
    }
    if has_exponent(text) {
        return "write all digits, without an exponent";
    }
    if has_unit(text) {
        return UNIT;
    }
    if text.contains(',') || text.contains('_') || text.contains('\'') || text.contains(' ') {
        return "write the digits alone, without separators";
    }
    if text.contains('$')
        || text.contains('%')
        || text.contains('\u{20ac}')
        || text.contains('\u{a3}')
    {
        return UNIT;
    }
    "digits alone, with - or + or nothing before them, are a whole number"
}

/// Whether it is a number with an exponent, as 1.5E+3.
fn has_exponent(text: &str) -> bool {
    let parts = match text.split_once('e') {
        Some(parts) => Some(parts),
        None => text.split_once('E'),
    };
    match parts {
        Some((number, exponent)) => has_digits(unsigned(number)) && are_digits(unsigned(exponent)),
        None => false,
    }
}

/// Whether it is digits, and signs inside numbers.
fn has_digits(text: &str) -> bool {
    count_digits(text) > 0 && are_digits_or(text, ".,")
}

/// Whether it is a number and a word of letters, with a blank between, as 5 EUR.
fn has_unit(text: &str) -> bool {
    match text.split_once(' ') {
        Some((first, second)) => {
            is_word(first) && has_digits(unsigned(second))
                || has_digits(unsigned(first)) && is_word(second)
        }
        None => false,
    }
}

/// Whether it is one letter of ASCII or more, and nothing else.
fn is_word(text: &str) -> bool {
    !text.is_empty() && text.bytes().all(|byte| byte.is_ascii_alphabetic())
}

/// Whether it is digits, one point and digits.
fn is_decimal(text: &str, point: char) -> bool {
    match text.split_once(point) {
        Some((whole, rest)) => are_digits(rest) && are_digits_or(whole, "-+"),
        None => false,
    }
}
