//! Numbers with a sign that no reading takes, as that of a currency.

use crate::strays::{Strays, is_plain, with_further};
use crate::texts::ColumnTexts;
use rp_wording::{Pieces, noun, unsigned};
use std::alloc::{AllocError, Global};

/// The signs, with blanks between.
const SIGNS: &str = "$ \u{20ac} \u{a3} \u{a5} %";

/// The sign that the first text of a column has in front or at its end; None where it has none.
pub(crate) fn sign_of(column: ColumnTexts<'_>) -> Option<&'static str> {
    let first = column.first()?.trim();
    for sign in SIGNS.split(' ') {
        if first.starts_with(sign) || first.ends_with(sign) {
            return Some(sign);
        }
    }
    None
}

/// A text without this sign in front or at its end, and as it is where there is none.
pub(crate) fn without_sign<'a>(text: &'a str, sign: &str) -> &'a str {
    if sign.is_empty() {
        return text;
    }
    let text = text.trim();
    match text.strip_prefix(sign) {
        Some(rest) => rest.trim(),
        None => text.strip_suffix(sign).unwrap_or(text).trim(),
    }
}

/// Numbers of a column that have a sign, and other fields among them.
#[derive(Clone, Copy)]
pub(crate) struct Signed<'a> {
    sign: &'static str,
    /// The fields that are no numbers without it, either.
    strays: Option<Strays<'a>>,
}

/// Those of a column more than half of whose fields are numbers with one of the signs. None where there is no such sign.
pub(crate) fn signed_of(column: ColumnTexts<'_>) -> Option<Signed<'_>> {
    for sign in SIGNS.split(' ') {
        if are_most_signed(column, sign) {
            let strays = strays_beside(column, sign);
            return Some(Signed { sign, strays });
        }
    }
    None
}

/// Whether more than half of the fields of a column are numbers with this sign.
fn are_most_signed(column: ColumnTexts<'_>, sign: &str) -> bool {
    let (mut fields, mut numbers) = (0usize, 0usize);
    for row in column.rows {
        let text = column.of_row(row).unwrap_or("").trim();
        if !text.is_empty() {
            fields = fields.saturating_add(1);
            if is_signed(without_brackets(text), sign) {
                numbers = numbers.saturating_add(1);
            }
        }
    }
    numbers > fields / 2
}

/// The fields of a column that are no numbers without this sign.
fn strays_beside<'a>(column: ColumnTexts<'a>, sign: &str) -> Option<Strays<'a>> {
    let mut strays = None;
    for row in column.rows {
        let text = column.of_row(row).unwrap_or("").trim();
        if !text.is_empty() && !is_signed(text, sign) && !is_plain(unsigned(text)) {
            strays = Some(with_further(strays, text));
        }
    }
    strays
}

/// Whether a text is a number with this sign, behind a plus or a minus or before it.
fn is_signed(text: &str, sign: &str) -> bool {
    let body = unsigned(text).trim();
    let number = without_sign(body, sign);
    number.len() < body.len() && is_plain(unsigned(number).trim())
}

/// A text without brackets round it, as amounts below zero have them.
fn without_brackets(text: &str) -> &str {
    match text.strip_prefix('(') {
        Some(rest) => rest.strip_suffix(')').unwrap_or(text),
        None => text,
    }
}

/// What is to be known of a column of this name, of which numbers may be needed.
pub(crate) fn line_of_signed(
    alloc: Global,
    name: &str,
    signed: Signed<'_>,
    is_number: bool,
) -> Result<String, AllocError> {
    let Signed { sign, strays } = signed;
    let mut line = Pieces::of(alloc, name);
    line.push(" is text, since ");
    line.push(if strays.is_some() {
        "most of its fields have '"
    } else {
        "its fields have '"
    });
    line.push(sign);
    line.push(if is_number {
        "', and numbers are needed"
    } else {
        "', and its numbers are compared as texts, by which '9' comes after '10'"
    });
    line.push_filled(". No reading takes '{}': take it out of the input", &[sign]);
    if let Some(strays) = strays {
        push_strays(&mut line, strays);
    }
    line.finish()
}

/// Adds which fields are no numbers without the sign.
fn push_strays(line: &mut Pieces, strays: Strays<'_>) {
    line.push("; without it ");
    line.push_count(strays.count);
    line.push(noun(
        strays.count,
        " field isn't read as a number, '",
        " fields aren't read as numbers, the first '",
    ));
    line.push_start(strays.first.as_bytes());
    line.push(noun(
        strays.count,
        "': write it as one, or take its row out",
        "': write them as such, or take their rows out",
    ));
}
