//! Fields that keep a column of numbers text, and are no word for null: a header that comes again, an exponent, a sign behind a number, too
//! many digits. And other fields among dates or times, as in the row of a sum below them.

use crate::decimals::{BY_POINT, OTHERS, Style, is_of_style};
use crate::example::Example;
use crate::lines::push_order;
use crate::same_form::have_one_form;
use crate::texts::{ColumnTexts, is_word};
use crate::way::Way;
use rp_wording::{Pieces, are_digits, are_digits_or, count_digits, has_zeros, noun, unsigned};
use std::alloc::{AllocError, Global};

/// A number of so many digits surely has 64 bits with sign.
const MOST_DIGITS: usize = 18;

/// Fields of a column that aren't read as its others are.
#[derive(Clone, Copy)]
pub(crate) struct Strays<'a> {
    /// How many there are.
    pub(crate) count: usize,
    /// The first of them.
    pub(crate) first: &'a str,
}

/// Those of a column most of whose fields are numbers as people and programs write them. None where each field is read as one, and where
/// all have so many digits, by which they are ordered as texts as they are as numbers.
pub(crate) fn strays_of(column: ColumnTexts<'_>) -> Option<Strays<'_>> {
    let found = fewest_strays(column)?;
    if !are_most_numbers(column) || is_plain(found.first) && have_one_form(column) {
        return None;
    }
    Some(found)
}

/// The fields that aren't read as numbers of that style by which the most are; None where each is by one.
fn fewest_strays(column: ColumnTexts<'_>) -> Option<Strays<'_>> {
    let mut fewest = strays_by(column, BY_POINT)?;
    for style in OTHERS.as_slice() {
        let strays = strays_by(column, *style)?;
        if strays.count < fewest.count {
            fewest = strays;
        }
    }
    Some(fewest)
}

/// The fields that aren't read as numbers of a style.
fn strays_by(column: ColumnTexts<'_>, style: Style) -> Option<Strays<'_>> {
    let mut strays = None;
    for row in column.rows {
        let text = column.of_row(row).unwrap_or("").trim();
        if !text.is_empty() && !is_read(text, style) {
            strays = Some(with_further(strays, text));
        }
    }
    strays
}

/// Whether more than half of the fields of a column are numbers as people and programs write them.
fn are_most_numbers(column: ColumnTexts<'_>) -> bool {
    let (mut fields, mut numbers) = (0usize, 0usize);
    for row in column.rows {
        let text = column.of_row(row).unwrap_or("").trim();
        if !text.is_empty() {
            fields = fields.saturating_add(1);
            if is_number(text) {
                numbers = numbers.saturating_add(1);
            }
        }
    }
    numbers > fields / 2
}

/// These fields, with a further one.
pub(crate) fn with_further<'a>(strays: Option<Strays<'a>>, text: &'a str) -> Strays<'a> {
    match strays {
        Some(before) => Strays {
            count: before.count.saturating_add(1),
            first: before.first,
        },
        None => Strays {
            count: 1,
            first: text,
        },
    }
}

/// Whether a text is a number that a reading of a style takes.
fn is_read(text: &str, style: Style) -> bool {
    is_of_style(unsigned(text), style) && count_digits(text) <= MOST_DIGITS
}

/// Whether a text is a number as people and programs write one: as a reading takes it, or with an exponent, or with the sign behind it.
fn is_number(text: &str) -> bool {
    let body = unsigned(text);
    let body = body.strip_suffix('-').unwrap_or(body);
    match body.split_once(is_exponent_sign) {
        Some((digits, exponent)) => is_fixed(digits) && is_fixed(unsigned(exponent)),
        None => is_plain(body) && !is_id(body),
    }
}

/// Whether a text is a number of any style.
pub(crate) fn is_plain(text: &str) -> bool {
    for style in OTHERS.as_slice() {
        if is_of_style(text, *style) {
            return true;
        }
    }
    is_of_style(text, BY_POINT)
}

/// Whether a text is digits with a zero in front, as ids are.
fn is_id(text: &str) -> bool {
    are_digits(text) && has_zeros(text.as_bytes())
}

fn is_exponent_sign(character: char) -> bool {
    matches!(character, 'e' | 'E')
}

/// Whether a text has digits, and besides them at most one point or comma.
fn is_fixed(text: &str) -> bool {
    let digits = count_digits(text);
    digits > 0 && text.len() <= digits.saturating_add(1) && are_digits_or(text, ".,")
}

/// What is to be known of a column of this name.
pub(crate) fn line_of_strays(
    alloc: Global,
    name: &str,
    strays: Strays<'_>,
) -> Result<String, AllocError> {
    let count = strays.count;
    let mut line = Pieces::of(alloc, name);
    line.push(" is text, since ");
    line.push_count(count);
    line.push(noun(
        count,
        " field isn't read as a number, '",
        " fields aren't read as numbers, the first '",
    ));
    line.push_start(strays.first.as_bytes());
    line.push("', and its numbers are compared as texts, by which '9' comes after '10'. ");
    line.push(noun(
        count,
        "Write it as a number of at most 18 digits, or take its row out of the input",
        "Write them as numbers of at most 18 digits, or take their rows out of the input",
    ));
    line.finish()
}

/// What is to be known of a column of this name that has other fields among dates or times, which are read in a way.
pub(crate) fn line_of_mixed(
    alloc: Global,
    name: &str,
    strays: Strays<'_>,
    way: &Way,
    example: Option<Example<'_>>,
) -> Result<String, AllocError> {
    let (one, more) = (way.one_text(), way.texts());
    let (as_others, in_form) = if is_word(strays.first) {
        ("", "")
    } else {
        (" as the others are", " in their form")
    };
    let is_single = strays.count == 1;
    let mut line = Pieces::of(alloc, name);
    line.push(" is text, since ");
    line.push_count(strays.count);
    if is_single {
        line.push_filled(" field isn't read as a {}{}, '", &[one, as_others]);
    } else {
        line.push_filled(
            " fields aren't read as {}{}, the first '",
            &[more, as_others],
        );
    }
    line.push_start(strays.first.as_bytes());
    line.push_filled("', and its {} are compared as texts", &[more]);
    push_order(&mut line, example);
    if is_single {
        line.push_filled(
            ". Write it as a {}{}, or take its row out of the input",
            &[one, in_form],
        );
    } else {
        line.push_filled(
            ". Write them as {}{}, or take their rows out of the input",
            &[more, in_form],
        );
    }
    line.finish()
}
