//! Two texts of a column whose order is another one as numbers.

use crate::texts::{ColumnTexts, NumberReader};
use rp_columns::Reading;

/// A text, and the number that it is by a reading.
#[derive(Clone, Copy)]
pub(crate) struct Numbered<'a> {
    pub(crate) text: &'a str,
    pub(crate) number: i64,
}

/// Texts of a column that show what a reading makes of them.
#[derive(Clone, Copy)]
pub(crate) struct Example<'a> {
    /// One of them.
    pub(crate) one: Numbered<'a>,
    /// A text that comes before it, and is a greater number; None where none was found.
    pub(crate) before: Option<&'a str>,
}

/// The texts of a column that came so far, as far as the next one is compared with them.
#[derive(Clone, Copy)]
pub(crate) struct Passed<'a> {
    /// The last one.
    last: Numbered<'a>,
    /// The one that comes last as a text.
    greatest_text: Numbered<'a>,
    /// The one that is the greatest number.
    greatest_number: Numbered<'a>,
}

/// An example of the texts of a column, which a reading reads. None where there is no text that is a number.
pub(crate) fn example_of<'a>(
    reader: &mut NumberReader,
    reading: &Reading,
    column: ColumnTexts<'a>,
) -> Option<Example<'a>> {
    let mut passed: Option<Passed<'a>> = None;
    for row in column.rows {
        if let Some(here) = number_of(reader, reading, column.of_row(row)) {
            if let Some(found) = crossing(passed, here) {
                return Some(found);
            }
            passed = Some(with_further(passed, here));
        }
    }
    Some(Example {
        one: passed?.last,
        before: None,
    })
}

/// A text with its number.
fn number_of<'a>(
    reader: &mut NumberReader,
    reading: &Reading,
    text: Option<&'a str>,
) -> Option<Numbered<'a>> {
    let text = text?;
    match reader.number(reading, text) {
        Ok(Some(number)) => Some(Numbered { text, number }),
        _ => None,
    }
}

/// A text that came before and the one that is here, where their order is another one as numbers.
pub(crate) fn crossing<'a>(passed: Option<Passed<'a>>, here: Numbered<'a>) -> Option<Example<'a>> {
    let passed = passed?;
    for other in [passed.last, passed.greatest_text, passed.greatest_number] {
        if other.text > here.text && other.number < here.number {
            return Some(pair(other, here));
        }
        if other.text < here.text && other.number > here.number {
            return Some(pair(here, other));
        }
    }
    None
}

/// Two texts of which the first comes later, and is a smaller number.
fn pair<'a>(one: Numbered<'a>, other: Numbered<'a>) -> Example<'a> {
    Example {
        one,
        before: Some(other.text),
    }
}

/// The texts that came so far, with a further one.
pub(crate) fn with_further<'a>(passed: Option<Passed<'a>>, here: Numbered<'a>) -> Passed<'a> {
    let Some(passed) = passed else {
        return Passed {
            last: here,
            greatest_text: here,
            greatest_number: here,
        };
    };
    Passed {
        last: here,
        greatest_text: if here.text > passed.greatest_text.text {
            here
        } else {
            passed.greatest_text
        },
        greatest_number: if here.number > passed.greatest_number.number {
            here
        } else {
            passed.greatest_number
        },
    }
}
