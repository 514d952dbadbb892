//! Texts that are decimal numbers.

use crate::texts::{ColumnTexts, NumberReader};
use crate::way::Way;
use rp_wording::{Pieces, are_digits, are_digits_or, count_digits};
use std::alloc::{AllocError, Global};

/// So many digits in a number surely leave it within 64 bits with sign.
const MOST_DIGITS: usize = 18;

/// How decimal numbers are written: the sign before a fraction, and the one between thousands, also as a text of columns has it.
#[derive(Clone, Copy)]
pub(crate) struct Style {
    point: char,
    thousands: char,
    written: &'static str,
}

pub(crate) const BY_POINT: Style = Style {
    point: '.',
    thousands: ',',
    written: ", ','",
};

const BY_COMMA: Style = Style {
    point: ',',
    thousands: '.',
    written: ", '.', ','",
};

/// So many digits are between two signs of thousands, and at most so many before the first.
const GROUP: usize = 3;

/// Styles where none with a point before fractions and commas between thousands is meant.
pub(crate) const OTHERS: [Style; 4] = [
    BY_COMMA,
    Style {
        point: ',',
        thousands: ' ',
        written: ", ' ', ','",
    },
    Style {
        point: '.',
        thousands: ' ',
        written: ", ' '",
    },
    Style {
        point: '.',
        thousands: '\'',
        written: ", ''''",
    },
];

/// The digits that were seen in numbers of a style.
#[derive(Clone, Copy)]
struct Digits {
    /// The most before a fraction.
    whole: usize,
    /// The most in a fraction.
    places: usize,
    /// Whether a sign between thousands was seen.
    is_grouped: bool,
    /// Whether a sign before a fraction was seen.
    has_point: bool,
}

/// How all texts of a column are read as decimal numbers, with at least so many places: None where not all are, or where no places are asked
/// for and none has a fraction or signs between thousands.
pub(crate) fn decimal_way(
    alloc: Global,
    reader: &mut NumberReader,
    column: ColumnTexts<'_>,
    least: usize,
) -> Result<Option<Way>, AllocError> {
    match way_of(alloc, reader, column, BY_POINT, least)? {
        Some(way) => or_by_comma(alloc, reader, column, least, way),
        None => other_way(alloc, reader, column, least),
    }
}

/// The way by a point, with the one by a comma where that reads all texts too.
fn or_by_comma(
    alloc: Global,
    reader: &mut NumberReader,
    column: ColumnTexts<'_>,
    least: usize,
    way: Way,
) -> Result<Option<Way>, AllocError> {
    match way_of(alloc, reader, column, BY_COMMA, least)? {
        Some(other) => Ok(Some(either_way(alloc, way, &other)?)),
        None => Ok(Some(way)),
    }
}

/// The same by one of the other styles.
fn other_way(
    alloc: Global,
    reader: &mut NumberReader,
    column: ColumnTexts<'_>,
    least: usize,
) -> Result<Option<Way>, AllocError> {
    for style in OTHERS.as_slice() {
        let way = way_of(alloc, reader, column, *style, least)?;
        if way.is_some() {
            return Ok(way);
        }
    }
    Ok(None)
}

/// The way by a point where a way by a comma reads all texts too.
fn either_way(alloc: Global, way: Way, other: &Way) -> Result<Way, AllocError> {
    let behind = String::from_str(alloc, other.behind())?;
    Ok(way.or(
        " if a point is before fractions",
        "if a comma is before fractions",
        behind,
    ))
}

/// How all texts of a column are read as decimal numbers of a style, with at least so many places.
fn way_of(
    alloc: Global,
    reader: &mut NumberReader,
    column: ColumnTexts<'_>,
    style: Style,
    least: usize,
) -> Result<Option<Way>, AllocError> {
    let Some(digits) = digits_seen(column, style) else {
        return Ok(None);
    };
    let is_whole = !digits.is_grouped && !digits.has_point;
    let places = digits.places.max(least);
    if is_whole && least == 0 || digits.whole.saturating_add(places) > MOST_DIGITS {
        return Ok(None);
    }
    let behind = behind_source(alloc, style, places, digits.is_grouped)?;
    match Way::reading_all(alloc, reader, column, "decimal", behind)? {
        Some(way) => Ok(Some(way.with_places(places))),
        None => Ok(None),
    }
}

/// What is behind the source in the reading of numbers of a style, with so many places, and signs between thousands or none.
fn behind_source(
    alloc: Global,
    style: Style,
    places: usize,
    is_grouped: bool,
) -> Result<String, AllocError> {
    let mut behind = Pieces::of(alloc, ", ");
    behind.push_count(places);
    behind.push(match (is_grouped, style.point) {
        (true, _) => style.written,
        (false, '.') => "",
        (false, _) => ", '', ','",
    });
    behind.finish()
}

/// The digits of a column whose texts have no other characters than numbers of a style.
fn digits_seen(column: ColumnTexts<'_>, style: Style) -> Option<Digits> {
    let mut digits = Digits {
        whole: 0,
        places: 0,
        is_grouped: false,
        has_point: false,
    };
    for row in column.rows {
        if let Some(text) = column.of_row(row) {
            digits = with_text(digits, text.trim(), style)?;
        }
    }
    Some(digits)
}

/// The digits that were seen with a further text.
fn with_text(digits: Digits, text: &str, style: Style) -> Option<Digits> {
    if !are_digits_or(text, ".,-+ \t'") {
        return None;
    }
    let (before, behind, has_point) = match text.split_once(style.point) {
        Some((before, behind)) => (before, behind, true),
        None => (text, "", false),
    };
    Some(Digits {
        whole: digits.whole.max(count_digits(before)),
        places: digits.places.max(count_digits(behind)),
        is_grouped: digits.is_grouped || before.contains(style.thousands),
        has_point: digits.has_point || has_point,
    })
}

/// Whether a text is a number of a style, without a sign in front.
pub(crate) fn is_of_style(text: &str, style: Style) -> bool {
    let (before, behind) = text.split_once(style.point).unwrap_or((text, ""));
    count_digits(text) > 0
        && are_digits_or(behind, "")
        && (are_digits_or(before, "") || are_groups(before, style))
}

/// Whether a text is digits with signs of a style between thousands.
fn are_groups(text: &str, style: Style) -> bool {
    match text.split_once(style.thousands) {
        Some((first, rest)) => {
            are_digits(first) && first.len() <= GROUP && are_whole_groups(rest, style)
        }
        None => false,
    }
}

/// Whether a text is groups of three digits, with signs of a style between them.
fn are_whole_groups(text: &str, style: Style) -> bool {
    for group in text.split(style.thousands) {
        if group.len() != GROUP || !are_digits(group) {
            return false;
        }
    }
    true
}
