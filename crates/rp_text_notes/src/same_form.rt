//! Times whose order as texts is theirs.

use crate::texts::ColumnTexts;

/// At so many bytes behind its blanks, a time whose year comes first has no sign of its date any more.
const BEHIND_DATE: usize = 9;

/// Whether all texts of a column have one form: digits at the same places, the same other characters between, and the same offset from UTC.
/// Then times whose greater units come first are ordered as texts as they are in time.
pub(crate) fn have_one_form(column: ColumnTexts<'_>) -> bool {
    let Some(first) = column.first() else {
        return true;
    };
    for row in column.rows {
        if let Some(text) = column.of_row(row) {
            if !is_formed_as(first, text) {
                return false;
            }
        }
    }
    true
}

/// Whether two texts have one form.
pub(crate) fn is_formed_as(one: &str, other: &str) -> bool {
    one.len() == other.len()
        && offset_of(one) == offset_of(other)
        && one.bytes().zip(other.bytes()).all(|(left, right)| left == right
            || left.is_ascii_digit() && right.is_ascii_digit())
}

/// Whether a text has the form of a time as far as both go, and no other offset from UTC.
pub(crate) fn has_form_of(text: &str, time: &str) -> bool {
    let (one, other) = (offset_of(text), offset_of(time));
    (one == other || one.is_empty() || other.is_empty())
        && text.bytes().zip(time.bytes()).all(|(left, right)| left == right
            || left.is_ascii_digit() && right.is_ascii_digit())
}

/// Whether a text has digits at the same places as a time, and the same offset from UTC.
pub(crate) fn has_places_of(text: &str, time: &str) -> bool {
    text.len() == time.len()
        && offset_of(text) == offset_of(time)
        && text.bytes().zip(time.bytes()).all(|(left, right)| left.is_ascii_digit()
            == right.is_ascii_digit())
}

/// The offset of a time whose year comes first; it is empty where there is none.
fn offset_of(text: &str) -> &[u8] {
    let bytes = text.trim().as_bytes();
    for (at, byte) in bytes.iter().enumerate().skip(BEHIND_DATE) {
        if matches!(*byte, b'+' | b'-' | b'Z' | b'z' | b'U' | b'u') {
            return bytes.get(at..).unwrap_or(b"");
        }
    }
    b""
}
