//! Texts that are whole numbers, between words for null or with blanks round them.

use crate::texts::{ColumnTexts, NumberReader};
use crate::way::Way;
use rp_wording::{has_zeros, is_whole};
use std::alloc::{AllocError, Global};

/// How all texts of a column are read as whole numbers, which they would have been proposed as but for words for null, or for blanks: None
/// where not all would, and where there is neither.
pub(crate) fn whole_way(
    alloc: Global,
    reader: &mut NumberReader,
    column: ColumnTexts<'_>,
    has_words: bool,
) -> Result<Option<Way>, AllocError> {
    if !are_numbers(column) || !(has_words || have_blanks(column)) {
        return Ok(None);
    }
    Way::reading_all(alloc, reader, column, "int", String::new(alloc))
}

/// Whether all texts of a column are whole numbers that are the same written anew. A plus sign is lost, and that is all the same only where
/// numbers are signed.
fn are_numbers(column: ColumnTexts<'_>) -> bool {
    let (mut has_plus, mut has_minus) = (false, false);
    for row in column.rows {
        if let Some(text) = column.of_row(row) {
            let text = text.trim();
            let digits = text.as_bytes();
            if !digits.is_empty() && (!is_whole(digits) || has_zeros(digits)) {
                return false;
            }
            has_plus = has_plus || text.starts_with('+');
            has_minus = has_minus || text.starts_with('-');
        }
    }
    has_minus || !has_plus
}

/// Whether blanks are round a text of a column.
fn have_blanks(column: ColumnTexts<'_>) -> bool {
    for row in column.rows {
        if let Some(text) = column.of_row(row) {
            if text.trim().len() < text.len() {
                return true;
            }
        }
    }
    false
}
