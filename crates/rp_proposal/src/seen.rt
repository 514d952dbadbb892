//! What is seen in the fields of each column of a CSV text.

use crate::records::Records;
use csv::ByteRecord;
use rp_input::MAX_RECORDS;
use rp_value::Text;
use rp_wording::{has_zeros, is_null_word, is_whole};
use std::alloc::{AllocError, Global};

/// What was seen in a column's fields that aren't null.
#[derive(Clone, Copy)]
pub struct Seen {
    /// Whether one was a whole number.
    pub number: bool,
    /// Whether one was none.
    pub text: bool,
    /// Whether one was a word that other programs write for a null.
    pub word: bool,
    /// Whether one was neither a number nor such a word.
    pub other: bool,
    /// Whether one was a number behind a plus sign.
    pub plus: bool,
    /// Whether one was a number behind a minus sign.
    pub minus: bool,
}

impl Seen {
    /// Whether all were whole numbers that are the same written anew. A plus sign is lost, and that is all the same only where numbers
    /// are signed: of telephone numbers it is a part.
    pub fn are_numbers(&self) -> bool {
        self.number && !self.text && (self.minus || !self.plus)
    }
}

/// What all records that are left have in each of so many columns.
pub fn seen_in(
    alloc: Global,
    records: &mut Records<'_>,
    count: usize,
    nulls: &[Text],
) -> Result<Vec<Seen>, AllocError> {
    let mut seen = nothing_seen(alloc, count)?;
    for _record in 0..MAX_RECORDS {
        if !records.next() {
            break;
        }
        look_at(&mut seen, records.fields(), nulls);
    }
    records.finish(seen)
}

/// Nothing was seen of any column.
fn nothing_seen(alloc: Global, count: usize) -> Result<Vec<Seen>, AllocError> {
    let mut seen = Vec::new(alloc);
    for _column in 0..count {
        seen.push(Seen {
            number: false,
            text: false,
            word: false,
            other: false,
            plus: false,
            minus: false,
        })?;
    }
    Ok(seen)
}

/// Looks at the fields of a record.
fn look_at(seen: &mut Vec<Seen>, fields: &ByteRecord, nulls: &[Text]) {
    for (index, one) in seen.iter_mut().enumerate() {
        let field = fields.get(index).unwrap_or(b"");
        if !is_null(field, nulls) {
            *one = with_field(*one, field);
        }
    }
}

/// What was seen of a column with a further field, which isn't null.
fn with_field(seen: Seen, field: &[u8]) -> Seen {
    let number = is_plain_number(field);
    let word = is_null_word(field);
    Seen {
        number: seen.number || number,
        text: seen.text || !number,
        word: seen.word || word,
        other: seen.other || !number && !word,
        plus: seen.plus || number && field.starts_with(b"+"),
        minus: seen.minus || number && field.starts_with(b"-"),
    }
}

/// Whether a field tells nothing of its column: it is empty or a word for null.
fn is_null(field: &[u8], nulls: &[Text]) -> bool {
    field.is_empty() || nulls.iter().any(|word| word.as_str().as_bytes() == field)
}

/// Whether a field is a whole number of 64 bits without a zero in front, which a whole number doesn't keep.
fn is_plain_number(field: &[u8]) -> bool {
    is_whole(field) && !has_zeros(field)
}
