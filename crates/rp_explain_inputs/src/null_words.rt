//! What to do about a word that another program wrote for a null.

use rp_input::{CsvLayout, MAX_RECORDS};
use rp_proposal::Records;
use rp_wording::{Pieces, is_null_word, noun};
use std::alloc::{AllocError, Global};

/// What to do about a field that holds such a word, at this place of the records; None where it holds none.
pub(crate) fn of_null_word(
    alloc: Global,
    bytes: &[u8],
    layout: CsvLayout,
    place: usize,
    field: &str,
) -> Result<Option<Pieces>, AllocError> {
    if !is_null_word(field.as_bytes()) {
        return Ok(None);
    }
    let count = count_of(alloc, bytes, layout, place, field.as_bytes())?;
    let mut help = Pieces::of(alloc, "`");
    help.push_start(field.as_bytes());
    help.push("` seems to be a null; ");
    help.push_count(count);
    let records = noun(count, "record has", "records have");
    help.push_filled(" {} it here: give --null '", &[records]);
    help.push_start(field.as_bytes());
    help.push("' (and --null '' if empty texts are null)");
    Ok(Some(help))
}

/// How many records have this field at this place.
fn count_of(
    alloc: Global,
    bytes: &[u8],
    layout: CsvLayout,
    place: usize,
    word: &[u8],
) -> Result<usize, AllocError> {
    let mut records = Records::of(alloc, bytes, layout.delimiter);
    let mut count = 0usize;
    for _record in 0..MAX_RECORDS {
        if !records.next() {
            break;
        }
        if records.fields().get(place) == Some(word) {
            count = count.saturating_add(1);
        }
    }
    records.finish(count)
}
