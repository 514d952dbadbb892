//! Lines above the header of a CSV text.

use crate::fronts::of_front;
use crate::records::{Records, start_of};
use csv::ByteRecord;
use rp_input::MAX_RECORDS;
use rp_place::line_number;
use rp_wording::{Advice, Pieces};
use std::alloc::{AllocError, Global};

/// In so many records below a title the names are looked for.
const LOOKED_AT: u64 = 20;

/// What is said of an input that is no CSV, or has something above its header.
pub fn of_above(alloc: Global, bytes: &[u8], delimiter: u8) -> Result<Option<Advice>, AllocError> {
    match of_front(bytes) {
        Some(found) => Ok(Some(Advice::of(alloc, found))),
        None => of_heading(alloc, bytes, delimiter),
    }
}

/// What is said of lines above the header: remarks, or a title. None: the first line may be the header.
pub(crate) fn of_heading(
    alloc: Global,
    bytes: &[u8],
    delimiter: u8,
) -> Result<Option<Advice>, AllocError> {
    let mut records = Records::of(alloc, bytes, delimiter);
    let found = of_first(alloc, &mut records, bytes);
    records.finish(found)
}

/// The same of the first record, which may begin such lines.
fn of_first(alloc: Global, records: &mut Records<'_>, bytes: &[u8]) -> Option<Advice> {
    if !records.next() {
        return None;
    }
    if is_remark(records.fields()) {
        return of_remarks(alloc, records, bytes);
    }
    if is_title(records.fields()) {
        return of_title(alloc, records, bytes);
    }
    None
}

/// Whether a record begins as a remark does.
fn is_remark(fields: &ByteRecord) -> bool {
    fields.get(0).unwrap_or(b"").starts_with(b"#")
}

/// Whether a record is one field without anything else that may be between fields, and empty ones at most behind it.
fn is_title(fields: &ByteRecord) -> bool {
    let title = fields.get(0).unwrap_or(b"");
    count_filled(fields) <= 1
        && !title
            .iter()
            .any(|byte| matches!(*byte, b';' | b'\t' | b'|' | b','))
}

/// How many fields a record has without the empty ones at its end, by which spreadsheets give each line as many.
fn count_filled(fields: &ByteRecord) -> usize {
    let mut count = 0usize;
    for index in 0..fields.len() {
        if !fields.get(index).unwrap_or(b"").is_empty() {
            count = index.saturating_add(1);
        }
    }
    count
}

/// Where a record is, and how many fields it has.
#[derive(Clone, Copy)]
struct Placed {
    /// The offset at which it begins.
    start: usize,
    count: usize,
}

/// Where the record at hand is.
fn place_of(records: &Records<'_>, bytes: &[u8]) -> Placed {
    Placed {
        start: start_of(records.fields(), bytes),
        count: records.fields().len(),
    }
}

/// What is said of a first record that begins with #: it is a remark where the first record that doesn't begin so has another number
/// of fields.
fn of_remarks(alloc: Global, records: &mut Records<'_>, bytes: &[u8]) -> Option<Advice> {
    let count = records.fields().len();
    let mut last = place_of(records, bytes);
    for _record in 0..MAX_RECORDS {
        if !records.next() {
            return None;
        }
        if !is_remark(records.fields()) {
            let start = header_below(records, last, bytes);
            return remarks(alloc, records.fields().len() != count, bytes, start);
        }
        last = place_of(records, bytes);
    }
    None
}

/// Where the header begins, at the first record that doesn't begin with #: it is the one before, which begins so, where that has as
/// many fields and these are no names.
fn header_below(records: &Records<'_>, before: Placed, bytes: &[u8]) -> usize {
    let here = place_of(records, bytes);
    if before.count == here.count && !are_names(records.fields()) {
        return before.start;
    }
    here.start
}

/// What is said of remarks, if there are some, above a header that begins at this offset. Their lines are counted, since rows may begin
/// with # too.
fn remarks(alloc: Global, are_there: bool, bytes: &[u8], start: usize) -> Option<Advice> {
    if !are_there {
        return None;
    }
    let line = line_number(bytes.get(..start).unwrap_or(bytes));
    Some(Advice::with_help(
        alloc,
        "the first line is a remark, and the names of the columns are wanted there",
        from_line(alloc, line),
    ))
}

/// What to do about lines above this one.
fn from_line(alloc: Global, line: usize) -> Pieces {
    let mut help = Pieces::of(alloc, "tail -n +");
    help.push_count(line);
    help.push(" FILE | rowmatch ..");
    help
}

/// What is said of a first record that is one field: it is a title where the first record with more fields, none of them empty at its
/// end, has names, and the next one as many fields.
fn of_title(alloc: Global, records: &mut Records<'_>, bytes: &[u8]) -> Option<Advice> {
    let is_padded = records.fields().len() > 1;
    for _record in 0..LOOKED_AT {
        if !records.next() {
            return None;
        }
        if is_full(records.fields()) {
            let start = start_of(records.fields(), bytes);
            let is_header = are_names(records.fields()) && has_next(records, is_padded);
            let line = line_number(bytes.get(..start).unwrap_or(bytes));
            return title(alloc, is_header, line);
        }
    }
    None
}

/// Whether a record has more than one field, and none that is empty at its end.
fn is_full(fields: &ByteRecord) -> bool {
    fields.len() > 1 && count_filled(fields) == fields.len()
}

/// Whether each field may be the name of a column: it isn't empty, and no number.
fn are_names(fields: &ByteRecord) -> bool {
    for index in 0..fields.len() {
        match fields.get(index).unwrap_or(b"").first() {
            Some(byte) if !byte.is_ascii_digit() && !matches!(*byte, b'-' | b'+' | b'.') => {}
            _ => return false,
        }
    }
    true
}

/// Whether there is no further record, or one with as many fields. Below a title with empty fields behind it there has to be one, which
/// isn't all names: such a title may be a header too, of columns without names.
fn has_next(records: &mut Records<'_>, is_padded: bool) -> bool {
    let count = records.fields().len();
    if !records.next() {
        return !is_padded;
    }
    records.fields().len() == count && !(is_padded && are_names(records.fields()))
}

/// What is said of a title, if it is one, above names in this line.
fn title(alloc: Global, is_there: bool, line: usize) -> Option<Advice> {
    if !is_there {
        return None;
    }
    let mut what = Pieces::of(
        alloc,
        "the names of the columns are wanted in line 1, and seem to be in line ",
    );
    what.push_count(line);
    Some(Advice::of_pieces(what, from_line(alloc, line)))
}
