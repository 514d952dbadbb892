//! Records with another number of fields, and fields that are no values of their columns.

use crate::csv_text::write_at;
use crate::null_words::of_null_word;
use crate::number_cells::of_number;
use crate::quote_notes::of_quotes;
use crate::scan::{field_span, long_quote, open_quote};
use crate::stray_lines::of_stray_line;
use csv::ByteRecord;
use rp_input::{CsvLayout, first_misfit};
use rp_place::{Span, line_number};
use rp_proposal::{Records, start_of};
use rp_value::{Column, Table};
use rp_wording::{Advice, Pieces, Report, noun};
use std::alloc::{AllocError, Global};

/// What may be between fields, and what to do about too many of them, and about too few.
const COUNTS: [(u8, &str, &str); 5] = [
    (
        b',',
        "a field with a comma in it is written in double quotes: \"1,5\"; a comma at a line's end begins one more field",
        "an empty field is between its commas: x,,5",
    ),
    (
        b';',
        "a field with a semicolon in it is written in double quotes: \"a;b\"; a semicolon at a line's end begins one more field",
        "an empty field is between its semicolons: x;;5",
    ),
    (
        b'\t',
        "a field with a tab in it is written in double quotes; a tab at a line's end begins one more field",
        "an empty field is between its tabs",
    ),
    (
        b'|',
        "a field with a bar in it is written in double quotes: \"a|b\"; a bar at a line's end begins one more field",
        "an empty field is between its bars: x||5",
    ),
    (
        b' ',
        "a field with a blank in it is written in double quotes: \"a b\"; each blank more begins one more field",
        "an empty field is between its blanks",
    ),
];

/// A record of a text.
#[derive(Drop)]
pub(crate) struct Found {
    /// Its fields.
    pub(crate) fields: ByteRecord,
    /// The offset at which it begins.
    pub(crate) start: usize,
}

/// The record of this number, from 1, below the header where the text has one, if there is such a record.
pub(crate) fn record_at(
    alloc: Global,
    bytes: &[u8],
    layout: CsvLayout,
    number: u64,
) -> Result<Option<Found>, AllocError> {
    let mut records = Records::of(alloc, bytes, layout.delimiter);
    let before = if layout.has_header {
        number
    } else {
        number.saturating_sub(1)
    };
    let fields = if records.pass(before) {
        records.take()
    } else {
        ByteRecord::new(alloc)
    };
    let start = start_of(&fields, bytes);
    let found = if fields.is_empty() {
        None
    } else {
        Some(Found { fields, start })
    };
    records.finish(found)
}

/// Explains a record with another number of fields than the table has columns.
pub(crate) fn of_record(
    alloc: Global,
    report: &mut Report,
    table: &Table,
    bytes: &[u8],
    number: u64,
) -> Result<(), AllocError> {
    let layout = CsvLayout::plain();
    let Some(found) = record_at(alloc, bytes, layout, number)? else {
        return Ok(());
    };
    let wanted = Wanted {
        count: table.columns().len(),
        whose: "table",
        what: noun(table.columns().len(), "column", "columns"),
    };
    at_record(alloc, report, bytes, layout.delimiter, &found, &wanted)
}

/// How many fields a record should have, and what says so.
#[derive(Clone, Copy)]
pub(crate) struct Wanted {
    pub(crate) count: usize,
    /// What has as many, as `table`.
    pub(crate) whose: &'static str,
    /// Of what, as `columns`.
    pub(crate) what: &'static str,
}

/// Explains a record with another number of fields than it should have.
pub(crate) fn at_record(
    alloc: Global,
    report: &mut Report,
    bytes: &[u8],
    delimiter: u8,
    found: &Found,
    wanted: &Wanted,
) -> Result<(), AllocError> {
    if let Some(at) = open_quote(bytes, found.start, delimiter) {
        let advice = Advice::new(
            alloc,
            "the quote that begins here never closes, and takes all that follows",
            "close it, or write a quote in a text twice and the text in quotes: \"a \"\"b\"\" c\"",
        );
        return write_at(alloc, report, bytes, quote_span(at), &advice);
    }
    if let Some(at) = long_quote(bytes, found.start, delimiter) {
        let advice = Advice::new(
            alloc,
            "the quote that begins here closes in a later line",
            "close it in its own line, if it should; a quote in a text is written twice",
        );
        return write_at(alloc, report, bytes, quote_span(at), &advice);
    }
    let line = line_number(bytes.get(..found.start).unwrap_or(bytes));
    let advice = of_count(alloc, wanted, &found.fields, delimiter, line);
    let field = found.fields.len().min(wanted.count);
    let span = field_span(bytes, found.start, field, delimiter);
    write_at(alloc, report, bytes, span, &advice)
}

/// A quote.
fn quote_span(at: usize) -> Span {
    Span {
        start: at,
        end: at.saturating_add(1),
    }
}

/// What is said of a record in this line with this many fields, between which this byte is.
fn of_count(
    alloc: Global,
    wanted: &Wanted,
    fields: &ByteRecord,
    delimiter: u8,
    line: usize,
) -> Advice {
    let count = fields.len();
    let mut what = Pieces::of(alloc, "this record has ");
    what.push_count(count);
    what.push_filled(
        " {}, and the {} has ",
        &[noun(count, "field", "fields"), wanted.whose],
    );
    what.push_count(wanted.count);
    what.push_filled(" {}", &[wanted.what]);
    let help = match of_stray_line(alloc, fields, line) {
        Some(help) if wanted.count > 1 => help,
        _ => Pieces::of(alloc, of_fields(fields, count > wanted.count, delimiter)),
    };
    Advice::of_pieces(what, help)
}

/// What to do about a record with too many fields, or too few.
fn of_fields(fields: &ByteRecord, too_many: bool, delimiter: u8) -> &'static str {
    let (many, few) = by_delimiter(delimiter);
    if !too_many {
        return few;
    }
    of_quotes(fields).unwrap_or(many)
}

/// What to do about too many fields with this byte between them, and about too few.
fn by_delimiter(delimiter: u8) -> (&'static str, &'static str) {
    for (known, many, few) in &COUNTS {
        if *known == delimiter {
            return (*many, *few);
        }
    }
    (
        "a field with the delimiter in it is written in double quotes; a delimiter at a line's end begins one more field",
        "an empty field is between two delimiters",
    )
}

/// Explains a field that is no value of its column.
pub(crate) fn of_field(
    alloc: Global,
    report: &mut Report,
    table: &Table,
    bytes: &[u8],
    number: u64,
) -> Result<(), AllocError> {
    let Some(found) = record_at(alloc, bytes, CsvLayout::plain(), number)? else {
        return Ok(());
    };
    let columns = table.columns();
    let index = match not_text(&found.fields) {
        Some(index) => index,
        None => first_misfit(columns, &found.fields).unwrap_or(columns.len()),
    };
    let span = field_span(bytes, found.start, index, b',');
    let Some(column) = columns.get(index) else {
        return Ok(());
    };
    let field = found.fields.get(index).unwrap_or(b"");
    let advice = match of_word(alloc, bytes, index, field)? {
        Some(help) => not_whole(alloc, column, field, number, help),
        None => at_field(alloc, column, field, number),
    };
    write_at(alloc, report, bytes, span, &advice)
}

/// The index of the first field that isn't UTF-8.
fn not_text(fields: &ByteRecord) -> Option<usize> {
    for index in 0..fields.len() {
        let field = fields.get(index).unwrap_or(b"");
        if std::str::from_utf8(field).is_err() {
            return Some(index);
        }
    }
    None
}

/// What to do about a field at this place that is a word for null, if it is one.
fn of_word(
    alloc: Global,
    bytes: &[u8],
    place: usize,
    field: &[u8],
) -> Result<Option<Pieces>, AllocError> {
    match std::str::from_utf8(field) {
        Ok(text) => of_null_word(alloc, bytes, CsvLayout::plain(), place, text),
        Err(_) => Ok(None),
    }
}

/// What is said of a field.
fn at_field(alloc: Global, column: &Column, field: &[u8], number: u64) -> Advice {
    let Ok(text) = std::str::from_utf8(field) else {
        let mut what = place_told(alloc, number, column.name.as_str());
        what.push("these bytes aren't UTF-8");
        let help = "UTF-8 is read: iconv -f WINDOWS-1252 -t UTF-8 FILE | rowmatch ..";
        return Advice::with_what(alloc, what, help);
    };
    let help = Pieces::of(alloc, of_number(text));
    not_whole(alloc, column, field, number, help)
}

/// The place of a field as it is reported, by its record's number and its column's name.
pub(crate) fn place_told(alloc: Global, number: u64, name: &str) -> Pieces {
    let mut told = Pieces::of(alloc, "record ");
    told.push_number(number);
    told.push(", column ");
    told.push_name(name);
    told.push(": ");
    told
}

/// What is reported of a field that is no whole number.
fn not_whole(alloc: Global, column: &Column, field: &[u8], number: u64, help: Pieces) -> Advice {
    let name = column.name.as_str();
    let mut what = place_told(alloc, number, name);
    what.push("`");
    what.push_start(field);
    what.push("` is no whole number");
    let mut help = help;
    help.push("\nfor any text the table has ");
    help.push_name(name);
    help.push(" text");
    Advice::of_pieces(what, help)
}
