//! Why a CSV input is no rows of columns that are computed.

use crate::csv_text::write_at;
use crate::field::{Wanted, at_record, place_told, record_at};
use crate::first_line::{BLANKS, NO_TEXT, header_of, push_fields};
use crate::no_header::of_no_header;
use crate::null_words::of_null_word;
use crate::proposal_notes::words_in;
use crate::reading_words::{to_write, wrong};
use crate::scan::field_span;
use csv::ByteRecord;
use rp_columns::{Columns, InputColumn, Reading, ReadingFault};
use rp_input::{ColumnsCsvFault, CsvLayout};
use rp_proposal::{are_text, csv_fault_line, meaning, meanings, name_of, of_above, source_of};
use rp_value::upper_case_name;
use rp_wording::{Advice, Pieces, Report, nearest, noun};
use std::alloc::{AllocError, Global};

/// What may be between fields, and what to write where it is.
const DELIMITERS: [(u8, &str); 4] = [
    (
        b';',
        "the fields have semicolons between them: give --delimiter ';'",
    ),
    (
        b'\t',
        "the fields have tabs between them: give --delimiter '\\t'",
    ),
    (
        b'|',
        "the fields have bars between them: give --delimiter '|'",
    ),
    (
        b',',
        "the fields have commas between them: leave --delimiter out",
    ),
];

/// What to do where the first line seems to be a row.
const ROW: &str =
    "these look like values: if the first line is a row, give --no-header, and the columns are the fields in order";

/// An input by columns.
#[derive(Clone, Copy)]
struct Input<'a> {
    columns: &'a [InputColumn],
    layout: CsvLayout,
    bytes: &'a [u8],
}

/// Explains why `rows_by` refuses the bytes of a CSV text, by the fault that it gave.
///
/// The first line is the fault's name with its record; each line ends in LF. Where a device failed or memory ran out that line is
/// all there is.
pub fn explain_csv_by(
    alloc: Global,
    columns: &Columns,
    layout: CsvLayout,
    bytes: &[u8],
    fault: &ColumnsCsvFault,
) -> Result<Report, AllocError> {
    let input = Input {
        columns: columns.as_slice(),
        layout,
        bytes,
    };
    let line = csv_fault_line(alloc, input.columns, fault)?;
    let mut report = Report::of(alloc, "csv", line.as_str())?;
    explain(alloc, &mut report, &input, fault)?;
    Ok(report)
}

/// Adds where a fault is, and what to write.
fn explain(
    alloc: Global,
    report: &mut Report,
    input: &Input<'_>,
    fault: &ColumnsCsvFault,
) -> Result<(), AllocError> {
    match fault {
        ColumnsCsvFault::Header => {
            of_no_header(alloc, report, input.bytes, input.layout.delimiter)
        }
        ColumnsCsvFault::Missing(index) => of_missing(alloc, report, input, *index),
        ColumnsCsvFault::Double(index) => of_double(alloc, report, input, *index),
        ColumnsCsvFault::Record(number) => of_record(alloc, report, input, *number),
        ColumnsCsvFault::Field(number, index, why) => {
            of_field(alloc, report, input, *number, *index, *why)
        }
        ColumnsCsvFault::Read | ColumnsCsvFault::Turns | ColumnsCsvFault::OutOfMemory => Ok(()),
    }
}

/// Explains a column that no field of the header names.
fn of_missing(
    alloc: Global,
    report: &mut Report,
    input: &Input<'_>,
    index: usize,
) -> Result<(), AllocError> {
    if let Some(found) = of_above(alloc, input.bytes, input.layout.delimiter)? {
        return report.advise("csv", &found);
    }
    let header = header_of(alloc, input.bytes, input.layout.delimiter)?;
    let source = source_of(input.columns, index);
    let what = Pieces::filled(
        alloc,
        "no field of the header is {}, from which the column {} comes",
        &[source, name_of(input.columns, index)],
    );
    let help = help_for_missing(alloc, input, index, &header)?;
    tell(alloc, report, &header, &Advice::of_pieces(what, help))
}

/// Adds advice on the header of an input, with that header.
fn tell(
    alloc: Global,
    report: &mut Report,
    header: &ByteRecord,
    advice: &Advice,
) -> Result<(), AllocError> {
    report.say("csv", advice.what()?)?;
    let mut line = Pieces::of(alloc, "the header has: ");
    push_fields(&mut line, header);
    report.note(&line)?;
    report.help(advice.help()?)
}

/// What to do about the column of this index, which no field of a header names.
fn help_for_missing(
    alloc: Global,
    input: &Input<'_>,
    index: usize,
    header: &ByteRecord,
) -> Result<Pieces, AllocError> {
    let source = source_of(input.columns, index);
    if !are_text(header) {
        return Ok(Pieces::of(alloc, NO_TEXT));
    }
    if let Some(help) = of_delimiter(header, input.layout.delimiter) {
        return Ok(Pieces::of(alloc, help));
    }
    if has_word(alloc, header, source)? {
        return Ok(Pieces::of(alloc, BLANKS));
    }
    if seems_row(input.columns, index, header) {
        return Ok(Pieces::of(alloc, ROW));
    }
    let mut help = meant_field(alloc, header, source)?;
    help.push(
        "a name with blanks or small letters that count is in double quotes, as the header has it",
    );
    Ok(help)
}

/// Whether a header in which this column is missing seems to be a row: none before it is found, there are as many fields as are read,
/// and numbers and times, of which there are some, begin as such.
fn seems_row(columns: &[InputColumn], index: usize, header: &ByteRecord) -> bool {
    let mut place = 0usize;
    for column in columns {
        if column.reading.reads_field() {
            if !may_hold(&column.reading, header.get(place).unwrap_or(b"")) {
                return false;
            }
            place = place.saturating_add(1);
        }
    }
    place == header.len()
        && columns.iter().any(|column| is_counted(&column.reading))
        && fields_read(columns.get(..index).unwrap_or(&[])) == 0
}

/// Whether a column of this reading may hold a field, by how that begins.
fn may_hold(reading: &Reading, field: &[u8]) -> bool {
    match field.first() {
        Some(byte) => {
            !is_counted(reading) || byte.is_ascii_digit() || matches!(*byte, b'-' | b'+')
        }
        None => false,
    }
}

/// Whether the values of a reading are numbers or times, from fields.
fn is_counted(reading: &Reading) -> bool {
    !matches!(reading, Reading::Text | Reading::Lower | Reading::Record)
}

/// A line that guesses which field of a header is meant; nothing where there is no guess.
fn meant_field(alloc: Global, header: &ByteRecord, source: &str) -> Result<Pieces, AllocError> {
    let names = meanings(alloc, header)?;
    let place = match place_within(alloc, header, source)? {
        Some(place) => Some(place),
        None => nearest(alloc, source, names.as_slice())?,
    };
    let mut help = Pieces::new(alloc);
    if let Some(place) = place
        && let Some(name) = names.get(place)
    {
        help.push("write ");
        help.push_name(name.as_str());
        help.push(" in the brackets\n");
    }
    Ok(help)
}

/// The place of the first field that has this name without the blanks round it.
fn place_within(
    alloc: Global,
    header: &ByteRecord,
    source: &str,
) -> Result<Option<usize>, AllocError> {
    for place in 0..header.len() {
        let field = header.get(place).unwrap_or(b"").trim_ascii();
        if meaning(alloc, field)?.as_str() == source {
            return Ok(Some(place));
        }
    }
    Ok(None)
}

/// Whether the header is one field of words with blanks between, of which one is this name.
fn has_word(alloc: Global, header: &ByteRecord, name: &str) -> Result<bool, AllocError> {
    if words_in(header) < 2 {
        return Ok(false);
    }
    let line = String::from_utf8_lossy(alloc, header.get(0).unwrap_or(b""))?;
    let found = line
        .as_str()
        .split(' ')
        .any(|word| word.eq_ignore_ascii_case(name));
    Ok(found)
}

/// What to write where the header is one field that holds another delimiter than this byte.
pub(crate) fn of_delimiter(header: &ByteRecord, delimiter: u8) -> Option<&'static str> {
    let first = header.get(0)?;
    if header.len() > 1 {
        return None;
    }
    for (other, help) in &DELIMITERS {
        if *other != delimiter && first.contains(other) {
            return Some(*help);
        }
    }
    None
}

/// Explains a column that more than one field of the header names.
fn of_double(
    alloc: Global,
    report: &mut Report,
    input: &Input<'_>,
    index: usize,
) -> Result<(), AllocError> {
    let header = header_of(alloc, input.bytes, input.layout.delimiter)?;
    let source = source_of(input.columns, index);
    let advice = Advice::with_what(
        alloc,
        Pieces::filled(alloc, "more than one field of the header is {}", &[source]),
        "give one of them another name in the file, or read it with --no-header below its first line: tail -n +2 FILE",
    );
    tell(alloc, report, &header, &advice)
}

/// Explains a record with another number of fields.
fn of_record(
    alloc: Global,
    report: &mut Report,
    input: &Input<'_>,
    number: u64,
) -> Result<(), AllocError> {
    let Some(found) = record_at(alloc, input.bytes, input.layout, number)? else {
        return Ok(());
    };
    let wanted = if input.layout.has_header {
        let count = header_of(alloc, input.bytes, input.layout.delimiter)?.len();
        Wanted {
            count,
            whose: "header",
            what: noun(count, "field", "fields"),
        }
    } else {
        let count = fields_read(input.columns);
        Wanted {
            count,
            whose: "list of columns",
            what: noun(count, "column", "columns"),
        }
    };
    at_record(
        alloc,
        report,
        input.bytes,
        input.layout.delimiter,
        &found,
        &wanted,
    )
}

/// How many of these columns are read from fields.
fn fields_read(columns: &[InputColumn]) -> usize {
    columns
        .iter()
        .filter(|column| column.reading.reads_field())
        .count()
}

/// Explains a field that is no value of its column.
fn of_field(
    alloc: Global,
    report: &mut Report,
    input: &Input<'_>,
    number: u64,
    index: usize,
    why: ReadingFault,
) -> Result<(), AllocError> {
    let Some(found) = record_at(alloc, input.bytes, input.layout, number)? else {
        return Ok(());
    };
    let Some(column) = input.columns.get(index) else {
        return Ok(());
    };
    let place = place_of(alloc, input, index)?;
    let field = found.fields.get(place).unwrap_or(b"");
    let mut what = place_told(alloc, number, column.name.as_str());
    what.push("`");
    what.push_start(field);
    what.push_filled("` {}", &[wrong(&column.reading, why)]);
    let help = help_for_field(alloc, input, place, field, &column.reading, why)?;
    let span = field_span(input.bytes, found.start, place, input.layout.delimiter);
    write_at(
        alloc,
        report,
        input.bytes,
        span,
        &Advice::of_pieces(what, help),
    )
}

/// What to write in place of a field, or how to read it.
fn help_for_field(
    alloc: Global,
    input: &Input<'_>,
    place: usize,
    field: &[u8],
    reading: &Reading,
    why: ReadingFault,
) -> Result<Pieces, AllocError> {
    let text = String::from_utf8_lossy(alloc, field)?;
    match of_null_word(alloc, input.bytes, input.layout, place, text.as_str())? {
        Some(help) => Ok(help),
        None => Ok(Pieces::of(alloc, to_write(reading, why, text.as_str()))),
    }
}

/// The place of a column's field in a record.
fn place_of(alloc: Global, input: &Input<'_>, index: usize) -> Result<usize, AllocError> {
    if !input.layout.has_header {
        return Ok(fields_read(input.columns.get(..index).unwrap_or(&[])));
    }
    let header = header_of(alloc, input.bytes, input.layout.delimiter)?;
    place_in(alloc, &header, source_of(input.columns, index))
}

/// The place of the first field of a header that has this name; 0 where none has it.
fn place_in(alloc: Global, header: &ByteRecord, source: &str) -> Result<usize, AllocError> {
    for place in 0..header.len() {
        let field = header.get(place).unwrap_or(b"");
        if field == source.as_bytes() || is_upper_case(alloc, field, source)? {
            return Ok(place);
        }
    }
    Ok(0)
}

/// Whether a field has the form of a name of which this is the upper-case form.
fn is_upper_case(alloc: Global, field: &[u8], source: &str) -> Result<bool, AllocError> {
    let text = String::from_utf8_lossy(alloc, field)?;
    match upper_case_name(alloc, text.as_str())? {
        Some(name) => Ok(name.as_str() == source),
        None => Ok(false),
    }
}
