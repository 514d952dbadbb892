//! A header that isn't the table's.

use crate::csv_text::write_at;
use crate::proposal_notes::words_in;
use crate::scan::field_span;
use csv::ByteRecord;
use rp_input::names_column;
use rp_proposal::{
    Records, are_text, has_mark, is_named, is_shown, meanings, of_above, push_table, record_start,
};
use rp_value::{Column, Kind, Table};
use rp_wording::{Advice, Pieces, Report, column_names, is_whole, kind_word};
use std::alloc::{AllocError, Global};

/// What to do where blanks seem to be between fields.
pub(crate) const BLANKS: &str =
    "if blanks are between the fields, give --delimiter ' '; if there are several: tr -s ' ' ',' < FILE | rowmatch ..";

/// What to do where a header isn't UTF-8.
pub(crate) const NO_TEXT: &str =
    "the header isn't UTF-8, which is read: iconv -f WINDOWS-1252 -t UTF-8 FILE | rowmatch ..";

/// Explains a header that isn't the table's.
pub(crate) fn of_header(
    alloc: Global,
    report: &mut Report,
    table: &Table,
    bytes: &[u8],
) -> Result<(), AllocError> {
    if let Some(found) = of_above(alloc, bytes, b',')? {
        return report.advise("csv", &found);
    }
    let fields = header_of(alloc, bytes, b',')?;
    if fields.is_empty() {
        return report.advise("csv", &empty_input(alloc));
    }
    of_names(alloc, report, table, bytes, &fields)
}

/// The header of an input, in which this byte is between fields; it has no field where there is none.
pub(crate) fn header_of(
    alloc: Global,
    bytes: &[u8],
    delimiter: u8,
) -> Result<ByteRecord, AllocError> {
    let mut records = Records::of(alloc, bytes, delimiter);
    let header = records.take();
    records.finish(header)
}

/// What is said of an input without a byte.
pub(crate) fn empty_input(alloc: Global) -> Advice {
    Advice::new(
        alloc,
        "the input is empty",
        "was its file found? the first line names the columns",
    )
}

/// Explains a header of other names than the table's.
fn of_names(
    alloc: Global,
    report: &mut Report,
    table: &Table,
    bytes: &[u8],
    fields: &ByteRecord,
) -> Result<(), AllocError> {
    let columns = table.columns();
    let place = first_difference(alloc, columns, fields)?;
    let advice = at_field(alloc, columns, fields, place);
    let span = field_span(bytes, record_start(bytes, 0), place, b',');
    write_at(alloc, report, bytes, span, &advice)?;
    push_both(alloc, report, table, fields)?;
    push_hint(alloc, report, columns, fields, has_mark(bytes))
}

/// The index of the first field that doesn't name its column; of the first one that is too many or missing where all do.
fn first_difference(
    alloc: Global,
    columns: &[Column],
    fields: &ByteRecord,
) -> Result<usize, AllocError> {
    for (index, column) in columns.iter().enumerate() {
        if !names_column(alloc, column, fields.get(index).unwrap_or(b""))? {
            return Ok(index);
        }
    }
    Ok(columns.len())
}

/// What is wrong at a field of the header.
fn at_field(alloc: Global, columns: &[Column], fields: &ByteRecord, index: usize) -> Advice {
    let Some(column) = columns.get(index) else {
        let mut what = Pieces::of(alloc, "the table has ");
        what.push_count(columns.len());
        what.push(" columns, and the file goes on");
        return Advice::with_what(alloc, what, "");
    };
    let what = named_there(alloc, column, fields.get(index).is_some(), index);
    Advice::with_what(alloc, what, "")
}

/// Which column the table has at a place, where the file has another one or none.
fn named_there(alloc: Global, column: &Column, is_in_file: bool, index: usize) -> Pieces {
    let number = index.saturating_add(1);
    if !is_in_file {
        let mut what = Pieces::of(alloc, "the file has no column ");
        what.push_count(number);
        what.push(", and the table has ");
        what.push_name(column.name.as_str());
        what.push(" there");
        return what;
    }
    let mut what = Pieces::of(alloc, "column ");
    what.push_count(number);
    what.push(" of the table is ");
    what.push_name(column.name.as_str());
    what
}

/// Writes the columns of the table and those of the file.
fn push_both(
    alloc: Global,
    report: &mut Report,
    table: &Table,
    fields: &ByteRecord,
) -> Result<(), AllocError> {
    let names = column_names(alloc, table.columns())?;
    let mut line = Pieces::of(alloc, "the table has: ");
    line.push_names(names.as_slice());
    report.note(&line)?;
    let mut line = Pieces::of(alloc, "the file has:  ");
    push_fields(&mut line, fields);
    report.note(&line)
}

/// Adds the first fields of a header, with commas between.
pub(crate) fn push_fields(list: &mut Pieces, fields: &ByteRecord) {
    for index in 0..fields.len().min(16) {
        if index > 0 {
            list.push(", ");
        }
        list.push_start(fields.get(index).unwrap_or(b""));
    }
}

/// Writes what to do about a header, before which there is a byte order mark or none.
fn push_hint(
    alloc: Global,
    report: &mut Report,
    columns: &[Column],
    fields: &ByteRecord,
    is_marked: bool,
) -> Result<(), AllocError> {
    if !are_text(fields) {
        return report.help(NO_TEXT);
    }
    let first = String::from_utf8_lossy(alloc, fields.get(0).unwrap_or(b""))?;
    if let Some(help) = of_separator(first.as_str(), fields.len()) {
        return report.help(help);
    }
    if columns.len() > 1 && words_in(fields) == columns.len() {
        return report.help(BLANKS);
    }
    if has_blanks(fields) {
        return report.help(
            "a blank after a comma belongs to the name, and is to be taken out of the file",
        );
    }
    let help = hint_of(alloc, columns, fields, is_marked)?;
    report.help(help.text()?)
}

/// What to do about a header whose fields are separated as they should be.
fn hint_of(
    alloc: Global,
    columns: &[Column],
    fields: &ByteRecord,
    is_marked: bool,
) -> Result<Pieces, AllocError> {
    if !looks_like_values(columns, fields) {
        return of_list(alloc, columns, fields);
    }
    let mut help = Pieces::of(
        alloc,
        "these look like values: the first line names the columns\n(echo '",
    );
    help.push_made(plain_header(alloc, columns));
    help.push(if is_marked {
        "'; tail -c +4 FILE) | rowmatch .."
    } else {
        "'; cat FILE) | rowmatch .."
    });
    Ok(help)
}

/// What to do about a header that is of other columns than the table's: a table lists all of them, unless two have one name, or one has
/// none or one that can't be typed.
fn of_list(alloc: Global, columns: &[Column], fields: &ByteRecord) -> Result<Pieces, AllocError> {
    let names = meanings(alloc, fields)?;
    let mut places = names.iter().enumerate();
    if places.all(|(index, _name)| is_named(names.as_slice(), index)) {
        let mut help = Pieces::of(
            alloc,
            "the table lists the file's columns, all of them and in its order: --table ",
        );
        let mut table = Pieces::new(alloc);
        push_table(alloc, &mut table, fields, columns)?;
        help.push_shell_word(table.text()?);
        return Ok(help);
    }
    let mut help = Pieces::of(alloc, of_untyped(names.as_slice()));
    let mut typed = Pieces::new(alloc);
    push_typed_columns(&mut typed, columns);
    help.push_shell_word(typed.text()?);
    Ok(help)
}

/// What is said of a header of these names, of which a table can't be typed.
fn of_untyped(names: &[String]) -> &'static str {
    if names.iter().any(|name| !is_shown(name.as_str())) {
        return "a name in the header has a line end or another control character, so the table can be written only in a file, for --table-file: others are read by --columns ";
    }
    "a field of the header has no name, or one that another has too: those that are named once are read by --columns "
}

/// Adds the columns of a table with their kinds, as they may be typed.
fn push_typed_columns(text: &mut Pieces, columns: &[Column]) {
    for (index, column) in columns.iter().enumerate() {
        if index > 0 {
            text.push(", ");
        }
        text.push_name(column.name.as_str());
        text.push(" ");
        text.push(kind_word(column.kind));
    }
}

/// What separates the fields, where no commas do.
fn of_separator(first: &str, count: usize) -> Option<&'static str> {
    if count > 1 {
        return None;
    }
    if first.contains(';') {
        return Some(
            "the fields are between semicolons, and commas are read: tr ';' ',' < FILE | rowmatch .., where no field has a comma",
        );
    }
    if first.contains('\t') {
        return Some(
            "the fields are between tabs, and commas are read: tr '\\t' ',' < FILE | rowmatch .., where no field has a comma",
        );
    }
    if first.contains('|') {
        return Some(
            "the fields are between bars, and commas are read: tr '|' ',' < FILE | rowmatch .., where no field has a comma",
        );
    }
    None
}

/// Whether a field has a blank in front or behind.
fn has_blanks(fields: &ByteRecord) -> bool {
    for index in 0..fields.len() {
        let field = fields.get(index).unwrap_or(b"");
        if field.first() == Some(&b' ') || field.last() == Some(&b' ') {
            return true;
        }
    }
    false
}

/// Whether the fields are as many as the columns, and numbers where the columns are of numbers, of which there is one.
fn looks_like_values(columns: &[Column], fields: &ByteRecord) -> bool {
    let mut numbers = 0usize;
    for (index, column) in columns.iter().enumerate() {
        if column.kind == Kind::Int {
            if !is_whole(fields.get(index).unwrap_or(b"")) {
                return false;
            }
            numbers = numbers.saturating_add(1);
        }
    }
    numbers > 0 && fields.len() == columns.len()
}

/// A header that names the columns.
fn plain_header(alloc: Global, columns: &[Column]) -> Result<String, AllocError> {
    let mut names = Pieces::new(alloc);
    for (index, column) in columns.iter().enumerate() {
        if index > 0 {
            names.push(",");
        }
        names.push(column.name.as_str());
    }
    let mut header = names.finish()?;
    header.make_ascii_lowercase();
    Ok(header)
}
