//! The columns of an input, proposed from what it holds.

use crate::fronts::is_foreign;
use crate::heading::of_heading;
use crate::records::Records;
use crate::seen::{Seen, seen_in};
use csv::ByteRecord;
use rp_place::shown_character;
use rp_value::{Column, Kind, Text, upper_case_name};
use rp_wording::{Pieces, column_names, index_of, is_plain, quoted, shown, upper_case};
use std::alloc::{AllocError, Global};

/// Columns that are proposed for an input.
#[derive(Drop)]
pub struct Proposal {
    /// Their text, as `sym text, t int`. It is empty where there is no header, there is something above it, it isn't UTF-8, or no field
    /// of it has a name of its own that can be typed.
    pub columns: String,
    /// Whether each field of the header has a column of its own name, so that the text is that of a table too.
    pub is_table: bool,
}

/// Columns that fit the header and all records of a CSV text, in which this byte is between fields. A column is `int` where it has a
/// value and every one is a whole number of 64 bits, else `text`. A number with a zero in front is a text, since that zero would be
/// lost: a card number or a postal code. So is one with a plus sign where no other has a minus sign: a telephone number. So of `sym,t`
/// and `x,1` it is `sym text, t int`.
///
/// Blanks round the name of a field are no part of its column's name, unless another field has that or there are quotes in it: of `sym, t`
/// they are `sym text, t = int(" t")`. A field of the header that is empty, has the name of another one, or a line end or another character
/// in its name that can't be shown, has no column.
pub fn propose_columns(
    alloc: Global,
    bytes: &[u8],
    delimiter: u8,
    nulls: &[Text],
) -> Result<Proposal, AllocError> {
    if is_foreign(bytes) || of_heading(alloc, bytes, delimiter)?.is_some() {
        return Ok(no_columns(alloc));
    }
    propose_below(alloc, bytes, delimiter, nulls)
}

/// No columns.
fn no_columns(alloc: Global) -> Proposal {
    Proposal {
        columns: String::new(alloc),
        is_table: true,
    }
}

/// Columns that fit the first record as a header, and all others.
fn propose_below(
    alloc: Global,
    bytes: &[u8],
    delimiter: u8,
    nulls: &[Text],
) -> Result<Proposal, AllocError> {
    let mut records = Records::of(alloc, bytes, delimiter);
    let header = records.take();
    let seen = seen_in(alloc, &mut records, header.len(), nulls)?;
    propose_kinds(alloc, &header, seen.as_slice())
}

/// Columns for the fields of a header, of the kinds that fit what was seen of each.
fn propose_kinds(
    alloc: Global,
    header: &ByteRecord,
    seen: &[Seen],
) -> Result<Proposal, AllocError> {
    if !are_text(header) {
        return Ok(no_columns(alloc));
    }
    let names = meanings(alloc, header)?;
    let bare = bare_names(alloc, header)?;
    let mut columns = Pieces::new(alloc);
    let mut is_table = true;
    for (index, one) in seen.iter().enumerate() {
        let field = header.get(index).unwrap_or(b"");
        let naming = naming_of(names.as_slice(), bare.as_slice(), index, field);
        if naming != Naming::Nameless && !columns.is_empty() {
            columns.push(", ");
        }
        match naming {
            Naming::Nameless => {}
            Naming::Own => push_column(alloc, &mut columns, field, kind_seen(*one)),
            Naming::Bare => push_bare(alloc, &mut columns, field, kind_seen(*one)),
        }
        is_table = is_table && naming == Naming::Own;
    }
    Ok(Proposal {
        columns: columns.finish()?,
        is_table,
    })
}

/// The name of the column of a header's field.
#[derive(Clone, Copy, PartialEq, Eq)]
enum Naming {
    /// There is none, and so no column.
    Nameless,
    /// That of the field.
    Own,
    /// The same without the blanks round it.
    Bare,
}

/// The name of the column of the field at this index, by the names of all fields, with the blanks round them and without.
fn naming_of(names: &[String], bare_names: &[String], index: usize, field: &[u8]) -> Naming {
    if !is_named(names, index) {
        return Naming::Nameless;
    }
    let within = bare(field);
    if within.len() < field.len() && !within.contains(&b'"') && is_named(bare_names, index) {
        return Naming::Bare;
    }
    Naming::Own
}

/// The names that the fields of a header mean without the blanks round them.
fn bare_names(alloc: Global, header: &ByteRecord) -> Result<Vec<String>, AllocError> {
    let mut names = Vec::new(alloc);
    for index in 0..header.len() {
        names.push(meaning(alloc, bare(header.get(index).unwrap_or(b"")))?)?;
    }
    Ok(names)
}

/// A field without the blanks round it.
fn bare(field: &[u8]) -> &[u8] {
    field.trim_ascii()
}

/// Adds a column that has the name of a header's field without the blanks round it, and is read from that field.
fn push_bare(alloc: Global, text: &mut Pieces, field: &[u8], kind: &str) {
    text.push_made(typed_name(alloc, bare(field)));
    text.push(" = ");
    text.push(kind);
    text.push("(");
    text.push_made(typed_name(alloc, field));
    text.push(")");
}

/// Whether all fields of a record are UTF-8.
pub fn are_text(fields: &ByteRecord) -> bool {
    for index in 0..fields.len() {
        let field = fields.get(index).unwrap_or(b"");
        if std::str::from_utf8(field).is_err() {
            return false;
        }
    }
    true
}

/// The names that the fields of a header mean.
pub fn meanings(alloc: Global, header: &ByteRecord) -> Result<Vec<String>, AllocError> {
    let mut names = Vec::new(alloc);
    for index in 0..header.len() {
        names.push(meaning(alloc, header.get(index).unwrap_or(b""))?)?;
    }
    Ok(names)
}

/// The name that a field of a header means.
pub fn meaning(alloc: Global, field: &[u8]) -> Result<String, AllocError> {
    let text = String::from_utf8_lossy(alloc, field)?;
    match upper_case_name(alloc, text.as_str())? {
        Some(name) => String::from_str(alloc, name.as_str()),
        None => String::from_str(alloc, text.as_str()),
    }
}

/// Whether a field of a header has a name that can be typed, and no other one has it.
pub fn is_named(names: &[String], index: usize) -> bool {
    let name = match names.get(index) {
        Some(name) => name.as_str(),
        None => "",
    };
    let count = names.iter().filter(|other| other.as_str() == name).count();
    !name.is_empty() && is_shown(name) && count == 1
}

/// Whether a name is shown on a terminal as it is, so that it can be typed: it has no line end, no tab and no other character that
/// controls a terminal.
pub fn is_shown(name: &str) -> bool {
    name.chars()
        .all(|character| shown_character(character) == character)
}

/// The kind of a column by what was seen of it.
fn kind_seen(seen: Seen) -> &'static str {
    if seen.are_numbers() { "int" } else { "text" }
}

/// Adds the name of a header's field as it may be typed, and a kind.
fn push_column(alloc: Global, text: &mut Pieces, field: &[u8], kind: &str) {
    text.push_made(typed_name(alloc, field));
    text.push(" ");
    text.push(kind);
}

/// The name of a header as it may be typed in a table.
fn typed_name(alloc: Global, field: &[u8]) -> Result<String, AllocError> {
    let name = String::from_utf8_lossy(alloc, field)?;
    let text = name.as_str();
    if is_plain(alloc, text)? {
        return Ok(name);
    }
    if is_word(text) {
        let upper = upper_case(alloc, text)?;
        return shown(alloc, upper.as_str());
    }
    quoted(alloc, text)
}

/// Whether a name has the form of one without quotes, as a reserved word has.
fn is_word(name: &str) -> bool {
    !name.is_empty()
        && name
            .bytes()
            .all(|byte| byte.is_ascii_alphabetic() || byte == b'_')
}

/// Adds the text of a table with the columns of a header, and the kinds that those have in another table: text where they aren't in
/// it.
pub fn push_table(
    alloc: Global,
    text: &mut Pieces,
    header: &ByteRecord,
    columns: &[Column],
) -> Result<(), AllocError> {
    for index in 0..header.len() {
        if index > 0 {
            text.push(", ");
        }
        let field = header.get(index).unwrap_or(b"");
        push_column(alloc, text, field, kind_in(alloc, columns, field)?);
    }
    Ok(())
}

/// The kind that a field of a header has in a table: text where it isn't in it.
fn kind_in(alloc: Global, columns: &[Column], field: &[u8]) -> Result<&'static str, AllocError> {
    let name = String::from_utf8_lossy(alloc, field)?;
    match kind_of(alloc, columns, name.as_str())? {
        Some(Kind::Int) => Ok("int"),
        _ => Ok("text"),
    }
}

/// The kind of the column that a name of a header has in a table, if one has it.
fn kind_of(alloc: Global, columns: &[Column], name: &str) -> Result<Option<Kind>, AllocError> {
    let upper = upper_case(alloc, name)?;
    let names = column_names(alloc, columns)?;
    let place = match index_of(names.as_slice(), name) {
        Some(place) => Some(place),
        None => index_of(names.as_slice(), upper.as_str()),
    };
    let Some(place) = place else {
        return Ok(None);
    };
    match columns.get(place) {
        Some(column) => Ok(Some(column.kind)),
        None => Ok(None),
    }
}
