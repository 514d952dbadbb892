//! What is said of columns that are proposed: which fields have none, and whether something else is between fields.

use crate::by_columns::of_delimiter;
use crate::mixed::push_mixed;
use crate::no_header::CONTROLLED;
use csv::ByteRecord;
use rp_input::CsvLayout;
use rp_place::push_help;
use rp_proposal::{Records, has_mark, is_shown, meanings, without_mark};
use rp_value::Text;
use rp_wording::{Pieces, shown_text};
use std::alloc::{AllocError, Global};

/// Says what is to be known of the columns that `propose_columns` proposes for the bytes of a CSV text, in which this byte is between
/// fields: each field of the header that has no column, what seems to be between fields where the header is one field, and columns that
/// are text since words for null are among their numbers.
///
/// Each line ends in LF; there may be none.
pub fn explain_proposal(
    alloc: Global,
    bytes: &[u8],
    delimiter: u8,
    nulls: &[Text],
) -> Result<String, AllocError> {
    let mut out = Pieces::new(alloc);
    push_header(alloc, &mut out, bytes, delimiter)?;
    let layout = CsvLayout {
        delimiter,
        has_header: true,
    };
    push_mixed(alloc, &mut out, bytes, layout, nulls)?;
    shown_text(alloc, out.text()?)
}

/// Writes what is to be known of the header.
fn push_header(
    alloc: Global,
    out: &mut Pieces,
    bytes: &[u8],
    delimiter: u8,
) -> Result<(), AllocError> {
    let mut records = Records::of(alloc, bytes, delimiter);
    let header = records.take();
    if header.len() == 1 {
        push_between(out, &header, &mut records, delimiter);
    } else {
        let naming = naming_of(bytes, delimiter);
        push_left_out(out, meanings(alloc, &header)?.as_slice(), naming);
    }
    records.finish(())
}

/// Writes what to do where a header is one field, and something else than this byte seems to be between fields.
fn push_between(out: &mut Pieces, header: &ByteRecord, records: &mut Records<'_>, delimiter: u8) {
    if let Some(help) = of_delimiter(header, delimiter) {
        return out.push_help(help);
    }
    let words = words_in(header);
    if words < 2 || !have_words(records, words) {
        return;
    }
    out.push_help(if has_runs(header.get(0).unwrap_or(b"")) {
        "if the blanks are between fields: tr -s ' ' ',' < FILE | rowmatch .."
    } else {
        "if the blanks are between fields, give --delimiter ' '"
    });
}

/// How many words with blanks between the one field of a record has; 0 where it has more fields.
pub(crate) fn words_in(fields: &ByteRecord) -> usize {
    if fields.len() > 1 {
        return 0;
    }
    let line = fields.get(0).unwrap_or(b"");
    line.split(|byte| *byte == b' ')
        .filter(|word| !word.is_empty())
        .count()
}

/// Whether all records that are left have so many words, and there is one.
fn have_words(records: &mut Records<'_>, words: usize) -> bool {
    let is_any = records.next() && words_in(records.fields()) == words;
    is_any && !records.find(|fields| words_in(fields) != words)
}

/// Whether there are two blanks in a row, or one at an end.
fn has_runs(line: &[u8]) -> bool {
    line.split(|byte| *byte == b' ').any(|word| word.is_empty())
}

/// Writes which fields of a header, by the names that they mean, have no column, and what to do: this for a first one without a name.
fn push_left_out(out: &mut Pieces, names: &[String], naming: &str) {
    for (index, name) in names.iter().enumerate() {
        if name.is_empty() {
            push_nameless(out, index, naming);
        } else if !is_shown(name.as_str()) {
            push_controlled(out, index);
        } else if is_first_of_more(names, index) {
            push_double(out, name.as_str());
        }
    }
}

/// Whether this name comes again behind this place, and not before.
fn is_first_of_more(names: &[String], index: usize) -> bool {
    let Some(name) = names.get(index) else {
        return false;
    };
    let before = names.get(..index).unwrap_or(&[]);
    let count = names
        .iter()
        .filter(|other| other.as_str() == name.as_str())
        .count();
    count > 1 && !before.iter().any(|other| other.as_str() == name.as_str())
}

/// What to do about a field without a name.
const NAMELESS: &str = "to have it, name it in the first line of the file";

/// What to do about a first field without a name, by how a file begins, in which this byte is between fields. Where it begins with a
/// byte order mark, that is taken out first: the line begins behind it.
fn naming_of(bytes: &[u8], delimiter: u8) -> &'static str {
    let front = without_mark(bytes);
    if delimiter != b',' {
        return NAMELESS;
    }
    if front.starts_with(b",") {
        return plain_naming(has_mark(bytes));
    }
    if front.starts_with(b"\"\",") {
        return quoted_naming(has_mark(bytes));
    }
    NAMELESS
}

/// How to name a first field that is empty, behind a byte order mark or not.
fn plain_naming(is_marked: bool) -> &'static str {
    if is_marked {
        return "to name it: tail -c +4 FILE | sed '1s/^,/index,/' | rowmatch ..; pandas writes none with index=False";
    }
    "to name it: sed '1s/^,/index,/' FILE | rowmatch ..; pandas writes none with index=False"
}

/// The same of two quotes.
fn quoted_naming(is_marked: bool) -> &'static str {
    if is_marked {
        return "to name it: tail -c +4 FILE | sed '1s/^\"\",/index,/' | rowmatch ..; R writes none with row.names=FALSE";
    }
    "to name it: sed '1s/^\"\",/index,/' FILE | rowmatch ..; R writes none with row.names=FALSE"
}

/// Writes which column of a file it is.
fn push_place(out: &mut Pieces, index: usize) {
    out.push("  column ");
    out.push_count(index.saturating_add(1));
    out.push(" of the file has ");
}

/// Writes that a field has no name, and what to do where it is the first.
fn push_nameless(out: &mut Pieces, index: usize, naming: &str) {
    push_place(out, index);
    out.push("no name, and is left out\n");
    out.push_help(if index == 0 { naming } else { NAMELESS });
}

/// Writes that the name of a field can't be shown.
fn push_controlled(out: &mut Pieces, index: usize) {
    push_place(out, index);
    out.push("a line end or another control character in its name, and is left out\n");
    out.push_help(CONTROLLED);
}

/// Writes that more than one field has a name.
fn push_double(out: &mut Pieces, name: &str) {
    out.push("  ");
    out.push_name(name);
    out.push(" is the name of more than one field of the header, and is left out\n");
    out.push_help("to have them, give them different names in the first line of the file");
}
