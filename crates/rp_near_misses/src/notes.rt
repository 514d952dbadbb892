//! Notes on near misses.

use crate::compared::compared_with;
use crate::rows::{Compared, NearMiss, take_rows};
use rp_query::Query;
use rp_value::Row;
use rp_wording::{Pieces, noun};
use std::alloc::{AllocError, Global};

/// A line, without its end, for each text with which a query compares a column by `=` or `<>`, and that some rows have but for capitals (A to
/// Z) and for blanks at the ends, in the order of the columns. There is none for what rows have where the query compares the column with that, too.
pub fn near_misses(alloc: Global, query: &Query, rows: &[Row]) -> Result<Vec<String>, AllocError> {
    let mut notes = Vec::new(alloc);
    for (index, column) in query.table().columns().iter().enumerate() {
        let number = index.saturating_add(1);
        let mut texts = compared_with(alloc, query, number)?;
        if !texts.is_empty() {
            take_rows(rows, number, texts.as_mut_slice());
            push_notes(alloc, column.name.as_str(), texts.as_slice(), &mut notes)?;
        }
    }
    Ok(notes)
}

/// Adds the notes on the texts with which a column of this name is compared.
fn push_notes(
    alloc: Global,
    name: &str,
    texts: &[Compared<'_>],
    notes: &mut Vec<String>,
) -> Result<(), AllocError> {
    for one in texts {
        if let Some(near) = one.near {
            notes.push(line_on(alloc, name, one, near)?)?;
        }
    }
    Ok(())
}

/// What is to be known of a text with which a column of this name is compared, and of which rows have a near miss.
fn line_on(
    alloc: Global,
    name: &str,
    compared: &Compared<'_>,
    near: NearMiss<'_>,
) -> Result<String, AllocError> {
    let mut line = Pieces::new(alloc);
    push_compared(&mut line, name, compared);
    line.push("; ");
    push_rows(&mut line, near.count);
    line.push(" '");
    line.push_start(near.text.as_bytes());
    line.push("', and ");
    line.push(difference(compared, near.text));
    line.push(if compared.count == 0 {
        ": write it so"
    } else {
        ": compare it with that, too"
    });
    if near.text.trim() != near.text {
        line.push(", or take the blanks out of the input");
    }
    line.finish()
}

/// Adds with what a column of this name is compared, and how many rows have that.
pub(crate) fn push_compared(line: &mut Pieces, name: &str, compared: &Compared<'_>) {
    line.push_name(name);
    line.push(" is compared with '");
    line.push_start(compared.text.as_bytes());
    line.push("', which ");
    push_rows(line, compared.count);
}

/// Adds how many rows have something.
fn push_rows(line: &mut Pieces, count: usize) {
    if count == 0 {
        line.push("no row has");
    } else {
        line.push_count(count);
        line.push(noun(count, " row has", " rows have"));
    }
}

/// What a near miss differs by.
fn difference(compared: &Compared<'_>, near: &str) -> &'static str {
    if compared.text.eq_ignore_ascii_case(near) {
        "capitals count"
    } else if compared.text.trim() == near.trim() {
        "blanks count"
    } else {
        "capitals and blanks count"
    }
}
