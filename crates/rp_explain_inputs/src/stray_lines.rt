//! Lines of a CSV text that are no records.

use csv::ByteRecord;
use rp_wording::{Pieces, are_digits};
use std::alloc::Global;

/// What to do about a record in this line that is one field where more are wanted, if it seems to be one that is to be left out.
pub(crate) fn of_stray_line(alloc: Global, fields: &ByteRecord, line: usize) -> Option<Pieces> {
    if fields.len() != 1 {
        return None;
    }
    let Ok(text) = std::str::from_utf8(fields.get(0).unwrap_or(b"")) else {
        return None;
    };
    let text = text.trim();
    if let Some(help) = of_known_line(text) {
        return Some(Pieces::of(alloc, help));
    }
    if is_prose(text) || is_rule(text) {
        return Some(leave_out(alloc, line));
    }
    None
}

/// What to do about such a line of a known kind.
fn of_known_line(text: &str) -> Option<&'static str> {
    if text.is_empty() {
        return Some("leave lines of blanks out: sed '/^[[:space:]]*$/d' FILE | rowmatch ..");
    }
    if text.starts_with('#') {
        return Some(
            "leave remarks out: grep -v '^#' FILE | rowmatch .., where no row begins with #",
        );
    }
    if is_row_count(text) {
        return Some(
            "a database writes this below its rows: leave the line out: sed '$d' FILE | rowmatch ..; psql --csv doesn't write it",
        );
    }
    None
}

/// Whether it says how many rows there are, as `(2 rows)`.
fn is_row_count(text: &str) -> bool {
    let Some(behind) = text.strip_prefix('(') else {
        return false;
    };
    match behind.split_once(' ') {
        Some((count, what)) => are_digits(count) && what.starts_with("row"),
        None => false,
    }
}

/// Whether it has words with blanks between, and nothing that may be between fields.
fn is_prose(text: &str) -> bool {
    text.contains(' ')
        && text.chars().any(|character| character.is_alphabetic())
        && !text
            .bytes()
            .any(|byte| matches!(byte, b';' | b'\t' | b'|' | b','))
}

/// Whether it is a line that is drawn, as between a header and rows.
fn is_rule(text: &str) -> bool {
    text.len() > 2
        && text.bytes().all(|byte| matches!(byte, b'-' | b'+' | b'=' | b'|' | b'_' | b'*' | b' '))
}

/// What to do about a line of text.
fn leave_out(alloc: Global, line: usize) -> Pieces {
    let mut help = Pieces::of(
        alloc,
        "this looks like a line of text, and no row: leave it out: sed '",
    );
    help.push_count(line);
    help.push("d' FILE | rowmatch ..");
    help
}
