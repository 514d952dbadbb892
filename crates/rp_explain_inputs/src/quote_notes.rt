//! What is to be known of the quotes of a CSV text that is rows nevertheless, and what to do about a quote behind a blank.

use csv::ByteRecord;
use rp_quotes::{QuoteWatch, remarks_on};
use std::alloc::{AllocError, Global};

/// What to do about a quote behind a blank.
const BEHIND_BLANK: &str =
    "a quote opens a field only where no blank comes before it: leave the blank out";

/// Says of the bytes of a CSV text, in which this byte is between fields, which quotes csv takes otherwise than is meant, most likely.
/// Each line ends in LF; there may be none.
pub fn describe_quotes(alloc: Global, bytes: &[u8], delimiter: u8) -> Result<String, AllocError> {
    let mut quotes = QuoteWatch::new(delimiter);
    quotes.take(bytes);
    let mut lines = String::new(alloc);
    for remark in remarks_on(alloc, &quotes)? {
        lines.push_str(remark.as_str())?;
        lines.push_str("\n")?;
    }
    Ok(lines)
}

/// What to do about a field that begins with blanks and then a quote, if this one does.
pub(crate) fn of_quote(field: &[u8]) -> Option<&'static str> {
    let is_quote = field.trim_ascii_start().first() == Some(&b'"');
    if field.first() == Some(&b' ') && is_quote {
        return Some(BEHIND_BLANK);
    }
    None
}

/// The same about a record of such a field.
pub(crate) fn of_quotes(fields: &ByteRecord) -> Option<&'static str> {
    for index in 0..fields.len() {
        let help = of_quote(fields.get(index).unwrap_or(b""));
        if help.is_some() {
            return help;
        }
    }
    None
}
