//! Columns that are proposed as text, since words for null are among their numbers.

use crate::null_words::of_null_word;
use rp_input::CsvLayout;
use rp_place::push_help;
use rp_proposal::{Records, Seen, is_named, meanings, seen_in};
use rp_value::Text;
use rp_wording::{Pieces, is_null_word};
use std::alloc::{AllocError, Global};

/// Writes of each column that is proposed for a CSV text, and has whole numbers and words for null alone, that it is text, and what to
/// do.
pub(crate) fn push_mixed(
    alloc: Global,
    out: &mut Pieces,
    bytes: &[u8],
    layout: CsvLayout,
    nulls: &[Text],
) -> Result<(), AllocError> {
    let mut records = Records::of(alloc, bytes, layout.delimiter);
    let header = records.take();
    let seen = seen_in(alloc, &mut records, header.len(), nulls)?;
    let names = meanings(alloc, &header)?;
    for (index, name) in names.iter().enumerate() {
        if is_named(names.as_slice(), index) && is_mixed(seen.as_slice(), index) {
            push_column(alloc, out, bytes, layout, index, name.as_str())?;
        }
    }
    Ok(())
}

/// Whether whole numbers and words for null alone were seen in a column.
fn is_mixed(seen: &[Seen], index: usize) -> bool {
    match seen.get(index) {
        Some(one) => one.number && one.word && !one.other,
        None => false,
    }
}

/// Writes that a column is text because of a word, and what to do.
fn push_column(
    alloc: Global,
    out: &mut Pieces,
    bytes: &[u8],
    layout: CsvLayout,
    index: usize,
    name: &str,
) -> Result<(), AllocError> {
    let word = first_word(alloc, bytes, layout, index)?;
    let Some(help) = of_null_word(alloc, bytes, layout, index, word.as_str())? else {
        return Ok(());
    };
    out.push("  ");
    out.push_name(name);
    out.push(" is text, since a word is among its numbers\n");
    out.push_help(help.text()?);
    Ok(())
}

/// The first word for null in a column; it may be empty.
fn first_word(
    alloc: Global,
    bytes: &[u8],
    layout: CsvLayout,
    index: usize,
) -> Result<String, AllocError> {
    let mut records = Records::of(alloc, bytes, layout.delimiter);
    let is_found = records.find(|fields| is_null_word(fields.get(index).unwrap_or(b"")));
    if !is_found {
        return records.finish(String::new(alloc));
    }
    records.finish(String::from_utf8_lossy(alloc, records.fields().get(index).unwrap_or(b""))?)
}
