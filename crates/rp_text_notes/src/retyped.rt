//! Options by which some columns are read in another way.

use crate::found::Found;
use crate::null_texts::NullTexts;
use crate::null_words::NullWords;
use crate::shell::push_word;
use crate::way::Way;
use crate::written::WrittenColumn;
use rp_value::Text;
use rp_wording::Pieces;
use std::alloc::{AllocError, Global};

/// The options by which these columns are read in their ways, and all others as before, by these words for null and those of texts. One with a
/// sign that no reading takes stays too.
pub(crate) fn options_for(
    alloc: Global,
    columns: &[WrittenColumn<'_>],
    nulls: &[Text],
    found: &[Found],
    texts: &[NullTexts],
) -> Result<String, AllocError> {
    let columns = retyped(alloc, columns, found)?;
    let words = words_of(alloc, found, texts)?;
    let mut options = Pieces::new(alloc);
    words.push_options(&mut options);
    if !words.is_empty() && is_empty_null(nulls) {
        options.push("--null '' ");
    }
    options.push("--columns ");
    push_word(&mut options, columns.as_str());
    options.finish()
}

/// The words for null of columns that are read, and of those that stay texts.
fn words_of(alloc: Global, found: &[Found], texts: &[NullTexts]) -> Result<NullWords, AllocError> {
    let mut words = words_of_found(alloc, found)?;
    for one in texts {
        words.add_all(alloc, &one.words)?;
    }
    Ok(words)
}

/// Those of columns that are read.
fn words_of_found(alloc: Global, found: &[Found]) -> Result<NullWords, AllocError> {
    let mut words = NullWords::new(alloc);
    for one in found {
        if one.sign.is_empty() {
            words.add_all(alloc, &one.words)?;
        }
    }
    Ok(words)
}

/// Whether an empty text is null.
fn is_empty_null(nulls: &[Text]) -> bool {
    for word in nulls {
        if word.as_str().is_empty() {
            return true;
        }
    }
    false
}

/// The text of these columns, as `sym text, p text`, with ways to read some of them, as `sym text, p = decimal(p, 2)`.
fn retyped(
    alloc: Global,
    columns: &[WrittenColumn<'_>],
    found: &[Found],
) -> Result<String, AllocError> {
    let mut text = Pieces::new(alloc);
    for (index, column) in columns.iter().enumerate() {
        if index > 0 {
            text.push(", ");
        }
        text.push(column.name);
        match way_of(found, index.saturating_add(1)) {
            Some(way) => push_way(alloc, &mut text, way, column.name),
            None => push_kind(&mut text, column),
        }
    }
    text.finish()
}

/// The way to read a column, by its number.
fn way_of(found: &[Found], number: usize) -> Option<&Way> {
    for one in found {
        if one.number == number && one.sign.is_empty() {
            return Some(&one.way);
        }
    }
    None
}

/// Adds a way to read a column of this name.
fn push_way(alloc: Global, text: &mut Pieces, way: &Way, name: &str) {
    text.push(" = ");
    text.push_made(way.written(alloc, name));
}

/// Adds the kind of a column, with the field from which it is read where that has another name.
fn push_kind(text: &mut Pieces, column: &WrittenColumn<'_>) {
    if column.source.is_empty() {
        text.push_filled(" {}", &[column.kind]);
    } else {
        text.push_filled(" = {}({})", &[column.kind, column.source]);
    }
}
