//! Names as they are told, and the one that may be meant.

use crate::pieces::Pieces;
use crate::reading::tokens_of;
use rp_lexer::TokenKind;
use rp_value::Column;
use std::alloc::{AllocError, Global};
use strsim::damerau_levenshtein;

/// What a name means that is written so: in upper case, or what stands inside of its quotes.
pub fn meant(alloc: Global, written: &str) -> Result<String, AllocError> {
    match inside_quotes(written) {
        Some(inside) => undoubled(alloc, inside),
        None => upper_case(alloc, written),
    }
}

/// What stands between double quotes.
pub fn inside_quotes(written: &str) -> Option<&str> {
    let behind = written.strip_prefix('"')?;
    behind.strip_suffix('"')
}

/// The upper-case form.
pub fn upper_case(alloc: Global, text: &str) -> Result<String, AllocError> {
    let mut name = String::from_str(alloc, text)?;
    name.make_ascii_uppercase();
    Ok(name)
}

/// The lower-case form.
fn lower_case(alloc: Global, text: &str) -> Result<String, AllocError> {
    let mut name = String::from_str(alloc, text)?;
    name.make_ascii_lowercase();
    Ok(name)
}

/// The text with one quote for two.
fn undoubled(alloc: Global, text: &str) -> Result<String, AllocError> {
    let mut name = Pieces::new(alloc);
    for (index, piece) in text.split("\"\"").enumerate() {
        if index > 0 {
            name.push("\"");
        }
        name.push(piece);
    }
    name.finish()
}

/// A name as it may be typed: in lower case where it needs no quotes.
pub fn shown(alloc: Global, name: &str) -> Result<String, AllocError> {
    let lower = lower_case(alloc, name)?;
    if is_plain(alloc, lower.as_str())? && !has_lower(name) {
        return Ok(lower);
    }
    quoted(alloc, name)
}

/// A name in quotes, letter for letter.
pub fn quoted(alloc: Global, name: &str) -> Result<String, AllocError> {
    let mut quoted = Pieces::of(alloc, "\"");
    for (index, piece) in name.split('"').enumerate() {
        if index > 0 {
            quoted.push("\"\"");
        }
        quoted.push(piece);
    }
    quoted.push("\"");
    quoted.finish()
}

/// The text literal of what stands inside of double quotes: in single ones, of which each inside is doubled.
pub fn text_literal(alloc: Global, inside: &str) -> Result<String, AllocError> {
    let text = undoubled(alloc, inside)?;
    let mut literal = Pieces::of(alloc, "'");
    for (index, piece) in text.as_str().split('\'').enumerate() {
        if index > 0 {
            literal.push("''");
        }
        literal.push(piece);
    }
    literal.push("'");
    literal.finish()
}

/// Whether a lower-case letter of a to z stands in the name.
pub(crate) fn has_lower(name: &str) -> bool {
    name.bytes().any(|byte| byte.is_ascii_lowercase())
}

/// Whether the text is a name that needs no quotes.
pub fn is_plain(alloc: Global, text: &str) -> Result<bool, AllocError> {
    let tokens = tokens_of(alloc, text)?;
    Ok(match tokens.as_slice() {
        [token] => token.kind == TokenKind::Name && token.start == 0 && token.end == text.len(),
        _ => false,
    })
}

/// The names of columns.
pub fn column_names(alloc: Global, columns: &[Column]) -> Result<Vec<String>, AllocError> {
    let mut names = Vec::new(alloc);
    for column in columns {
        names.push(String::from_str(alloc, column.name.as_str())?)?;
    }
    Ok(names)
}

/// The index of a name.
pub fn index_of(names: &[String], name: &str) -> Option<usize> {
    names.iter().position(|one| one.as_str() == name)
}

/// The index of the name that differs least from what is written, where it differs little: in one letter of three.
pub fn nearest(
    alloc: Global,
    written: &str,
    names: &[String],
) -> Result<Option<usize>, AllocError> {
    let wanted = upper_case(alloc, written)?;
    let mut best = None;
    let mut least = (wanted.chars().count() / 3).saturating_add(1);
    for (index, name) in names.iter().enumerate() {
        let upper = upper_case(alloc, name.as_str())?;
        let distance = damerau_levenshtein(alloc, wanted.as_str(), upper.as_str())?;
        if distance < least {
            best = Some(index);
            least = distance;
        }
    }
    Ok(best)
}
