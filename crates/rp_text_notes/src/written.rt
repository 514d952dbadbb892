//! The columns of a text that is proposed, as they are written.

use crate::found::Found;
use rp_lexer::{Mark, Token, TokenKind};
use rp_wording::tokens_of;
use std::alloc::{AllocError, Global};

/// A column as it is written: `p text`, or `p = text(" p")`, which is read from a field of another name.
#[derive(Clone, Copy)]
pub(crate) struct WrittenColumn<'a> {
    pub(crate) name: &'a str,
    pub(crate) kind: &'a str,
    /// The name of the field from which it is read; it is empty where that is the column's.
    pub(crate) source: &'a str,
}

/// The columns of a text that is proposed.
pub(crate) fn written_columns(
    alloc: Global,
    text: &str,
) -> Result<Vec<WrittenColumn<'_>>, AllocError> {
    let tokens = tokens_of(alloc, text)?;
    let mut columns = Vec::new(alloc);
    for at in 0..tokens.len() {
        if begins_column(tokens.as_slice(), at) {
            columns.push(column_at(text, tokens.as_slice(), at))?;
        }
    }
    Ok(columns)
}

/// Whether a column begins with a token: it is the first one, or a comma is before it.
fn begins_column(tokens: &[Token], at: usize) -> bool {
    match at.checked_sub(1) {
        Some(before) => match tokens.get(before) {
            Some(token) => token.kind == TokenKind::Mark(Mark::Comma),
            None => false,
        },
        None => true,
    }
}

/// The column that begins with a token.
fn column_at<'a>(text: &'a str, tokens: &[Token], at: usize) -> WrittenColumn<'a> {
    let name = written(text, tokens, at);
    let kind = written(text, tokens, at.saturating_add(1));
    if kind != "=" {
        return WrittenColumn {
            name,
            kind,
            source: "",
        };
    }
    WrittenColumn {
        name,
        kind: written(text, tokens, at.saturating_add(2)),
        source: written(text, tokens, at.saturating_add(4)),
    }
}

/// A token of a text as it is written.
fn written<'a>(text: &'a str, tokens: &[Token], index: usize) -> &'a str {
    match tokens.get(index) {
        Some(token) => text.get(token.start..token.end).unwrap_or(""),
        None => "",
    }
}

/// Adds to each column that is found the field from which it is read.
pub(crate) fn add_sources(
    alloc: Global,
    columns: &[WrittenColumn<'_>],
    found: &mut Vec<Found>,
) -> Result<(), AllocError> {
    for one in found.iter_mut() {
        if let Some(column) = columns.get(one.number.saturating_sub(1)) {
            one.way.source = String::from_str(alloc, column.source)?;
        }
    }
    Ok(())
}
