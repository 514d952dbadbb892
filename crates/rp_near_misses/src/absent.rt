//! Notes on texts that no row has.

use crate::compared::compared_with;
use crate::notes::push_compared;
use crate::rows::take_rows;
use rp_query::Query;
use rp_value::{Row, Value};
use rp_wording::Pieces;
use std::alloc::{AllocError, Global};

/// So many texts of the rows are shown.
const SHOWN: usize = 5;

/// A line, without its end, for each text with which a query compares a column by `=` or `<>`, and that no row has, not even but for capitals
/// and blanks: it is misspelt, or doesn't occur in these rows. The first few texts that rows have in its place are shown. There is none where
/// there are no rows.
pub fn absent_texts(alloc: Global, query: &Query, rows: &[Row]) -> Result<Vec<String>, AllocError> {
    let mut notes = Vec::new(alloc);
    if rows.is_empty() {
        return Ok(notes);
    }
    for (index, column) in query.table().columns().iter().enumerate() {
        push_notes(
            alloc,
            query,
            rows,
            column.name.as_str(),
            index.saturating_add(1),
            &mut notes,
        )?;
    }
    Ok(notes)
}

/// Adds the notes on a column of this name and number.
fn push_notes(
    alloc: Global,
    query: &Query,
    rows: &[Row],
    name: &str,
    number: usize,
    notes: &mut Vec<String>,
) -> Result<(), AllocError> {
    let mut texts = compared_with(alloc, query, number)?;
    take_rows(rows, number, texts.as_mut_slice());
    for one in &texts {
        if one.count == 0 && one.near.is_none() {
            let mut line = Pieces::new(alloc);
            push_compared(&mut line, name, one);
            push_texts(&mut line, first_texts(alloc, rows, number)?.as_slice());
            notes.push(line.finish()?)?;
        }
    }
    Ok(())
}

/// The first texts that rows have in a column, by its number from 1, each once: one more than are shown, if there are so many.
fn first_texts(alloc: Global, rows: &[Row], column: usize) -> Result<Vec<&str>, AllocError> {
    let mut texts = Vec::new(alloc);
    for row in rows {
        if let Some(Value::Text(text)) = row.cell(column)
            && texts.len() <= SHOWN
        {
            add(text.as_str(), &mut texts)?;
        }
    }
    Ok(texts)
}

/// Adds a text, unless it is there.
fn add<'a>(text: &'a str, texts: &mut Vec<&'a str>) -> Result<(), AllocError> {
    if !texts.iter().any(|known| *known == text) {
        texts.push(text)?;
    }
    Ok(())
}

/// Adds the texts that rows have.
fn push_texts(line: &mut Pieces, texts: &[&str]) {
    line.push(if texts.is_empty() {
        "; it is null in each row"
    } else {
        "; rows have "
    });
    for (index, text) in texts.iter().take(SHOWN).enumerate() {
        line.push(if index == 0 { "'" } else { ", '" });
        line.push_start(text.as_bytes());
        line.push("'");
    }
    if texts.len() > SHOWN {
        line.push(" and others");
    }
}
