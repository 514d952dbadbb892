//! Dates and times that stay texts: other fields are among them, or the clause compares them by their order with a text of another form.

use crate::mixed_times::line_on_mixed;
use crate::notes::name_of;
use crate::same_form::{has_form_of, has_places_of};
use crate::texts::{ColumnTexts, NumberReader, is_word};
use crate::times::any_time_way;
use crate::uses::{Asked, is_of_order};
use crate::way::Way;
use rp_query::{Condition, Expr, Query};
use rp_value::Value;
use rp_wording::Pieces;
use std::alloc::{AllocError, Global};

/// What is said of a column whose order is asked for, and that is read in no way. None where there is nothing to say.
pub(crate) fn line_on_times(
    alloc: Global,
    reader: &mut NumberReader,
    asked: Asked<'_>,
    column: ColumnTexts<'_>,
) -> Result<Option<String>, AllocError> {
    match line_on_mixed(alloc, reader, asked, column)? {
        Some(line) => Ok(Some(line)),
        None => line_on_literals(alloc, reader, asked, column),
    }
}

/// What is said of a column of dates or times of one form, with which a text of another form is compared by its order.
fn line_on_literals(
    alloc: Global,
    reader: &mut NumberReader,
    asked: Asked<'_>,
    column: ColumnTexts<'_>,
) -> Result<Option<String>, AllocError> {
    let time = column.first().unwrap_or("");
    let Some(text) = misfit_asked(asked, column.number, time) else {
        return Ok(None);
    };
    let Some(way) = any_time_way(alloc, reader, column, 0)? else {
        return Ok(None);
    };
    let name = name_of(alloc, asked.query, column.number)?;
    Ok(Some(line_of_misfit(alloc, name.as_str(), &way, text, time)?))
}

/// The first text with which a column of times that have the form of this one is compared by its order, and that has another form.
fn misfit_asked<'a>(asked: Asked<'a>, column: usize, time: &str) -> Option<&'a str> {
    match (misfit_of(asked.query, column, time), asked.filter) {
        (Some(text), _) => Some(text),
        (None, Some(filter)) => misfit_of(filter, column, time),
        (None, None) => None,
    }
}

/// The first such text of a query.
fn misfit_of<'a>(query: &'a Query, column: usize, time: &str) -> Option<&'a str> {
    for condition in &query.plan().conditions {
        if let Some(text) = misfit_in(condition, column, time) {
            return Some(text);
        }
    }
    None
}

/// The first such text of a condition.
fn misfit_in<'a>(condition: &'a Condition, column: usize, time: &str) -> Option<&'a str> {
    match condition {
        Condition::Compare(comparison, left, right) if is_of_order(*comparison) => {
            misfit_beside(left, right, column, time)
        }
        Condition::Compare(_, _, _) | Condition::IsNull(_) => None,
        Condition::Not(body) => misfit_in(body, column, time),
        Condition::And(left, right) | Condition::Or(left, right) => {
            match misfit_in(left, column, time) {
                Some(text) => Some(text),
                None => misfit_in(right, column, time),
            }
        }
    }
}

/// The text where one operand is the column and the other one a text that has another form.
fn misfit_beside<'a>(
    left: &'a Expr,
    right: &'a Expr,
    column: usize,
    time: &str,
) -> Option<&'a str> {
    let text = match (left, right) {
        (Expr::Navigation(cell), Expr::Literal(Value::Text(text))) if cell.column == column => {
            text.as_str()
        }
        (Expr::Literal(Value::Text(text)), Expr::Navigation(cell)) if cell.column == column => {
            text.as_str()
        }
        _ => return None,
    };
    if is_word(text) || has_form_of(text, time) {
        return None;
    }
    Some(text)
}

/// What is to be known of a column of this name, with which this text is compared, though its times are written as this one.
fn line_of_misfit(
    alloc: Global,
    name: &str,
    way: &Way,
    text: &str,
    time: &str,
) -> Result<String, AllocError> {
    let mut line = Pieces::of(alloc, name);
    line.push(" is text, and is compared as a text with '");
    line.push_start(text.as_bytes());
    line.push_filled("', which isn't written as its {} are, as '", &[way.texts()]);
    line.push_start(time.as_bytes());
    line.push("': write ");
    if has_places_of(text, time) {
        line.push("'");
        push_formed(&mut line, text, time);
        line.push("'");
    } else {
        line.push("it so");
    }
    line.finish()
}

/// Adds the digits of a text with what a time has between them.
fn push_formed(line: &mut Pieces, text: &str, time: &str) {
    for (at, byte) in time.as_bytes().iter().enumerate() {
        let source = if byte.is_ascii_digit() { text } else { time };
        line.push(source.get(at..at.saturating_add(1)).unwrap_or(""));
    }
}
