//! The texts with which a clause compares a column.

use crate::rows::Compared;
use rp_query::{Condition, Expr, Query};
use rp_value::{Comparison, Value};
use std::alloc::{AllocError, Global};

/// The texts with which the conditions of a query compare a column, by its number from 1, by `=` or `<>`: each once.
pub(crate) fn compared_with(
    alloc: Global,
    query: &Query,
    column: usize,
) -> Result<Vec<Compared<'_>>, AllocError> {
    let mut texts = Vec::new(alloc);
    for condition in &query.plan().conditions {
        add_from(condition, column, &mut texts)?;
    }
    Ok(texts)
}

/// Adds the texts of a condition.
fn add_from<'a>(
    condition: &'a Condition,
    column: usize,
    texts: &mut Vec<Compared<'a>>,
) -> Result<(), AllocError> {
    match condition {
        Condition::Compare(Comparison::Equal | Comparison::NotEqual, left, right) => {
            match text_in(left, right, column) {
                Some(text) => add(text, texts),
                None => Ok(()),
            }
        }
        Condition::Compare(_, _, _) | Condition::IsNull(_) => Ok(()),
        Condition::Not(body) => add_from(body, column, texts),
        Condition::And(left, right) | Condition::Or(left, right) => {
            add_from(left, column, texts)?;
            add_from(right, column, texts)
        }
    }
}

/// The text where one operand is the column and the other one a text.
fn text_in<'a>(left: &'a Expr, right: &'a Expr, column: usize) -> Option<&'a str> {
    match (left, right) {
        (Expr::Navigation(cell), Expr::Literal(Value::Text(text))) if cell.column == column => {
            Some(text.as_str())
        }
        (Expr::Literal(Value::Text(text)), Expr::Navigation(cell)) if cell.column == column => {
            Some(text.as_str())
        }
        _ => None,
    }
}

/// Adds a text, unless it is there.
fn add<'a>(text: &'a str, texts: &mut Vec<Compared<'a>>) -> Result<(), AllocError> {
    if !texts.iter().any(|known| known.text == text) {
        texts.push(Compared::new(text))?;
    }
    Ok(())
}
