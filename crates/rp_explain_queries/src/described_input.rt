//! What is said of rows without a fault: what a clause doesn't see of them as it may be meant.

use rp_query::{Condition, Edge, Expr, Navigation, Query, RowsOf, Step};
use rp_value::{Column, Comparison, Row, Value};
use rp_wording::{Pieces, are_digits_or, count_digits, is_date, noun, shown_text, unsigned};
use std::alloc::{AllocError, Global};

/// The most bytes of a text that is written again.
const LONGEST: usize = 60;

/// A comparison that is unknown where a column is null.
#[derive(Clone, Copy)]
struct Unequal<'a> {
    /// What a row's own cell is compared with. None where something else is compared.
    literal: Option<&'a Value>,
    /// Whether it is one by `=` behind NOT.
    is_negated: bool,
    /// Whether there are others.
    has_others: bool,
}

/// Says where rows that fit a query may not be read as they are meant: a column with nulls that is compared by `<>`, and a column of
/// texts that rows are ordered by, whose times have different offsets from UTC.
///
/// Each line ends in LF; there may be none.
pub fn describe_input(alloc: Global, query: &Query, rows: &[Row]) -> Result<String, AllocError> {
    let mut out = Pieces::new(alloc);
    for (index, column) in query.table().columns().iter().enumerate() {
        push_unequal(&mut out, query, rows, column, index.saturating_add(1));
    }
    for order in query.order() {
        push_offsets(&mut out, query, rows, order.column);
    }
    shown_text(alloc, out.text()?)
}

/// Writes that nulls of a column, by its number from 1, are neither equal nor unequal, where a condition compares it so.
fn push_unequal(out: &mut Pieces, query: &Query, rows: &[Row], column: &Column, number: usize) {
    let Some(unequal) = asked_unequal(query, number) else {
        return;
    };
    let count = rows
        .iter()
        .filter(|row| row.cell(number) == Some(&Value::Null))
        .count();
    if count == 0 {
        return;
    }
    let name = column.name.as_str();
    out.push_name(name);
    out.push(" is null in ");
    out.push_count(count);
    out.push_filled(
        " {}, and null is neither equal nor unequal (<>): to take them too write ",
        &[noun(count, "row", "rows")],
    );
    push_remedy(out, name, unequal);
    out.push("\n");
}

/// Writes what to write in place of a comparison of a column: it stands in brackets, since an OR binds less than an AND.
fn push_remedy(out: &mut Pieces, name: &str, unequal: Unequal<'_>) {
    if unequal.has_others {
        out.push("each such comparison as ");
    } else if unequal.literal.is_none() {
        out.push("the comparison as ");
    }
    match unequal.literal {
        Some(literal) => push_with_null(out, name, literal, unequal.is_negated),
        None => out.push(form_with_null(unequal.is_negated)),
    }
}

/// Writes a comparison of a row's own cell that isn't unknown where it is null.
fn push_with_null(out: &mut Pieces, name: &str, literal: &Value, is_negated: bool) {
    out.push("(");
    out.push_name(name);
    out.push(if is_negated { " = " } else { " <> " });
    push_literal(out, literal);
    out.push(if is_negated { " AND " } else { " OR " });
    out.push_name(name);
    out.push(if is_negated {
        " IS NOT NULL) after NOT"
    } else {
        " IS NULL)"
    });
}

/// The form of a comparison that isn't unknown where an operand is null.
fn form_with_null(is_negated: bool) -> &'static str {
    if is_negated {
        "(.. AND .. IS NOT NULL) after NOT, in brackets"
    } else {
        "(.. OR .. IS NULL), in brackets"
    }
}

/// Writes a number or a text as a literal.
fn push_literal(out: &mut Pieces, literal: &Value) {
    match literal {
        Value::Int(number) => out.push_number(number.unsigned_abs()),
        Value::Text(text) => push_text(out, text.as_str()),
        Value::Null => {}
    }
}

/// Writes a text in single quotes, of which each inside is doubled.
fn push_text(out: &mut Pieces, text: &str) {
    out.push("'");
    for (index, part) in text.split('\'').enumerate() {
        if index > 0 {
            out.push("''");
        }
        out.push(part);
    }
    out.push("'");
}

/// A comparison of a column by `<>` that is to be told of.
fn asked_unequal(query: &Query, column: usize) -> Option<Unequal<'_>> {
    let mut found = None;
    for condition in query.plan().conditions.iter() {
        if !asks_null(condition, column) {
            found = plainer(found, unequal_in(condition, column, false));
        }
    }
    found
}

/// A comparison of a column by `<>` in a condition, or in its negation.
fn unequal_in(condition: &Condition, column: usize, is_negated: bool) -> Option<Unequal<'_>> {
    match condition {
        Condition::Compare(comparison, left, right) => {
            if is_kind_of_unequal(*comparison, is_negated)
                && (names(left, column) || names(right, column))
            {
                Some(Unequal {
                    literal: compared(left, right, column).or(compared(right, left, column)),
                    is_negated,
                    has_others: false,
                })
            } else {
                None
            }
        }
        Condition::IsNull(_) => None,
        Condition::Not(body) => unequal_in(body, column, !is_negated),
        Condition::And(left, right) | Condition::Or(left, right) => {
            plainer(
                unequal_in(left, column, is_negated),
                unequal_in(right, column, is_negated),
            )
        }
    }
}

/// Of two comparisons the one with a literal, else the first.
fn plainer<'a>(one: Option<Unequal<'a>>, other: Option<Unequal<'a>>) -> Option<Unequal<'a>> {
    let (Some(first), Some(second)) = (one, other) else {
        return one.or(other);
    };
    let plain = if first.literal.is_none() && second.literal.is_some() {
        second
    } else {
        first
    };
    Some(Unequal {
        literal: plain.literal,
        is_negated: plain.is_negated,
        has_others: true,
    })
}

/// The literal with which a row's own cell of a column is compared, if it is short and prints as it is.
fn compared<'a>(cell: &Expr, literal: &'a Expr, column: usize) -> Option<&'a Value> {
    match (cell, literal) {
        (Expr::Navigation(navigation), Expr::Literal(value))
            if is_own_cell(navigation, column) && prints(value) => Some(value),
        _ => None,
    }
}

/// Whether it is the cell of a column in the row that is looked at, by the column's name alone.
fn is_own_cell(navigation: &Navigation, column: usize) -> bool {
    navigation.column == column
        && navigation.places == 0
        && matches!(navigation.rows_of, RowsOf::Universal)
        && matches!(navigation.edge, Edge::Last)
        && matches!(navigation.step, Step::Ahead(0) | Step::Back(0))
}

/// Whether a value is short, and no line end or the like is in it.
fn prints(value: &Value) -> bool {
    match value {
        Value::Int(number) => *number >= 0,
        Value::Text(text) => {
            text.as_str().len() <= LONGEST
                && text
                    .as_str()
                    .bytes()
                    .all(|byte| byte >= b' ' && byte != 127)
        }
        Value::Null => false,
    }
}

/// Whether a comparison, or its negation, is `<>`.
fn is_kind_of_unequal(comparison: Comparison, negated: bool) -> bool {
    if negated {
        comparison == Comparison::Equal
    } else {
        comparison == Comparison::NotEqual
    }
}

/// Whether a condition asks whether a column is null.
fn asks_null(condition: &Condition, column: usize) -> bool {
    match condition {
        Condition::Compare(_, _, _) => false,
        Condition::IsNull(body) => names(body, column),
        Condition::Not(body) => asks_null(body, column),
        Condition::And(left, right) | Condition::Or(left, right) => {
            asks_null(left, column) || asks_null(right, column)
        }
    }
}

/// Whether an expression has the cell of a column.
fn names(expr: &Expr, column: usize) -> bool {
    match expr {
        Expr::Navigation(navigation) => navigation.column == column,
        Expr::Arithmetic(_, left, right) => names(left, column) || names(right, column),
        Expr::Aggregate { .. } | Expr::Literal(_) | Expr::MatchNumber | Expr::Classifier(_) =>
            false,
    }
}

/// Writes that a column of texts, by its number from 1, isn't ordered by time, where its times have different offsets.
fn push_offsets(out: &mut Pieces, query: &Query, rows: &[Row], number: usize) {
    let Some(column) = query.table().columns().get(number.saturating_sub(1)) else {
        return;
    };
    let Some((one, other)) = two_offsets(rows, number) else {
        return;
    };
    let name = column.name.as_str();
    out.push_name(name);
    if !have_offsets(rows, number) {
        out.push_filled(
            " is a text, and its times have offsets as {} and {}, so ORDER BY isn't by time\n",
            &[one, other],
        );
        return;
    }
    out.push_filled(
        " is a text with offsets as {} and {}, so ORDER BY isn't by time: write ",
        &[one, other],
    );
    out.push_name(name);
    out.push(" = seconds(");
    out.push_name(name);
    out.push(") in --columns\n");
}

/// Two different offsets from UTC of times in a column of texts.
fn two_offsets(rows: &[Row], number: usize) -> Option<(&str, &str)> {
    let mut first: Option<&str> = None;
    for row in rows {
        if let Some(offset) = offset_in(row, number) {
            match first {
                Some(one) if one != offset => return Some((one, offset)),
                _ => first = Some(offset),
            }
        }
    }
    None
}

/// Whether all texts of a column are times with an offset from UTC, or blank.
fn have_offsets(rows: &[Row], number: usize) -> bool {
    for row in rows {
        if let Some(Value::Text(text)) = row.cell(number) {
            if !text.as_str().trim().is_empty() && offset_of(text.as_str()).is_none() {
                return false;
            }
        }
    }
    true
}

/// The offset from UTC of a time in a column.
fn offset_in(row: &Row, number: usize) -> Option<&str> {
    match row.cell(number) {
        Some(Value::Text(text)) => offset_of(text.as_str()),
        _ => None,
    }
}

/// The offset from UTC at the end of a time, as Z or +01:00.
fn offset_of(text: &str) -> Option<&str> {
    if !is_date(text) || !text.contains(':') {
        return None;
    }
    if text.ends_with('Z') {
        return Some("Z");
    }
    let long = text.get(text.len().saturating_sub(6)..)?;
    if is_offset(long) {
        return Some(long);
    }
    let short = text.get(text.len().saturating_sub(5)..)?;
    if is_offset(short) { Some(short) } else { None }
}

/// Whether a text is a sign with hours and minutes, as +01:00 and -0530.
fn is_offset(text: &str) -> bool {
    let hours = unsigned(text);
    hours.len() < text.len() && are_digits_or(hours, ":") && count_digits(hours) == 4
}
