//! What a condition means, as a text: two conditions of a query have one text where they are made of the same, however each is written in
//! the clause. Each sign stands before what it is a sign of, and a blank behind each word, so no text is that of two conditions.

use crate::lines::{push_value, sign_of};
use crate::list::List;
use rp_query::{
    Condition, Edge, Expr, Function, Navigation, Operation, RowsOf, Step, Total, Variables,
};
use rp_wording::Pieces;
use std::alloc::{AllocError, Global};

/// What the conditions between the ANDs of a condition mean, in order. The totals are those of its query.
pub(crate) fn meanings_of(
    alloc: Global,
    condition: &Condition,
    totals: &[Total],
) -> Result<Vec<String>, AllocError> {
    let mut meanings = List::new(alloc);
    add_meanings(alloc, condition, totals, &mut meanings);
    meanings.finish()
}

/// Adds what the conditions between the ANDs of a condition mean.
fn add_meanings(
    alloc: Global,
    condition: &Condition,
    totals: &[Total],
    meanings: &mut List<String>,
) {
    match condition {
        Condition::And(left, right) => {
            add_meanings(alloc, &**left, totals, meanings);
            add_meanings(alloc, &**right, totals, meanings);
        }
        _ => {
            let mut text = Pieces::new(alloc);
            push_condition(&mut text, condition, totals);
            meanings.push_made(text.finish());
        }
    }
}

/// Writes a condition.
fn push_condition(out: &mut Pieces, condition: &Condition, totals: &[Total]) {
    match condition {
        Condition::Compare(comparison, left, right) => {
            out.push_filled("{} ", &[sign_of(*comparison)]);
            push_expr(out, left, totals);
            push_expr(out, right, totals);
        }
        Condition::IsNull(operand) => {
            out.push("null ");
            push_expr(out, operand, totals);
        }
        Condition::Not(inner) => {
            out.push("not ");
            push_condition(out, &**inner, totals);
        }
        Condition::And(left, right) => {
            out.push("and ");
            push_condition(out, &**left, totals);
            push_condition(out, &**right, totals);
        }
        Condition::Or(left, right) => {
            out.push("or ");
            push_condition(out, &**left, totals);
            push_condition(out, &**right, totals);
        }
    }
}

/// Writes an expression.
fn push_expr(out: &mut Pieces, expr: &Expr, totals: &[Total]) {
    match expr {
        Expr::Literal(value) => {
            push_value(out, value);
            out.push(" ");
        }
        Expr::Navigation(navigation) => push_navigation(out, navigation, totals),
        Expr::Aggregate { number, is_final } => {
            push_scope(out, *is_final);
            push_total(out, *number, totals);
        }
        Expr::MatchNumber => out.push("match_number "),
        Expr::Classifier(_) => out.push("classifier "),
        Expr::Arithmetic(operation, left, right) => {
            push_operation(out, *operation);
            push_expr(out, &**left, totals);
            push_expr(out, &**right, totals);
        }
    }
}

/// Writes a column's cell in a row that is found from the rows of variables.
fn push_navigation(out: &mut Pieces, navigation: &Navigation, totals: &[Total]) {
    push_counted(out, "column", navigation.column);
    match navigation.step {
        Step::Back(rows) => push_numbered(out, "back", rows),
        Step::Ahead(rows) => push_numbered(out, "ahead", rows),
    }
    match navigation.edge {
        Edge::First => push_numbered(out, "first", navigation.places),
        Edge::Last => push_numbered(out, "last", navigation.places),
    }
    push_scope(out, navigation.is_final);
    match navigation.rows_of {
        RowsOf::Universal => out.push("any "),
        RowsOf::Listed(number) => push_total(out, number, totals),
    }
}

/// Writes what is kept of the rows of variables, by its number among the totals.
fn push_total(out: &mut Pieces, number: usize, totals: &[Total]) {
    if let Some(total) = totals.get(number) {
        push_function(out, total.function);
        push_variables(out, &total.variables);
    }
}

/// Writes what is kept of rows.
fn push_function(out: &mut Pieces, function: Function) {
    match function {
        Function::Listed => out.push("listed "),
        Function::Rows => out.push("rows "),
        Function::Count(column) => push_counted(out, "count", column),
        Function::Sum(column) => push_counted(out, "sum", column),
        Function::Least(column) => push_counted(out, "least", column),
        Function::Greatest(column) => push_counted(out, "greatest", column),
    }
}

/// Writes of which variables rows are.
fn push_variables(out: &mut Pieces, variables: &Variables) {
    match variables {
        Variables::Universal => out.push("any "),
        Variables::Among(members) => {
            for member in members {
                push_counted(out, "of", *member);
            }
            out.push("alone ");
        }
    }
}

/// Writes a calculation.
fn push_operation(out: &mut Pieces, operation: Operation) {
    out.push(match operation {
        Operation::Plus => "+ ",
        Operation::Minus => "- ",
        Operation::Times => "* ",
    });
}

/// Writes whether the whole match is seen.
fn push_scope(out: &mut Pieces, is_final: bool) {
    out.push(if is_final { "final " } else { "running " });
}

/// Writes a word, and a count behind it.
fn push_counted(out: &mut Pieces, word: &str, count: usize) {
    push_numbered(out, word, count as u64);
}

/// Writes a word, and a number behind it.
fn push_numbered(out: &mut Pieces, word: &str, number: u64) {
    out.push_filled("{} ", &[word]);
    out.push_number(number);
    out.push(" ");
}
