//! What a clause asks of the texts of a column.

use rp_query::{Condition, Expr, Function, Operation, Query};
use rp_value::{Comparison, Kind};

/// What is asked of rows: by a query, and by a condition that leaves rows out, if there is one.
#[derive(Clone, Copy)]
pub struct Asked<'a> {
    /// The query.
    pub query: &'a Query,
    /// The query of the condition.
    pub filter: Option<&'a Query>,
    /// The numbers, from 1, of columns that have texts and are taken for whole numbers: by the query, whose table has them as such, or by the
    /// condition.
    pub numbers: &'a [usize],
}

impl<'a> Asked<'a> {
    /// Whether a column has texts and is taken for whole numbers.
    pub(crate) fn wants_numbers(self, column: usize) -> bool {
        self.numbers.contains(&column)
    }

    /// Whether the values of a column are asked for, or whether they are null.
    pub(crate) fn asks_of(self, column: usize) -> bool {
        self.asks_values(column) || self.asks_null(column)
    }

    /// Whether it is asked if a column is null.
    pub(crate) fn asks_null(self, column: usize) -> bool {
        asks_null(self.query, column)
            || match self.filter {
                Some(filter) => asks_null(filter, column),
                None => false,
            }
    }

    /// Whether the values of a column are asked for.
    pub(crate) fn asks_values(self, column: usize) -> bool {
        self.wants_numbers(column)
            || asks_values(self.query, column)
            || match self.filter {
                Some(filter) => asks_values(filter, column),
                None => false,
            }
    }

    /// Whether a column has texts.
    pub(crate) fn is_text(self, column: usize) -> bool {
        if self.wants_numbers(column) {
            return true;
        }
        match self.query.table().columns().get(column.saturating_sub(1)) {
            Some(column) => column.kind == Kind::Text,
            None => false,
        }
    }

    /// Whether two columns are compared with each other, or one is added to the other or taken from it.
    pub(crate) fn compares_both(self, one: usize, other: usize) -> bool {
        compares_both(self.query, one, other)
            || match self.filter {
                Some(filter) => compares_both(filter, one, other),
                None => false,
            }
    }

    /// Whether a column is added to anything, or subtracted.
    pub(crate) fn adds(self, column: usize) -> bool {
        adds(self.query, column)
            || match self.filter {
                Some(filter) => adds(filter, column),
                None => false,
            }
    }

    /// Whether the order of a column is asked for, or that of the numbers that it is taken for.
    pub(crate) fn asks_order(self, column: usize) -> bool {
        self.wants_numbers(column)
            || asks_order(self.query, column)
            || match self.filter {
                Some(filter) => asks_order(filter, column),
                None => false,
            }
    }

    /// Whether a column is compared by its order, or its least or greatest value is asked for.
    pub(crate) fn compares_order(self, column: usize) -> bool {
        compares_order(self.query, column)
            || match self.filter {
                Some(filter) => compares_order(filter, column),
                None => false,
            }
    }
}

/// Whether the answer of a query depends on the order of a column's values, by its number from 1: rows are ordered by it, it is compared
/// by `<`, `<=`, `>` or `>=`, or its least or greatest value is asked for.
fn asks_order(query: &Query, column: usize) -> bool {
    query.order().iter().any(|order| order.column == column) || compares_order(query, column)
}

/// Whether a column of a query is compared by its order, or its least or greatest value is asked for.
fn compares_order(query: &Query, column: usize) -> bool {
    asks_extreme(query, column)
        || query
            .plan()
            .conditions
            .iter()
            .any(|condition| compares(condition, column, true))
}

/// Whether the answer of a query depends on which of a column's values are equal, or on their order.
fn asks_values(query: &Query, column: usize) -> bool {
    asks_order(query, column)
        || query
            .plan()
            .conditions
            .iter()
            .any(|condition| compares(condition, column, false))
}

/// Whether a condition of a query asks whether a column is null.
fn asks_null(query: &Query, column: usize) -> bool {
    query
        .plan()
        .conditions
        .iter()
        .any(|condition| asks_null_in(condition, column))
}

fn asks_null_in(condition: &Condition, column: usize) -> bool {
    match condition {
        Condition::Compare(_, _, _) => false,
        Condition::IsNull(operand) => names(operand, column),
        Condition::Not(body) => asks_null_in(body, column),
        Condition::And(left, right) | Condition::Or(left, right) => {
            asks_null_in(left, column) || asks_null_in(right, column)
        }
    }
}

/// Whether the least or the greatest value of a column is asked for.
fn asks_extreme(query: &Query, column: usize) -> bool {
    query
        .plan()
        .totals
        .iter()
        .any(|total| is_extreme_of(&total.function, column))
}

/// Whether a condition compares a column: by its order, or in any way.
fn compares(condition: &Condition, column: usize, by_order: bool) -> bool {
    match condition {
        Condition::Compare(comparison, left, right) => {
            (!by_order || is_of_order(*comparison)) && (names(left, column) || names(right, column))
        }
        Condition::IsNull(_) => false,
        Condition::Not(body) => compares(body, column, by_order),
        Condition::And(left, right) | Condition::Or(left, right) => {
            compares(left, column, by_order) || compares(right, column, by_order)
        }
    }
}

/// Whether a condition or a measure of a query takes two columns for values of one unit.
fn compares_both(query: &Query, one: usize, other: usize) -> bool {
    let other = Some(other);
    Operands { query, one, other }.are_in_query()
}

/// Whether a column is an operand of a sum or a difference in a condition or a measure of a query.
fn adds(query: &Query, column: usize) -> bool {
    let (one, other) = (column, None);
    Operands { query, one, other }.are_in_query()
}

/// Two columns of a query; or one of them, and anything beside it in a sum or a difference.
#[derive(Clone, Copy)]
struct Operands<'a> {
    query: &'a Query,
    one: usize,
    other: Option<usize>,
}

impl<'a> Operands<'a> {
    /// Whether a condition or a measure has them.
    fn are_in_query(self) -> bool {
        let plan = self.query.plan();
        for condition in &plan.conditions {
            if self.is_compared_in(condition) {
                return true;
            }
        }
        plan.measures
            .iter()
            .any(|measure| self.is_added_in(measure))
    }

    /// Whether a condition compares two columns with each other, or adds them.
    fn is_compared_in(self, condition: &Condition) -> bool {
        match condition {
            Condition::Compare(_, left, right) => {
                self.other.is_some() && self.are(left, right)
                    || self.is_added_in(left)
                    || self.is_added_in(right)
            }
            Condition::IsNull(operand) => self.is_added_in(operand),
            Condition::Not(body) => self.is_compared_in(body),
            Condition::And(left, right) | Condition::Or(left, right) => {
                self.is_compared_in(left) || self.is_compared_in(right)
            }
        }
    }

    /// Whether an expression has a sum or a difference of them in it.
    fn is_added_in(self, expr: &Expr) -> bool {
        match expr {
            Expr::Arithmetic(operation, left, right) => {
                is_sum(*operation) && self.are(left, right)
                    || self.is_added_in(left)
                    || self.is_added_in(right)
            }
            _ => false,
        }
    }

    /// Whether two expressions are in the units of these columns, one of each.
    fn are(self, left: &Expr, right: &Expr) -> bool {
        is_of(self.query, left, self.one) && self.is_other(right)
            || self.is_other(left) && is_of(self.query, right, self.one)
    }

    /// Whether an expression is of the other column, or of any where there is no other.
    fn is_other(self, expr: &Expr) -> bool {
        match self.other {
            Some(other) => is_of(self.query, expr, other),
            None => true,
        }
    }
}

/// Whether it takes two values of one unit.
fn is_sum(operation: Operation) -> bool {
    matches!(operation, Operation::Plus | Operation::Minus)
}

/// Whether an expression is a cell of a column, its least or greatest, or its sum; or a sum or a difference that has one of these as an
/// operand, as it has the unit of its operands.
fn is_of(query: &Query, expr: &Expr, column: usize) -> bool {
    match expr {
        Expr::Aggregate { number, .. } => is_total_of(query, *number, column),
        Expr::Arithmetic(operation, left, right) => {
            is_sum(*operation) && (is_of(query, left, column) || is_of(query, right, column))
        }
        _ => names(expr, column),
    }
}

/// Whether an aggregate, by its number from 0, has the unit of a column.
fn is_total_of(query: &Query, number: usize, column: usize) -> bool {
    match query.plan().totals.get(number) {
        Some(total) => is_in_unit_of(&total.function, column),
        None => false,
    }
}

/// Whether an aggregate has the unit of a column.
fn is_in_unit_of(function: &Function, column: usize) -> bool {
    is_extreme_of(function, column)
        || matches!(function, Function::Sum(number) if *number == column)
}

/// Whether an aggregate is the least or the greatest value of a column.
fn is_extreme_of(function: &Function, column: usize) -> bool {
    match function {
        Function::Least(number) | Function::Greatest(number) => *number == column,
        _ => false,
    }
}

/// Whether a comparison asks which of two values is less.
pub(crate) fn is_of_order(comparison: Comparison) -> bool {
    !matches!(comparison, Comparison::Equal | Comparison::NotEqual)
}

/// Whether an expression is the cell of a column.
fn names(expr: &Expr, column: usize) -> bool {
    match expr {
        Expr::Navigation(navigation) => navigation.column == column,
        _ => false,
    }
}
