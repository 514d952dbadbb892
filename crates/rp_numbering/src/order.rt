//! Rows in the order of some columns.
ghost use Rattle.std.specs.Prelude.{◌≡◌, OnErr, OnOk, option_copied, unwrap_or};
ghost use Rattle.rp_value.specs.Order.{value_order};
ghost use Rattle.rp_value.specs.declared.value.Value.TheVariants.{Null};
ghost use Rattle.rp_numbering.specs.Orders.{IsOrdered, OrderExists, column_order, rows_order};

use rp_query::{OrderColumn, Query};
use rp_value::{Row, Value, law_value_order};
use std::alloc::AllocError;
use std::cmp::Ordering;

/// Puts the rows of a partition into the query's order. Rows that tie stay as they came.
pub fn order_rows(query: &Query, rows: &mut Vec<Row>) -> Result<(), AllocError>
    ensures ok { OnOk result (IsOrdered query.now.order.items rows.old.items rows.new.items) }
    ensures err { OnErr result (rows.new.items ≡ rows.old.items) }
{
    // Values are in one order, so that the comparison of rows is a strict weak order, as sorting wants it.
    law_value_order();
    let order = query.order();
    rows.sort_by(|left, right| compare_rows(order, left, right))
}

/// Any rows can be put into any order. A call does nothing, and its caller may then use the law.
pub fn law_orders()
    ensures { OrderExists }
{
    // Values are in one order, so that rows can be sorted by columns.
    law_value_order();
}

fn compare_rows(order: &[OrderColumn], left: &Row, right: &Row) -> Ordering
    ensures { result ≡ rows_order order.now left.now right.now }
{
    for column in order {
        let compared = compare_column(column, left, right);
        if compared != Ordering::Equal {
            return compared;
        }
    }
    Ordering::Equal
}

fn compare_column(column: &OrderColumn, left: &Row, right: &Row) -> Ordering
    ensures { result ≡ column_order column.now left.now right.now }
{
    let left = left.cell(column.column);
    let right = right.cell(column.column);
    if column.descending {
        compare_cells(right, left)
    } else {
        compare_cells(left, right)
    }
}

/// The order of two cells, where none is null.
fn compare_cells(left: Option<&Value>, right: Option<&Value>) -> Ordering
    ensures { result ≡ value_order (unwrap_or (option_copied left.entry) Null)
        (unwrap_or (option_copied right.entry) Null) }
{
    // `cmp` of values is the order that the clause speaks of, and null is equal to itself.
    law_value_order();
    match (left, right) {
        (Some(left), Some(right)) => left.cmp(right),
        (Some(left), None) => left.cmp(&Value::Null),
        (None, Some(right)) => Value::Null.cmp(right),
        (None, None) => Ordering::Equal,
    }
}
