//! What a clause reads and gives.

use crate::columns::kind_word;
use crate::written::Written;
use rp_json_line::JsonLine;
use rp_query::{Condition, Expr, Function, OutputColumn, Query, RowsPerMatch, Source, Total};
use rp_value::Column;
use std::alloc::{AllocError, Global};

/// Writes what a query reads and gives.
pub(crate) fn write_clause(
    alloc: Global,
    line: &mut JsonLine,
    query: &Query,
) -> Result<(), AllocError> {
    let written = Written::of(alloc, query.text().as_str())?;
    let reads = columns_read(alloc, query)?;
    let columns = query.table().columns();
    line.begin_object();
    line.name("order_by");
    write_order(line, query);
    line.name("output");
    write_output(line, query, &written);
    line.name("partition_by");
    write_names(line, columns, query.partition());
    line.name("reads");
    write_names(line, columns, reads.as_slice());
    line.text("rows_per_match", rows_word(query.plan().rows));
    line.end_object();
    Ok(())
}

/// The word for which rows a match gives.
fn rows_word(rows: RowsPerMatch) -> &'static str {
    match rows {
        RowsPerMatch::One => "one",
        RowsPerMatch::AllShowEmpty => "all",
        RowsPerMatch::AllOmitEmpty => "all_omit_empty",
        RowsPerMatch::AllWithUnmatched => "all_with_unmatched",
    }
}

/// Writes the names of the columns of ORDER BY.
fn write_order(line: &mut JsonLine, query: &Query) {
    line.begin_array();
    for order in query.order() {
        line.string(name_of(query.table().columns(), order.column));
    }
    line.end_array();
}

/// Writes the names of columns, which are given by their numbers, from 1.
fn write_names(line: &mut JsonLine, columns: &[Column], numbers: &[usize]) {
    line.begin_array();
    for number in numbers {
        line.string(name_of(columns, *number));
    }
    line.end_array();
}

/// The name of the column of this number, from 1.
fn name_of(columns: &[Column], number: usize) -> &str {
    match columns.get(number.wrapping_sub(1)) {
        Some(column) => column.name.as_str(),
        None => "",
    }
}

/// Writes the output columns.
fn write_output(line: &mut JsonLine, query: &Query, written: &Written) {
    line.begin_array();
    for column in query.output() {
        write_output_column(line, query, written, column);
    }
    line.end_array();
}

fn write_output_column(
    line: &mut JsonLine,
    query: &Query,
    written: &Written,
    column: &OutputColumn,
) {
    line.begin_object();
    line.name("from");
    match source_of(query, column.from) {
        Some(number) => line.string(name_of(query.table().columns(), number)),
        None => line.null(),
    }
    line.text("kind", kind_word(column.kind));
    line.text("name", column.name.as_str());
    line.text("written", written.name_of(column));
    line.end_object();
}

/// The number of the column whose value an output column has, unchanged.
fn source_of(query: &Query, source: Source) -> Option<usize> {
    match source {
        Source::Column(number) => Some(number),
        Source::Measure(place) => unchanged(
            query.plan().measures.as_slice().get(place)?,
            query.totals().as_slice(),
        ),
    }
}

/// The number of the column whose value an expression has, unchanged: it is a cell of the column, or the least or the greatest of some.
fn unchanged(expr: &Expr, totals: &[Total]) -> Option<usize> {
    match expr {
        Expr::Navigation(navigation) => Some(navigation.column),
        Expr::Aggregate { number, .. } => match totals.get(*number)?.function {
            Function::Least(column) | Function::Greatest(column) => Some(column),
            _ => None,
        },
        _ => None,
    }
}

/// The numbers of the columns that a query names, in the order of the table.
fn columns_read(alloc: Global, query: &Query) -> Result<Vec<usize>, AllocError> {
    let mut numbers = Vec::new(alloc);
    for index in 0..query.table().columns().len() {
        let number = index.saturating_add(1);
        if names_column(query, number) {
            numbers.push(number)?;
        }
    }
    Ok(numbers)
}

/// Whether a query names the column of this number.
fn names_column(query: &Query, number: usize) -> bool {
    query.partition().contains(&number)
        || query.order().iter().any(|order| order.column == number)
        || query.totals().iter().any(|total| keeps(total, number))
        || query
            .plan()
            .measures
            .iter()
            .any(|measure| reads(measure, number))
        || query
            .plan()
            .conditions
            .iter()
            .any(|condition| looks_at(condition, number))
}

/// Whether what is kept of the rows is of the column of this number.
fn keeps(total: &Total, number: usize) -> bool {
    match total.function {
        Function::Listed | Function::Rows => false,
        Function::Count(column)
        | Function::Sum(column)
        | Function::Least(column)
        | Function::Greatest(column) => column == number,
    }
}

/// Whether an expression has a cell of the column of this number.
fn reads(expr: &Expr, number: usize) -> bool {
    match expr {
        Expr::Navigation(navigation) => navigation.column == number,
        Expr::Arithmetic(_, left, right) => reads(left, number) || reads(right, number),
        Expr::Literal(_) | Expr::Aggregate { .. } | Expr::MatchNumber | Expr::Classifier(_) => {
            false
        }
    }
}

/// Whether a condition looks at a cell of the column of this number.
fn looks_at(condition: &Condition, number: usize) -> bool {
    match condition {
        Condition::Compare(_, left, right) => reads(left, number) || reads(right, number),
        Condition::IsNull(body) => reads(body, number),
        Condition::Not(body) => looks_at(body, number),
        Condition::And(left, right) | Condition::Or(left, right) => {
            looks_at(left, number) || looks_at(right, number)
        }
    }
}
