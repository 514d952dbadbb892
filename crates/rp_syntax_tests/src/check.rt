//! The queries of clauses.
use crate::support::{PRICES, same, unless_refused_twice};
use rp_compile::{CompileFault, compile};
use rp_query::{Condition, Query};
use rp_syntax::read_table;
use rp_value::Table;
use std::alloc::{AllocError, Global};
use std::process::Abort;
use std::test::Fail;

/// Clauses over prices, and what their queries are made of; or a clause's first fault. A clause in its frame has the query that it has
/// alone.
const QUERIES: &[(&str, &str)] = &[
    (
        "PARTITION BY sym ORDER BY t MEASURES MATCH_NUMBER() AS n, FIRST(p) AS a, LAST(B.p) AS lo, LAST(C.p) AS hi PATTERN (A B+ C+) DEFINE B AS p < PREV(p), C AS p > PREV(p)",
        FALL_AND_RISE,
    ),
    (
        "MATCH_RECOGNIZE (PARTITION BY sym ORDER BY t MEASURES MATCH_NUMBER() AS n, FIRST(p) AS a, LAST(B.p) AS lo, LAST(C.p) AS hi PATTERN (A B+ C+) DEFINE B AS p < PREV(p), C AS p > PREV(p))",
        FALL_AND_RISE,
    ),
    (
        "PATTERN (A B C) DEFINE C AS p IS NULL, B AS p = 1",
        "\
Concatenation(Variable(0), Concatenation(Variable(1), Variable(2)))
any row, a comparison, a test for null, any row
reach 0, partition [], 0 measures, output",
    ),
    (
        "PARTITION BY sym MEASURES LAST(A.p) AS n PATTERN (A B+) SUBSET U = (A, B) DEFINE B AS SUM(U.p) > sym",
        "KindMismatch at byte 95",
    ),
];

const FALL_AND_RISE: &str = "\
Concatenation(Variable(0), Concatenation(Quantified { body: Variable(1), lower: 1, upper: None, reluctant: false }, \
Quantified { body: Variable(2), lower: 1, upper: None, reluctant: false }))
any row, a comparison, a comparison, any row
reach 1, partition [1], 4 measures, output SYM N A LO HI";

/// What the rows of a variable have to meet.
fn condition_of(query: &Query, variable: usize) -> &'static str {
    match query.definition(variable) {
        None => "any row",
        Some(Condition::Compare(..)) => "a comparison",
        Some(Condition::IsNull(_)) => "a test for null",
        Some(_) => "another condition",
    }
}

/// What a query is made of: its pattern, the conditions of its first variables, how far it looks back, its partition, and its columns.
fn told(alloc: Global, query: &Query) -> Result<String, AllocError> {
    let mut told = format!(in alloc;
        "{:?}\n{}, {}, {}, {}\nreach {}, partition {:?}, {} measures, output",
        query.pattern().form(),
        condition_of(query, 0),
        condition_of(query, 1),
        condition_of(query, 2),
        condition_of(query, 3),
        query.reach(),
        query.partition(),
        query.plan().measures.len()
    )?;
    push_columns(&mut told, query)?;
    Ok(told)
}

fn push_columns(told: &mut String, query: &Query) -> Result<(), AllocError> {
    for column in query.output() {
        told.push(' ')?;
        told.push_str(column.name.as_str())?;
    }
    Ok(())
}

/// Asserts that a query has this text and these parts.
fn check_query(
    rt: &impl Abort,
    alloc: Global,
    query: &Query,
    text: &str,
    wanted: &str,
) -> Result<(), AllocError> {
    same(rt, query.text().as_str(), text);
    same(rt, told(alloc, query)?.as_str(), wanted);
    Ok(())
}

/// Asserts the same of the query and of a further owner of it.
fn check_owners(
    rt: &impl Abort,
    alloc: Global,
    query: &Query,
    text: &str,
    wanted: &str,
) -> Result<(), AllocError> {
    check_query(rt, alloc, query, text, wanted)?;
    let further = query.share()?;
    check_query(rt, alloc, &further, text, wanted)
}

/// Asserts that this is the first fault of a clause, unless memory was refused.
fn check_fault(
    rt: &impl Abort,
    alloc: Global,
    fault: CompileFault,
    wanted: &str,
) -> Result<(), AllocError> {
    if fault == CompileFault::OutOfMemory {
        return Err(AllocError);
    }
    same(rt, format!(in alloc; "{fault}")?.as_str(), wanted);
    Ok(())
}

/// Asserts that a clause has a query of these parts, or this fault.
fn check_clause(
    rt: &impl Abort,
    alloc: Global,
    table: &Table,
    text: &str,
    wanted: &str,
) -> Result<(), AllocError> {
    match compile(alloc, text, table) {
        Ok(query) => check_owners(rt, alloc, &query, text, wanted),
        Err(fault) => check_fault(rt, alloc, fault, wanted),
    }
}

/// The same of each clause.
fn check_clauses(
    rt: &impl Abort,
    alloc: Global,
    table: &Table,
    clauses: &[(&str, &str)],
) -> Result<(), AllocError> {
    for (text, wanted) in clauses {
        check_clause(rt, alloc, table, text, wanted)?;
    }
    Ok(())
}

#[test]
fn refused_queries(rt: HostRuntime) -> Result<(), Fail> {
    let alloc = rt.alloc();
    let table = read_table(alloc, PRICES)?;
    unless_refused_twice(
        check_clauses(&rt, alloc, &table, QUERIES).is_ok()
            || check_clauses(&rt, alloc, &table, QUERIES).is_ok(),
    )
}
