//! How a crate calls the library: a clause is compiled against a table, and the items of its answer are printed as soon as
//! they are certain, first by a matcher, then by a node.
#![tactic(auto)]

mod matching;
mod node;

use anyhow::Result;
use rp_compile::compile;
use rp_syntax::read_table;
use rp_value::{Row, Table, Text, Value};
use std::alloc::Global;

/// A price that falls, and then rises.
const CLAUSE: &str = "PARTITION BY sym ORDER BY t
    MEASURES FIRST(p) AS top, LAST(B.p) AS low, LAST(C.p) AS back
    PATTERN (A B+ C+)
    DEFINE B AS p < PREV(p), C AS p > PREV(p)";

fn main(rt: HostRuntime) -> Result<()> {
    let table = read_table(rt.alloc(), "sym text, t int, p int")?;
    let query = compile(rt.alloc(), CLAUSE, &table)?;
    println!(rt; "A matcher:")?;
    matching::run(&rt, &table, query.share()?)?;
    println!(rt; "A node:")?;
    node::run(&rt, &table, query)
}

/// The row of a symbol, a time and a price.
fn row(alloc: Global, table: &Table, symbol: &str, time: i64, price: i64) -> Result<Row> {
    let cells = vec![in alloc; text(alloc, symbol)?, Value::Int(time), Value::Int(price)]?;
    Ok(table.row(alloc, cells)?)
}

/// A cell that is a text.
fn text(alloc: Global, text: &str) -> Result<Value> {
    let text = Text::new(alloc, String::from_str(alloc, text)?)?;
    Ok(Value::Text(text))
}
