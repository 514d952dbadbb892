//! Calls over the rows of inputs that are refused memory, and an input by columns whose reads fail or are too few. Rows of texts, their
//! order and the faults of texts are in cases/inputs.cases, columns in cases/columns.cases and columns.script.
use crate::support::{fixed_hasher, holds, prices, query_of, refused_twice, same};
use rp_columns::Columns;
use rp_feed::Packet;
use rp_input::{ColumnsCsvFault, CsvFault, CsvLayout, read_rows, read_rows_by};
use rp_io::MemoryInput;
use rp_numbering::{Part, number_rows, order_rows, partitions};
use rp_query::Query;
use rp_reference::write_cell;
use rp_value::{Row, Value};
use std::alloc::{AllocError, Global};
use std::fmt::Write;
use std::test::Fail;

const BY_SYM: &str =
    "PARTITION BY sym ORDER BY t MEASURES LAST(p) AS q PATTERN (A) DEFINE A AS p > 0";

/// What is done with the rows of an input, once they are read.
#[derive(Clone, Copy)]
enum Call {
    Read,
    Number,
    Part,
    Order,
}

/// Calls over the rows of texts, and what they give.
const CALLS: &[(Call, &str, &str)] = &[
    (Call::Read, "sym,t,p\nx,1,2\ny,3,\n", " x 1 2; y 3 null;"),
    // Partitions stand by first appearance, a null key as another, and in each the rows in order, with their numbers.
    (
        Call::Number,
        "sym,t,p\nx,2,8\n,1,1\ny,1,5\nx,1,10\n,0,2\nx,3,6\n",
        "1 x 1 10;2 x 2 8;3 x 3 6;close 3 x;1 null 0 2;2 null 1 1;close 2 null;1 y 1 5;close 1 y;",
    ),
    (Call::Number, "sym,t,p\n", ""),
    // Rows of a partition stay as they came.
    (
        Call::Part,
        "sym,t,p\nx,2,8\ny,1,5\nx,1,10\n",
        " x: x 2 8; x 1 10; y: y 1 5;",
    ),
    // The later half of thirty rows comes first: twenty rows, or rows that rise or fall, could be put in order without memory.
    (
        Call::Order,
        "sym,t,p\n\
         x,15,1\nx,16,1\nx,17,1\nx,18,1\nx,19,1\nx,20,1\nx,21,1\nx,22,1\nx,23,1\nx,24,1\n\
         x,25,1\nx,26,1\nx,27,1\nx,28,1\nx,29,1\nx,0,1\nx,1,1\nx,2,1\nx,3,1\nx,4,1\n\
         x,5,1\nx,6,1\nx,7,1\nx,8,1\nx,9,1\nx,10,1\nx,11,1\nx,12,1\nx,13,1\nx,14,1\n",
        " x 0 1; x 1 1; x 2 1; x 3 1; x 4 1; x 5 1; x 6 1; x 7 1; x 8 1; x 9 1; \
         x 10 1; x 11 1; x 12 1; x 13 1; x 14 1; x 15 1; x 16 1; x 17 1; x 18 1; x 19 1; \
         x 20 1; x 21 1; x 22 1; x 23 1; x 24 1; x 25 1; x 26 1; x 27 1; x 28 1; x 29 1;",
    ),
];

/// A call that is refused memory, made again, gives what it gives with ample memory.
#[test]
fn refused_calls(rt: HostRuntime) -> Result<(), Fail> {
    let query = query_of(rt.alloc(), BY_SYM)?;
    each_call(rt.alloc(), &query, CALLS)
}

fn each_call(alloc: Global, query: &Query, calls: &[(Call, &str, &str)]) -> Result<(), Fail> {
    for (call, text, wanted) in calls {
        let came = told_at_last(alloc, query, *call, *text)?;
        same(alloc, came.as_str(), *wanted)?;
    }
    Ok(())
}

/// What a call gives, or gives at last.
fn told_at_last(alloc: Global, query: &Query, call: Call, text: &str) -> Result<String, Fail> {
    match told(alloc, query, call, text) {
        Err(CsvFault::OutOfMemory) => {}
        told => return Ok(told?),
    }
    match told(alloc, query, call, text) {
        Ok(told) => Ok(told),
        Err(_) => Err(refused_twice()),
    }
}

fn told(alloc: Global, query: &Query, call: Call, text: &str) -> Result<String, CsvFault> {
    let mut told = String::new(alloc);
    let mut source = MemoryInput::new(text.as_bytes(), 8, 0);
    let rows = read_rows(alloc, &mut source, query.table(), 99)?;
    tell_call(alloc, query, call, rows, &mut told)?;
    Ok(told)
}

fn tell_call(
    alloc: Global,
    query: &Query,
    call: Call,
    rows: Vec<Row>,
    told: &mut String,
) -> Result<(), AllocError> {
    match call {
        Call::Read => tell_rows(alloc, rows.as_slice(), told),
        Call::Number => {
            let packets = number_rows(alloc, query, rows, fixed_hasher()?)?;
            tell_packets(alloc, packets.as_slice(), told)
        }
        Call::Part => {
            let parts = partitions(alloc, query, rows, fixed_hasher()?)?;
            tell_parts(alloc, parts.as_slice(), told)
        }
        Call::Order => tell_ordered(alloc, query, rows, told),
    }
}

/// Rows that could not be put in order are as they were, and can be.
fn tell_ordered(
    alloc: Global,
    query: &Query,
    rows: Vec<Row>,
    told: &mut String,
) -> Result<(), AllocError> {
    let mut rows = rows;
    if order_rows(query, &mut rows).is_err() {
        order_rows(query, &mut rows)?;
    }
    tell_rows(alloc, rows.as_slice(), told)
}

/// The cells of each row, and a semicolon.
fn tell_rows(alloc: Global, rows: &[Row], told: &mut String) -> Result<(), AllocError> {
    for row in rows {
        tell_cells(alloc, row.cells(), told)?;
        told.push(';')?;
    }
    Ok(())
}

/// The key of each partition, a colon, and its rows.
fn tell_parts(alloc: Global, parts: &[Part], told: &mut String) -> Result<(), AllocError> {
    for part in parts {
        tell_cells(alloc, part.key.as_slice(), told)?;
        told.push(':')?;
        tell_rows(alloc, part.rows.as_slice(), told)?;
    }
    Ok(())
}

/// The number or the count of each packet, its cells or its key, and a semicolon.
fn tell_packets(alloc: Global, packets: &[Packet], told: &mut String) -> Result<(), AllocError> {
    for packet in packets {
        let (number, cells) = match packet {
            Packet::Row { number, cells } => (*number, cells.cells()),
            Packet::Close { key, count } => {
                told.push_str("close ")?;
                (*count, key.as_slice())
            }
        };
        write!(told, "{number}")?;
        tell_cells(alloc, cells, told)?;
        told.push(';')?;
    }
    Ok(())
}

/// Each cell behind a space.
fn tell_cells(alloc: Global, cells: &[Value], told: &mut String) -> Result<(), AllocError> {
    for cell in cells {
        told.push(' ')?;
        write_cell(alloc, cell, told)?;
    }
    Ok(())
}

/// Twenty bytes by pieces of eight are three reads, and the fourth tells the end: each of them fails once, and then it is one too many.
#[test]
fn reads_by_columns(rt: HostRuntime) -> Result<(), Fail> {
    let columns = Columns::of_table(rt.alloc(), &prices(rt.alloc())?)?;
    for failing in 1..5u64 {
        ends_reading(
            rt.alloc(),
            &columns,
            failing,
            9,
            ColumnsCsvFault::Read,
            failing,
        )?;
    }
    ends_reading(rt.alloc(), &columns, 0, 3, ColumnsCsvFault::Turns, 3)
}

/// Reads an input by columns, of which one read fails, or none where that is 0, and so many are allowed: it ends by this fault, after
/// so many calls.
fn ends_reading(
    alloc: Global,
    columns: &Columns,
    failing: u64,
    reads: u64,
    fault: ColumnsCsvFault,
    calls: u64,
) -> Result<(), Fail> {
    let mut source = MemoryInput::new(b"sym,t,p\nx,1,2\ny,3,4\n", 8, failing);
    let plain = CsvLayout::plain();
    match read_rows_by(alloc, &mut source, plain, columns, &[], reads) {
        Err(ColumnsCsvFault::OutOfMemory) => Err(Fail::from(ColumnsCsvFault::OutOfMemory)),
        Err(came) => holds(
            came == fault && source.calls() == calls && !source.ended(),
            "another end of an input by columns",
        ),
        Ok(_) => Err(Fail::from("an input by columns without all its reads")),
    }
}
