//! What both sides say in one short conversation.
use crate::support::text;
use rp_compile::compile;
use rp_drive::Conversation;
use rp_feed::Packet;
use rp_query::Query;
use rp_syntax::read_table;
use rp_value::{Cells, Row, Value};
use std::alloc::{AllocError, Global};
use std::test::Fail;

/// Row 1 of partition x is taken and nothing of it known; its close is, and the answer ends.
pub const REPLIES: &str = "\
{\"taken\":\"new\"}
{\"idle\":[\"x\"]}
{\"taken\":\"new\"}
{\"end\":true,\"key\":[\"x\"],\"place\":\"1\"}
{\"idle\":[\"x\"]}
";

/// What is sent for these replies.
pub const SENT: &str = "\
{\"cells\":[\"x\",-1,null],\"row\":1}
{\"budget\":50,\"poll\":[\"x\"]}
{\"close\":1,\"key\":[\"x\"]}
{\"budget\":50,\"poll\":[\"x\"]}
{\"budget\":50,\"poll\":[\"x\"]}
";

/// What is written of the items.
pub const ITEMS: &str = "1 {\"end\":true,\"key\":[\"x\"],\"place\":\"1\"}\n";

/// What is handed over, and the query that says of which partition it is.
#[derive(Drop)]
pub struct Exchange {
    query: Query,
    packets: Vec<Packet>,
}

impl Exchange {
    /// Row 1 of partition x, and its close.
    pub fn new(alloc: Global) -> Result<Exchange, Fail> {
        let packets = packets(alloc)?;
        let query = query(alloc)?;
        Ok(Exchange { query, packets })
    }

    pub fn conversation(&self) -> Conversation<'_> {
        Conversation {
            query: &self.query,
            packets: self.packets.as_slice(),
            budget: 50,
            reads: 1_000,
            node_number: 1,
        }
    }
}

fn query(alloc: Global) -> Result<Query, Fail> {
    let table = read_table(alloc, "sym text, t int, p int")?;
    let clause = "PARTITION BY sym PATTERN (A) DEFINE A AS p = 1";
    Ok(compile(alloc, clause, &table)?)
}

fn packets(alloc: Global) -> Result<Vec<Packet>, AllocError> {
    let cells = vec![in alloc; text(alloc, "x")?, Value::Int(-1), Value::Null]?;
    let cells = Row::new(alloc, cells)?;
    let key = Cells::new(vec![in alloc; text(alloc, "x")?]?);
    let row = Packet::Row { number: 1, cells };
    Ok(vec![in alloc; row, Packet::Close { key, count: 1 }]?)
}
