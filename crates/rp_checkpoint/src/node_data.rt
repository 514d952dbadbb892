//! What a checkpoint keeps of a node.
ghost use Rattle.std.specs.Prelude.{◌≡◌, true};
ghost use Rattle.rp_checkpoint.specs.HeldRows.{ascend, ascend_above, is_above};
ghost use Rattle.rp_checkpoint.specs.declared.node_data.CheckpointFault.TheVariants.{OutOfMemory};

use rp_value::{Cells, Column, Row, Text};
use std::alloc::AllocError;
use std::marker::Model;
use thiserror::Error;

/// A row that is held.
#[derive(Drop)]
pub struct HeldRow {
    /// Its number in its partition, from 1.
    pub number: u64,
    /// Its cells, in the order of the columns. They need not fit the table.
    pub cells: Row,
}

/// Rows whose numbers ascend strictly, which contracts see as their list.
#[derive(Drop)]
pub struct HeldRows {
    rows: Vec<HeldRow>,
}

impl Model for HeldRows {
    ghost use Rattle.std.specs.Prelude.{◌≡◌, List, true};
    ghost use Rattle.rp_checkpoint.specs.declared.node_data.HeldRow.{HeldRow as Held};
    ghost use Rattle.rp_checkpoint.specs.HeldRows.{ascend};

    ghost Value = { List Held };

    ghost view = { λ r. r.rows.items };

    ghost invariant = { λ r. ascend r.rows.items ≡ true };
}

impl HeldRows {
    /// These rows.
    pub fn new(rows: Vec<HeldRow>) -> HeldRows
        requires { ascend rows.items ≡ true }
        ensures { result ≡ rows.items }
    {
        HeldRows { rows }
    }

    /// The rows as a slice.
    pub fn as_slice(&self) -> &[HeldRow]
        ensures rows { result.now ≡ self.now }
        ensures ascend { ascend self.now ≡ true }
    {
        self.rows.as_slice()
    }
}

/// Whether the numbers ascend strictly.
pub fn ascend(rows: &[HeldRow]) -> bool
    ensures { result ≡ ascend rows.now }
{
    let mut before = None;
    for row in rows {
        if !is_above(before, row.number) {
            return false;
        }
        before = Some(row.number);
    }
    true
}

fn is_above(before: Option<u64>, number: u64) -> bool
    ensures { result ≡ is_above before number }
{
    match before {
        None => true,
        Some(other) => other < number,
    }
}

/// The columns of a table, which contracts see as their list. They may be no table.
#[derive(Drop)]
pub struct Columns {
    columns: Vec<Column>,
}

impl Model for Columns {
    ghost use Rattle.std.specs.Prelude.{List};
    ghost use Rattle.rp_value.specs.declared.table.Column.{Column as Heading};

    ghost Value = { List Heading };

    ghost view = { λ c. c.columns.items };
}

impl Columns {
    /// These columns.
    pub fn new(columns: Vec<Column>) -> Columns
        ensures { result ≡ columns.items }
    {
        Columns { columns }
    }

    /// The columns as a slice.
    pub fn as_slice(&self) -> &[Column]
        ensures { result.now ≡ self.now }
    {
        self.columns.as_slice()
    }
}

/// What is kept of a partition.
pub struct PartitionData {
    /// The start row of the present search.
    pub at: u64,
    /// The close's count.
    pub close: Option<u64>,
    /// The greatest last row of a match at an earlier start, 0 if none.
    pub covered: u64,
    /// The first row kept.
    pub first: u64,
    /// Items given in all.
    pub given: u128,
    /// Items given of the search at `at`.
    pub here: u64,
    pub key: Cells,
    /// Matches at earlier starts.
    pub matches: u64,
    /// Whether End or a fault was given.
    pub over: bool,
    pub rows: HeldRows,
}

/// It is let go of by a call, wherever it is held.
impl Drop for PartitionData {
    fn drop(self) {
        let PartitionData {
            at: _,
            close: _,
            covered: _,
            first: _,
            given: _,
            here: _,
            key: _,
            matches: _,
            over: _,
            rows: _,
        } = self;
    }
}

/// Partitions, which contracts see as their list.
#[derive(Drop)]
pub struct Partitions {
    partitions: Vec<PartitionData>,
}

impl Model for Partitions {
    ghost use Rattle.std.specs.Prelude.{List};
    ghost use Rattle.rp_checkpoint.specs.declared.node_data.PartitionData.{PartitionData as Kept};

    ghost Value = { List Kept };

    ghost view = { λ p. p.partitions.items };
}

impl Partitions {
    /// These partitions.
    pub fn new(partitions: Vec<PartitionData>) -> Partitions
        ensures { result ≡ partitions.items }
    {
        Partitions { partitions }
    }

    /// The partitions as a slice.
    pub fn as_slice(&self) -> &[PartitionData]
        ensures { result.now ≡ self.now }
    {
        self.partitions.as_slice()
    }
}

/// What a checkpoint keeps of a node.
pub struct NodeData {
    /// The clause's text, as it was compiled.
    pub clause: Text,
    pub table: Columns,
    /// In order of first arrival.
    pub partitions: Partitions,
}

/// It is let go of by a call, wherever it is held.
impl Drop for NodeData {
    fn drop(self) {
        let NodeData {
            clause: _,
            table: _,
            partitions: _,
        } = self;
    }
}

/// Why bytes are no checkpoint, the first reason in the order of the variants.
#[derive(Clone, Copy, Debug, PartialEq, Eq, Error)]
pub enum CheckpointFault {
    /// The digest is missing or another's.
    #[error("Digest")]
    Digest,
    /// The rest isn't an object of JSON.
    #[error("NotJson")]
    NotJson,
    /// The version is missing or neither 1 nor 2.
    #[error("Version")]
    Version,
    /// A field is missing, of another form, or one too many.
    #[error("BadField")]
    BadField,
    /// No memory was left. It says nothing of the bytes.
    #[error("out of memory")]
    OutOfMemory,
}

impl From<AllocError> for CheckpointFault {
    ghost from_gives = { λ _ fault. fault ≡ OutOfMemory };

    fn from(_error: AllocError) -> CheckpointFault {
        CheckpointFault::OutOfMemory
    }
}
