//! The partitions of rows.
ghost use Rattle.std.specs.Prelude.{◌≡◌, ◌++◌, ◌∷◌, [], None, IfOk, OnOk};
ghost use Rattle.indexmap.specs.IndexMap.{get};
ghost use Rattle.rp_query.specs.Keys.{values_in as values_are};
ghost use Rattle.rp_numbering.specs.Partitions.{partitions as partitions_are};
ghost use Rattle.rp_numbering.specs.Gathering.{parts_added, parts_of, with_row};

use indexmap::IndexMap;
use rp_query::{Query, values_in};
use rp_value::{Cells, Row, RowList, Value};
use std::alloc::{AllocError, Global};
use std::collections::hash_map::RandomState;

/// A partition: the rows that have the same values in the columns of PARTITION BY.
#[derive(Drop)]
pub struct Part {
    /// Those values.
    pub key: Cells,
    /// The rows, as they came.
    pub rows: Vec<Row>,
}

/// The rows of each key, by the first appearance of the key. They are copied, so that those of a key lie together: who goes
/// over a partition then goes through memory in order. A text isn't copied but gets a further owner.
type Parts = IndexMap<Cells, RowList, RandomState>;

/// The partitions of rows by the query, by first appearance. Where memory runs out the rows are dropped.
///
/// The hasher finds the partition of a key. Its seed is drawn at random, so that whoever chooses keys can't choose ones that
/// are all looked for in one place; the result is the same with any seed.
pub fn partitions(
    alloc: Global,
    query: &Query,
    rows: Vec<Row>,
    hasher: RandomState,
) -> Result<Vec<Part>, AllocError>
    ensures { IfOk result (λ parts. parts_of parts.items ≡
        partitions_are query.now.partition.items rows.items) }
{
    let parts = gather(alloc, query.partition(), rows, hasher)?;
    let lists = parts.into_iter().collect(alloc)?;
    rows_of_lists(alloc, lists)
}

/// The partitions of rows by these columns, numbered from 1.
fn gather(
    alloc: Global,
    columns: &[usize],
    rows: Vec<Row>,
    hasher: RandomState,
) -> Result<Parts, AllocError>
    ensures { IfOk result (λ parts. parts_added parts.entries ≡ partitions_are columns.now rows.items) }
{
    let mut parts = IndexMap::with_hasher(alloc, hasher);
    let mut room = Vec::new(alloc);
    let mut cells = Vec::new(alloc);
    for row in rows {
        room = gather_row(alloc, columns, &row, &mut parts, room, &mut cells)?;
    }
    Ok(parts)
}

/// Adds a row to the partition of its key, which comes last where it is new. The key is made in the room that is given, and
/// the cells are copied into their list, out of which they then go. Gives back the room of a key that isn't kept.
fn gather_row(
    alloc: Global,
    columns: &[usize],
    row: &Row,
    parts: &mut Parts,
    room: Vec<Value>,
    cells: &mut Vec<Value>,
) -> Result<Vec<Value>, AllocError>
    ensures { OnOk result (parts_added parts.new.entries ≡
        with_row (parts_added parts.old.entries) (values_are columns.now row.now) row.now) }
{
    let key = values_in(room, columns, row)?;
    copy_cells(cells, row)?;
    add_row(alloc, parts, key, cells)
}

/// The rows of each key, as a list each.
fn rows_of_lists(alloc: Global, lists: Vec<(Cells, RowList)>) -> Result<Vec<Part>, AllocError>
    ensures { IfOk result (λ parts. parts_of parts.items ≡ parts_added lists.items) }
{
    let mut parts = Vec::with_capacity(alloc, lists.len())?;
    for (key, list) in lists {
        push_part(&mut parts, key, list.into_rows()?)?;
    }
    Ok(parts)
}

fn push_part(parts: &mut Vec<Part>, key: Cells, rows: Vec<Row>) -> Result<(), AllocError>
    ensures { OnOk result (parts.new.items ≡ parts.old.items ++ record { key = key; rows = rows } ∷ []) }
{
    match parts.push(Part { key, rows }) {
        Ok(()) => Ok(()),
        Err(_) => Err(AllocError),
    }
}

/// Adds the row of these cells, which leave their list, to the partition of its key, which comes last where it is new.
/// Gives back the room of a key that isn't kept.
fn add_row(
    alloc: Global,
    parts: &mut Parts,
    key: Cells,
    cells: &mut Vec<Value>,
) -> Result<Vec<Value>, AllocError>
    ensures { OnOk result
        (parts_added parts.new.entries ≡ with_row (parts_added parts.old.entries) key cells.old.items) }
{
    match parts.get_index_of(&key) {
        Some(index) => {
            parts[index].push(cells)?;
            Ok(key.into_vec())
        }
        None => {
            add_part(alloc, parts, key, cells)?;
            Ok(Vec::new(alloc))
        }
    }
}

/// Adds the partition of a new key, with its first row.
fn add_part(
    alloc: Global,
    parts: &mut Parts,
    key: Cells,
    cells: &mut Vec<Value>,
) -> Result<(), AllocError>
    requires { get ⟦<Cells as PartialEq>⟧.eq parts.old key ≡ None }
    ensures { OnOk result
        (parts_added parts.new.entries ≡ parts_added parts.old.entries ++ (key, cells.old.items ∷ []) ∷ []) }
{
    let mut rows = RowList::new(alloc);
    rows.push(cells)?;
    match parts.insert(key, rows) {
        Ok(_) => Ok(()),
        Err(_) => Err(AllocError),
    }
}

/// Copies the cells of a row, in the place of what is there.
fn copy_cells(cells: &mut Vec<Value>, row: &Row) -> Result<(), AllocError>
    ensures { OnOk result (cells.new.items ≡ row.now) }
{
    cells.clear();
    for cell in row.cells() {
        cells.push(cell.share()?)?;
    }
    Ok(())
}
