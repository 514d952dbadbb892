//! The columns of an input.
ghost use Rattle.std.specs.Prelude.{◌≡◌, IfOk, map, option_map};
ghost use Rattle.rp_value.specs.Tables.{columns_of};
ghost use Rattle.rp_columns.specs.Headings.{columns_for, headings};
ghost use Rattle.rp_columns.specs.Loaded.{column_with, wanted_in, wanted_of, zone_of};

use crate::reading::Reading;
use crate::zone::{Rules, Zone, ZoneFault};
use rp_value::{Column, Kind, Table, TableFault, Text};
use std::alloc::{AllocError, Global};
use std::marker::Model;

/// A column: its name in clauses, how its fields are read, and the name under which they stand in the header.
pub struct InputColumn {
    pub name: Text,
    pub reading: Reading,
    pub source: Text,
}

/// It is let go of by a call, wherever it is held.
impl Drop for InputColumn {
    fn drop(self) {
        let InputColumn {
            name: _,
            reading: _,
            source: _,
        } = self;
    }
}

/// The columns of an input, in the order in which clauses see them. They make a table. Contracts see them as their list.
pub struct Columns {
    columns: Vec<InputColumn>,
    table: Table,
}

/// It is let go of by a call, wherever it is held.
impl Drop for Columns {
    fn drop(self) {
        let Columns {
            columns: _,
            table: _,
        } = self;
    }
}

impl Model for Columns {
    ghost use Rattle.std.specs.Prelude.{◌≡◌, List};
    ghost use Rattle.rp_columns.specs.declared.columns.InputColumn.{InputColumn as Heading};
    ghost use Rattle.rp_columns.specs.Headings.{headings};

    ghost Value = { List Heading };

    ghost view = { λ c. c.columns.items };

    ghost invariant = { λ c. c.table ≡ headings c.columns.items };
}

impl Columns {
    ghost use Rattle.std.specs.Prelude.{◌≡◌, ◌≢◌, None, Some, IfOk, IfErr, option_map};
    ghost use Rattle.rp_value.specs.Tables.{table_fault};
    ghost use Rattle.rp_columns.specs.Headings.{columns_for, headings};
    ghost use Rattle.rp_columns.specs.Loaded.{AreLoaded, wanted_in};
    ghost use Rattle.rp_columns.specs.Zones.{AreNoRules};

    /// Columns in this order, where their names are those of a table.
    pub fn new(alloc: Global, columns: Vec<InputColumn>) -> Result<Columns, TableFault>
        ensures ok { IfOk result (λ c. (c ≡ columns.items) × (table_fault (headings c) ≡ None)) }
        ensures err { IfErr result (λ fault. fault ≢ TableFault.OutOfMemory → table_fault (headings columns.items) ≡ Some fault) }
    {
        let pairs = pairs_of(alloc, &columns)?;
        let table = Table::new(alloc, pairs)?;
        Ok(Columns { columns, table })
    }

    /// The columns of a table, each read as its kind, from the field of its own name.
    pub fn of_table(alloc: Global, table: &Table) -> Result<Columns, AllocError>
        ensures columns { IfOk result (λ c. c ≡ columns_for table.now) }
        ensures table { IfOk result (λ c. headings c ≡ table.now) }
    {
        let columns = read_by_kind(alloc, table.columns())?;
        let table = table.share()?;
        Ok(Columns { columns, table })
    }

    /// The first region whose rules aren't loaded: a field without an offset is a fault there (`ReadingFault::NoOffset`).
    pub fn region_without_rules(&self) -> Option<&str>
        ensures { option_map (λ name. name.now) result ≡ wanted_in self.now }
    {
        first_wanted(self.columns.as_slice())
    }

    /// The columns with the rules of a region, which are read from its TZif file (RFC 9636): the bytes are what it holds, as
    /// that of `/usr/share/zoneinfo/Europe/Berlin` for `Europe/Berlin`.
    pub fn with_rules(self, alloc: Global, name: &str, bytes: &[u8]) -> Result<Columns, ZoneFault>
        ensures ok { IfOk result (λ c. AreLoaded self name.now bytes.now c) }
        ensures err { IfErr result (λ fault. fault ≡ ZoneFault.Tzif → AreNoRules bytes.now) }
    {
        let Columns { columns, table } = self;
        let rules = Rules::read(alloc, bytes)?;
        let columns = columns_with(alloc, columns.as_slice(), name, &rules)?;
        Ok(Columns { columns, table })
    }

    /// The table that clauses see.
    pub fn table(&self) -> &Table
        ensures { result.now ≡ headings self.now }
    {
        &self.table
    }

    /// The columns, in order.
    pub fn as_slice(&self) -> &[InputColumn]
        ensures { result.now ≡ self.now }
    {
        self.columns.as_slice()
    }
}

/// The names and kinds of columns.
fn pairs_of(alloc: Global, columns: &[InputColumn]) -> Result<Vec<(String, Kind)>, AllocError>
    ensures { IfOk result (λ pairs. columns_of pairs.items ≡ headings columns.now) }
{
    let mut pairs = Vec::new(alloc);
    for column in columns {
        let name = String::from_str(alloc, column.name.as_str())?;
        pairs.push((name, column.reading.kind()))?;
    }
    Ok(pairs)
}

/// Columns of a table, each read as its kind.
fn read_by_kind(alloc: Global, columns: &[Column]) -> Result<Vec<InputColumn>, AllocError>
    ensures { IfOk result (λ read. read.items ≡ columns_for columns.now) }
{
    let mut read = Vec::with_capacity(alloc, columns.len())?;
    for column in columns {
        let name = column.name.share()?;
        let source = column.name.share()?;
        let reading = Reading::of_kind(column.kind);
        read.push(InputColumn {
            name,
            reading,
            source,
        })?;
    }
    Ok(read)
}

/// Columns with the rules of a region.
fn columns_with(
    alloc: Global,
    columns: &[InputColumn],
    region: &str,
    rules: &Rules,
) -> Result<Vec<InputColumn>, AllocError>
    ensures { IfOk result (λ with. with.items ≡ map (column_with region.now rules.now) columns.now) }
{
    let mut with = Vec::with_capacity(alloc, columns.len())?;
    for column in columns {
        let name = column.name.share()?;
        let source = column.source.share()?;
        let reading = column.reading.with_rules(region, rules)?;
        with.push(InputColumn {
            name,
            reading,
            source,
        })?;
    }
    Ok(with)
}

/// The first region of columns whose rules aren't loaded.
fn first_wanted(columns: &[InputColumn]) -> Option<&str>
    ensures { option_map (λ name. name.now) result ≡ wanted_in columns.now }
{
    for column in columns {
        if let Some(name) = wanted(&column.reading) {
            return Some(name);
        }
    }
    None
}

/// The region of a reading whose rules aren't loaded.
fn wanted(reading: &Reading) -> Option<&str>
    ensures { option_map (λ name. name.now) result ≡ wanted_of (zone_of reading.now) }
{
    match reading.zone() {
        Some(Zone::Region(region)) => match &region.rules {
            Some(_) => None,
            None => Some(region.name.as_str()),
        },
        _ => None,
    }
}
