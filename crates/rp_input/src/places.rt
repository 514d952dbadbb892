//! Where columns stand in the records of a text.
ghost use Rattle.std.specs.Prelude.{◌≡◌, ◌<◌, ◌^◌, ℕ, List, [], IfOk, IfErr};
ghost use Rattle.csv.specs.Records.{fields_of};
ghost use Rattle.rp_input.specs.Beginning.{BeginsAt, HasRead};
ghost use Rattle.rp_input.specs.ByColumns.{IsByColumnsFault, IsHeaderFault, IsPlacesFault};
ghost use Rattle.rp_input.specs.Placed as spec;
ghost use Rattle.rp_input.specs.Standing.{Stands};

use crate::columns_fault::ColumnsCsvFault;
use crate::layout::CsvLayout;
use crate::placed::{Found, Placed, place_for};
use crate::records::take_record;
use csv::{ByteRecord, Reader};
use rp_columns::InputColumn;
use std::alloc::{AllocError, Global};

/// Where each column stands in a record, and how many fields a record has to have.
#[derive(Drop)]
pub(crate) struct Places {
    pub(crate) columns: Vec<Placed>,
    pub(crate) width: usize,
}

/// Where columns stand in the records of a text of this layout. The header, where there is one, is taken from the
/// reader into a record that is lent.
pub(crate) fn places_of(
    alloc: Global,
    layout: CsvLayout,
    columns: &[InputColumn],
    reader: &mut Reader<&[u8]>,
    header: &mut ByteRecord,
) -> Result<Places, ColumnsCsvFault>
    ensures ok { IfOk result (λ places. (text : List ℕ) → Stands layout.delimiter text [] reader.old
        → BeginsAt layout columns.now text places reader.new) }
    ensures err { IfErr result (λ fault. (words : List (List ℕ)) (text : List ℕ)
        → Stands layout.delimiter text [] reader.old → IsByColumnsFault words layout columns.now text fault) }
{
    if layout.has_header {
        return places_below(alloc, columns, reader, header);
    }
    Ok(places_in_order(alloc, columns)?)
}

/// Where columns stand below the header, which comes next and is taken into a record that is lent.
fn places_below(
    alloc: Global,
    columns: &[InputColumn],
    reader: &mut Reader<&[u8]>,
    header: &mut ByteRecord,
) -> Result<Places, ColumnsCsvFault>
    ensures ok { IfOk result (λ places. (delimiter : ℕ) (text : List ℕ) → Stands delimiter text [] reader.old
        → HasRead delimiter columns.now text places.columns.items places.width reader.new) }
    ensures err { IfErr result (λ fault. (delimiter : ℕ) (text : List ℕ) → Stands delimiter text [] reader.old
        → IsHeaderFault delimiter columns.now text fault) }
{
    if !take_record(reader, header)? {
        return Err(ColumnsCsvFault::Header);
    }
    let placed = placed_in(alloc, columns, header)?;
    Ok(Places {
        columns: placed,
        width: header.len(),
    })
}

/// The columns at their places in a header.
fn placed_in(
    alloc: Global,
    columns: &[InputColumn],
    header: &ByteRecord,
) -> Result<Vec<Placed>, ColumnsCsvFault>
    ensures placed { IfOk result (λ placed. spec.ArePlaced (fields_of header.now) columns.now placed.items) }
    ensures fault { IfErr result (λ fault. IsPlacesFault columns.now (fields_of header.now) fault) }
{
    let mut placed = Vec::new(alloc);
    for (index, column) in columns.iter().enumerate() {
        match place_for(alloc, column, header)? {
            Found::Nowhere => return Err(ColumnsCsvFault::Missing(index)),
            Found::Twice => return Err(ColumnsCsvFault::Double(index)),
            Found::Once(place) => {
                let reading = column.reading.share()?;
                placed.push(Placed { reading, place })?;
            }
        }
    }
    Ok(placed)
}

/// Where columns stand whose fields are those of a record, in order.
fn places_in_order(alloc: Global, columns: &[InputColumn]) -> Result<Places, AllocError>
    ensures columns { IfOk result (λ places. places.columns.items ≡ spec.places_from 0 columns.now) }
    ensures width { IfOk result (λ places. places.width ≡ spec.fields_read columns.now) }
{
    let mut placed = Vec::new(alloc);
    let mut place = 0usize;
    for column in columns {
        let reading = column.reading.share()?;
        placed.push(Placed { reading, place })?;
        place = place_after(column, place);
    }
    Ok(Places {
        columns: placed,
        width: place,
    })
}

/// The place behind a column's field.
fn place_after(column: &InputColumn, place: usize) -> usize
    requires { place < 2 ^ 63 }
    ensures { result ≡ spec.place_after column.now place }
{
    if column.reading.reads_field() {
        return place + 1;
    }
    place
}
