//! Items as text.
use rp_query::{Item, SkipFault};
use rp_value::Value;
use std::alloc::{AllocError, Global};

/// An item after its place, as `(1, 2, x 7)`: a row's match number, or none, and its cells.
pub fn item_text(alloc: Global, place: u128, item: &Item) -> Result<String, AllocError> {
    match item {
        Item::Row { number, cells } => row_text(alloc, place, *number, cells.as_slice()),
        Item::Fault(SkipFault::SkipNoRow) => Ok(format!(in alloc; "({place}, SkipNoRow)")?),
        Item::Fault(SkipFault::SkipSame) => Ok(format!(in alloc; "({place}, SkipSame)")?),
        Item::End => Ok(format!(in alloc; "({place}, End)")?),
    }
}

/// A row with these cells.
pub fn row_text(
    alloc: Global,
    place: u128,
    number: Option<u64>,
    cells: &[Value],
) -> Result<String, AllocError> {
    let mut text = match number {
        None => format!(in alloc; "({place}, none,")?,
        Some(number) => format!(in alloc; "({place}, {number},")?,
    };
    for cell in cells {
        text.push(' ')?;
        write_cell(alloc, cell, &mut text)?;
    }
    text.push(')')?;
    Ok(text)
}

/// A cell as it stands in an item.
pub fn write_cell(alloc: Global, cell: &Value, text: &mut String) -> Result<(), AllocError> {
    match cell {
        Value::Null => text.push_str("null")?,
        Value::Int(number) => text.push_str(format!(in alloc; "{number}")?.as_str())?,
        Value::Text(letters) => text.push_str(letters.as_str())?,
    }
    Ok(())
}
