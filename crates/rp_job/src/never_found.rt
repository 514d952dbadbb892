//! Columns of lines of JSON for which no line has a value: their paths are misspelt, most likely.
use rp_columns::InputColumn;
use rp_question::InputShape;
use rp_value::{Row, Value};
use rp_wording::Pieces;
use std::alloc::{AllocError, Global};

/// What is to be known of the columns for which no line of an input of objects has a value: a line for each, without its end. There may be
/// none, and there is none of an input without rows.
pub fn columns_never_found(
    alloc: Global,
    shape: &InputShape,
    rows: &[Row],
) -> Result<Vec<String>, AllocError> {
    let mut remarks = Vec::new(alloc);
    let InputShape::Objects(columns) = shape else {
        return Ok(remarks);
    };
    for (index, column) in columns.as_slice().iter().enumerate() {
        if !rows.is_empty() && is_null_in_all(rows, index) {
            remarks.push(remark_on(alloc, column)?)?;
        }
    }
    Ok(remarks)
}

/// Whether each row has null in the column with this index.
fn is_null_in_all(rows: &[Row], index: usize) -> bool {
    rows.iter().all(|row| is_null(row.cells(), index))
}

fn is_null(cells: &[Value], index: usize) -> bool {
    matches!(cells.get(index), None | Some(Value::Null))
}

fn remark_on(alloc: Global, column: &InputColumn) -> Result<String, AllocError> {
    let mut remark = Pieces::of(alloc, "no line has a value at ");
    remark.push_name(column.source.as_str());
    remark.push(", from which the column ");
    remark.push_name(column.name.as_str());
    remark.push(" comes: it is null in all rows");
    remark.finish()
}
