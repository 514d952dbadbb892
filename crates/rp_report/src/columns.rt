//! The columns that a clause sees.

use rp_json_line::JsonLine;
use rp_value::{Column, Kind};

/// Writes the columns with their kinds.
pub(crate) fn write_columns(line: &mut JsonLine, columns: &[Column]) {
    line.begin_array();
    for column in columns {
        line.begin_object();
        line.text("kind", kind_word(column.kind));
        line.text("name", column.name.as_str());
        line.end_object();
    }
    line.end_array();
}

/// The word for a kind.
pub(crate) fn kind_word(kind: Kind) -> &'static str {
    match kind {
        Kind::Int => "int",
        Kind::Text => "text",
    }
}
