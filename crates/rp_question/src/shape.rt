//! The columns of an input, and how its records become rows.
ghost use Rattle.std.specs.Prelude.{◌≡◌};

use rp_columns::Columns;
use rp_value::Table;

/// The columns of an input, and how its records become rows.
pub enum InputShape {
    /// Those of a table, which the header of a CSV names in order.
    Table(Table),
    /// Columns of which each says from which field of a CSV it comes, and how that is read.
    Columns(Columns),
    /// The same, from the keys of objects.
    Objects(Columns),
}

/// It is let go of by a call, wherever it is held.
impl Drop for InputShape {
    fn drop(self) {
        match self {
            InputShape::Table(_) => {}
            InputShape::Columns(_) => {}
            InputShape::Objects(_) => {}
        }
    }
}

impl InputShape {
    ghost use Rattle.rp_question.specs.Read.{columns_seen};

    /// The table that a clause sees.
    pub fn table(&self) -> &Table
        ensures { result.now ≡ columns_seen self.now }
    {
        match self {
            InputShape::Table(table) => table,
            InputShape::Columns(columns) => columns.table(),
            InputShape::Objects(columns) => columns.table(),
        }
    }
}
