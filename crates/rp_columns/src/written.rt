//! Columns as they are written.

use rp_grammar::Name;
use rp_value::Text;

/// What a reading takes behind the name of the header.
#[derive(Drop)]
pub(crate) enum Argument {
    Number(u64),
    Text(Text),
}

/// Which field of the header a reading is called with.
#[derive(Drop)]
pub(crate) enum Source {
    /// Nothing is written, so it is the field of the column's own name.
    Own,
    /// The brackets are empty: none.
    Nothing,
    /// The field of this name.
    Field(Name),
}

/// `reading(source, arguments)`, `reading()`, or `reading` alone.
pub(crate) struct Called {
    pub reading: Name,
    pub source: Source,
    pub arguments: Vec<Argument>,
}

/// It is let go of by a call, wherever it is held.
impl Drop for Called {
    fn drop(self) {
        let Called {
            reading: _,
            source: _,
            arguments: _,
        } = self;
    }
}

/// `name = reading(source, arguments)`, `name = reading()`, or `name reading`, whose source is the name.
pub(crate) struct Written {
    pub name: Name,
    pub called: Called,
}

/// It is let go of by a call, wherever it is held.
impl Drop for Written {
    fn drop(self) {
        let Written { name: _, called: _ } = self;
    }
}
