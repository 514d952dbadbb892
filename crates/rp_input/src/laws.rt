//! The laws of what a table and its columns read. A call does nothing, and its caller may then use it.
ghost use Rattle.rp_input.specs.SameFields.{FieldsReadAlike, RowsReadAlike};

/// What a table reads, a column of its kind reads the same.
pub fn law_same_fields()
    ensures { FieldsReadAlike }
{}

/// What a table reads of a text, the columns of that table read too, where no field of its header has the name of two of them.
pub fn law_same_rows()
    ensures { RowsReadAlike }
{}
