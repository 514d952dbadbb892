//! Cells, columns and tables for the tests.
use rp_value::{Kind, Table, TableFault, Text, Value};
use std::alloc::{AllocError, Global};
use std::fmt;
use std::process::Abort;
use std::test::Fail;

pub fn text(alloc: Global, letters: &str) -> Result<Value, AllocError> {
    Ok(Value::Text(Text::new(alloc, String::from_str(alloc, letters)?)?))
}

pub fn column(alloc: Global, name: &str, kind: Kind) -> Result<(String, Kind), AllocError> {
    Ok((String::from_str(alloc, name)?, kind))
}

/// The columns SYM text, P int.
pub fn headings(alloc: Global) -> Result<Vec<(String, Kind)>, AllocError> {
    let sym = column(alloc, "SYM", Kind::Text)?;
    let p = column(alloc, "P", Kind::Int)?;
    Ok(vec![in alloc; sym, p]?)
}

pub fn sales(alloc: Global) -> Result<Table, TableFault> {
    Table::new(alloc, headings(alloc)?)
}

/// The cells of a row of the table SYM text, P int.
pub fn sale(alloc: Global) -> Result<Vec<Value>, AllocError> {
    Ok(vec![in alloc; text(alloc, "x")?, Value::Int(2)]?)
}

/// A call was refused memory, was made again while memory was ample, and was refused once more.
pub fn refused_twice() -> Fail {
    Fail::from("memory was refused twice")
}

/// What a call gave that was made again.
pub fn at_last<T, E: Drop>(given: Result<T, E>) -> Result<T, Fail> {
    match given {
        Ok(value) => Ok(value),
        Err(_) => Err(refused_twice()),
    }
}

/// Ends a test in which a value isn't the one that is wanted. (In an `assert_eq!` of its own a test would have the text of its failure
/// to prove as well.)
pub fn same<T: PartialEq + fmt::Debug + Drop>(rt: &impl Abort, came: T, wanted: T) {
    assert_eq!(rt; came, wanted);
}

/// Ends a test in which something doesn't hold.
pub fn holds(rt: &impl Abort, is_so: bool) {
    assert!(rt; is_so);
}
