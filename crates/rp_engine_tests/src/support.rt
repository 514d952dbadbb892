//! What the tests of several modules use.
ghost use Rattle.std.specs.Prelude.{◌≡◌, true};

use rp_compile::compile;
use rp_query::Query;
use rp_syntax::read_table;
use rp_value::{Row, Table, Value};
use std::alloc::Global;
use std::process::Abort;
use std::test::Fail;

/// The query of a clause over rows with these columns.
pub fn query_of(alloc: Global, columns: &str, text: &str) -> Result<Query, Fail> {
    let table = read_table(alloc, columns)?;
    Ok(compile(alloc, text, &table)?)
}

/// The row of one number.
pub fn row_of(alloc: Global, table: &Table, number: i64) -> Result<Row, Fail> {
    Ok(table.row(alloc, vec![in alloc; Value::Int(number)]?)?)
}

/// Ends a test in which something doesn't hold. Where it goes on, that is known to hold. (In an `assert!` of its own a test would have the
/// text of its failure to prove as well.)
pub fn holds(rt: &impl Abort, is_so: bool)
    ensures { is_so ≡ true }
{
    assert!(rt; is_so);
}
