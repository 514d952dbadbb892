//! Tables and queries for the tests, and how a test ends.
use rp_compile::compile;
use rp_query::Query;
use rp_syntax::read_table;
use rp_value::Table;
use std::alloc::{AllocError, Global};
use std::collections::hash_map::RandomState;
use std::io;
use std::random::RandomSource;
use std::test::Fail;

/// A fall and then a rise.
pub const V: &str =
    "PARTITION BY sym ORDER BY t MEASURES MATCH_NUMBER() AS n, FIRST(p) AS a, LAST(B.p) AS lo, LAST(C.p) AS hi PATTERN (A B+ C+) DEFINE B AS p < PREV(p), C AS p > PREV(p)";

/// How a test ends of which a call was refused memory, and then refused it again.
pub fn refused_twice() -> Fail {
    Fail::from("memory was refused twice")
}

/// A table of prices.
pub fn prices(alloc: Global) -> Result<Table, Fail> {
    Ok(read_table(alloc, "sym text, t int, p int")?)
}

/// The query of a clause over prices.
pub fn query_of(alloc: Global, clause: &str) -> Result<Query, Fail> {
    Ok(compile(alloc, clause, &prices(alloc)?)?)
}

/// A seed that is the same in each run: all zeros.
struct FixedSeed;

impl RandomSource for FixedSeed {
    fn fill_bytes(&self, _zeros: &mut [u8]) -> io::Result<()> {
        Ok(())
    }
}

/// What finds partitions by their keys, the same in each run.
pub fn fixed_hasher() -> Result<RandomState, AllocError> {
    match RandomState::new(&FixedSeed) {
        Ok(hasher) => Ok(hasher),
        Err(_) => Err(AllocError),
    }
}

/// The fault of a test in which a text isn't the one that is wanted.
pub fn same(alloc: Global, came: &str, wanted: &str) -> Result<(), Fail> {
    if came == wanted {
        return Ok(());
    }
    Err(Fail::from(format!(in alloc; "{came:?} came, and not {wanted:?}")?))
}

/// The fault of a test in which something isn't so.
pub fn holds(is_so: bool, what: &'static str) -> Result<(), Fail> {
    if is_so {
        return Ok(());
    }
    Err(Fail::from(what))
}
