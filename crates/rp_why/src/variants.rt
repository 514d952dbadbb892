//! Clauses that differ from one in a demand, compiled once for all partitions.

use rp_compile::{CompileFault, compile};
use rp_query::Query;
use rp_value::Table;
use std::alloc::{AllocError, Global};
use std::cell::RefCell;

/// Of so many clauses at most the queries are kept.
const MOST_KEPT: usize = 256;

/// A clause, and its query; None where it has none.
#[derive(Drop)]
struct Variant {
    clause: String,
    query: Option<Query>,
}

/// Clauses that were asked of a partition, with their queries: the next partition is asked the same ones.
#[derive(Drop)]
pub(crate) struct Variants {
    kept: RefCell<Vec<Variant>>,
}

impl Variants {
    /// None yet.
    pub(crate) fn new(alloc: Global) -> Variants {
        Variants {
            kept: RefCell::new(Vec::new(alloc)),
        }
    }

    /// The query of a clause over a table, which is the same in each call; None where it has none.
    pub(crate) fn query_of(
        &self,
        alloc: Global,
        clause: String,
        table: &Table,
    ) -> Result<Option<Query>, AllocError> {
        if let Some(variant) = self.kept_of(clause.as_str())? {
            return Ok(variant);
        }
        let query = compiled(alloc, clause.as_str(), table)?;
        let same = shared(&query)?;
        self.keep(Variant { clause, query })?;
        Ok(same)
    }

    /// What is kept of a clause; None where nothing is.
    fn kept_of(&self, clause: &str) -> Result<Option<Option<Query>>, AllocError> {
        let Ok(kept) = self.kept.try_borrow() else {
            return Ok(None);
        };
        for variant in kept.as_slice() {
            if variant.clause.as_str() == clause {
                return Ok(Some(shared(&variant.query)?));
            }
        }
        Ok(None)
    }

    /// Keeps a clause with its query, where there is room.
    fn keep(&self, variant: Variant) -> Result<(), AllocError> {
        if let Ok(mut kept) = self.kept.try_borrow_mut() {
            if kept.len() < MOST_KEPT {
                kept.push(variant)?;
            }
        }
        Ok(())
    }
}

/// The query of a clause over a table, where it has one.
fn compiled(alloc: Global, clause: &str, table: &Table) -> Result<Option<Query>, AllocError> {
    match compile(alloc, clause, table) {
        Ok(query) => Ok(Some(query)),
        Err(CompileFault::OutOfMemory) => Err(AllocError),
        Err(_) => Ok(None),
    }
}

/// The same query.
fn shared(query: &Option<Query>) -> Result<Option<Query>, AllocError> {
    match query {
        Some(query) => Ok(Some(query.share()?)),
        None => Ok(None),
    }
}
