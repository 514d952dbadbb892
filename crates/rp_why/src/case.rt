//! A clause with one demand less, asked of the same rows.
ghost use Rattle.std.specs.Prelude.{◌≡◌};
ghost use Rattle.rp_words.specs.declared.word.End.TheVariants.{Closed};

use crate::edit::Edited;
use crate::extent::{Extent, extent_of};
use crate::seeking::{Sought, Wanted, seek};
use crate::tokens::{Range, Tokens};
use crate::variants::Variants;
use rp_eval::AllRows;
use rp_query::Query;
use std::alloc::{AllocError, Global};

/// A clause, and a partition in which it has no match.
#[derive(Clone, Copy)]
pub(crate) struct Case<'a> {
    /// For all that is made.
    pub(crate) alloc: Global,
    /// The clause as it was compiled.
    pub(crate) query: &'a Query,
    /// Its tokens.
    pub(crate) tokens: Tokens<'a>,
    /// What was compiled for partitions before.
    pub(crate) variants: &'a Variants,
    /// The partition.
    pub(crate) rows: &'a AllRows,
    /// Which matches are looked for.
    pub(crate) wanted: Wanted,
    ghost closed: { rows.now.end ≡ Closed },
}

impl<'a> Case<'a> {
    /// The clause, to be written anew in some places.
    pub(crate) fn edited(&self) -> Edited<'a> {
        Edited::new(self.alloc, self.tokens)
    }

    /// Which rows are found by the clause with these words in place of a range.
    pub(crate) fn extent_with(&self, range: Range, words: &str) -> Result<Extent, AllocError> {
        let mut clause = self.edited();
        clause.replace(range, words);
        let sought = self.answer(clause)?;
        Ok(extent_of(&sought))
    }

    /// What is found by a clause. No query is what nobody can answer.
    pub(crate) fn answer(&self, clause: Edited<'_>) -> Result<Sought, AllocError> {
        match self.compiled(clause)? {
            Some(query) => seek(self.alloc, &query, self.rows, self.wanted),
            None => Ok(Sought::GivenUp),
        }
    }

    /// The query of a clause, where it has one.
    pub(crate) fn compiled(&self, clause: Edited<'_>) -> Result<Option<Query>, AllocError> {
        self.variants
            .query_of(self.alloc, clause.finish()?, self.query.table())
    }

    /// A range of the clause as it is written, in one line.
    pub(crate) fn written(&self, range: Range) -> Result<String, AllocError> {
        self.tokens.written(self.alloc, range)
    }
}
