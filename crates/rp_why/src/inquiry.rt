//! Why partitions have no match, asked of one query.
ghost use Rattle.std.specs.Prelude.{◌≡◌, IfOk};
ghost use Rattle.rp_why.specs.Seeking.{closed_by};
ghost use Rattle.rp_why.specs.Sought.{IsFinding};

use crate::case::Case;
use crate::reasons::{Finding, reasons_of};
use crate::seeking::{Sought, Wanted, seek};
use crate::tokens::Tokens;
use crate::variants::Variants;
use rp_eval::{AllRows, Rows};
use rp_lexer::Token;
use rp_query::Query;
use rp_value::Row;
use rp_wording::tokens_of;
use rp_words::End;
use std::alloc::{AllocError, Global};

/// A query of which it is asked, partition by partition, why it has no match. What is compiled for one partition serves the next.
#[derive(Drop)]
pub struct Inquiry<'a> {
    alloc: Global,
    query: &'a Query,
    /// The tokens of its clause.
    tokens: Vec<Token>,
    /// Its clause without one of the demands.
    variants: Variants,
}

impl<'a> Inquiry<'a> {
    /// Asks of a query.
    pub fn new(alloc: Global, query: &'a Query) -> Result<Inquiry<'a>, AllocError>
        ensures { IfOk result (λ inquiry. inquiry.query ≡ query.entry) }
    {
        let tokens = tokens_of(alloc, query.text().as_str())?;
        Ok(Inquiry {
            alloc,
            query,
            tokens,
            variants: Variants::new(alloc),
        })
    }

    /// The first match of a partition that is looked for, or why there is none. These are all rows of the partition, in order.
    pub fn why(&self, rows: Vec<Row>, wanted: Wanted) -> Result<Finding, AllocError>
        ensures { IfOk result (IsFinding self.now.query.now (closed_by rows.items) wanted) }
    {
        let rows = AllRows {
            rows,
            end: End::Closed,
        };
        if wanted.first == 0 || wanted.first > rows.last() || wanted.last > rows.last() {
            return Ok(Finding::NoRow(wanted.first));
        }
        match seek(self.alloc, self.query, &rows, wanted)? {
            Sought::Found(found) => Ok(Finding::Matched(found)),
            Sought::GivenUp => Ok(Finding::GivenUp),
            Sought::NotFound => {
                let case = Case {
                    alloc: self.alloc,
                    query: self.query,
                    tokens: Tokens {
                        text: self.query.text().as_str(),
                        list: self.tokens.as_slice(),
                    },
                    variants: &self.variants,
                    rows: &rows,
                    wanted,
                };
                Ok(Finding::Unmatched(reasons_of(&case)?))
            }
        }
    }
}
