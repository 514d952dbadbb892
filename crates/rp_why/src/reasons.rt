//! Why there is no match.

use crate::between::row_between;
use crate::case::Case;
use crate::demands::{greatest_lower, lower_demand, term_demand, without_term};
use crate::extent::{Extent, Span, extent_of};
use crate::parts::{bound_at, is_anchor, pattern_of};
use crate::reached::{Reached, how_far};
use crate::seeking::Match;
use crate::terms::{Term, terms_of};
use crate::tokens::Range;
use crate::way::{Demand, Way, rank};
use std::alloc::AllocError;

/// A pattern that every match has anywhere.
const EMPTY: &str = "()";

/// What is found of a partition.
pub enum Finding {
    /// It has a match: the first.
    Matched(Match),
    /// It has none.
    Unmatched(Reasons),
    /// It has no row of the number that a match should begin with.
    NoRow(u64),
    /// The searches take more turns than they may.
    GivenUp,
}

/// It is let go of by a call, wherever it is held.
impl Drop for Finding {
    fn drop(self) {
        match self {
            Finding::Matched(_) => {}
            Finding::Unmatched(_) => {}
            Finding::NoRow(_) => {}
            Finding::GivenUp => {}
        }
    }
}

/// Why there is no match.
pub struct Reasons {
    /// How far the searches come; none where not even the first part of the pattern is found.
    pub reached: Option<Reached>,
    /// What is in the way, the most telling first.
    pub ways: Vec<Way>,
    /// How many demands weren't tried to the end.
    pub untried: u64,
}

/// It is let go of by a call, wherever it is held.
impl Drop for Reasons {
    fn drop(self) {
        let Reasons {
            reached: _,
            ways: _,
            untried: _,
        } = self;
    }
}

impl Reasons {
    /// The rows of the match that trying a demand came to. A try that was given up is counted.
    fn rows_of(&mut self, extent: Extent) -> Option<Span> {
        match extent {
            Extent::Rows(rows) => Some(rows),
            Extent::Nothing => None,
            Extent::GivenUp => {
                self.untried = self.untried.saturating_add(1);
                None
            }
        }
    }

    /// Adds a demand without which these rows match: bounds first, and of them those that fewer rows fail.
    fn add(&mut self, demand: Demand, rows: Span) -> Result<(), AllocError> {
        let way = Way {
            demand,
            first: rows.first,
            last: rows.last,
        };
        let place = self
            .ways
            .iter()
            .position(|other| rank(other) > rank(&way))
            .unwrap_or(self.ways.len());
        self.ways.insert(place, way)?;
        Ok(())
    }
}

/// Why there is no match.
pub(crate) fn reasons_of(case: &Case<'_>) -> Result<Reasons, AllocError> {
    let mut reasons = Reasons {
        reached: how_far(case)?,
        ways: Vec::new(case.alloc),
        untried: 0,
    };
    add_ways(case, &mut reasons)?;
    Ok(reasons)
}

/// Tries the clause without each demand.
fn add_ways(case: &Case<'_>, reasons: &mut Reasons) -> Result<(), AllocError> {
    let from = match &reasons.reached {
        Some(reached) => reached.found.first,
        None => case.wanted.first,
    };
    add_terms(case, reasons)?;
    let (row, extent) = row_between(case, from)?;
    if let Some(rows) = reasons.rows_of(extent) {
        reasons.add(Demand::RowBetween(row), rows)?;
    }
    add_anchors(case, reasons)?;
    add_bounds(case, reasons)
}

/// Tries the clause without each term.
fn add_terms(case: &Case<'_>, reasons: &mut Reasons) -> Result<(), AllocError> {
    let terms = terms_of(case.alloc, &case.tokens, case.query)?;
    for term in terms.as_slice() {
        add_term(case, term, reasons)?;
    }
    Ok(())
}

/// Tries the clause without a term.
fn add_term(case: &Case<'_>, term: &Term, reasons: &mut Reasons) -> Result<(), AllocError> {
    let sought = case.answer(without_term(case, term))?;
    if let Some(rows) = reasons.rows_of(extent_of(&sought)) {
        reasons.add(term_demand(case, term, &sought)?, rows)?;
    }
    Ok(())
}

/// Tries the clause with an empty pattern in the place of each anchor.
fn add_anchors(case: &Case<'_>, reasons: &mut Reasons) -> Result<(), AllocError> {
    let pattern = pattern_of(&case.tokens);
    for at in pattern.from..pattern.to {
        if is_anchor(&case.tokens, at) {
            let anchor = Range::one(at);
            let extent = case.extent_with(anchor, EMPTY)?;
            if let Some(rows) = reasons.rows_of(extent) {
                reasons.add(Demand::Anchor(case.written(anchor)?), rows)?;
            }
        }
    }
    Ok(())
}

/// Tries the clause with lower bounds that are lower, in the order in which they are written.
fn add_bounds(case: &Case<'_>, reasons: &mut Reasons) -> Result<(), AllocError> {
    let pattern = pattern_of(&case.tokens);
    for at in pattern.from..pattern.to {
        if let Some(bound) = bound_at(&case.tokens, pattern, at) {
            let (lower, extent) = greatest_lower(case, bound)?;
            if let Some(rows) = reasons.rows_of(extent) {
                reasons.add(lower_demand(case, bound, lower)?, rows)?;
            }
        }
    }
    Ok(())
}
