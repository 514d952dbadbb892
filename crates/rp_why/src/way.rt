//! What is in the way of a match.

use crate::sides::Failure;

/// A demand without which there is a match.
#[derive(Drop)]
pub struct Way {
    /// The demand.
    pub demand: Demand,
    /// The first row of the match that there is without it.
    pub first: u64,
    /// Its last row.
    pub last: u64,
}

/// A demand.
pub enum Demand {
    /// A term of conditions.
    Term(TermDemand),
    /// A lower bound of a quantifier.
    LowerBound(LowerBoundDemand),
    /// That a match begins or ends where its partition does: `^` or `$`.
    Anchor(String),
    /// That the rows of a match follow one another: this one is between them.
    RowBetween(u64),
}

/// It is let go of by a call, wherever it is held.
impl Drop for Demand {
    fn drop(self) {
        match self {
            Demand::Term(_) => {}
            Demand::LowerBound(_) => {}
            Demand::Anchor(_) => {}
            Demand::RowBetween(_) => {}
        }
    }
}

/// A term of conditions.
pub struct TermDemand {
    /// The term as it is written first.
    pub written: String,
    /// The variables that demand it, each once, as they are written, with commas between.
    pub variables: String,
    /// Whether it is a comparison by `<`, `<=`, `>` or `>=`.
    pub is_bound: bool,
    /// Where in the match it isn't true.
    pub failure: Option<Failure>,
}

/// It is let go of by a call, wherever it is held.
impl Drop for TermDemand {
    fn drop(self) {
        let TermDemand {
            written: _,
            variables: _,
            is_bound: _,
            failure: _,
        } = self;
    }
}

/// A lower bound of a quantifier.
pub struct LowerBoundDemand {
    /// The quantifier as it is written.
    pub written: String,
    /// The quantifier with the greatest lower bound by which there is a match.
    pub instead: String,
    /// The part that it repeats, as it is written.
    pub part: String,
}

/// It is let go of by a call, wherever it is held.
impl Drop for LowerBoundDemand {
    fn drop(self) {
        let LowerBoundDemand {
            written: _,
            instead: _,
            part: _,
        } = self;
    }
}

/// How telling a demand is: the lower the more. Bounds come before other terms, and these before a row between, anchors and quantifiers; of
/// terms those come first that fewer rows of the match fail.
pub(crate) fn rank(way: &Way) -> (u8, u64) {
    match &way.demand {
        Demand::Term(term) => {
            let kind = if term.is_bound { 0 } else { 1 };
            match &term.failure {
                Some(failure) => (kind, failure.count),
                None => (kind, u64::MAX),
            }
        }
        Demand::RowBetween(_) => (2, 0),
        Demand::Anchor(_) => (3, 0),
        Demand::LowerBound(_) => (4, 0),
    }
}
