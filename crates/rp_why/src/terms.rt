//! The terms that the conditions of DEFINE demand.

use crate::list::List;
use crate::meaning::meanings_of;
use crate::tokens::{Range, Tokens};
use rp_lexer::{Keyword, Mark, TokenKind};
use rp_query::Query;
use std::alloc::{AllocError, Global};

/// A term of a condition: a condition between ANDs, or a whole one. One that several variables demand is one term, also where they write it
/// in other ways.
pub(crate) struct Term {
    /// The term as it is written first.
    pub(crate) written: String,
    /// What it means.
    meaning: String,
    /// Where it is demanded.
    pub(crate) places: Vec<Place>,
    /// Whether it is a comparison by `<`, `<=`, `>` or `>=`.
    pub(crate) is_bound: bool,
}

/// It is let go of by a call, wherever it is held.
impl Drop for Term {
    fn drop(self) {
        let Term {
            written: _,
            meaning: _,
            places: _,
            is_bound: _,
        } = self;
    }
}

impl Term {
    /// A term that is demanded at one place.
    fn new(
        alloc: Global,
        written: String,
        meaning: &str,
        place: Place,
        is_bound: bool,
    ) -> Result<Term, AllocError> {
        let mut places = Vec::new(alloc);
        places.push(place)?;
        Ok(Term {
            written,
            meaning: String::from_str(alloc, meaning)?,
            places,
            is_bound,
        })
    }
}

/// Where a term is demanded.
#[derive(Clone, Copy)]
pub(crate) struct Place {
    /// The token that names the variable.
    pub(crate) variable: usize,
    /// The variable's whole condition.
    pub(crate) condition: Range,
    /// The term in it.
    pub(crate) term: Range,
}

impl Place {
    /// The name of the variable.
    pub(crate) fn name(&self) -> Range {
        Range::one(self.variable)
    }
}

/// The terms of a clause, in the order in which they are written. It has these tokens, and was compiled to this query.
pub(crate) fn terms_of(
    alloc: Global,
    tokens: &Tokens<'_>,
    query: &Query,
) -> Result<Vec<Term>, AllocError> {
    let mut terms = Vec::new(alloc);
    if let Some(define) = tokens.word(Keyword::Define) {
        add_definitions(alloc, tokens, query, define, &mut terms)?;
    }
    Ok(terms)
}

/// Adds the terms of the definitions behind the word DEFINE, whose conditions stand in the query's plan in the same order.
fn add_definitions(
    alloc: Global,
    tokens: &Tokens<'_>,
    query: &Query,
    define: usize,
    terms: &mut Vec<Term>,
) -> Result<(), AllocError> {
    let mut rest = Range {
        from: define.saturating_add(1),
        to: tokens.list.len(),
    };
    if let Some(end) = tokens.find(rest, TokenKind::Mark(Mark::RightParenthesis)) {
        rest.to = end;
    }
    for condition in query.plan().conditions.as_slice() {
        let end = tokens
            .find(rest, TokenKind::Mark(Mark::Comma))
            .unwrap_or(rest.to);
        let definition = Range {
            from: rest.from,
            to: end,
        };
        let meanings = meanings_of(alloc, condition, query.totals().as_slice())?;
        add_definition(alloc, tokens, definition, meanings.as_slice(), terms)?;
        rest.from = end.saturating_add(1);
    }
    Ok(())
}

/// Adds the terms of one definition, which mean this in order.
fn add_definition(
    alloc: Global,
    tokens: &Tokens<'_>,
    definition: Range,
    meanings: &[String],
    terms: &mut Vec<Term>,
) -> Result<(), AllocError> {
    let places = places_in(alloc, tokens, definition)?;
    for (place, meaning) in places.as_slice().iter().zip(meanings) {
        add_term(alloc, tokens, *place, meaning.as_str(), terms)?;
    }
    Ok(())
}

/// Where terms are demanded by one definition: a name, AS, and a condition.
fn places_in(
    alloc: Global,
    tokens: &Tokens<'_>,
    definition: Range,
) -> Result<Vec<Place>, AllocError> {
    let condition = Range {
        from: definition.from.saturating_add(2),
        to: definition.to,
    };
    let mut places = List::new(alloc);
    let mut open = List::new(alloc);
    open.push(condition);
    for _ in definition.from..definition.to.saturating_mul(2) {
        let Some(range) = open.pop() else {
            break;
        };
        let term = tokens.without_brackets(range);
        match conjuncts(tokens, term) {
            Some((first, rest)) => {
                open.push(rest);
                open.push(first);
            }
            None => places.push(Place {
                variable: definition.from,
                condition,
                term,
            }),
        }
    }
    open.finish()?;
    places.finish()
}

/// What is before and behind the first AND of a condition that is one of AND.
fn conjuncts(tokens: &Tokens<'_>, condition: Range) -> Option<(Range, Range)> {
    if tokens.has(condition, TokenKind::Keyword(Keyword::Or)) {
        return None;
    }
    let and = tokens.find(condition, TokenKind::Keyword(Keyword::And))?;
    let first = Range {
        from: condition.from,
        to: and,
    };
    let rest = Range {
        from: and.saturating_add(1),
        to: condition.to,
    };
    Some((first, rest))
}

/// Adds a term, or one more place where it is demanded.
fn add_term(
    alloc: Global,
    tokens: &Tokens<'_>,
    place: Place,
    meaning: &str,
    terms: &mut Vec<Term>,
) -> Result<(), AllocError> {
    if add_place(terms, meaning, place)? {
        return Ok(());
    }
    let written = tokens.written(alloc, place.term)?;
    let is_bound = is_bound(tokens, place.term);
    terms.push(Term::new(alloc, written, meaning, place, is_bound)?)?;
    Ok(())
}

/// Adds a place to the term that means this. Gives whether there is one.
fn add_place(terms: &mut Vec<Term>, meaning: &str, place: Place) -> Result<bool, AllocError> {
    for term in terms.iter_mut() {
        if term.meaning.as_str() == meaning {
            term.places.push(place)?;
            return Ok(true);
        }
    }
    Ok(false)
}

/// Whether a term is a comparison that bounds something.
fn is_bound(tokens: &Tokens<'_>, term: Range) -> bool {
    !tokens.has(term, TokenKind::Keyword(Keyword::Or))
        && (tokens.has(term, TokenKind::Mark(Mark::LessThan))
            || tokens.has(term, TokenKind::Mark(Mark::LessThanOrEquals))
            || tokens.has(term, TokenKind::Mark(Mark::GreaterThan))
            || tokens.has(term, TokenKind::Mark(Mark::GreaterThanOrEquals)))
}
