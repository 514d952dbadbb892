//! The clause without a term or an anchor, and with a lower bound that is lower.

use crate::case::Case;
use crate::edit::Edited;
use crate::extent::Extent;
use crate::parts::LowerBound;
use crate::seeking::{Match, Sought};
use crate::sides::{Failure, failure_of};
use crate::terms::{Place, Term};
use crate::tokens::Range;
use crate::way::{Demand, LowerBoundDemand, TermDemand};
use rp_lexer::Mark;
use rp_query::Query;
use rp_wording::{Pieces, meant};
use std::alloc::AllocError;

/// A condition that is true of each row.
const TRUE: &str = "1 = 1";

/// The demand that a term is, and where it isn't true in what is found without it.
pub(crate) fn term_demand(
    case: &Case<'_>,
    term: &Term,
    sought: &Sought,
) -> Result<Demand, AllocError> {
    let failure = failure_in(case, term, sought)?;
    Ok(Demand::Term(TermDemand {
        written: String::from_str(case.alloc, term.written.as_str())?,
        variables: variables_of(case, term)?,
        is_bound: term.is_bound,
        failure,
    }))
}

/// The clause with a true condition in the place of a term.
pub(crate) fn without_term<'a>(case: &Case<'a>, term: &Term) -> Edited<'a> {
    let mut clause = case.edited();
    for place in term.places.as_slice() {
        clause.replace(place.term, TRUE);
    }
    clause
}

/// The names of the variables that demand a term, each once.
fn variables_of(case: &Case<'_>, term: &Term) -> Result<String, AllocError> {
    let mut names = Pieces::new(case.alloc);
    let mut last = None;
    for place in term.places.as_slice() {
        if last != Some(place.variable) {
            push_place(&mut names, case, place);
        }
        last = Some(place.variable);
    }
    names.finish()
}

/// Writes the name of the variable that demands a term at a place, behind others.
fn push_place(names: &mut Pieces, case: &Case<'_>, place: &Place) {
    if !names.is_empty() {
        names.push(", ");
    }
    names.push_made(case.written(place.name()));
}

/// Where in a match that is found a term isn't true.
fn failure_in(
    case: &Case<'_>,
    term: &Term,
    sought: &Sought,
) -> Result<Option<Failure>, AllocError> {
    let Sought::Found(found) = sought else {
        return Ok(None);
    };
    match case.compiled(term_alone(case, term))? {
        Some(query) => failure_by(case, &query, term, found),
        None => Ok(None),
    }
}

/// The same, by the query of the clause that demands the term alone.
fn failure_by(
    case: &Case<'_>,
    query: &Query,
    term: &Term,
    found: &Match,
) -> Result<Option<Failure>, AllocError> {
    let numbers = numbers_of(case, query, term)?;
    failure_of(case.alloc, query, case.rows, found, numbers.as_slice())
}

/// The clause with a term in the place of each condition that it is demanded in.
fn term_alone<'a>(case: &Case<'a>, term: &Term) -> Edited<'a> {
    let mut clause = case.edited();
    let mut last = None;
    for place in term.places.as_slice() {
        if last != Some(place.variable) {
            clause.replace(place.condition, term.written.as_str());
        }
        last = Some(place.variable);
    }
    clause
}

/// The numbers of the variables that demand a term.
fn numbers_of(case: &Case<'_>, query: &Query, term: &Term) -> Result<Vec<usize>, AllocError> {
    let mut numbers = Vec::new(case.alloc);
    for place in term.places.as_slice() {
        if let Some(number) = number_of(case, query, place)? {
            numbers.push(number)?;
        }
    }
    Ok(numbers)
}

/// The number of the variable that demands a term at a place.
fn number_of(case: &Case<'_>, query: &Query, place: &Place) -> Result<Option<usize>, AllocError> {
    let written = case.written(place.name())?;
    let name = meant(case.alloc, written.as_str())?;
    let mut variables = query.variables().iter();
    Ok(variables.position(|one| one.as_str() == name.as_str()))
}

/// The greatest lower bound by which there is a match, and which rows that has. If there is none by the least, or searches are given up,
/// that.
pub(crate) fn greatest_lower(
    case: &Case<'_>,
    bound: LowerBound,
) -> Result<(u64, Extent), AllocError> {
    let mut none_from = bound.lower;
    let mut best = least_lower(case, bound)?;
    for _ in 1..64 {
        let room = none_from.saturating_sub(best.0);
        if room <= 1 || !matches!(best.1, Extent::Rows(_)) {
            break;
        }
        let lower = best.0.saturating_add(room / 2);
        match extent_by(case, bound, lower)? {
            Extent::Nothing => none_from = lower,
            extent => best = (lower, extent),
        }
    }
    Ok(best)
}

/// The least lower bound by which there may be a match, and which rows that has: 0, or 1 where there is none by 0. With 0 a reluctant
/// quantifier prefers to take no row.
fn least_lower(case: &Case<'_>, bound: LowerBound) -> Result<(u64, Extent), AllocError> {
    match extent_by(case, bound, 0)? {
        Extent::Nothing if bound.lower > 1 => Ok((1, extent_by(case, bound, 1)?)),
        extent => Ok((0, extent)),
    }
}

/// The demand that a lower bound is, of which this one would do.
pub(crate) fn lower_demand(
    case: &Case<'_>,
    bound: LowerBound,
    lower: u64,
) -> Result<Demand, AllocError> {
    Ok(Demand::LowerBound(LowerBoundDemand {
        written: case.written(bound.quantifier)?,
        instead: quantifier(case, bound, lower)?,
        part: case.written(bound.part)?,
    }))
}

/// Which rows are found by the clause with this lower bound in the place of one.
fn extent_by(case: &Case<'_>, bound: LowerBound, lower: u64) -> Result<Extent, AllocError> {
    let text = quantifier(case, bound, lower)?;
    case.extent_with(bound.quantifier, text.as_str())
}

/// A quantifier with another lower bound.
fn quantifier(case: &Case<'_>, bound: LowerBound, lower: u64) -> Result<String, AllocError> {
    if case.tokens.is(bound.quantifier.from, Mark::Plus) {
        return String::from_str(case.alloc, "*");
    }
    let mut text = Pieces::of(case.alloc, "{");
    text.push_number(lower);
    if bound.is_exact {
        text.push(",");
        text.push_number(bound.lower);
        text.push("}");
    } else {
        let behind = Range {
            from: bound.quantifier.from.saturating_add(2),
            to: bound.quantifier.to,
        };
        text.push_made(case.written(behind));
    }
    text.finish()
}
