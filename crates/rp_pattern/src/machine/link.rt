//! Later parts, linked.
ghost use Rattle.std.specs.Prelude.{◌≡◌, ℕ, ◌∷◌, IfOk, OnOk, IsTrue};
ghost use Rattle.rp_words.specs.declared.word.End.{End};
ghost use Rattle.rp_pattern.specs.Continuations.{links_from, reached_parts, tail_links, tail_parts, IsTimes, ComesUnchanged};
ghost use Rattle.rp_pattern.specs.Splits.{AlwaysSplits, StandsFor, TakenUp};

use crate::machine::continuation::Continuation;
use crate::machine::iterations::Iterations;
use crate::machine::node::Node;
use crate::machine::orders::Orders;
use crate::machine::split::{Expansion, Split};
use rp_words::End;
use std::alloc::{AllocError, Global};
use std::rc::Rc;

/// A part that is to be taken up.
#[derive(Drop)]
pub(crate) enum Part {
    /// A part of the pattern as it stands.
    Whole(Node),
    /// So many required iterations, and then the others.
    Times { lower: u32, iterations: Iterations },
    /// One order of a PERMUTE or another.
    Orders(Orders),
}

/// A later part, and the parts after it. With `since` it is reached only past that row.
#[derive(Drop)]
pub(crate) struct Link {
    pub since: Option<u64>,
    pub part: Part,
    pub then: Option<Rc<Link>>,
}

/// The parts that come later. Choices share them.
pub(crate) type Tail = Option<Rc<Link>>;

/// A part before later ones, as a link of its own.
#[inline(always)]
pub(crate) fn link_of(
    alloc: Global,
    since: Option<u64>,
    part: Part,
    then: Tail,
) -> Result<Rc<Link>, AllocError>
    ensures { IfOk result (λ link. links_from link.value ≡ (since, part) ∷ tail_links then) }
{
    Ok(Rc::new(alloc, Link { since, part, then })?)
}

/// A part before later ones.
#[inline(always)]
pub(crate) fn linked(
    alloc: Global,
    since: Option<u64>,
    part: Part,
    then: Tail,
) -> Result<Tail, AllocError>
    ensures { IfOk result (λ tail. tail_links tail ≡ (since, part) ∷ tail_links then) }
{
    Ok(Some(link_of(alloc, since, part, then)?))
}

/// A further owner.
#[inline(always)]
pub(crate) fn share(tail: &Tail) -> Result<Tail, AllocError>
    ensures { IfOk result (λ copy. tail_links copy ≡ tail_links tail.now) }
{
    match tail {
        None => Ok(None),
        Some(link) => Ok(Some(link.clone()?)),
    }
}

/// What is left at a row when these parts come next, or nothing where an iteration that had to take a row has taken none.
#[inline(always)]
pub(crate) fn reach(tail: Tail, row: u64) -> Option<Continuation>
    ensures { (n : ℕ) (e : End) → StandsFor n e row (tail_parts n e tail) result }
{
    let Some(link) = tail else {
        return Some(Continuation::Done);
    };
    if let Some(since) = link.since {
        if row <= since {
            return None;
        }
    }
    Some(Continuation::Reached(link))
}

/// The same, of parts that others share.
#[inline(always)]
pub(crate) fn reach_shared(tail: &Tail, row: u64) -> Result<Option<Continuation>, AllocError>
    ensures { IfOk result (λ continuation. (n : ℕ) (e : End) →
        StandsFor n e row (tail_parts n e tail.now) continuation) }
{
    Ok(reach(share(tail)?, row))
}

/// Later parts, the first of which is reached, taken up. Greedy iterations without bounds come up most often.
#[inline(always)]
pub(crate) fn take_reached(
    alloc: Global,
    link: &Rc<Link>,
    row: u64,
    n: u64,
    end: End,
    split: &mut Split,
) -> Result<Expansion, AllocError>
    ensures { IfOk result (TakenUp n end row (λ n e. reached_parts n e (links_from link.now.value)) split.new) }
{
    if let Part::Times { lower, iterations } = &link.part {
        if !iterations.reluctant && comes_again(link, *lower, iterations) {
            take_again(link, *lower, iterations, row, split)?;
            return Ok(Expansion::Split);
        }
    }
    take_part(alloc, link, row, n, end, split)
}

/// The same, whatever part is first.
#[inline(always)]
fn take_part(
    alloc: Global,
    link: &Rc<Link>,
    row: u64,
    n: u64,
    end: End,
    split: &mut Split,
) -> Result<Expansion, AllocError>
    ensures { IfOk result (TakenUp n end row (λ n e. reached_parts n e (links_from link.now.value)) split.new) }
{
    let (expansion, part) = take_part_apart(alloc, link, row, n, end)?;
    *split = part;
    Ok(expansion)
}

/// The same, in a call of its own.
#[inline(never)]
fn take_part_apart(
    alloc: Global,
    link: &Rc<Link>,
    row: u64,
    n: u64,
    end: End,
) -> Result<(Expansion, Split), AllocError>
    ensures { IfOk result (λ taken.
        TakenUp n end row (λ n e. reached_parts n e (links_from link.now.value)) taken.1 taken.0) }
{
    match &link.part {
        Part::Whole(node) => node.take_apart(alloc, &link.then, row, n, end),
        Part::Times { lower, iterations } => {
            let split = take_times(alloc, link, *lower, iterations, row)?;
            Ok((Expansion::Split, split))
        }
        Part::Orders(orders) => {
            let split = orders.take_apart(alloc, &link.then, row)?;
            Ok((Expansion::Split, split))
        }
    }
}

/// Iterations that are reached, taken up. Where any number may follow and each takes a row, the same link comes again.
fn take_times(
    alloc: Global,
    link: &Rc<Link>,
    lower: u32,
    iterations: &Iterations,
    row: u64,
) -> Result<Split, AllocError>
    requires { IsTimes lower iterations.now link.now.value }
    ensures { IfOk result (AlwaysSplits row (λ n e. reached_parts n e (links_from link.now.value))) }
{
    if comes_again(link, lower, iterations) {
        let mut split = Split::none();
        take_again(link, lower, iterations, row, &mut split)?;
        return Ok(split);
    }
    iterations.take_apart(alloc, lower, &link.then, row)
}

/// An iteration, before the same link again, or to stop.
#[inline(always)]
fn take_again(
    link: &Rc<Link>,
    lower: u32,
    iterations: &Iterations,
    row: u64,
    split: &mut Split,
) -> Result<(), AllocError>
    requires times { IsTimes lower iterations.now link.now.value }
    requires again { ComesUnchanged lower iterations.now link.now.value }
    ensures { OnOk result (AlwaysSplits row (λ n e. reached_parts n e (links_from link.now.value)) split.new) }
{
    let reluctant = iterations.reluctant;
    let stop = reach_shared(&link.then, row)?;
    iterations.another_or(reluctant, Some(link.clone()?), stop, split)
}

/// Whether it is known that the same may come after each iteration.
#[inline(always)]
fn comes_again(link: &Link, lower: u32, iterations: &Iterations) -> bool
    ensures { IsTrue result → ComesUnchanged lower iterations.now link.now }
{
    lower == 0 && iterations.moving && iterations.further.is_none() && link.since.is_none()
}
