//! The patterns of `trace`, as its command line gives them.
ghost use Rattle.std.specs.Prelude.{◌≡◌, ℕ, ◌+◌, ◌<◌, ◌≤◌, List, [], ◌∷◌, length, IfOk, IfSome, IfNone};
ghost use Rattle.rp_words.specs.PatternForm.{form_of};
ghost use Rattle.rp_trace.specs.Bytes.{upper_a};
ghost use Rattle.rp_trace.specs.Limits.{letter_count};
ghost use Rattle.rp_trace.specs.Grammar.{Tree, Alternatives, Sequences, Factors, Primaries, Derives, IsLettered, symbols_of, tree_of};
ghost use Rattle.rp_trace.specs.Reading.{IsSymbolPlace, LeavesSymbols, Lacks, ReadsForm, StopsAt, begins_primary};
ghost use Rattle.rp_trace.specs.declared.grammar.Stop.TheVariants.{OutOfMemory};

use rp_words::{Form, Pattern};
use std::alloc::{AllocError, AllocFailed, Global};
use thiserror::Error;

/// Why a text is no pattern of `trace`.
#[derive(Clone, Copy, Debug, PartialEq, Eq, Error)]
pub enum TracePatternFault {
    /// The byte at this offset can't follow, or the text ends there too early.
    #[error("pattern: Expected at byte {0}")]
    Expected(usize),
    /// Memory was refused.
    #[error("out of memory")]
    OutOfMemory,
}

/// The pattern that the text derives. Spaces mean nothing, and the letters A to Z are the variables 0 to 25.
pub fn trace_pattern(alloc: Global, text: &str) -> Result<Pattern, TracePatternFault>
    ensures lettered { IfOk result (λ pattern. IsLettered (form_of pattern)) }
    ensures derived { IfOk result (λ pattern. Derives Alternatives (symbols_of text.now) (tree_of (form_of pattern))) }
    ensures only { IfOk result (λ pattern. (tree : Tree) →
        Derives Alternatives (symbols_of text.now) tree → tree_of (form_of pattern) ≡ tree) }
    ensures place { (offset : ℕ) → result ≡ Err (TracePatternFault.Expected offset) → IsSymbolPlace text.now offset }
    ensures refused { (offset : ℕ) → result ≡ Err (TracePatternFault.Expected offset) →
        (tree : Tree) → Derives Alternatives (symbols_of text.now) tree → ⊥ }
{
    let symbols = without_spaces(alloc, text.as_bytes())?;
    match alternatives(alloc, symbols.as_slice()) {
        Ok((form, [])) => Ok(Pattern::new(form)),
        Ok((_, rest)) => Err(expected(text.as_bytes(), rest.len())),
        Err(Stop::At(left)) => Err(expected(text.as_bytes(), left)),
        Err(Stop::OutOfMemory) => Err(TracePatternFault::OutOfMemory),
    }
}

/// Why no form begins here.
#[derive(Clone, Copy)]
enum Stop {
    /// Where this many symbols are left, the next one can't follow.
    At(usize),
    /// Memory was refused.
    OutOfMemory,
}

fn without_spaces(alloc: Global, text: &[u8]) -> Result<Vec<u8>, AllocError>
    ensures { IfOk result (λ symbols. symbols.items ≡ symbols_of text.now) }
{
    text.iter()
        .copied()
        .filter(|byte| *byte != b' ')
        .collect(alloc)
}

/// The fault at the symbol from which on `left` symbols follow, itself counted, or at the end of the text where `left` is 0.
fn expected(text: &[u8], left: usize) -> TracePatternFault
    requires { left ≤ length (symbols_of text.now) }
    ensures { (offset : ℕ) × (result ≡ TracePatternFault.Expected offset) × LeavesSymbols text.now left offset }
{
    let mut place = text.len();
    let mut seen = 0;
    while place > 0 && seen < left {
        place -= 1;
        if text[place] != b' ' {
            seen += 1;
        }
    }
    TracePatternFault::Expected(place)
}

/// Sequences with `|` between them, and what follows.
#[cycle(grammar)]
#[tactic(auto, using(crate::proofs::ReadForms::alternatives_read))]
fn alternatives(alloc: Global, symbols: &[u8]) -> Result<(Form, &[u8]), Stop>
    ensures read { IfOk result (λ read. ReadsForm Alternatives symbols.now read.0 read.1.now) }
    ensures stop { (left : ℕ) → result ≡ Err (Stop.At left) → StopsAt Alternatives symbols.now left }
{
    let (first, rest) = sequence(alloc, symbols)?;
    match after_mark(rest, b'|') {
        Some(rest) => {
            let (second, rest) = alternatives(alloc, rest)?;
            Ok((Form::alternation(alloc, first, second)?, rest))
        }
        None => Ok((first, rest)),
    }
}

/// One or more factors, and what follows.
#[cycle(grammar)]
#[tactic(auto, using(crate::proofs::ReadForms::sequences_read))]
fn sequence(alloc: Global, symbols: &[u8]) -> Result<(Form, &[u8]), Stop>
    ensures read { IfOk result (λ read. ReadsForm Sequences symbols.now read.0 read.1.now) }
    ensures stop { (left : ℕ) → result ≡ Err (Stop.At left) → StopsAt Sequences symbols.now left }
{
    let (first, rest) = factor(alloc, symbols)?;
    if !begins_primary(rest) {
        return Ok((first, rest));
    }
    let (second, rest) = sequence(alloc, rest)?;
    Ok((Form::concatenation(alloc, first, second)?, rest))
}

/// A primary, perhaps with `*`, and what follows.
#[cycle(grammar)]
#[tactic(auto, using(crate::proofs::ReadForms::factors_read))]
fn factor(alloc: Global, symbols: &[u8]) -> Result<(Form, &[u8]), Stop>
    ensures read { IfOk result (λ read. ReadsForm Factors symbols.now read.0 read.1.now) }
    ensures stop { (left : ℕ) → result ≡ Err (Stop.At left) → StopsAt Factors symbols.now left }
{
    let (body, rest) = primary(alloc, symbols)?;
    match after_mark(rest, b'*') {
        Some(rest) => Ok((Form::quantified(alloc, body, 0, None, false)?, rest)),
        None => Ok((body, rest)),
    }
}

/// A variable or a group, and what follows.
#[cycle(grammar)]
#[tactic(auto, using(crate::proofs::ReadForms::primaries_read))]
fn primary(alloc: Global, symbols: &[u8]) -> Result<(Form, &[u8]), Stop>
    ensures read { IfOk result (λ read. ReadsForm Primaries symbols.now read.0 read.1.now) }
    ensures stop { (left : ℕ) → result ≡ Err (Stop.At left) → StopsAt Primaries symbols.now left }
{
    if let Some((var, rest)) = letter(symbols) {
        return Ok((Form::Variable(var), rest));
    }
    let Some(inner) = after_mark(symbols, b'(') else {
        return Err(Stop::At(symbols.len()));
    };
    if let Some(rest) = after_mark(inner, b')') {
        return Ok((Form::Empty, rest));
    }
    let (form, rest) = alternatives(alloc, inner)?;
    match after_mark(rest, b')') {
        Some(rest) => Ok((form, rest)),
        None => Err(Stop::At(rest.len())),
    }
}

/// Whether the symbols begin with a letter or an opening bracket.
fn begins_primary(symbols: &[u8]) -> bool
    ensures { result ≡ begins_primary symbols.now }
{
    match symbols.first() {
        Some(first) => *first == b'(' || (b'A' <= *first && *first <= b'Z'),
        None => false,
    }
}

/// What follows the mark, if the symbols begin with it.
fn after_mark(symbols: &[u8], mark: u8) -> Option<&[u8]>
    ensures some { IfSome result (λ rest. symbols.now ≡ mark ∷ rest.now) }
    ensures none { IfNone result (Lacks mark symbols.now) }
{
    match symbols.split_first() {
        Some((first, rest)) if *first == mark => Some(rest),
        _ => None,
    }
}

/// The variable whose letter the symbols begin with, and what follows.
fn letter(symbols: &[u8]) -> Option<(usize, &[u8])>
    ensures some { IfSome result (λ read. symbols.now ≡ (read.0 + upper_a) ∷ read.1.now) }
    ensures range { IfSome result (λ read. read.0 < letter_count) }
    ensures none { IfNone result ((var : ℕ) → var < letter_count → Lacks (var + upper_a) symbols.now) }
{
    let (first, rest) = symbols.split_first()?;
    if *first < b'A' || *first > b'Z' {
        return None;
    }
    Some((usize::from(*first - b'A'), rest))
}

impl From<AllocError> for Stop {
    ghost from_gives = { λ _ fault. fault ≡ OutOfMemory };

    fn from(_: AllocError) -> Stop {
        Stop::OutOfMemory
    }
}

impl From<AllocError> for TracePatternFault {
    ghost use Rattle.std.specs.Prelude.{◌≡◌};
    ghost use Rattle.rp_trace.specs.declared.grammar.TracePatternFault.TheVariants.{OutOfMemory};

    ghost from_gives = { λ _ fault. fault ≡ OutOfMemory };

    fn from(_: AllocError) -> TracePatternFault {
        TracePatternFault::OutOfMemory
    }
}

impl<T: Drop> From<AllocFailed<T>> for TracePatternFault {
    ghost use Rattle.std.specs.Prelude.{◌≡◌};
    ghost use Rattle.rp_trace.specs.declared.grammar.TracePatternFault.TheVariants.{OutOfMemory};

    ghost from_gives = { λ _ fault. fault ≡ OutOfMemory };

    fn from(_: AllocFailed<T>) -> TracePatternFault {
        TracePatternFault::OutOfMemory
    }
}
