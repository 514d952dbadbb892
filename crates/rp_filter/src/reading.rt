//! From the text of a condition to a filter.
ghost use Rattle.std.specs.Prelude.{◌≡◌, ◌↔◌, IsTrue, IfErr, IfOk, OnOk, string_bytes};
ghost use Rattle.rp_compile.specs.Compiled.{IsCompiled};
ghost use Rattle.rp_filter.specs.Faults.{IsFilterFault, LookAtOwnRow, in_condition, lex_in_condition, offset_in};
ghost use Rattle.rp_filter.specs.Meets.{clause_of};

use crate::fault::FilterFault;
use crate::filter::Filter;
use rp_compile::{CompileFault, compile};
use rp_grammar::ParseFault;
use rp_lexer::LexFault;
use rp_query::Query;
use rp_resolution::Fault;
use rp_value::Table;
use std::alloc::{AllocError, Global};

/// What stands before a condition in the clause that it is read as. Nothing stands behind it.
const FRONT: &str = "PATTERN (R) DEFINE R AS ";

/// The filter of a condition over a table. A fault's offset is that in the condition; where the condition ends too early, its length.
pub fn read_filter(alloc: Global, text: &str, table: &Table) -> Result<Filter, FilterFault>
    ensures query { IfOk result (λ filter. IsCompiled (clause_of text.now) table.now filter.query) }
    ensures own { IfOk result (λ filter. LookAtOwnRow filter.query) }
    ensures fault { IfErr result (IsFilterFault text.now table.now) }
{
    let clause = clause_text(alloc, text)?;
    match compile(alloc, clause.as_str(), table) {
        Ok(query) => {
            if looks_at_own_row(&query) {
                Ok(Filter { query })
            } else {
                Err(FilterFault::OtherRows)
            }
        }
        Err(CompileFault::OutOfMemory) => Err(FilterFault::OutOfMemory),
        Err(fault) => Err(FilterFault::Condition(in_condition(fault))),
    }
}

/// Whether its conditions look at no row but the one that they judge.
fn looks_at_own_row(query: &Query) -> bool
    ensures { IsTrue result ↔ LookAtOwnRow query.now }
{
    query.judges_rows() && query.looks_back() && query.reach() == 0
}

/// The clause that a condition is read as.
fn clause_text(alloc: Global, text: &str) -> Result<String, AllocError>
    ensures { IfOk result (λ clause. string_bytes clause ≡ clause_of text.now) }
{
    let mut clause = String::from_str(alloc, FRONT)?;
    clause.push_str(text)?;
    Ok(clause)
}

/// The offset in a condition, by that in its clause.
fn offset_in(at: usize) -> usize
    ensures { result ≡ offset_in at }
{
    at.saturating_sub(FRONT.len())
}

/// The fault with its offset in the condition.
fn in_condition(fault: CompileFault) -> CompileFault
    ensures { result ≡ in_condition fault }
{
    match fault {
        CompileFault::Lex(why) => CompileFault::Lex(lex_in_condition(why)),
        CompileFault::Parse(ParseFault::Expected(at)) => {
            CompileFault::Parse(ParseFault::Expected(offset_in(at)))
        }
        CompileFault::Parse(ParseFault::Deep(at)) => {
            CompileFault::Parse(ParseFault::Deep(offset_in(at)))
        }
        CompileFault::Check(why) => CompileFault::Check(Fault {
            kind: why.kind,
            offset: offset_in(why.offset),
        }),
        fault => fault,
    }
}

fn lex_in_condition(fault: LexFault) -> LexFault
    ensures { result ≡ lex_in_condition fault }
{
    match fault {
        LexFault::BadChar(at) => LexFault::BadChar(offset_in(at)),
        LexFault::OpenText(at) => LexFault::OpenText(offset_in(at)),
        LexFault::OpenName(at) => LexFault::OpenName(offset_in(at)),
        LexFault::NumberRange(at) => LexFault::NumberRange(offset_in(at)),
        LexFault::OutOfMemory => LexFault::OutOfMemory,
    }
}
