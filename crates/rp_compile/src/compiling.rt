//! From the text of a clause to its query: its tokens, the clause that they derive, and the checks, in turn.

ghost use Rattle.std.specs.Prelude.{◌≡◌, ◌≢◌, All, List, IfOk, IfErr};
ghost use Rattle.rp_value.specs.declared.table.Column.{Column};
ghost use Rattle.rp_lexer.specs.Lexes.{IsToken, Lexes};
ghost use Rattle.rp_tree.specs.Clauses.{clause_tree};
ghost use Rattle.rp_syntax.specs.ClauseGrammar.{Derives};
ghost use Rattle.rp_compile.specs.Compiled.{IsCompiled, IsCompileFault, told_check, told_lex, told_parse};
ghost use Rattle.rp_compile.specs.declared.compiling.CompileFault.TheVariants.{OutOfMemory};

use rp_check::check;
use rp_grammar::ParseFault;
use rp_lexer::{LexFault, Token, lex};
use rp_query::Query;
use rp_resolution::{CheckFault, Fault};
use rp_syntax::parse;
use rp_tree::Clause;
use rp_value::Table;
use std::alloc::{AllocError, AllocFailed, Global};
use thiserror::Error;

/// Why a text is no clause over a table, the first reason in the order of the variants.
#[derive(Clone, Copy, Debug, PartialEq, Eq, Error)]
pub enum CompileFault {
    /// The text has no tokens, for this first fault.
    #[error("{0}")]
    Lex(LexFault),
    /// Its tokens derive no clause.
    #[error("{0}")]
    Parse(ParseFault),
    /// The clause has faults, and this is the first.
    #[error("{0}")]
    Check(Fault),
    /// No memory was left. It says nothing of the text.
    #[error("out of memory")]
    OutOfMemory,
}

impl From<LexFault> for CompileFault {
    ghost from_gives = { λ why fault. fault ≡ told_lex why };

    fn from(why: LexFault) -> CompileFault {
        match why {
            LexFault::OutOfMemory => CompileFault::OutOfMemory,
            why => CompileFault::Lex(why),
        }
    }
}

impl From<ParseFault> for CompileFault {
    ghost from_gives = { λ why fault. fault ≡ told_parse why };

    fn from(why: ParseFault) -> CompileFault {
        match why {
            ParseFault::OutOfMemory => CompileFault::OutOfMemory,
            why => CompileFault::Parse(why),
        }
    }
}

impl From<CheckFault> for CompileFault {
    ghost from_gives = { λ why fault. fault ≡ told_check why };

    fn from(why: CheckFault) -> CompileFault {
        match why {
            CheckFault::Fault(fault) => CompileFault::Check(fault),
            CheckFault::OutOfMemory => CompileFault::OutOfMemory,
        }
    }
}

impl From<AllocError> for CompileFault {
    ghost from_gives = { λ _ fault. fault ≡ OutOfMemory };

    fn from(_error: AllocError) -> CompileFault {
        CompileFault::OutOfMemory
    }
}

impl<T: Drop> From<AllocFailed<T>> for CompileFault {
    ghost from_gives = { λ _ fault. fault ≡ OutOfMemory };

    fn from(_error: AllocFailed<T>) -> CompileFault {
        CompileFault::OutOfMemory
    }
}

/// The query of the clause that a text is, over a table; or the first fault of lexing, parsing and checking in turn.
///
/// `OutOfMemory` may come before any of them.
pub fn compile(alloc: Global, text: &str, table: &Table) -> Result<Query, CompileFault>
    ensures query { IfOk result (λ query. IsCompiled text.now table.now query) }
    ensures fault { IfErr result (λ fault. IsCompileFault text.now table.now fault) }
{
    let tokens = lex(alloc, text)?;
    let clause = parse(alloc, text, tokens.as_slice())?;
    let query = check(alloc, clause, table)?;
    Ok(query)
}
