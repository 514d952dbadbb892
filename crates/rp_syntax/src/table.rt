//! The text of a table: `sym text, t int, p int`.

ghost use Rattle.std.specs.Prelude.{◌≡◌, List, All, IfOk, IfErr};
ghost use Rattle.rp_lexer.specs.Lexes.{IsToken, Lexes};
ghost use Rattle.rp_grammar.specs.Readers.{Reads, itself};
ghost use Rattle.rp_value.specs.Tables.{column_of, columns_of};
ghost use Rattle.rp_value.specs.declared.table.Column.{Column};
ghost use Rattle.rp_syntax.specs.TableGrammar.{IsTableText, IsTextFault, column, column_kind, kind_called, table, told_lex, told_table};
ghost use Rattle.rp_syntax.specs.declared.table.TableTextFault.TheVariants.{OutOfMemory};

use crate::cursor::after;
use rp_grammar::{ParseFault, Parsed, name, named, place, token};
use rp_lexer::{LexFault, Mark, Token, TokenKind, law_lexes, lex};
use rp_value::{Kind, Table, TableFault};
use std::alloc::{AllocError, AllocFailed, Global};
use thiserror::Error;

/// Why a text is no table, with a byte offset from 0.
#[derive(Clone, Copy, Debug, PartialEq, Eq, Error)]
pub enum TableTextFault {
    /// The text has no tokens, for this first fault.
    #[error("{0}")]
    Lex(LexFault),
    /// The token that begins here can't follow those before it, or the text ends here too early.
    #[error("Expected at byte {0}")]
    Expected(usize),
    /// The columns that it names make no table.
    #[error("{0}")]
    Table(TableFault),
    /// No memory was left. It says nothing of the text.
    #[error("out of memory")]
    OutOfMemory,
}

impl From<LexFault> for TableTextFault {
    ghost from_gives = { λ why fault. fault ≡ told_lex why };

    fn from(why: LexFault) -> TableTextFault {
        match why {
            LexFault::OutOfMemory => TableTextFault::OutOfMemory,
            why => TableTextFault::Lex(why),
        }
    }
}

impl From<TableFault> for TableTextFault {
    ghost from_gives = { λ why fault. fault ≡ told_table why };

    fn from(why: TableFault) -> TableTextFault {
        match why {
            TableFault::OutOfMemory => TableTextFault::OutOfMemory,
            why => TableTextFault::Table(why),
        }
    }
}

impl From<AllocError> for TableTextFault {
    ghost from_gives = { λ _ fault. fault ≡ OutOfMemory };

    fn from(_error: AllocError) -> TableTextFault {
        TableTextFault::OutOfMemory
    }
}

impl<T: Drop> From<AllocFailed<T>> for TableTextFault {
    ghost from_gives = { λ _ fault. fault ≡ OutOfMemory };

    fn from(_error: AllocFailed<T>) -> TableTextFault {
        TableTextFault::OutOfMemory
    }
}

/// The kind that a name in upper case calls.
fn kind_called(name: &str) -> Option<Kind>
    ensures { result ≡ kind_called name.now }
{
    if name == "INT" || name == "INTEGER" || name == "BIGINT" {
        return Some(Kind::Int);
    }
    if name == "TEXT" || name == "VARCHAR" {
        return Some(Kind::Text);
    }
    None
}

/// The kind of a column, and what follows.
fn column_kind<'a>(alloc: Global, text: &str, tokens: &'a [Token]) -> Parsed<'a, Kind>
    requires stands { All (IsToken text.now) tokens.now }
    ensures { Reads column_kind itself text.now tokens.now result }
{
    let (token, rest) = token(text, tokens, TokenKind::Name)?;
    let word = named(alloc, text, token)?;
    match kind_called(word.text.as_str()) {
        Some(kind) => Ok((kind, rest)),
        None => Err(ParseFault::Expected(token.start)),
    }
}

/// A column's name and kind, and what follows.
fn column<'a>(alloc: Global, text: &str, tokens: &'a [Token]) -> Parsed<'a, (String, Kind)>
    requires stands { All (IsToken text.now) tokens.now }
    ensures { Reads column column_of text.now tokens.now result }
{
    let (name, rest) = name(alloc, text, tokens)?;
    let (kind, rest) = column_kind(alloc, text, rest)?;
    let name = String::from_str(alloc, name.text.as_str())?;
    Ok(((name, kind), rest))
}

/// Columns with commas between, and what follows.
fn columns<'a>(alloc: Global, text: &str, tokens: &'a [Token]) -> Parsed<'a, Vec<(String, Kind)>>
    requires stands { All (IsToken text.now) tokens.now }
    ensures { Reads table (λ x. columns_of x.items) text.now tokens.now result }
{
    let mut items = Vec::new(alloc);
    let mut rest = tokens;
    'items: loop {
        let (item, behind) = column(alloc, text, rest)?;
        items.push(item)?;
        match after(behind, TokenKind::Mark(Mark::Comma)) {
            Some(next) => rest = next,
            None => return Ok((items, behind)),
        }
    }
}

/// The columns that all tokens derive.
fn whole(alloc: Global, text: &str, tokens: &[Token]) -> Result<Vec<(String, Kind)>, TableTextFault>
    requires stands { All (IsToken text.now) tokens.now }
    requires lexed { Lexes text.now tokens.now }
    ensures table { IfOk result (λ columns. IsTableText text.now (columns_of columns.items)) }
    ensures fault { IfErr result (λ fault. IsTextFault text.now fault) }
{
    law_lexes();
    match columns(alloc, text, tokens) {
        Ok((columns, rest)) => {
            if !rest.is_empty() {
                return Err(TableTextFault::Expected(place(text, rest)));
            }
            Ok(columns)
        }
        Err(ParseFault::Expected(at)) => Err(TableTextFault::Expected(at)),
        Err(ParseFault::Deep(at)) => Err(TableTextFault::Expected(at)),
        Err(ParseFault::OutOfMemory) => Err(TableTextFault::OutOfMemory),
    }
}

/// The table of a text: names with their kinds, with commas between. Names mean what they do in a clause; kinds are the
/// words INT, INTEGER and BIGINT for whole numbers, TEXT and VARCHAR for texts, in any case. So `sym text, t int` is
/// the table of SYM and T.
///
/// The whole text is cut into tokens first, then read, and then its columns are looked through.
pub fn read_table(alloc: Global, text: &str) -> Result<Table, TableTextFault>
    ensures table { IfOk result (λ table. IsTableText text.now table) }
    ensures only { IfOk result
        (λ table. (columns : List Column) → IsTableText text.now columns → table ≡ columns) }
    ensures fault { IfErr result (λ fault. IsTextFault text.now fault) }
{
    law_lexes();
    let tokens = lex(alloc, text)?;
    let columns = whole(alloc, text, tokens.as_slice())?;
    Ok(Table::new(alloc, columns)?)
}
