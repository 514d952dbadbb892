//! The text of columns: `card = text("Card No"), t = seconds("Booked At"), cents = decimal("Amount", 2), qty int`.

ghost use Rattle.std.specs.Prelude.{◌≡◌, List, All, IfOk, IfErr, map};
ghost use Rattle.rp_lexer.specs.Lexes.{IsToken, Lexes};
ghost use Rattle.rp_columns.specs.ColumnsGrammar.{AreWritten, written_tree};
ghost use Rattle.rp_columns.specs.ColumnsText.{AreColumnsOf, IsColumnsFault, IsUnresolved};
ghost use Rattle.rp_columns.specs.Resolved.{AreColumns};
ghost use Rattle.rp_columns.specs.declared.columns.InputColumn.{InputColumn as Heading};
ghost use Rattle.rp_columns.specs.declared.columns_text.ColumnsFault.TheVariants.{OutOfMemory};

use crate::columns::{Columns, InputColumn};
use crate::grammar::columns;
use crate::resolve::column_of;
use crate::written::Written;
use rp_grammar::{ParseFault, place};
use rp_lexer::{LexFault, Token, law_lexes, lex};
use rp_value::TableFault;
use std::alloc::{AllocError, AllocFailed, Global};
use thiserror::Error;

/// Why a text has no columns, with a byte offset from 0.
#[derive(Clone, Copy, Debug, PartialEq, Eq, Error)]
pub enum ColumnsFault {
    /// The text has no tokens, for this first fault.
    #[error("{0}")]
    Lex(LexFault),
    /// The token that begins here can't follow those before it, or the text ends here too early.
    #[error("Expected at byte {0}")]
    Expected(usize),
    /// The word that begins here calls no reading, or none that takes what stands behind it.
    #[error("Reading at byte {0}")]
    Reading(usize),
    /// The columns that it names make no table.
    #[error("{0}")]
    Table(TableFault),
    /// No memory was left. It says nothing of the text.
    #[error("out of memory")]
    OutOfMemory,
}

impl From<AllocError> for ColumnsFault {
    ghost from_gives = { λ _ fault. fault ≡ OutOfMemory };

    fn from(_error: AllocError) -> ColumnsFault {
        ColumnsFault::OutOfMemory
    }
}

impl<T: Drop> From<AllocFailed<T>> for ColumnsFault {
    ghost from_gives = { λ _ fault. fault ≡ OutOfMemory };

    fn from(_error: AllocFailed<T>) -> ColumnsFault {
        ColumnsFault::OutOfMemory
    }
}

/// The columns that all tokens derive.
fn whole(alloc: Global, text: &str, tokens: &[Token]) -> Result<Vec<Written>, ColumnsFault>
    requires stands { All (IsToken text.now) tokens.now }
    requires lexed { Lexes text.now tokens.now }
    ensures written { IfOk result (λ written. AreWritten text.now (map written_tree written.items)) }
    ensures fault { IfErr result (λ fault. IsColumnsFault text.now fault) }
{
    law_lexes();
    match columns(alloc, text, tokens) {
        Ok((written, rest)) => {
            if !rest.is_empty() {
                return Err(ColumnsFault::Expected(place(text, rest)));
            }
            Ok(written)
        }
        Err(ParseFault::Expected(at)) => Err(ColumnsFault::Expected(at)),
        Err(ParseFault::Deep(at)) => Err(ColumnsFault::Expected(at)),
        Err(ParseFault::OutOfMemory) => Err(ColumnsFault::OutOfMemory),
    }
}

/// What columns as they are written mean.
fn resolved(alloc: Global, written: &[Written]) -> Result<Vec<InputColumn>, ColumnsFault>
    ensures columns { IfOk result (λ columns. AreColumns (map written_tree written.now) columns.items) }
    ensures fault { IfErr result (λ fault. IsUnresolved (map written_tree written.now) fault) }
{
    let mut columns = Vec::new(alloc);
    for column in written {
        match column_of(alloc, column)? {
            Some(found) => columns.push(found)?,
            None => return Err(ColumnsFault::Reading(column.called.reading.at)),
        }
    }
    Ok(columns)
}

/// The columns of a text, with commas between. `name = reading(source, ..)` is a column whose fields stand under that source
/// in the header; `name reading` is `name = reading(name)`. Names mean what they do in a clause. The readings, in any case:
///
///     text(C), lower(C)              a text; with small letters for the capital ones of ASCII
///     int(C)                         a whole number
///     decimal(C, 2)                  1234.56 as 123456; decimal(C, 2, ',') with 1,234.56; decimal(C, 2, '.', ',') with 1.234,56
///     seconds(C), millis(C), micros(C)   an instant since 1970 UTC; seconds(C, '+01:00') or seconds(C, 'Europe/Berlin') where
///                                    fields have no offset; by a format seconds(C, '%d/%m/%Y %H:%M %z') or
///                                    seconds(C, '%d/%m/%Y %H:%M', 'Europe/Berlin')
///     date(C)                        days since 1970; date(C, '%d.%m.%Y') by a format
///     record()                       the number of the record, from 1, and no field of it
///
/// The rules of a region that it names aren't loaded yet: `Columns::with_rules` does that.
pub fn read_columns(alloc: Global, text: &str) -> Result<Columns, ColumnsFault>
    ensures columns { IfOk result (λ columns. AreColumnsOf text.now columns) }
    ensures only { IfOk result (λ columns. (others : List Heading) → AreColumnsOf text.now others → columns ≡ others) }
    ensures fault { IfErr result (λ fault. IsColumnsFault text.now fault) }
{
    law_lexes();
    let tokens = match lex(alloc, text) {
        Ok(tokens) => tokens,
        Err(LexFault::OutOfMemory) => return Err(ColumnsFault::OutOfMemory),
        Err(why) => return Err(ColumnsFault::Lex(why)),
    };
    let written = whole(alloc, text, tokens.as_slice())?;
    let columns = resolved(alloc, written.as_slice())?;
    match Columns::new(alloc, columns) {
        Ok(columns) => Ok(columns),
        Err(TableFault::OutOfMemory) => Err(ColumnsFault::OutOfMemory),
        Err(why) => Err(ColumnsFault::Table(why)),
    }
}
