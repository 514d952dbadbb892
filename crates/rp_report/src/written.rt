//! The names of output columns as a clause has them.

use rp_grammar::{Name, ParseFault};
use rp_lexer::{LexFault, Token, lex};
use rp_query::{OutputColumn, Source};
use rp_syntax::parse;
use rp_tree::Clause;
use rp_value::Text;
use std::alloc::{AllocError, Global};

/// The names that a clause gives to columns, as they are written.
#[derive(Drop)]
pub(crate) struct Written {
    /// Of each measure, in order.
    measures: Vec<String>,
    /// Of the columns of PARTITION BY and ORDER BY: what each means, and how it is written.
    columns: Vec<(Text, String)>,
}

impl Written {
    /// The names of a clause. There are none where the text is no clause.
    pub(crate) fn of(alloc: Global, text: &str) -> Result<Written, AllocError> {
        let mut written = Written {
            measures: Vec::new(alloc),
            columns: Vec::new(alloc),
        };
        written.read(alloc, text)?;
        Ok(written)
    }

    fn read(&mut self, alloc: Global, text: &str) -> Result<(), AllocError> {
        let tokens = match lex(alloc, text) {
            Ok(tokens) => tokens,
            Err(LexFault::OutOfMemory) => return Err(AllocError),
            Err(_) => return Ok(()),
        };
        match parse(alloc, text, tokens.as_slice()) {
            Ok(clause) => self.add_all(alloc, text, tokens.as_slice(), &clause),
            Err(ParseFault::OutOfMemory) => Err(AllocError),
            Err(_) => Ok(()),
        }
    }

    fn add_all(
        &mut self,
        alloc: Global,
        text: &str,
        tokens: &[Token],
        clause: &Clause,
    ) -> Result<(), AllocError> {
        for name in &clause.partition {
            self.add_column(alloc, text, tokens, name)?;
        }
        for order in &clause.order {
            self.add_column(alloc, text, tokens, &order.name)?;
        }
        for measure in &clause.measures {
            let name = written_at(alloc, text, tokens, measure.name.at)?;
            self.measures.push(name)?;
        }
        Ok(())
    }

    fn add_column(
        &mut self,
        alloc: Global,
        text: &str,
        tokens: &[Token],
        name: &Name,
    ) -> Result<(), AllocError> {
        let written = written_at(alloc, text, tokens, name.at)?;
        self.columns.push((name.text.share()?, written))?;
        Ok(())
    }

    /// The name of an output column as it is written; what it means, where it is written nowhere.
    pub(crate) fn name_of<'a>(&'a self, column: &'a OutputColumn) -> &'a str {
        let found = match column.from {
            Source::Measure(place) => self.measures.as_slice().get(place),
            Source::Column(_) => self
                .columns
                .iter()
                .find(|(meaning, _)| meaning.as_str() == column.name.as_str())
                .map(|(_, written)| written),
        };
        match found {
            Some(written) => written.as_str(),
            None => column.name.as_str(),
        }
    }
}

/// The name whose token begins at an offset: of a quoted one what is inside of its quotes.
fn written_at(
    alloc: Global,
    text: &str,
    tokens: &[Token],
    at: usize,
) -> Result<String, AllocError> {
    let Some(token) = tokens.iter().find(|token| token.start == at) else {
        return Ok(String::new(alloc));
    };
    let word = text.get(token.start..token.end).unwrap_or("");
    let Some(inside) = word
        .strip_prefix('"')
        .and_then(|rest| rest.strip_suffix('"'))
    else {
        return String::from_str(alloc, word);
    };
    let mut name = String::new(alloc);
    for (index, piece) in inside.split("\"\"").enumerate() {
        if index > 0 {
            name.push('"')?;
        }
        name.push_str(piece)?;
    }
    Ok(name)
}
