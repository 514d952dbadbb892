//! A clause in the statement that it was pasted with.

use crate::passed::{Passed, pass_over, place_of, push_blanks};
use crate::tried::is_filter;
use rp_compile::CompileFault;
use rp_grammar::ParseFault;
use rp_lexer::{Keyword, LexFault, TokenKind};
use rp_place::{Place, Span};
use rp_value::Table;
use rp_wording::{Pieces, Reading, closing, depth_behind, is_one_of, is_short, tokens_of};
use std::alloc::{AllocError, Global};

/// So many faults round a clause are passed over, at most.
const MOST: u32 = 64;

/// Words with which a statement goes on behind the condition of a WHERE.
const BEHIND_WHERE: &str =
    "GROUP ORDER HAVING LIMIT OFFSET FETCH WINDOW QUALIFY UNION EXCEPT INTERSECT";

/// What stands in MATCH_RECOGNIZE ( .. ), and that something stands before or behind it.
pub(crate) struct Statement {
    /// The statement with blanks in place of all that stands outside, so that each offset stays.
    pub(crate) inside: String,
    /// Where what stands inside is in the statement.
    pub(crate) span: Span,
    /// The statement as far as it has tokens.
    pub(crate) read: String,
    /// What is wrong before MATCH_RECOGNIZE, if something stands there.
    pub(crate) front: Option<CompileFault>,
    /// What is wrong behind its closing bracket, likewise.
    pub(crate) behind: Option<CompileFault>,
    /// Where the condition of a WHERE before MATCH_RECOGNIZE is, if one stands there.
    filter: Option<Span>,
}

/// It is let go of by a call, wherever it is held.
impl Drop for Statement {
    fn drop(self) {
        let Statement {
            inside: _,
            span: _,
            read: _,
            front: _,
            behind: _,
            filter: _,
        } = self;
    }
}

/// What stands outside of the brackets, and where.
#[derive(Clone, Copy)]
struct Outside {
    /// Where what stands inside is in the statement.
    span: Span,
    /// What is wrong before MATCH_RECOGNIZE, if something stands there.
    front: Option<CompileFault>,
    /// What is wrong behind its closing bracket, likewise.
    behind: Option<CompileFault>,
    /// Where the condition of a WHERE before MATCH_RECOGNIZE is, if one stands there.
    filter: Option<Span>,
}

/// The indices of the tokens round what stands inside.
#[derive(Clone, Copy)]
struct Brackets {
    /// Of the word MATCH_RECOGNIZE.
    word: usize,
    /// Of the closing bracket; the number of tokens where there is none.
    close: usize,
}

/// The statement round a clause; none where nothing stands round it.
pub(crate) fn statement_of(alloc: Global, text: &str) -> Result<Option<Statement>, AllocError> {
    let passed = pass_over(alloc, text, MOST)?;
    let Some(outside) = outside_of(alloc, text, &passed)? else {
        return Ok(None);
    };
    Ok(Some(Statement {
        inside: alone(alloc, text, outside.span)?,
        span: outside.span,
        read: passed.read,
        front: outside.front,
        behind: outside.behind,
        filter: outside.filter,
    }))
}

/// What stands outside of the first MATCH_RECOGNIZE ( .. ), if something does.
fn outside_of(alloc: Global, text: &str, passed: &Passed) -> Result<Option<Outside>, AllocError> {
    let tokens = tokens_of(alloc, passed.read.as_str())?;
    let reading = Reading {
        text,
        tokens: tokens.as_slice(),
        at: 0,
    };
    Ok(match brackets_of(&reading) {
        Some(brackets) => outside_brackets(&reading, passed.faults.as_slice(), brackets),
        None => None,
    })
}

/// The brackets of the first MATCH_RECOGNIZE ( .. ).
fn brackets_of(reading: &Reading<'_>) -> Option<Brackets> {
    for (word, token) in reading.tokens.iter().enumerate() {
        let open = word.saturating_add(1);
        let is_word = token.kind == TokenKind::Keyword(Keyword::MatchRecognize);
        if is_word && reading.written(open) == "(" {
            let close = closing(reading, open).unwrap_or(reading.tokens.len());
            return Some(Brackets { word, close });
        }
    }
    None
}

/// What stands outside of these brackets, if something does.
fn outside_brackets(
    reading: &Reading<'_>,
    faults: &[LexFault],
    brackets: Brackets,
) -> Option<Outside> {
    let word = start_of(reading, brackets.word);
    let close = start_of(reading, brackets.close);
    let before = Span {
        start: 0,
        end: word,
    };
    let front = fault_in(reading, faults, before);
    let behind = fault_in(reading, faults, behind_of(reading, close));
    if front.is_none() && behind.is_none() {
        return None;
    }
    let open = start_of(reading, brackets.word.saturating_add(1));
    let span = Span {
        start: open.saturating_add(1),
        end: close,
    };
    Some(Outside {
        span,
        front,
        behind,
        filter: filter_before(reading, brackets.word),
    })
}

/// The condition of the last WHERE before a token.
fn filter_before(reading: &Reading<'_>, end: usize) -> Option<Span> {
    let mut found = None;
    for index in 0..end {
        if is_one_of(reading.written(index), "WHERE") {
            found = Some(index.saturating_add(1));
        }
    }
    let first = found?;
    let last = condition_end(reading, first, end).saturating_sub(1);
    Some(Span {
        start: start_of(reading, first),
        end: end_of(reading, last),
    })
}

/// The index behind the condition that begins with a token, and ends before another one.
fn condition_end(reading: &Reading<'_>, start: usize, end: usize) -> usize {
    let mut depth = 0usize;
    for index in start..end {
        let word = reading.written(index);
        if depth == 0 && (word == ")" || is_one_of(word, BEHIND_WHERE)) {
            return index;
        }
        depth = match reading.kind(index) {
            Some(kind) => depth_behind(kind, depth),
            None => depth,
        };
    }
    end
}

/// Where a token begins; the text's end where there is none.
fn start_of(reading: &Reading<'_>, index: usize) -> usize {
    match reading.tokens.get(index) {
        Some(token) => token.start,
        None => reading.text.len(),
    }
}

/// Where a token ends; the text's end where there is none.
fn end_of(reading: &Reading<'_>, index: usize) -> usize {
    match reading.tokens.get(index) {
        Some(token) => token.end,
        None => reading.text.len(),
    }
}

/// What stands behind a closing bracket.
fn behind_of(reading: &Reading<'_>, close: usize) -> Span {
    Span {
        start: close.saturating_add(1),
        end: reading.text.len(),
    }
}

/// The fault that what stands in a part is: at its first token, or its first character with which none begins.
fn fault_in(reading: &Reading<'_>, faults: &[LexFault], part: Span) -> Option<CompileFault> {
    let token = first_token(reading, part);
    let Some(bad) = first_bad(faults, part) else {
        return Some(CompileFault::Parse(ParseFault::Expected(token?)));
    };
    match token {
        Some(at) if at < place_of(bad) => Some(CompileFault::Parse(ParseFault::Expected(at))),
        _ => Some(CompileFault::Lex(bad)),
    }
}

/// Where the first token of a part begins.
fn first_token(reading: &Reading<'_>, part: Span) -> Option<usize> {
    for token in reading.tokens {
        if token.start >= part.start && token.start < part.end {
            return Some(token.start);
        }
    }
    None
}

/// The first of the faults in a part.
fn first_bad(faults: &[LexFault], part: Span) -> Option<LexFault> {
    for fault in faults {
        let at = place_of(*fault);
        if at >= part.start && at < part.end {
            return Some(*fault);
        }
    }
    None
}

/// The text with a blank for each byte outside of a part, but its line ends.
fn alone(alloc: Global, text: &str, part: Span) -> Result<String, AllocError> {
    let mut out = Pieces::new(alloc);
    let before = Span {
        start: 0,
        end: part.start,
    };
    let behind = Span {
        start: part.end,
        end: text.len(),
    };
    push_blanks(&mut out, text, before);
    out.push(text.get(part.start..part.end).unwrap_or(""));
    push_blanks(&mut out, text, behind);
    out.finish()
}

impl Statement {
    /// Whether a fault stands outside.
    pub(crate) fn is_outside(&self, fault: &CompileFault) -> bool {
        let at = match fault {
            CompileFault::Lex(why) => place_of(*why),
            CompileFault::Parse(ParseFault::Expected(at)) => *at,
            CompileFault::Parse(ParseFault::Deep(at)) => *at,
            _ => return false,
        };
        at < self.span.start || at >= self.span.end
    }

    /// What to paste: where what stands inside begins and ends, by lines and columns.
    pub(crate) fn help(&self, alloc: Global, text: &str) -> Pieces {
        let all = text.get(self.span.start..self.span.end).unwrap_or("");
        let start = self.span.end.saturating_sub(all.trim_start().len());
        let end = self.span.start.saturating_add(all.trim_end().len());
        let mut help = Pieces::of(alloc, "give that alone, without its brackets: from ");
        let first = place_at(text, start);
        help.push_place(first.line, first.column());
        help.push(", to ");
        let last = place_at(text, end);
        help.push_place(last.line, last.column().saturating_sub(1));
        help
    }

    /// Adds a line of what leaves out the rows that a WHERE before MATCH_RECOGNIZE leaves out; nothing where there is none. The
    /// condition is written again where `--where` takes it.
    pub(crate) fn push_filter(
        &self,
        help: &mut Pieces,
        table: &Table,
        text: &str,
    ) -> Result<(), AllocError> {
        let Some(filter) = self.filter else {
            return Ok(());
        };
        help.push("\nrows that a WHERE leaves out are left out by --where");
        let condition = text.get(filter.start..filter.end).unwrap_or("");
        if is_short(condition) && is_filter(*self.inside.allocator(), table, condition)? {
            help.push(" ");
            push_shell_word(help, condition);
        }
        Ok(())
    }
}

/// Adds a condition as one word of a shell: in double quotes, where no character of it means more in them.
fn push_shell_word(help: &mut Pieces, condition: &str) {
    if is_plain(condition) {
        help.push_filled("\"{}\"", &[condition]);
    } else {
        help.push_shell_word(condition);
    }
}

/// Whether a shell takes no character of a text for more in double quotes.
fn is_plain(text: &str) -> bool {
    for byte in text.bytes() {
        if matches!(byte, b'"' | b'$' | b'`' | b'\\' | b'!') {
            return false;
        }
    }
    true
}

/// The place before a byte.
fn place_at(text: &str, at: usize) -> Place<'_> {
    Place::of(text, Span { start: at, end: at })
}
