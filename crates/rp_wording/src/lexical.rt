//! Why a text has no tokens.

use crate::characters::{bad_character, no_number, open_quote};
use crate::text_report::TextReport;
use rp_lexer::LexFault;
use rp_place::Span;
use std::alloc::AllocError;

/// Adds to a report why its text has no tokens. What is said of a character goes by what the text is called.
pub fn explain_lex(report: &mut TextReport<'_>, fault: LexFault) -> Result<(), AllocError> {
    let (alloc, source) = (report.alloc(), report.source);
    let text = source.shown;
    let (part, advice) = match fault {
        LexFault::BadChar(at) => {
            let before = source.read.get(..at).unwrap_or("");
            let advice = bad_character(alloc, report.name, before, text.get(at..).unwrap_or(""))?;
            (character_at(text, at), advice)
        }
        LexFault::OpenText(at) => (to_end(text, at), open_quote(alloc, text, at, "text", "'")),
        LexFault::OpenName(at) => (to_end(text, at), open_quote(alloc, text, at, "name", "\"")),
        LexFault::NumberRange(at) => (digits_at(text, at), no_number(alloc)),
        LexFault::OutOfMemory => return Ok(()),
    };
    report.point(part, &advice)
}

/// The character at an offset.
fn character_at(text: &str, at: usize) -> Span {
    let rest = text.get(at..).unwrap_or("");
    let length = match rest.chars().next() {
        Some(character) => character.len_utf8(),
        None => 0,
    };
    Span {
        start: at,
        end: at.saturating_add(length),
    }
}

/// All from an offset on.
fn to_end(text: &str, at: usize) -> Span {
    Span {
        start: at,
        end: text.len(),
    }
}

/// The digits from an offset on.
fn digits_at(text: &str, at: usize) -> Span {
    let rest = text.get(at..).unwrap_or("");
    let digits = rest
        .bytes()
        .take_while(|byte| byte.is_ascii_digit())
        .count();
    Span {
        start: at,
        end: at.saturating_add(digits),
    }
}
