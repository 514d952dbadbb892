//! Cuts a text into its tokens.

ghost use Rattle.std.specs.Prelude.{◌≡◌, ◌≢◌, All, IfOk, IfErr};
ghost use Rattle.rp_lexer.specs.Lexes.{IsToken, Lexes};
ghost use Rattle.std.specs.Str.{IsCharBoundary};
ghost use Rattle.rp_lexer.specs.Faults.{IsFirstFault, offset};

use crate::fault::LexFault;
use crate::gap::gap_end;
use crate::scan::token_at;
use crate::token::Token;
use std::alloc::Global;

/// The tokens of a text, or its first fault. Space, tab, CR, LF and comments, `--` up to the end of the line,
/// stand between tokens and mean nothing else.
pub fn lex(alloc: Global, text: &str) -> Result<Vec<Token>, LexFault>
    ensures tokens { IfOk result (λ tokens. Lexes text.now tokens.items) }
    // So each may be asked for its meaning.
    ensures each_stands { IfOk result (λ tokens. All (IsToken text.now) tokens.items) }
    ensures fault { IfErr result (λ fault. fault ≢ LexFault.OutOfMemory → IsFirstFault text.now fault) }
    // A fault stands at the first byte of a character.
    ensures character { IfErr result (λ fault. IsCharBoundary text.now (offset fault)) }
{
    let bytes = text.as_bytes();
    let mut tokens = Vec::new(alloc);
    let mut at = gap_end(bytes, 0);
    while at < bytes.len() {
        let token = token_at(bytes, at)?;
        tokens.push(token)?;
        at = gap_end(bytes, token.end);
    }
    Ok(tokens)
}
