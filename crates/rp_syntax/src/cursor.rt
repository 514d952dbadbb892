//! What follows a token at the front of a list.

ghost use Rattle.std.specs.Prelude.{◌≡◌, MatchOption, false, [], ◌∷◌};
ghost use Rattle.rp_grammar.specs.Grammar.{Stands};
ghost use Rattle.rp_grammar.specs.Reading.{starts};

use rp_lexer::{Token, TokenKind};

/// What follows a token of this kind, where the tokens begin with one.
pub(crate) fn after(tokens: &[Token], kind: TokenKind) -> Option<&[Token]>
    ensures { MatchOption result (starts (kind ∷ []) tokens.now ≡ false)
        (λ rest. Stands (kind ∷ []) (λ token. token.kind) tokens.now kind rest.now) }
{
    match tokens.split_first() {
        Some((first, rest)) if first.kind == kind => Some(rest),
        _ => None,
    }
}
