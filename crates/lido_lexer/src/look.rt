//! One token of look-ahead, for the readers of grammars over tokens.
ghost use Rattle.std.specs.Prelude.{◌≡◌, ◌↔◌, ◌∷◌, [], IsTrue, MatchOption};

use crate::{Keyword, Sign, Token, TokenKind};

/// The next token, and those behind it.
pub fn next(tokens: &[Token]) -> Option<(Token, &[Token])>
    ensures { MatchOption result (tokens.now ≡ []) (λ x. tokens.now ≡ x.0 ∷ x.1.now) }
{
    match tokens {
        [token, rest @ ..] => Some((*token, rest)),
        [] => None,
    }
}

/// Whether the token is this sign.
pub fn is_sign(token: Token, sign: Sign) -> bool
    ensures { IsTrue result ↔ (token.what ≡ TokenKind.Sign sign) }
{
    match token.what {
        TokenKind::Sign(found) => found == sign,
        _ => false,
    }
}

/// Whether the token is this keyword.
pub fn is_key(token: Token, keyword: Keyword) -> bool
    ensures { IsTrue result ↔ (token.what ≡ TokenKind.Key keyword) }
{
    match token.what {
        TokenKind::Key(found) => found == keyword,
        _ => false,
    }
}
