//! Tokens before their texts have ids.
ghost use Rattle.std.specs.Prelude.{◌≡◌, ◌<◌, List, ℕ, length, IfOk, IfSome, IfNone};
ghost use Rattle.lido_lexer.specs.Tokens.{Shown, IsFront};
ghost use Rattle.lido_lexer.specs.Lexemes.{said};

use crate::Sign;
use crate::numbers::number_front;
use crate::quoted::{literal_front, string_front};
use crate::sign::sign_front;
use crate::words::name_front;
use std::alloc::{AllocError, Global};

/// What a token says, with its text.
#[derive(Drop)]
pub enum Lexeme<'a> {
    /// A name or a keyword.
    Name(&'a [u8]),
    Int(i64),
    Sign(Sign),
    Literal(&'a [u8]),
    Str(Vec<u8>),
}

/// What the token in front says, and what stands behind it.
pub fn lexeme_front<'a>(
    alloc: Global,
    bytes: &'a [u8],
) -> Result<Option<(Lexeme<'a>, &'a [u8])>, AllocError>
    ensures some { IfOk result (λ found. IfSome found (λ x. IsFront bytes.now (said x.0) x.1.now)) }
    ensures shorter { IfOk result (λ found. IfSome found (λ x. length x.1.now < length bytes.now)) }
    ensures none { IfOk result (λ found. IfNone found ((shown : Shown) (rest : List ℕ) → IsFront bytes.now shown rest → ⊥)) }
{
    if let Some((name, rest)) = name_front(bytes) {
        return Ok(Some((Lexeme::Name(name), rest)));
    }
    if let Some((value, rest)) = number_front(bytes) {
        return Ok(Some((Lexeme::Int(value), rest)));
    }
    if let Some((sign, rest)) = sign_front(bytes) {
        return Ok(Some((Lexeme::Sign(sign), rest)));
    }
    if let Some((text, rest)) = literal_front(bytes) {
        return Ok(Some((Lexeme::Literal(text), rest)));
    }
    match string_front(alloc, bytes)? {
        Some((text, rest)) => Ok(Some((Lexeme::Str(text), rest))),
        None => Ok(None),
    }
}
