//! The words that many phrases share: signs, keywords, names, types, and names with commas between them.
//!
//! `end` is always the place where the text of the tokens ends, in bytes. What must come next and does not is answered by `Syntax`
//! at the place of the token that stands there instead, or at `end`.
ghost use Rattle.std.specs.Prelude.{◌≡◌, ◌<◌, length, IfOk, IfSome};
ghost use Rattle.lido_base.specs.Reading.{nothing};
ghost use Rattle.lido_lexer.specs.Seen.{Signs, Keys};
ghost use Rattle.lido_computations.specs.Phrases.{AreSeparated, IsName, IsType, LooksAhead, ReadsSeen, is_comma, place_of, type_of};

use crate::ReadSpecFault;
use lido_base::ValueType;
use lido_lexer::{Keyword, Sign, Token, TokenKind, is_key, is_sign, next};
use lido_syntax::Name;
use std::alloc::Global;

/// The fault where the next token, or the end, fits nothing.
pub fn stop(tokens: &[Token], end: u32) -> ReadSpecFault
    ensures { result ≡ ReadSpecFault.Syntax (place_of end tokens.now) }
{
    match next(tokens) {
        Some((token, _)) => ReadSpecFault::Syntax { at: token.from },
        None => ReadSpecFault::Syntax { at: end },
    }
}

/// The sign, if it comes next.
pub fn after_sign(tokens: &[Token], wanted: Sign) -> Option<(Token, &[Token])>
    ensures seen { LooksAhead (Signs wanted) tokens.now result }
    ensures shorter { IfSome result (λ x. length x.1.now < length tokens.now) }
{
    let (token, rest) = next(tokens)?;
    if is_sign(token, wanted) {
        Some((token, rest))
    } else {
        None
    }
}

/// The keyword, if it comes next.
pub fn after_key(tokens: &[Token], wanted: Keyword) -> Option<(Token, &[Token])>
    ensures seen { LooksAhead (Keys wanted) tokens.now result }
    ensures shorter { IfSome result (λ x. length x.1.now < length tokens.now) }
{
    let (token, rest) = next(tokens)?;
    if is_key(token, wanted) {
        Some((token, rest))
    } else {
        None
    }
}

/// The name, if one comes next.
pub fn after_name(tokens: &[Token]) -> Option<(Name, &[Token])>
    ensures seen { LooksAhead IsName tokens.now result }
    ensures shorter { IfSome result (λ x. length x.1.now < length tokens.now) }
{
    let (token, rest) = next(tokens)?;
    match token.what {
        TokenKind::Word(id) => Some((Name { at: token.from, id }, rest)),
        _ => None,
    }
}

/// The type that a keyword names.
fn type_of(word: Keyword) -> Option<ValueType>
    ensures { result ≡ type_of word }
{
    match word {
        Keyword::Int => Some(ValueType::Int),
        Keyword::Str => Some(ValueType::Str),
        Keyword::Bool => Some(ValueType::Bool),
        Keyword::PtgNode => Some(ValueType::Text),
        Keyword::Void => Some(ValueType::Void),
        _ => None,
    }
}

/// The type, if one comes next.
pub fn after_type(tokens: &[Token]) -> Option<(ValueType, &[Token])>
    ensures seen { LooksAhead IsType tokens.now result }
    ensures shorter { IfSome result (λ x. length x.1.now < length tokens.now) }
{
    let (token, rest) = next(tokens)?;
    let TokenKind::Key(word) = token.what else {
        return None;
    };
    Some((type_of(word)?, rest))
}

/// A sign that must come next.
pub fn sign(tokens: &[Token], end: u32, wanted: Sign) -> Result<(Token, &[Token]), ReadSpecFault>
    ensures reads { ReadsSeen (λ token. token) (Signs wanted) nothing end tokens.now result }
    ensures shorter { IfOk result (λ x. length x.1.now < length tokens.now) }
{
    match after_sign(tokens, wanted) {
        Some((found, rest)) => Ok((found, rest)),
        None => Err(stop(tokens, end)),
    }
}

/// A keyword that must come next.
pub fn keyword(
    tokens: &[Token],
    end: u32,
    wanted: Keyword,
) -> Result<(Token, &[Token]), ReadSpecFault>
    ensures reads { ReadsSeen (λ token. token) (Keys wanted) nothing end tokens.now result }
    ensures shorter { IfOk result (λ x. length x.1.now < length tokens.now) }
{
    match after_key(tokens, wanted) {
        Some((found, rest)) => Ok((found, rest)),
        None => Err(stop(tokens, end)),
    }
}

/// A name that must come next.
pub fn name(tokens: &[Token], end: u32) -> Result<(Name, &[Token]), ReadSpecFault>
    ensures reads { ReadsSeen (λ name. name) IsName nothing end tokens.now result }
    ensures shorter { IfOk result (λ x. length x.1.now < length tokens.now) }
{
    match after_name(tokens) {
        Some((found, rest)) => Ok((found, rest)),
        None => Err(stop(tokens, end)),
    }
}

/// A type that must come next.
pub fn value_type(tokens: &[Token], end: u32) -> Result<(ValueType, &[Token]), ReadSpecFault>
    ensures reads { ReadsSeen (λ ty. ty) IsType nothing end tokens.now result }
    ensures shorter { IfOk result (λ x. length x.1.now < length tokens.now) }
{
    match after_type(tokens) {
        Some((found, rest)) => Ok((found, rest)),
        None => Err(stop(tokens, end)),
    }
}

/// One or more names with commas between them. A comma behind them must have a name behind it. `Memory` is want of memory.
pub fn names(
    alloc: Global,
    tokens: &[Token],
    end: u32,
) -> Result<(Vec<Name>, &[Token]), ReadSpecFault>
    ensures reads { ReadsSeen (λ names. names.items) (AreSeparated IsName) is_comma end tokens.now result }
    ensures shorter { IfOk result (λ x. length x.1.now < length tokens.now) }
{
    let (first, mut rest) = name(tokens, end)?;
    let mut found = vec![in alloc; first]?;
    while let Some((_, more)) = after_sign(rest, Sign::Comma) {
        let (next, left) = name(more, end)?;
        found.push(next)?;
        rest = left;
    }
    Ok((found, rest))
}
