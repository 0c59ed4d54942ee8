//! The readers of places of attributes and of remote attributes.
ghost use Rattle.std.specs.Prelude.{◌≡◌, ◌<◌, ◌≤◌, ℤ, Some, None, length, IfOk, IfSome};
ghost use Rattle.lido_base.specs.Reading.{nothing};
ghost use Rattle.lido_computations.specs.Phrases.{AreSeparated, IsName, LooksAhead, ReadsSeen, is_comma};
ghost use Rattle.lido_computations.specs.Places.{AreConstituentsOf, AreListed, IsIncludingOf, IsIndex, IsInt, IsContext, IsPair, IsPlace, IsRead, IsReadOf, IsShield, IsWith, IsWithOf, in_reads, in_targets, is_bracket, is_option, is_shield, is_with, words_of};

use crate::ReadSpecFault;
use crate::names::{after_key, after_sign, name, names, sign, stop, value_type};
use lido_base::List;
use lido_lexer::{Keyword, Sign, Token, TokenKind, next};
use lido_syntax::{Cons, Expr, Name, Pair, Place, With};
use std::alloc::Global;

/// A pair `symbol.attribute`.
fn pair(tokens: &[Token], end: u32) -> Result<(Pair, &[Token]), ReadSpecFault>
    ensures reads { ReadsSeen (λ pair. pair) IsPair nothing end tokens.now result }
    ensures shorter { IfOk result (λ x. length x.1.now < length tokens.now) }
{
    let (sym, rest) = name(tokens, end)?;
    let (_dot, rest) = sign(rest, end, Sign::Dot)?;
    let (attr, rest) = name(rest, end)?;
    Ok((Pair { sym, attr }, rest))
}

/// One or more pairs with commas between them.
fn pairs(alloc: Global, tokens: &[Token], end: u32) -> Result<(Vec<Pair>, &[Token]), ReadSpecFault>
    ensures reads { ReadsSeen (λ pairs. pairs.items) (AreSeparated IsPair) is_comma end tokens.now result }
    ensures shorter { IfOk result (λ x. length x.1.now < length tokens.now) }
{
    let (first, mut rest) = pair(tokens, end)?;
    let mut found = vec![in alloc; first]?;
    while let Some((_, more)) = after_sign(rest, Sign::Comma) {
        let (next, left) = pair(more, end)?;
        found.push(next)?;
        rest = left;
    }
    Ok((found, rest))
}

/// An int, if one comes next.
fn after_int(tokens: &[Token]) -> Option<(i64, &[Token])>
    ensures seen { LooksAhead IsInt tokens.now result }
    ensures shorter { IfSome result (λ x. length x.1.now < length tokens.now) }
{
    let (token, rest) = next(tokens)?;
    match token.what {
        TokenKind::Int(i) => Some((i, rest)),
        _ => None,
    }
}

/// An int that must come next.
fn int(tokens: &[Token], end: u32) -> Result<(i64, &[Token]), ReadSpecFault>
    ensures reads { ReadsSeen (λ i. i) IsInt nothing end tokens.now result }
    ensures shorter { IfOk result (λ x. length x.1.now < length tokens.now) }
{
    match after_int(tokens) {
        Some((i, rest)) => Ok((i, rest)),
        None => Err(stop(tokens, end)),
    }
}

/// An index in brackets, if a bracket comes next.
pub(crate) fn index(tokens: &[Token], end: u32) -> Result<(Option<i64>, &[Token]), ReadSpecFault>
    ensures reads { ReadsSeen (λ i. i) IsIndex is_bracket end tokens.now result }
    ensures no_longer { IfOk result (λ x. length x.1.now ≤ length tokens.now) }
{
    let Some((_opening, rest)) = after_sign(tokens, Sign::BracketOpen) else {
        return Ok((None, tokens));
    };
    let (i, rest) = int(rest, end)?;
    let (_closing, rest) = sign(rest, end, Sign::BracketClose)?;
    Ok((Some(i), rest))
}

/// The place that a word stands for where an attribute is computed.
fn place_in_target(word: Keyword) -> Option<Place>
    ensures { result ≡ in_targets word }
{
    match word {
        Keyword::Synt => Some(Place::Synt),
        Keyword::Inh => Some(Place::Inh),
        Keyword::This => Some(Place::This),
        _ => None,
    }
}

/// The place that a word stands for where an attribute is read.
fn place_in_read(word: Keyword) -> Option<Place>
    ensures { result ≡ in_reads word }
{
    match word {
        Keyword::Tail => Some(Place::Tail),
        _ => place_in_target(word),
    }
}

/// The place that a word stands for, where an attribute is read or is computed.
fn place_by_word(word: Keyword, reads: bool) -> Option<Place>
    ensures { result ≡ words_of reads word }
{
    if reads {
        place_in_read(word)
    } else {
        place_in_target(word)
    }
}

/// The place that a word stands for, if such a word comes next, and where it begins.
fn after_context(tokens: &[Token], reads: bool) -> Option<((u32, Place), &[Token])>
    ensures seen { LooksAhead (IsContext (words_of reads)) tokens.now result }
    ensures shorter { IfSome result (λ x. length x.1.now < length tokens.now) }
{
    let (token, rest) = next(tokens)?;
    let TokenKind::Key(word) = token.what else {
        return None;
    };
    let place = place_by_word(word, reads)?;
    Some(((token.from, place), rest))
}

/// A place, where TAIL may stand or not, and where it begins.
pub(crate) fn place(
    tokens: &[Token],
    end: u32,
    reads: bool,
) -> Result<((u32, Place), &[Token]), ReadSpecFault>
    ensures reads { ReadsSeen (λ place. place) (IsPlace (words_of reads)) is_bracket end tokens.now result }
    ensures shorter { IfOk result (λ x. length x.1.now < length tokens.now) }
{
    if let Some((found, rest)) = after_context(tokens, reads) {
        return Ok((found, rest));
    }
    let (word, rest) = name(tokens, end)?;
    let (i, rest) = index(rest, end)?;
    Ok(((word.at, Place::Named(word, i)), rest))
}

/// What is read at a place: the attribute behind the dot.
pub(crate) fn attribute_at(
    at: u32,
    place: Place,
    tokens: &[Token],
    end: u32,
) -> Result<(Expr, &[Token]), ReadSpecFault>
    ensures reads { ReadsSeen (λ e. e) (IsReadOf (at, place)) nothing end tokens.now result }
    ensures shorter { IfOk result (λ x. length x.1.now < length tokens.now) }
{
    let (_dot, rest) = sign(tokens, end, Sign::Dot)?;
    let (attribute, rest) = name(rest, end)?;
    Ok((Expr::Read(at, place, attribute), rest))
}

/// An attribute or a chain at a place.
pub(crate) fn read(tokens: &[Token], end: u32) -> Result<(Expr, &[Token]), ReadSpecFault>
    ensures reads { ReadsSeen (λ e. e) IsRead nothing end tokens.now result }
    ensures shorter { IfOk result (λ x. length x.1.now < length tokens.now) }
{
    let (found, rest) = place(tokens, end, true)?;
    attribute_at(found.0, found.1, rest, end)
}

/// One pair, or several in parentheses.
fn listed_pairs(
    alloc: Global,
    tokens: &[Token],
    end: u32,
) -> Result<(Vec<Pair>, &[Token]), ReadSpecFault>
    ensures reads { ReadsSeen (λ pairs. pairs.items) (AreListed IsPair) nothing end tokens.now result }
    ensures shorter { IfOk result (λ x. length x.1.now < length tokens.now) }
{
    if let Some((_opening, rest)) = after_sign(tokens, Sign::ParenOpen) {
        let (found, rest) = pairs(alloc, rest, end)?;
        let (_closing, rest) = sign(rest, end, Sign::ParenClose)?;
        return Ok((found, rest));
    }
    let (single, rest) = pair(tokens, end)?;
    let all = vec![in alloc; single]?;
    Ok((all, rest))
}

/// One name, or several in parentheses.
fn listed_names(
    alloc: Global,
    tokens: &[Token],
    end: u32,
) -> Result<(Vec<Name>, &[Token]), ReadSpecFault>
    ensures reads { ReadsSeen (λ names. names.items) (AreListed IsName) nothing end tokens.now result }
    ensures shorter { IfOk result (λ x. length x.1.now < length tokens.now) }
{
    if let Some((_opening, rest)) = after_sign(tokens, Sign::ParenOpen) {
        let (found, rest) = names(alloc, rest, end)?;
        let (_closing, rest) = sign(rest, end, Sign::ParenClose)?;
        return Ok((found, rest));
    }
    let (single, rest) = name(tokens, end)?;
    let all = vec![in alloc; single]?;
    Ok((all, rest))
}

/// What stands behind INCLUDING.
pub(crate) fn including(
    alloc: Global,
    at: u32,
    tokens: &[Token],
    end: u32,
) -> Result<(Expr, &[Token]), ReadSpecFault>
    ensures reads { ReadsSeen (λ e. e) (IsIncludingOf at) nothing end tokens.now result }
    ensures shorter { IfOk result (λ x. length x.1.now < length tokens.now) }
{
    let (found, rest) = listed_pairs(alloc, tokens, end)?;
    Ok((Expr::Including(at, List::from_vec(found)), rest))
}

/// SHIELD and its names, if it comes next.
fn shield(alloc: Global, tokens: &[Token], end: u32) -> Result<(Vec<Name>, &[Token]), ReadSpecFault>
    ensures reads { ReadsSeen (λ names. names.items) IsShield is_shield end tokens.now result }
    ensures no_longer { IfOk result (λ x. length x.1.now ≤ length tokens.now) }
{
    match after_key(tokens, Keyword::Shield) {
        Some((_word, rest)) => listed_names(alloc, rest, end),
        None => Ok((Vec::new(alloc), tokens)),
    }
}

/// What stands behind WITH.
fn with_of(tokens: &[Token], end: u32) -> Result<(Option<With>, &[Token]), ReadSpecFault>
    ensures reads { ReadsSeen (λ with. with) IsWithOf nothing end tokens.now result }
    ensures shorter { IfOk result (λ x. length x.1.now < length tokens.now) }
{
    let (_opening, rest) = sign(tokens, end, Sign::ParenOpen)?;
    let (ty, rest) = value_type(rest, end)?;
    let (_before_comb, rest) = sign(rest, end, Sign::Comma)?;
    let (comb, rest) = name(rest, end)?;
    let (_before_single, rest) = sign(rest, end, Sign::Comma)?;
    let (single, rest) = name(rest, end)?;
    let (_before_null, rest) = sign(rest, end, Sign::Comma)?;
    let (null, rest) = name(rest, end)?;
    let (_closing, rest) = sign(rest, end, Sign::ParenClose)?;
    let with = With {
        ty,
        comb,
        single,
        null,
    };
    Ok((Some(with), rest))
}

/// WITH and its functions, if it comes next.
fn with(tokens: &[Token], end: u32) -> Result<(Option<With>, &[Token]), ReadSpecFault>
    ensures reads { ReadsSeen (λ with. with) IsWith is_with end tokens.now result }
    ensures no_longer { IfOk result (λ x. length x.1.now ≤ length tokens.now) }
{
    match after_key(tokens, Keyword::With) {
        Some((_word, rest)) => with_of(rest, end),
        None => Ok((None, tokens)),
    }
}

/// What stands behind CONSTITUENTS, which has this number.
pub(crate) fn constituents(
    alloc: Global,
    at: u32,
    number: u32,
    tokens: &[Token],
    end: u32,
) -> Result<(Cons, &[Token]), ReadSpecFault>
    ensures reads { ReadsSeen (λ k. k) (AreConstituentsOf at number) is_option end tokens.now result }
    ensures shorter { IfOk result (λ x. length x.1.now < length tokens.now) }
{
    let (found, rest) = listed_pairs(alloc, tokens, end)?;
    let (shielded, rest) = shield(alloc, rest, end)?;
    let (folded, rest) = with(rest, end)?;
    let found = Cons {
        at,
        number,
        pairs: List::from_vec(found),
        shield: List::from_vec(shielded),
        with: folded,
    };
    Ok((found, rest))
}
