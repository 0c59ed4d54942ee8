//! The right sides of rules.
ghost use Rattle.std.specs.Prelude.{◌≡◌, ◌<◌, ◌≤◌, [], length, IfOk, IfErr, IfSome};
ghost use Rattle.lido_base.specs.Reading.{Finds};
ghost use Rattle.lido_reader.specs.Items.{AreChoices, IsElement, IsFurtherElement, IsRight, Repeats, continues_right, is_bar, is_element};
ghost use Rattle.lido_computations.specs.Phrases.{LooksAhead, ReadsSeen};

use crate::ReadSpecFault;
use lido_computations::names::{after_sign, keyword, name};
use lido_lexer::{Keyword, Sign, Token, TokenKind, next};
use lido_syntax::{Element, Name};
use std::alloc::Global;

/// A right side: whether it is a LISTOF, and its elements.
#[derive(Debug, Drop)]
pub(crate) struct RightSide {
    pub list: bool,
    pub elements: Vec<Element>,
}

/// The element, if one comes next.
fn after_element(tokens: &[Token]) -> Option<(Element, &[Token])>
    ensures seen { LooksAhead IsElement tokens.now result }
    ensures shorter { IfSome result (λ x. length x.1.now < length tokens.now) }
{
    let (token, rest) = next(tokens)?;
    match token.what {
        TokenKind::Word(id) => Some((Element::Symbol(Name { at: token.from, id }), rest)),
        TokenKind::Literal(id) => Some((Element::Literal(id), rest)),
        _ => None,
    }
}

/// `{element}`
fn elements(alloc: Global, tokens: &[Token]) -> Result<(Vec<Element>, &[Token]), ReadSpecFault>
    ensures reads { IfOk result (λ x. Finds (Repeats IsFurtherElement []) is_element tokens.now x.0.items x.1.now) }
    ensures no_longer { IfOk result (λ x. length x.1.now ≤ length tokens.now) }
    ensures memory { IfErr result (λ fault. fault ≡ ReadSpecFault.Memory) }
{
    let mut all = Vec::new(alloc);
    let mut rest = tokens;
    while let Some((element, behind)) = after_element(rest) {
        all.push(element)?;
        rest = behind;
    }
    Ok((all, rest))
}

/// `name {"|" name}`
fn choices(
    alloc: Global,
    tokens: &[Token],
    end: u32,
) -> Result<(Vec<Element>, &[Token]), ReadSpecFault>
    ensures reads { ReadsSeen (λ all. all.items) AreChoices is_bar end tokens.now result }
    ensures shorter { IfOk result (λ x. length x.1.now < length tokens.now) }
{
    let (first, mut rest) = name(tokens, end)?;
    let mut all = vec![in alloc; Element::Symbol(first)]?;
    while let Some((_, behind_bar)) = after_sign(rest, Sign::Bar) {
        let (more, behind) = name(behind_bar, end)?;
        all.push(Element::Symbol(more))?;
        rest = behind;
    }
    Ok((all, rest))
}

/// `"::=" {element} | "LISTOF" name {"|" name}`
pub(crate) fn right_side(
    alloc: Global,
    tokens: &[Token],
    end: u32,
) -> Result<(RightSide, &[Token]), ReadSpecFault>
    ensures reads { ReadsSeen (λ right. (right.list, right.elements.items)) IsRight continues_right end tokens.now result }
    ensures shorter { IfOk result (λ x. length x.1.now < length tokens.now) }
{
    if let Some((_, behind_sign)) = after_sign(tokens, Sign::Produces) {
        let (produced, rest) = elements(alloc, behind_sign)?;
        return Ok((
            RightSide {
                list: false,
                elements: produced,
            },
            rest,
        ));
    }
    let (_, behind_word) = keyword(tokens, end, Keyword::Listof)?;
    let (listed, rest) = choices(alloc, behind_word, end)?;
    Ok((
        RightSide {
            list: true,
            elements: listed,
        },
        rest,
    ))
}
