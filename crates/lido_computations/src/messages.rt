//! The readers of messages: plain computations, which give no value to an attribute.
ghost use Rattle.std.specs.Prelude.{◌≡◌, ◌+◌, ◌<◌, ◌≤◌, ◌↔◌, IsTrue, length, IfOk, IfSome};
ghost use Rattle.lido_base.specs.Reading.{nothing};
ghost use Rattle.lido_lexer.specs.Lexing.{Gains};
ghost use Rattle.lido_lexer.specs.Seen.{Sees};
ghost use Rattle.lido_computations.specs.Functions.{Keeps};
ghost use Rattle.lido_computations.specs.Computations.{continues_computation};
ghost use Rattle.lido_computations.specs.Messages.{IsConditional, IsMessageOf, IsPlacing, IsSeverity, IsUnconditional, severity_of};
ghost use Rattle.lido_computations.specs.Parts.{ReadsWith};
ghost use Rattle.lido_computations.specs.Phrases.{LooksAhead, ReadsSeen};

use crate::ReadSpecFault;
use crate::computations::{MOST_OPERATORS, dependencies_after, value};
use crate::counts::{Counts, number_behind};
use crate::expressions::expression;
use crate::names::{after_name, sign, stop};
use lido_base::{Boxed, List, StrId, Strings};
use lido_lexer::{Sign, Token, TokenKind, next};
use lido_syntax::{Comp, Expr, Severity, Target};
use std::alloc::Global;

/// The ids of the words that messages are made of: `message`, `NOTE`, `WARNING`, `ERROR` and `COORDREF`. None is a keyword.
#[derive(Clone, Copy, Debug, PartialEq, Eq)]
pub struct MessageWords {
    pub message: StrId,
    pub note: StrId,
    pub warning: StrId,
    pub error: StrId,
    pub coordref: StrId,
}

/// Whether the token says this.
fn says(token: Token, what: TokenKind) -> bool
    ensures { IsTrue result ↔ (token.what ≡ what) }
{
    token.what == what
}

/// The token that says this, if it comes next.
pub(crate) fn after_token(tokens: &[Token], wanted: TokenKind) -> Option<(Token, &[Token])>
    ensures seen { LooksAhead (Sees wanted) tokens.now result }
    ensures shorter { IfSome result (λ x. length x.1.now < length tokens.now) }
{
    let (token, rest) = next(tokens)?;
    if says(token, wanted) {
        Some((token, rest))
    } else {
        None
    }
}

/// A token that must come next.
fn token(tokens: &[Token], end: u32, wanted: TokenKind) -> Result<(Token, &[Token]), ReadSpecFault>
    ensures reads { ReadsSeen (λ token. token) (Sees wanted) nothing end tokens.now result }
    ensures shorter { IfOk result (λ x. length x.1.now < length tokens.now) }
{
    match after_token(tokens, wanted) {
        Some((found, rest)) => Ok((found, rest)),
        None => Err(stop(tokens, end)),
    }
}

/// How severe a message is whose word has this id.
fn severity_of(words: MessageWords, id: StrId) -> Option<Severity>
    ensures { result ≡ severity_of words id }
{
    if id.0 == words.note.0 {
        Some(Severity::Note)
    } else if id.0 == words.warning.0 {
        Some(Severity::Warning)
    } else if id.0 == words.error.0 {
        Some(Severity::Error)
    } else {
        None
    }
}

/// `"NOTE" | "WARNING" | "ERROR"`
fn severity(
    tokens: &[Token],
    end: u32,
    words: MessageWords,
) -> Result<(Severity, &[Token]), ReadSpecFault>
    ensures reads { ReadsSeen (λ severity. severity) (IsSeverity words) nothing end tokens.now result }
    ensures shorter { IfOk result (λ x. length x.1.now < length tokens.now) }
{
    let Some((word, rest)) = after_name(tokens) else {
        return Err(stop(tokens, end));
    };
    match severity_of(words, word.id) {
        Some(found) => Ok((found, rest)),
        None => Err(stop(tokens, end)),
    }
}

/// What stands behind the text of a message: `"," "0" "," "COORDREF" ")"`.
fn placing(
    tokens: &[Token],
    end: u32,
    words: MessageWords,
) -> Result<(Token, &[Token]), ReadSpecFault>
    ensures reads { ReadsSeen (λ token. token) (IsPlacing words) nothing end tokens.now result }
    ensures shorter { IfOk result (λ x. length x.1.now < length tokens.now) }
{
    let (_before_zero, rest) = sign(tokens, end, Sign::Comma)?;
    let (_zero, rest) = token(rest, end, TokenKind::Int(0))?;
    let (_before_word, rest) = sign(rest, end, Sign::Comma)?;
    let (_word, rest) = token(rest, end, TokenKind::Word(words.coordref))?;
    sign(rest, end, Sign::ParenClose)
}

/// What stands behind the word `message`: `"(" sev "," expr "," "0" "," "COORDREF" ")"`. Its severity, and its text.
fn message_of<'a>(
    alloc: Global,
    words: MessageWords,
    counts: Counts,
    tokens: &'a [Token],
    end: u32,
    strings: &mut Strings,
) -> Result<(((Severity, Expr), Counts), &'a [Token]), ReadSpecFault>
    ensures reads { ReadsWith (λ message. message) (λ texts. IsMessageOf words texts counts) nothing strings.new end tokens.now result }
    ensures shorter { IfOk result (λ x. length x.1.now < length tokens.now) }
    ensures kept { Gains strings.old strings.new }
    ensures same { Keeps strings.old strings.new }
    ensures few { length strings.new ≤ length strings.old + length tokens.now }
    ensures left { IfOk result (λ x. length strings.new + length x.1.now ≤ length strings.old + length tokens.now) }
{
    let (_opening, rest) = sign(tokens, end, Sign::ParenOpen)?;
    let (found, rest) = severity(rest, end, words)?;
    let (_comma, rest) = sign(rest, end, Sign::Comma)?;
    let ((text, left), rest) = expression(alloc, 0, counts, rest, end, strings)?;
    let (_closing, rest) = placing(rest, end, words)?;
    Ok((((found, text), left), rest))
}

/// What stands behind the word `message` that begins a plain computation, which has this number and this place; and the number
/// behind it.
pub(crate) fn unconditional<'a>(
    alloc: Global,
    number: u32,
    at: u32,
    words: MessageWords,
    tokens: &'a [Token],
    end: u32,
    strings: &mut Strings,
) -> Result<((Comp, u32), &'a [Token]), ReadSpecFault>
    ensures reads { ReadsWith (λ one. one) (λ texts. IsUnconditional words texts number at) continues_computation
        strings.new end tokens.now result }
    ensures shorter { IfOk result (λ x. length x.1.now < length tokens.now) }
    ensures kept { Gains strings.old strings.new }
    ensures same { Keeps strings.old strings.new }
    ensures few { length strings.new ≤ length strings.old + length tokens.now }
    ensures left { IfOk result (λ x. length strings.new + length x.1.now ≤ length strings.old + length tokens.now) }
{
    let next = number_behind(number)?;
    let counts = Counts {
        budget: MOST_OPERATORS,
        number: next,
    };
    let (((severity, text), left), rest) = message_of(alloc, words, counts, tokens, end, strings)?;
    let ((after, behind), rest) = dependencies_after(alloc, left.number, rest, end)?;
    let comp = Comp {
        at,
        number,
        target: Target::Message(severity, None),
        value: text,
        after: List::from_vec(after),
    };
    Ok(((comp, behind), rest))
}

/// What stands behind the word IF that begins a plain computation, which has this number and this place; and the number behind it.
pub(crate) fn conditional<'a>(
    alloc: Global,
    number: u32,
    at: u32,
    words: MessageWords,
    tokens: &'a [Token],
    end: u32,
    strings: &mut Strings,
) -> Result<((Comp, u32), &'a [Token]), ReadSpecFault>
    ensures reads { ReadsWith (λ one. one) (λ texts. IsConditional words texts number at) continues_computation
        strings.new end tokens.now result }
    ensures shorter { IfOk result (λ x. length x.1.now < length tokens.now) }
    ensures kept { Gains strings.old strings.new }
    ensures same { Keeps strings.old strings.new }
    ensures few { length strings.new ≤ length strings.old + length tokens.now }
    ensures left { IfOk result (λ x. length strings.new + length x.1.now ≤ length strings.old + length tokens.now) }
{
    let (_opening, rest) = sign(tokens, end, Sign::ParenOpen)?;
    let ((condition, allowed), rest) = value(alloc, number, rest, end, strings)?;
    let (_comma, rest) = sign(rest, end, Sign::Comma)?;
    let (_word, rest) = token(rest, end, TokenKind::Word(words.message))?;
    let (((severity, text), left), rest) = message_of(alloc, words, allowed, rest, end, strings)?;
    let (_closing, rest) = sign(rest, end, Sign::ParenClose)?;
    let ((after, behind), rest) = dependencies_after(alloc, left.number, rest, end)?;
    let boxed = Boxed::new(alloc, condition)?;
    let comp = Comp {
        at,
        number,
        target: Target::Message(severity, Some(boxed)),
        value: text,
        after: List::from_vec(after),
    };
    Ok(((comp, behind), rest))
}
