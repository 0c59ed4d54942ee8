//! The reader of computations.
ghost use Rattle.std.specs.Prelude.{◌≡◌, ◌+◌, ◌<◌, ◌≤◌, length, IfOk};
ghost use Rattle.lido_base.specs.Reading.{nothing};
ghost use Rattle.lido_lexer.specs.Lexing.{Gains};
ghost use Rattle.lido_computations.specs.Functions.{Keeps};
ghost use Rattle.lido_computations.specs.Computations.{AreAfter, AreDependencies, AreSomeDependencies, IsComputation, IsDependency, IsTarget, IsValue, continues_after, continues_computation, continues_dependencies};
ghost use Rattle.lido_computations.specs.Expressions.{continues};
ghost use Rattle.lido_computations.specs.Parts.{ReadsWith};
ghost use Rattle.lido_computations.specs.Phrases.{ReadsSeen};
ghost use Rattle.lido_computations.specs.Places.{is_option};

use crate::ReadSpecFault;
use crate::counts::{Counts, number_behind};
use crate::expressions::expression;
use crate::names::{after_key, after_sign, keyword, name, sign};
use crate::places::{constituents, including, place, read};
use lido_base::{Boxed, List, Strings};
use lido_lexer::{Keyword, Sign, Token};
use lido_syntax::{Comp, Expr, Target};
use std::alloc::Global;

/// How many operators, calls and opening parentheses a computation may have.
pub(crate) const MOST_OPERATORS: u32 = 1000;

/// A dependency, and the number behind it.
fn dependency(
    alloc: Global,
    number: u32,
    tokens: &[Token],
    end: u32,
) -> Result<((Expr, u32), &[Token]), ReadSpecFault>
    ensures reads { ReadsSeen (λ e. e) (IsDependency number) is_option end tokens.now result }
    ensures shorter { IfOk result (λ x. length x.1.now < length tokens.now) }
{
    if let Some((word, rest)) = after_key(tokens, Keyword::Including) {
        let (tree, rest) = including(alloc, word.from, rest, end)?;
        return Ok(((tree, number), rest));
    }
    if let Some((word, rest)) = after_key(tokens, Keyword::Constituents) {
        let (found, rest) = constituents(alloc, word.from, number, rest, end)?;
        let behind = number_behind(number)?;
        let boxed = Boxed::new(alloc, found)?;
        return Ok(((Expr::Constituents(boxed), behind), rest));
    }
    let (attribute, rest) = read(tokens, end)?;
    Ok(((attribute, number), rest))
}

/// One or more dependencies with commas between them, and the number behind them.
fn some_dependencies(
    alloc: Global,
    number: u32,
    tokens: &[Token],
    end: u32,
) -> Result<((Vec<Expr>, u32), &[Token]), ReadSpecFault>
    ensures reads { ReadsSeen (λ x. (x.0.items, x.1)) (AreSomeDependencies number) continues_dependencies end tokens.now result }
    ensures shorter { IfOk result (λ x. length x.1.now < length tokens.now) }
{
    let ((first, mut behind), mut rest) = dependency(alloc, number, tokens, end)?;
    let mut found = vec![in alloc; first]?;
    while let Some((_, more)) = after_sign(rest, Sign::Comma) {
        let ((next, number), left) = dependency(alloc, behind, more, end)?;
        found.push(next)?;
        behind = number;
        rest = left;
    }
    Ok(((found, behind), rest))
}

/// One dependency, or several in parentheses, and the number behind them.
fn dependencies(
    alloc: Global,
    number: u32,
    tokens: &[Token],
    end: u32,
) -> Result<((Vec<Expr>, u32), &[Token]), ReadSpecFault>
    ensures reads { ReadsSeen (λ x. (x.0.items, x.1)) (AreDependencies number) is_option end tokens.now result }
    ensures shorter { IfOk result (λ x. length x.1.now < length tokens.now) }
{
    if let Some((_opening, rest)) = after_sign(tokens, Sign::ParenOpen) {
        let ((found, behind), rest) = some_dependencies(alloc, number, rest, end)?;
        let (_closing, rest) = sign(rest, end, Sign::ParenClose)?;
        return Ok(((found, behind), rest));
    }
    let ((single, behind), rest) = dependency(alloc, number, tokens, end)?;
    let all = vec![in alloc; single]?;
    Ok(((all, behind), rest))
}

/// The dependencies behind an arrow, if one comes next, and the number behind them.
pub(crate) fn dependencies_after(
    alloc: Global,
    number: u32,
    tokens: &[Token],
    end: u32,
) -> Result<((Vec<Expr>, u32), &[Token]), ReadSpecFault>
    ensures reads { ReadsSeen (λ x. (x.0.items, x.1)) (AreAfter number) continues_after end tokens.now result }
    ensures no_longer { IfOk result (λ x. length x.1.now ≤ length tokens.now) }
{
    match after_sign(tokens, Sign::Arrow) {
        Some((_arrow, rest)) => dependencies(alloc, number, rest, end),
        None => Ok(((Vec::new(alloc), number), tokens)),
    }
}

/// What a computation gives a value to, and where it begins.
fn target(tokens: &[Token], end: u32) -> Result<((u32, Target), &[Token]), ReadSpecFault>
    ensures reads { ReadsSeen (λ target. target) IsTarget nothing end tokens.now result }
    ensures shorter { IfOk result (λ x. length x.1.now < length tokens.now) }
{
    if let Some((word, rest)) = after_key(tokens, Keyword::Chainstart) {
        let (_head, rest) = keyword(rest, end, Keyword::Head)?;
        let (_dot, rest) = sign(rest, end, Sign::Dot)?;
        let (chain, rest) = name(rest, end)?;
        return Ok(((word.from, Target::Start(chain)), rest));
    }
    let (found, rest) = place(tokens, end, false)?;
    let (_before, rest) = sign(rest, end, Sign::Dot)?;
    let (attribute, rest) = name(rest, end)?;
    Ok(((found.0, Target::Attr(found.1, attribute)), rest))
}

/// The expression of the computation that has this number.
pub(crate) fn value<'a>(
    alloc: Global,
    number: u32,
    tokens: &'a [Token],
    end: u32,
    strings: &mut Strings,
) -> Result<((Expr, Counts), &'a [Token]), ReadSpecFault>
    ensures reads { ReadsWith (λ e. e) (λ texts. IsValue texts number) (continues 0) strings.new end tokens.now result }
    ensures shorter { IfOk result (λ x. length x.1.now < length tokens.now) }
    ensures kept { Gains strings.old strings.new }
    ensures same { Keeps strings.old strings.new }
    ensures few { length strings.new ≤ length strings.old + length tokens.now }
    ensures left { IfOk result (λ x. length strings.new + length x.1.now ≤ length strings.old + length tokens.now) }
{
    let behind = number_behind(number)?;
    let counts = Counts {
        budget: MOST_OPERATORS,
        number: behind,
    };
    expression(alloc, 0, counts, tokens, end, strings)
}

/// A computation, which has this number, and the number behind it.
///
/// Numbers are those of computations and CONSTITUENTS together: a computation has its own, and its CONSTITUENTS, those behind the
/// arrow too, have the next ones.
///
/// `end` is the place where the text of the tokens ends, in bytes. The names of operators' functions are added to `strings`, one
/// text for each token at most. `Syntax` is at the first token with which the tokens begin no computation, or at `end` where they
/// only begin one. `Memory` is want of memory, or of a number: there are 2^32 of them. At most 1,000 operators, calls and opening
/// parentheses are read, so deep goes the stack.
pub fn computation<'a>(
    alloc: Global,
    tokens: &'a [Token],
    end: u32,
    strings: &mut Strings,
    number: u32,
) -> Result<((Comp, u32), &'a [Token]), ReadSpecFault>
    ensures reads { ReadsWith (λ one. one) (λ texts. IsComputation texts number) continues_computation strings.new end tokens.now result }
    ensures shorter { IfOk result (λ x. length x.1.now < length tokens.now) }
    ensures kept { Gains strings.old strings.new }
    ensures same { Keeps strings.old strings.new }
    ensures few { length strings.new ≤ length strings.old + length tokens.now }
    ensures left { IfOk result (λ x. length strings.new + length x.1.now ≤ length strings.old + length tokens.now) }
{
    if let Some((word, rest)) = after_key(tokens, Keyword::PtgOut) {
        let (_opening, rest) = sign(rest, end, Sign::ParenOpen)?;
        let ((printed, left), rest) = value(alloc, number, rest, end, strings)?;
        let (_closing, rest) = sign(rest, end, Sign::ParenClose)?;
        let ((ordered, behind), rest) = dependencies_after(alloc, left.number, rest, end)?;
        let comp = Comp {
            at: word.from,
            number,
            target: Target::Out,
            value: printed,
            after: List::from_vec(ordered),
        };
        return Ok(((comp, behind), rest));
    }
    let (found, rest) = target(tokens, end)?;
    let (_equal, rest) = sign(rest, end, Sign::Equal)?;
    let ((given, left), rest) = value(alloc, number, rest, end, strings)?;
    let ((after, behind), rest) = dependencies_after(alloc, left.number, rest, end)?;
    let comp = Comp {
        at: found.0,
        number,
        target: found.1,
        value: given,
        after: List::from_vec(after),
    };
    Ok(((comp, behind), rest))
}
