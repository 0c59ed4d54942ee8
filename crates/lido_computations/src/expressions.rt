//! The reader of expressions.
//!
//! It goes down an expression, whose operators, calls and parentheses the budget bounds; the arguments of a call are a loop.
ghost use Rattle.std.specs.Prelude.{◌≡◌, ◌+◌, ◌<◌, ◌≤◌, None, Some, ◌∷◌, List as Sequence, ℕ, length, IfOk, MatchOption};
ghost use Rattle.lido_lexer.specs.Lexing.{Gains};
ghost use Rattle.lido_lexer.specs.declared.token.Token.{Token as Read};
ghost use Rattle.lido_computations.specs.Functions.{Keeps};
ghost use Rattle.lido_computations.specs.Expressions.{AreOperands, AreSome, IsExpr, IsPrimary, continues, infix_of, prefix_of, start_of};
ghost use Rattle.lido_computations.specs.Parts.{AreNumbered, IsCalled, IsChoice, IsCounted, IsIndexed, IsNamed, IsOrder, IsParenthesized, ReadsWith, continues_list, follows};
ghost use Rattle.lido_computations.specs.Phrases.{ReadsSeen, Then};
ghost use Rattle.lido_computations.specs.Places.{IsIndex, is_option};

use crate::ReadSpecFault;
use crate::counts::{Counts, number_behind, spend};
use crate::names::{after_sign, name, sign, stop};
use crate::operators::{Start, begins, constant, function_name, infix, prefix};
use crate::places::{attribute_at, constituents, including, index, read};
use lido_base::{Boxed, List, Strings};
use lido_lexer::{Keyword, Sign, Token, is_key, is_sign, next};
use lido_syntax::{Expr, Name, Place};
use std::alloc::Global;

/// A prefix operator with its function, if one comes next.
fn after_prefix(tokens: &[Token]) -> Option<(Token, &'static [u8], &[Token])>
    ensures { MatchOption result
        ((t : Read) (us : Sequence Read) (f : Sequence ℕ) → tokens.now ≡ t ∷ us → prefix_of t.what ≡ Some f → ⊥)
        (λ x. (tokens.now ≡ x.0 ∷ x.2.now) × (prefix_of x.0.what ≡ Some x.1.now)) }
{
    let (token, rest) = next(tokens)?;
    let function = prefix(token.what)?;
    Some((token, function, rest))
}

/// An infix operator of the level with its function, if one comes next.
fn after_infix(tokens: &[Token], level: u32) -> Option<(Token, &'static [u8], &[Token])>
    ensures { MatchOption result
        ((t : Read) (us : Sequence Read) (f : Sequence ℕ) → tokens.now ≡ t ∷ us → infix_of t.what ≡ Some (level, f) → ⊥)
        (λ x. (tokens.now ≡ x.0 ∷ x.2.now) × (infix_of x.0.what ≡ Some (level, x.1.now))) }
{
    let (token, rest) = next(tokens)?;
    let (found, function) = infix(token.what)?;
    if found == level {
        Some((token, function, rest))
    } else {
        None
    }
}

/// An expression whose infix operators bind at least as tightly as the level says; above level 5 it has none.
#[cycle(expression)]
pub(crate) fn expression<'a>(
    alloc: Global,
    level: u32,
    counts: Counts,
    tokens: &'a [Token],
    end: u32,
    strings: &mut Strings,
) -> Result<((Expr, Counts), &'a [Token]), ReadSpecFault>
    requires { level ≤ 6 }
    ensures reads { ReadsWith (λ e. e) (λ texts. IsExpr texts level counts) (continues level) strings.new end tokens.now result }
    ensures shorter { IfOk result (λ x. length x.1.now < length tokens.now) }
    ensures kept { Gains strings.old strings.new }
    ensures same { Keeps strings.old strings.new }
    ensures few { length strings.new ≤ length strings.old + length tokens.now }
    ensures left { IfOk result (λ x. length strings.new + length x.1.now ≤ length strings.old + length tokens.now) }
{
    let ((mut tree, mut left), mut rest) = unary(alloc, counts, tokens, end, strings)?;
    let mut at = 6;
    while at > level {
        at -= 1;
        let ((whole, behind), after) = operands(alloc, at, tree, left, rest, end, strings)?;
        tree = whole;
        left = behind;
        rest = after;
    }
    Ok(((tree, left), rest))
}

/// The operators of a level behind their first operand, with their right operands. They group to the left.
#[cycle(expression)]
fn operands<'a>(
    alloc: Global,
    level: u32,
    first: Expr,
    counts: Counts,
    tokens: &'a [Token],
    end: u32,
    strings: &mut Strings,
) -> Result<((Expr, Counts), &'a [Token]), ReadSpecFault>
    requires { level < 6 }
    ensures reads { ReadsWith (λ e. e) (λ texts. AreOperands texts level (first, counts)) (continues level)
        strings.new end tokens.now result }
    ensures no_longer { IfOk result (λ x. length x.1.now ≤ length tokens.now) }
    ensures kept { Gains strings.old strings.new }
    ensures same { Keeps strings.old strings.new }
    ensures few { length strings.new ≤ length strings.old + length tokens.now }
    ensures left { IfOk result (λ x. length strings.new + length x.1.now ≤ length strings.old + length tokens.now) }
{
    let Some((token, function, rest)) = after_infix(tokens, level) else {
        return Ok(((first, counts), tokens));
    };
    let Some(counts) = spend(counts) else {
        return Err(stop(tokens, end));
    };
    let word = function_name(strings, function, token.from)?;
    let ((second, counts), rest) = expression(alloc, level + 1, counts, rest, end, strings)?;
    let both = vec![in alloc; first, second]?;
    let whole = Expr::Call(word, List::from_vec(both));
    operands(alloc, level, whole, counts, rest, end, strings)
}

/// A prefix operator and its operand, or a primary.
#[cycle(expression)]
fn unary<'a>(
    alloc: Global,
    counts: Counts,
    tokens: &'a [Token],
    end: u32,
    strings: &mut Strings,
) -> Result<((Expr, Counts), &'a [Token]), ReadSpecFault>
    ensures reads { ReadsWith (λ e. e) (λ texts. IsExpr texts 6 counts) (continues 6) strings.new end tokens.now result }
    ensures shorter { IfOk result (λ x. length x.1.now < length tokens.now) }
    ensures kept { Gains strings.old strings.new }
    ensures same { Keeps strings.old strings.new }
    ensures few { length strings.new ≤ length strings.old + length tokens.now }
    ensures left { IfOk result (λ x. length strings.new + length x.1.now ≤ length strings.old + length tokens.now) }
{
    let Some((token, function, rest)) = after_prefix(tokens) else {
        return primary(alloc, counts, tokens, end, strings);
    };
    let Some(counts) = spend(counts) else {
        return Err(stop(tokens, end));
    };
    let word = function_name(strings, function, token.from)?;
    let ((inner, counts), rest) = expression(alloc, 6, counts, rest, end, strings)?;
    let one = vec![in alloc; inner]?;
    Ok(((Expr::Call(word, List::from_vec(one)), counts), rest))
}

/// An operand without an operator.
#[cycle(expression)]
fn primary<'a>(
    alloc: Global,
    counts: Counts,
    tokens: &'a [Token],
    end: u32,
    strings: &mut Strings,
) -> Result<((Expr, Counts), &'a [Token]), ReadSpecFault>
    ensures reads { ReadsWith (λ e. e) (λ texts. IsPrimary texts counts) follows strings.new end tokens.now result }
    ensures shorter { IfOk result (λ x. length x.1.now < length tokens.now) }
    ensures kept { Gains strings.old strings.new }
    ensures same { Keeps strings.old strings.new }
    ensures few { length strings.new ≤ length strings.old + length tokens.now }
    ensures left { IfOk result (λ x. length strings.new + length x.1.now ≤ length strings.old + length tokens.now) }
{
    let Some((token, rest)) = next(tokens) else {
        return Err(stop(tokens, end));
    };
    match begins(token.what) {
        Start::Constant => {
            let Some(tree) = constant(token.from, token.what) else {
                return Err(stop(tokens, end));
            };
            Ok(((tree, counts), rest))
        }
        Start::Counted => {
            let Some(left) = spend(counts) else {
                return Err(stop(tokens, end));
            };
            counted(alloc, token, left, rest, end, strings)
        }
        Start::Including => {
            let (tree, rest) = including(alloc, token.from, rest, end)?;
            Ok(((tree, counts), rest))
        }
        Start::Constituents => numbered(alloc, token.from, counts, rest, end),
        Start::Context => {
            let (tree, rest) = read(tokens, end)?;
            Ok(((tree, counts), rest))
        }
        Start::Word => {
            let (word, rest) = name(tokens, end)?;
            named(alloc, word, counts, rest, end, strings)
        }
        Start::Other => Err(stop(tokens, end)),
    }
}

/// What stands behind CONSTITUENTS, with its number.
fn numbered(
    alloc: Global,
    at: u32,
    counts: Counts,
    tokens: &[Token],
    end: u32,
) -> Result<((Expr, Counts), &[Token]), ReadSpecFault>
    ensures reads { ReadsSeen (λ e. e) (AreNumbered at counts) is_option end tokens.now result }
    ensures shorter { IfOk result (λ x. length x.1.now < length tokens.now) }
{
    let (found, rest) = constituents(alloc, at, counts.number, tokens, end)?;
    let number = number_behind(counts.number)?;
    let boxed = Boxed::new(alloc, found)?;
    let counts = Counts {
        budget: counts.budget,
        number,
    };
    Ok(((Expr::Constituents(boxed), counts), rest))
}

/// What stands behind a token that counts.
#[cycle(expression)]
fn counted<'a>(
    alloc: Global,
    token: Token,
    counts: Counts,
    tokens: &'a [Token],
    end: u32,
    strings: &mut Strings,
) -> Result<((Expr, Counts), &'a [Token]), ReadSpecFault>
    requires { start_of token.what ≡ Start.Counted }
    ensures reads { ReadsWith (λ e. e) (λ texts. IsCounted texts token counts) follows strings.new end tokens.now result }
    ensures no_longer { IfOk result (λ x. length x.1.now ≤ length tokens.now) }
    ensures kept { Gains strings.old strings.new }
    ensures same { Keeps strings.old strings.new }
    ensures few { length strings.new ≤ length strings.old + length tokens.now + 1 }
    ensures left { IfOk result (λ x. length strings.new + length x.1.now ≤ length strings.old + length tokens.now + 1) }
{
    if is_sign(token, Sign::ParenOpen) {
        return parenthesized(alloc, counts, tokens, end, strings);
    }
    if is_key(token, Keyword::PtgNull) {
        let word = function_name(strings, b"PTGNULL", token.from)?;
        return Ok(((Expr::Call(word, List::new(alloc)), counts), tokens));
    }
    if is_key(token, Keyword::If) {
        return choice(alloc, token.from, counts, tokens, end, strings);
    }
    order(alloc, token.from, counts, tokens, end, strings)
}

/// An expression and the parenthesis that closes it.
#[cycle(expression)]
fn parenthesized<'a>(
    alloc: Global,
    counts: Counts,
    tokens: &'a [Token],
    end: u32,
    strings: &mut Strings,
) -> Result<((Expr, Counts), &'a [Token]), ReadSpecFault>
    ensures reads { ReadsWith (λ e. e) (λ texts. IsParenthesized texts counts) follows strings.new end tokens.now result }
    ensures shorter { IfOk result (λ x. length x.1.now < length tokens.now) }
    ensures kept { Gains strings.old strings.new }
    ensures same { Keeps strings.old strings.new }
    ensures few { length strings.new ≤ length strings.old + length tokens.now }
    ensures left { IfOk result (λ x. length strings.new + length x.1.now ≤ length strings.old + length tokens.now) }
{
    let ((tree, counts), rest) = expression(alloc, 0, counts, tokens, end, strings)?;
    let (_closing, rest) = sign(rest, end, Sign::ParenClose)?;
    Ok(((tree, counts), rest))
}

/// The three expressions behind IF.
#[cycle(expression)]
fn choice<'a>(
    alloc: Global,
    at: u32,
    counts: Counts,
    tokens: &'a [Token],
    end: u32,
    strings: &mut Strings,
) -> Result<((Expr, Counts), &'a [Token]), ReadSpecFault>
    ensures reads { ReadsWith (λ e. e) (λ texts. IsChoice texts at counts) follows strings.new end tokens.now result }
    ensures shorter { IfOk result (λ x. length x.1.now < length tokens.now) }
    ensures kept { Gains strings.old strings.new }
    ensures same { Keeps strings.old strings.new }
    ensures few { length strings.new ≤ length strings.old + length tokens.now + 1 }
    ensures left { IfOk result (λ x. length strings.new + length x.1.now ≤ length strings.old + length tokens.now + 1) }
{
    let word = function_name(strings, b"IF", at)?;
    let (_opening, rest) = sign(tokens, end, Sign::ParenOpen)?;
    let ((first, counts), rest) = expression(alloc, 0, counts, rest, end, strings)?;
    let (_before_second, rest) = sign(rest, end, Sign::Comma)?;
    let ((second, counts), rest) = expression(alloc, 0, counts, rest, end, strings)?;
    let (_before_third, rest) = sign(rest, end, Sign::Comma)?;
    let ((third, counts), rest) = expression(alloc, 0, counts, rest, end, strings)?;
    let (_closing, rest) = sign(rest, end, Sign::ParenClose)?;
    let three = vec![in alloc; first, second, third]?;
    Ok(((Expr::Call(word, List::from_vec(three)), counts), rest))
}

/// The expressions behind ORDER.
#[cycle(expression)]
fn order<'a>(
    alloc: Global,
    at: u32,
    counts: Counts,
    tokens: &'a [Token],
    end: u32,
    strings: &mut Strings,
) -> Result<((Expr, Counts), &'a [Token]), ReadSpecFault>
    ensures reads { ReadsWith (λ e. e) (λ texts. IsOrder texts at counts) follows strings.new end tokens.now result }
    ensures shorter { IfOk result (λ x. length x.1.now < length tokens.now) }
    ensures kept { Gains strings.old strings.new }
    ensures same { Keeps strings.old strings.new }
    ensures few { length strings.new ≤ length strings.old + length tokens.now + 1 }
    ensures left { IfOk result (λ x. length strings.new + length x.1.now ≤ length strings.old + length tokens.now + 1) }
{
    let word = function_name(strings, b"ORDER", at)?;
    let (_opening, rest) = sign(tokens, end, Sign::ParenOpen)?;
    let ((args, counts), rest) = some_expressions(alloc, counts, rest, end, strings)?;
    let (_closing, rest) = sign(rest, end, Sign::ParenClose)?;
    Ok(((Expr::Call(word, List::from_vec(args)), counts), rest))
}

/// What stands behind a name: arguments, or an index and maybe an attribute.
#[cycle(expression)]
fn named<'a>(
    alloc: Global,
    word: Name,
    counts: Counts,
    tokens: &'a [Token],
    end: u32,
    strings: &mut Strings,
) -> Result<((Expr, Counts), &'a [Token]), ReadSpecFault>
    ensures reads { ReadsWith (λ e. e) (λ texts. IsNamed texts counts word) follows strings.new end tokens.now result }
    ensures no_longer { IfOk result (λ x. length x.1.now ≤ length tokens.now) }
    ensures kept { Gains strings.old strings.new }
    ensures same { Keeps strings.old strings.new }
    ensures few { length strings.new ≤ length strings.old + length tokens.now }
    ensures left { IfOk result (λ x. length strings.new + length x.1.now ≤ length strings.old + length tokens.now) }
{
    if let Some((_opening, rest)) = after_sign(tokens, Sign::ParenOpen) {
        let Some(left) = spend(counts) else {
            return Err(stop(tokens, end));
        };
        return called(alloc, word, left, rest, end, strings);
    }
    indexed(word, counts, tokens, end)
}

/// A name's index, and maybe an attribute.
fn indexed(
    word: Name,
    counts: Counts,
    tokens: &[Token],
    end: u32,
) -> Result<((Expr, Counts), &[Token]), ReadSpecFault>
    ensures reads { (texts : Sequence (Sequence ℕ)) → ReadsSeen (λ e. e) (Then IsIndex (λ i. IsIndexed texts counts word i)) follows
        end tokens.now result }
    ensures no_longer { IfOk result (λ x. length x.1.now ≤ length tokens.now) }
{
    let (i, rest) = index(tokens, end)?;
    let Some((_dot, _)) = after_sign(rest, Sign::Dot) else {
        return Ok(((Expr::Terminal(word, i), counts), rest));
    };
    let (tree, rest) = attribute_at(word.at, Place::Named(word, i), rest, end)?;
    Ok(((tree, counts), rest))
}

/// The arguments of a call and the parenthesis that closes them.
#[cycle(expression)]
fn called<'a>(
    alloc: Global,
    word: Name,
    counts: Counts,
    tokens: &'a [Token],
    end: u32,
    strings: &mut Strings,
) -> Result<((Expr, Counts), &'a [Token]), ReadSpecFault>
    ensures reads { ReadsWith (λ e. e) (λ texts. IsCalled texts word counts) follows strings.new end tokens.now result }
    ensures shorter { IfOk result (λ x. length x.1.now < length tokens.now) }
    ensures kept { Gains strings.old strings.new }
    ensures same { Keeps strings.old strings.new }
    ensures few { length strings.new ≤ length strings.old + length tokens.now }
    ensures left { IfOk result (λ x. length strings.new + length x.1.now ≤ length strings.old + length tokens.now) }
{
    if let Some((_closing, rest)) = after_sign(tokens, Sign::ParenClose) {
        return Ok(((Expr::Call(word, List::new(alloc)), counts), rest));
    }
    let ((args, counts), rest) = some_expressions(alloc, counts, tokens, end, strings)?;
    let (_closing, rest) = sign(rest, end, Sign::ParenClose)?;
    Ok(((Expr::Call(word, List::from_vec(args)), counts), rest))
}

/// One or more expressions with commas between them.
#[cycle(expression)]
fn some_expressions<'a>(
    alloc: Global,
    counts: Counts,
    tokens: &'a [Token],
    end: u32,
    strings: &mut Strings,
) -> Result<((Vec<Expr>, Counts), &'a [Token]), ReadSpecFault>
    ensures reads { ReadsWith (λ x. (x.0.items, x.1)) (λ texts. AreSome texts counts) continues_list strings.new end tokens.now result }
    ensures shorter { IfOk result (λ x. length x.1.now < length tokens.now) }
    ensures kept { Gains strings.old strings.new }
    ensures same { Keeps strings.old strings.new }
    ensures few { length strings.new ≤ length strings.old + length tokens.now }
    ensures left { IfOk result (λ x. length strings.new + length x.1.now ≤ length strings.old + length tokens.now) }
{
    let ((first, mut left), mut rest) = expression(alloc, 0, counts, tokens, end, strings)?;
    let mut found = vec![in alloc; first]?;
    while let Some((_, more)) = after_sign(rest, Sign::Comma) {
        let ((next, counts), behind) = expression(alloc, 0, left, more, end, strings)?;
        found.push(next)?;
        left = counts;
        rest = behind;
    }
    Ok(((found, left), rest))
}
