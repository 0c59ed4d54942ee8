//! Computations as they stand in the bodies of rules and symbols.
ghost use Rattle.std.specs.Prelude.{◌≡◌, ◌+◌, ◌<◌, ◌≤◌, List as Sequence, length, IfOk, MatchOption};
ghost use Rattle.lido_lexer.specs.Lexing.{Gains};
ghost use Rattle.lido_lexer.specs.Seen.{Sees, Signs};
ghost use Rattle.lido_lexer.specs.declared.token.Token.{Token as Read};
ghost use Rattle.lido_computations.specs.Functions.{Keeps};
ghost use Rattle.lido_computations.specs.Computations.{continues_computation};
ghost use Rattle.lido_computations.specs.Messages.{IsComputationIn, IsRuleComputation, IsSymbolComputation};
ghost use Rattle.lido_computations.specs.Parts.{ReadsWith};

use crate::ReadSpecFault;
use crate::computations::computation;
use crate::messages::{MessageWords, after_token, conditional, unconditional};
use crate::names::{after_key, after_sign, stop};
use lido_base::Strings;
use lido_lexer::{Keyword, Sign, Token, TokenKind};
use lido_syntax::Comp;
use std::alloc::Global;

/// Whose body a computation stands in. Only those of rules may have messages.
#[derive(Clone, Copy, Debug, PartialEq, Eq)]
pub enum Owner {
    Rule,
    Symbol,
}

/// The word `message`, if it comes next before an opening parenthesis.
fn after_message(tokens: &[Token], words: MessageWords) -> Option<(Token, &[Token])>
    ensures { MatchOption result
        ((t o : Read) (us vs : Sequence Read) → Sees (TokenKind.Word words.message) tokens.now t us → Signs Sign.ParenOpen us o vs → ⊥)
        (λ x. Sees (TokenKind.Word words.message) tokens.now x.0 x.1.now
        × (o : Read) × (vs : Sequence Read) × Signs Sign.ParenOpen x.1.now o vs) }
{
    let (word, rest) = after_token(tokens, TokenKind::Word(words.message))?;
    let (_opening, _) = after_sign(rest, Sign::ParenOpen)?;
    Some((word, rest))
}

/// A computation in a rule's body.
fn rule_computation<'a>(
    alloc: Global,
    tokens: &'a [Token],
    end: u32,
    strings: &mut Strings,
    words: MessageWords,
    number: u32,
) -> Result<((Comp, u32), &'a [Token]), ReadSpecFault>
    ensures reads { ReadsWith (λ one. one) (λ texts. IsRuleComputation words texts number) continues_computation
        strings.new end tokens.now result }
    ensures shorter { IfOk result (λ x. length x.1.now < length tokens.now) }
    ensures kept { Gains strings.old strings.new }
    ensures same { Keeps strings.old strings.new }
    ensures few { length strings.new ≤ length strings.old + length tokens.now }
    ensures left { IfOk result (λ x. length strings.new + length x.1.now ≤ length strings.old + length tokens.now) }
{
    if let Some((word, rest)) = after_key(tokens, Keyword::If) {
        return conditional(alloc, number, word.from, words, rest, end, strings);
    }
    if let Some((word, rest)) = after_message(tokens, words) {
        return unconditional(alloc, number, word.from, words, rest, end, strings);
    }
    computation(alloc, tokens, end, strings, number)
}

/// A computation in a symbol's body.
fn symbol_computation<'a>(
    alloc: Global,
    tokens: &'a [Token],
    end: u32,
    strings: &mut Strings,
    words: MessageWords,
    number: u32,
) -> Result<((Comp, u32), &'a [Token]), ReadSpecFault>
    ensures reads { ReadsWith (λ one. one) (λ texts. IsSymbolComputation words texts number) continues_computation
        strings.new end tokens.now result }
    ensures shorter { IfOk result (λ x. length x.1.now < length tokens.now) }
    ensures kept { Gains strings.old strings.new }
    ensures same { Keeps strings.old strings.new }
    ensures few { length strings.new ≤ length strings.old + length tokens.now }
    ensures left { IfOk result (λ x. length strings.new + length x.1.now ≤ length strings.old + length tokens.now) }
{
    let None = after_token(tokens, TokenKind::Word(words.message)) else {
        return Err(stop(tokens, end));
    };
    computation(alloc, tokens, end, strings, number)
}

/// A computation in a body of this owner, which has this number, and the number behind it.
///
/// It is as `computation` says, but in a rule's body it may be a message, with a condition or without one, and in a symbol's body
/// the word `message` is where the tokens begin no computation. `words` are the ids of the words that messages are made of.
pub fn computation_in<'a>(
    alloc: Global,
    tokens: &'a [Token],
    end: u32,
    strings: &mut Strings,
    words: MessageWords,
    owner: Owner,
    number: u32,
) -> Result<((Comp, u32), &'a [Token]), ReadSpecFault>
    ensures reads { ReadsWith (λ one. one) (λ texts. IsComputationIn words texts owner number) continues_computation
        strings.new end tokens.now result }
    ensures shorter { IfOk result (λ x. length x.1.now < length tokens.now) }
    ensures kept { Gains strings.old strings.new }
    ensures same { Keeps strings.old strings.new }
    ensures few { length strings.new ≤ length strings.old + length tokens.now }
    ensures left { IfOk result (λ x. length strings.new + length x.1.now ≤ length strings.old + length tokens.now) }
{
    match owner {
        Owner::Rule => rule_computation(alloc, tokens, end, strings, words, number),
        Owner::Symbol => symbol_computation(alloc, tokens, end, strings, words, number),
    }
}
