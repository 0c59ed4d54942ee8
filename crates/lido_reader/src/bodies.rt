//! The bodies of rules and symbols.
ghost use Rattle.std.specs.Prelude.{◌≡◌, ◌+◌, ◌<◌, ◌≤◌, ◌↔◌, [], List, ℕ, IsTrue, length, IfOk};
ghost use Rattle.lido_base.specs.Reading.{GoesOn, nothing};
ghost use Rattle.lido_lexer.specs.Lexing.{Gains};
ghost use Rattle.lido_computations.specs.Functions.{Keeps};
ghost use Rattle.lido_computations.specs.Messages.{IsComputationIn};
ghost use Rattle.lido_reader.specs.Items.{AreComputations, IsBody, IsFurtherComputation, Repeats, is_not_end};
ghost use Rattle.lido_computations.specs.Phrases.{ReadsSeen};
ghost use Rattle.lido_reader.specs.Specification.{IsLater};

use crate::ReadSpecFault;
use lido_base::Strings;
use lido_computations::computation_in;
use lido_computations::messages::MessageWords;
use lido_computations::names::{after_key, keyword, sign};
use lido_computations::owners::Owner;
use lido_lexer::{Keyword, Sign, Token, is_key, next};
use lido_syntax::Comp;
use std::alloc::Global;

/// Computations, and the number of the next one behind them.
#[derive(Debug, Drop)]
pub(crate) struct Numbered {
    pub all: Vec<Comp>,
    pub next: u32,
}

/// Whether something comes next, and it is not END.
fn is_not_end(tokens: &[Token]) -> bool
    ensures { IsTrue result ↔ GoesOn is_not_end tokens.now }
{
    match next(tokens) {
        Some((token, _)) => !is_key(token, Keyword::End),
        None => false,
    }
}

/// `{comp ";"}`, in a body of this owner
fn computations<'a>(
    alloc: Global,
    tokens: &'a [Token],
    end: u32,
    strings: &mut Strings,
    words: MessageWords,
    owner: Owner,
    number: u32,
) -> Result<(Numbered, &'a [Token]), ReadSpecFault>
    ensures reads { (texts : List (List ℕ)) → IsLater strings.new texts
        → ReadsSeen (λ body. (body.all.items, body.next)) (Repeats (IsFurtherComputation (IsComputationIn words texts owner)) ([], number))
        is_not_end end tokens.now result }
    ensures kept { Gains strings.old strings.new }
    ensures same { Keeps strings.old strings.new }
    ensures few { length strings.new ≤ length strings.old + length tokens.now }
    ensures each { IfOk result (λ x. length strings.new + length x.1.now ≤ length strings.old + length tokens.now) }
    ensures no_longer { IfOk result (λ x. length x.1.now ≤ length tokens.now) }
{
    let mut all = Vec::new(alloc);
    let mut next = number;
    let mut rest = tokens;
    while is_not_end(rest) {
        let ((comp, behind_number), behind) = computation_in(
            alloc, rest, end, strings, words, owner, next,
        )?;
        let (_, behind_semicolon) = sign(behind, end, Sign::Semicolon)?;
        all.push(comp)?;
        next = behind_number;
        rest = behind_semicolon;
    }
    Ok((Numbered { all, next }, rest))
}

/// `["COMPUTE" {comp ";"}]`, in a body of this owner
fn computed<'a>(
    alloc: Global,
    tokens: &'a [Token],
    end: u32,
    strings: &mut Strings,
    words: MessageWords,
    owner: Owner,
    number: u32,
) -> Result<(Numbered, &'a [Token]), ReadSpecFault>
    ensures reads { (texts : List (List ℕ)) → IsLater strings.new texts
        → ReadsSeen (λ body. (body.all.items, body.next)) (AreComputations (IsComputationIn words texts owner) number)
        is_not_end end tokens.now result }
    ensures kept { Gains strings.old strings.new }
    ensures same { Keeps strings.old strings.new }
    ensures few { length strings.new ≤ length strings.old + length tokens.now }
    ensures each { IfOk result (λ x. length strings.new + length x.1.now ≤ length strings.old + length tokens.now) }
    ensures no_longer { IfOk result (λ x. length x.1.now ≤ length tokens.now) }
{
    let Some((_, behind_word)) = after_key(tokens, Keyword::Compute) else {
        return Ok((
            Numbered {
                all: Vec::new(alloc),
                next: number,
            },
            tokens,
        ));
    };
    let (body, rest) = computations(alloc, behind_word, end, strings, words, owner, number)?;
    Ok((body, rest))
}

/// `["COMPUTE" {comp ";"}] "END" ";"`, the body of such an owner
pub(crate) fn body<'a>(
    alloc: Global,
    tokens: &'a [Token],
    end: u32,
    strings: &mut Strings,
    words: MessageWords,
    owner: Owner,
    number: u32,
) -> Result<(Numbered, &'a [Token]), ReadSpecFault>
    ensures reads { (texts : List (List ℕ)) → IsLater strings.new texts
        → ReadsSeen (λ body. (body.all.items, body.next)) (IsBody (IsComputationIn words texts owner) number)
        nothing end tokens.now result }
    ensures kept { Gains strings.old strings.new }
    ensures same { Keeps strings.old strings.new }
    ensures few { length strings.new ≤ length strings.old + length tokens.now }
    ensures each { IfOk result (λ x. length strings.new + length x.1.now ≤ length strings.old + length tokens.now) }
    ensures shorter { IfOk result (λ x. length x.1.now < length tokens.now) }
{
    let (body, behind_all) = computed(alloc, tokens, end, strings, words, owner, number)?;
    let (_, behind_end) = keyword(behind_all, end, Keyword::End)?;
    let (_, rest) = sign(behind_end, end, Sign::Semicolon)?;
    Ok((body, rest))
}
