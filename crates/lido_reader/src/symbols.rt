//! SYMBOL items.
ghost use Rattle.std.specs.Prelude.{◌≡◌, ◌+◌, ◌<◌, ◌≤◌, ◌∷◌, [], ◌↔◌, List as Sequence, ℕ, IsTrue, length, IfOk};
ghost use Rattle.lido_base.specs.Reading.{GoesOn, nothing};
ghost use Rattle.lido_lexer.specs.Lexing.{Gains};
ghost use Rattle.lido_computations.specs.Functions.{Keeps};
ghost use Rattle.lido_computations.specs.Messages.{IsComputationIn};
ghost use Rattle.lido_reader.specs.Items.{AreInherited, IsAbout, IsComputing, IsDeclaring, IsSymbol, IsSymbolHead, continues_inherited, is_declaring};
ghost use Rattle.lido_computations.specs.Phrases.{AreMore, IsName, ReadsSeen, is_comma};
ghost use Rattle.lido_reader.specs.Specification.{IsLater};

use crate::ReadSpecFault;
use crate::bodies::body;
use crate::declarations::decls;
use lido_base::{List, Strings};
use lido_computations::messages::MessageWords;
use lido_computations::names::{after_key, after_sign, keyword, name, names, sign};
use lido_computations::owners::Owner;
use lido_lexer::{Keyword, Sign, Token, is_sign, next};
use lido_syntax::{Name, SymbolItem};
use std::alloc::Global;

/// How a SYMBOL item begins: where, and whether it is a class.
#[derive(Clone, Copy, Debug)]
pub(crate) struct SymbolHead {
    pub at: u32,
    pub class: bool,
}

/// `["CLASS"] "SYMBOL"`
pub(crate) fn symbol_head(
    tokens: &[Token],
    end: u32,
) -> Result<(SymbolHead, &[Token]), ReadSpecFault>
    ensures reads { ReadsSeen (λ head. (head.at, head.class)) IsSymbolHead nothing end tokens.now result }
    ensures shorter { IfOk result (λ x. length x.1.now < length tokens.now) }
{
    if let Some((word, behind_class)) = after_key(tokens, Keyword::Class) {
        let (_, behind_symbol) = keyword(behind_class, end, Keyword::Symbol)?;
        return Ok((
            SymbolHead {
                at: word.from,
                class: true,
            },
            behind_symbol,
        ));
    }
    let (symbol, rest) = keyword(tokens, end, Keyword::Symbol)?;
    Ok((
        SymbolHead {
            at: symbol.from,
            class: false,
        },
        rest,
    ))
}

/// `["INHERITS" name {"," name}]`
pub(crate) fn inherited(
    alloc: Global,
    tokens: &[Token],
    end: u32,
) -> Result<(Vec<Name>, &[Token]), ReadSpecFault>
    ensures reads { ReadsSeen (λ all. all.items) AreInherited continues_inherited end tokens.now result }
    ensures no_longer { IfOk result (λ x. length x.1.now ≤ length tokens.now) }
{
    let Some((_, behind_word)) = after_key(tokens, Keyword::Inherits) else {
        return Ok((Vec::new(alloc), tokens));
    };
    let (all, rest) = names(alloc, behind_word, end)?;
    Ok((all, rest))
}

/// `{"," name}`, behind a first one
pub(crate) fn further_names(
    alloc: Global,
    first: Name,
    tokens: &[Token],
    end: u32,
) -> Result<(Vec<Name>, &[Token]), ReadSpecFault>
    ensures reads { ReadsSeen (λ all. all.items) (AreMore IsName (first ∷ [])) is_comma end tokens.now result }
    ensures no_longer { IfOk result (λ x. length x.1.now ≤ length tokens.now) }
{
    let mut all = vec![in alloc; first]?;
    let mut rest = tokens;
    while let Some((_, behind_comma)) = after_sign(rest, Sign::Comma) {
        let (more, behind) = name(behind_comma, end)?;
        all.push(more)?;
        rest = behind;
    }
    Ok((all, rest))
}

/// Whether a symbol's declarations begin here, behind its first name.
pub(crate) fn is_declaring(tokens: &[Token]) -> bool
    ensures { IsTrue result ↔ GoesOn is_declaring tokens.now }
{
    let Some((token, _)) = next(tokens) else {
        return false;
    };
    if is_sign(token, Sign::Comma) {
        return true;
    }
    is_sign(token, Sign::Colon)
}

/// `{"," name} ":" decls ";"`, behind the first name
fn declaring(
    alloc: Global,
    tokens: &[Token],
    end: u32,
    head: SymbolHead,
    first: Name,
    number: u32,
) -> Result<((SymbolItem, u32), &[Token]), ReadSpecFault>
    ensures reads { ReadsSeen (λ item. item) (IsDeclaring (head.at, head.class) first number) nothing end tokens.now result }
    ensures shorter { IfOk result (λ x. length x.1.now < length tokens.now) }
{
    let (all, behind_names) = further_names(alloc, first, tokens, end)?;
    let (_, behind_colon) = sign(behind_names, end, Sign::Colon)?;
    let (declared, behind_decls) = decls(alloc, behind_colon, end)?;
    let (_, rest) = sign(behind_decls, end, Sign::Semicolon)?;
    let item = SymbolItem {
        at: head.at,
        class: head.class,
        names: List::from_vec(all),
        inherits: List::new(alloc),
        decls: List::from_vec(declared),
        body: List::new(alloc),
    };
    Ok(((item, number), rest))
}

/// `["INHERITS" name {"," name}] body`, behind the only name
fn computing<'a>(
    alloc: Global,
    tokens: &'a [Token],
    end: u32,
    strings: &mut Strings,
    words: MessageWords,
    head: SymbolHead,
    first: Name,
    number: u32,
) -> Result<((SymbolItem, u32), &'a [Token]), ReadSpecFault>
    ensures reads { (texts : Sequence (Sequence ℕ)) → IsLater strings.new texts
        → ReadsSeen (λ item. item) (IsComputing (IsComputationIn words texts Owner.Symbol) (head.at, head.class) first number)
        nothing end tokens.now result }
    ensures kept { Gains strings.old strings.new }
    ensures same { Keeps strings.old strings.new }
    ensures few { length strings.new ≤ length strings.old + length tokens.now }
    ensures each { IfOk result (λ x. length strings.new + length x.1.now ≤ length strings.old + length tokens.now) }
    ensures shorter { IfOk result (λ x. length x.1.now < length tokens.now) }
{
    let (classes, behind_classes) = inherited(alloc, tokens, end)?;
    let (computed, rest) = body(
        alloc,
        behind_classes,
        end,
        strings,
        words,
        Owner::Symbol,
        number,
    )?;
    let names = vec![in alloc; first]?;
    let item = SymbolItem {
        at: head.at,
        class: head.class,
        names: List::from_vec(names),
        inherits: List::from_vec(classes),
        decls: List::new(alloc),
        body: List::from_vec(computed.all),
    };
    Ok(((item, computed.next), rest))
}

/// What stands behind the first name of a SYMBOL item; and the number of the next computation.
fn about<'a>(
    alloc: Global,
    tokens: &'a [Token],
    end: u32,
    strings: &mut Strings,
    words: MessageWords,
    head: SymbolHead,
    first: Name,
    number: u32,
) -> Result<((SymbolItem, u32), &'a [Token]), ReadSpecFault>
    ensures reads { (texts : Sequence (Sequence ℕ)) → IsLater strings.new texts
        → ReadsSeen (λ item. item) (IsAbout (IsComputationIn words texts Owner.Symbol) (head.at, head.class) first number)
        nothing end tokens.now result }
    ensures kept { Gains strings.old strings.new }
    ensures same { Keeps strings.old strings.new }
    ensures few { length strings.new ≤ length strings.old + length tokens.now }
    ensures each { IfOk result (λ x. length strings.new + length x.1.now ≤ length strings.old + length tokens.now) }
    ensures shorter { IfOk result (λ x. length x.1.now < length tokens.now) }
{
    if is_declaring(tokens) {
        let (declared, rest) = declaring(alloc, tokens, end, head, first, number)?;
        return Ok((declared, rest));
    }
    let (computed, rest) = computing(alloc, tokens, end, strings, words, head, first, number)?;
    Ok((computed, rest))
}

/// `["CLASS"] "SYMBOL" name`, and what stands behind it, computations numbered from `number`; and the number of the next
/// computation.
pub(crate) fn symbol<'a>(
    alloc: Global,
    tokens: &'a [Token],
    end: u32,
    strings: &mut Strings,
    words: MessageWords,
    number: u32,
) -> Result<((SymbolItem, u32), &'a [Token]), ReadSpecFault>
    ensures reads { (texts : Sequence (Sequence ℕ)) → IsLater strings.new texts
        → ReadsSeen (λ item. item) (IsSymbol (IsComputationIn words texts Owner.Symbol) number) nothing end tokens.now result }
    ensures kept { Gains strings.old strings.new }
    ensures same { Keeps strings.old strings.new }
    ensures few { length strings.new ≤ length strings.old + length tokens.now }
    ensures each { IfOk result (λ x. length strings.new + length x.1.now ≤ length strings.old + length tokens.now) }
    ensures shorter { IfOk result (λ x. length x.1.now < length tokens.now) }
{
    let (head, behind_head) = symbol_head(tokens, end)?;
    let (first, behind_first) = name(behind_head, end)?;
    let (item, rest) = about(
        alloc,
        behind_first,
        end,
        strings,
        words,
        head,
        first,
        number,
    )?;
    Ok((item, rest))
}
