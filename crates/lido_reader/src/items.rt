//! The items of a specification, one behind the other.
ghost use Rattle.std.specs.Prelude.{◌≡◌, ◌+◌, ◌<◌, ◌≤◌, ◌↔◌, false, List, ℕ, IsTrue, length, IfOk, OnOk};
ghost use Rattle.lido_base.specs.Reading.{GoesOn, nothing};
ghost use Rattle.lido_lexer.specs.Lexing.{Gains};
ghost use Rattle.lido_lexer.specs.Seen.{Keys};
ghost use Rattle.lido_lexer.specs.declared.token.Token.{Token};
ghost use Rattle.lido_computations.specs.Functions.{Keeps};
ghost use Rattle.lido_reader.specs.Added.{Adds, AddsSome, Owes, first_names, rule_names};
ghost use Rattle.lido_computations.specs.Messages.{IsComputationIn};
ghost use Rattle.lido_reader.specs.Found.{found_in};
ghost use Rattle.lido_reader.specs.Items.{IsAttrItem, IsChainItem, IsFurtherItem, IsRuleItem, IsSymbolItem, IsTermItem, Repeats, begins_item, called_in, is_item_word, no_items};
ghost use Rattle.lido_computations.specs.Phrases.{ReadsSeen};
ghost use Rattle.lido_reader.specs.Specification.{IsLater};

use crate::ReadSpecFault;
use crate::declarations::{attr, chain, term};
use crate::rules::rule;
use crate::symbols::symbol;
use lido_base::Strings;
use lido_computations::messages::MessageWords;
use lido_computations::names::after_key;
use lido_lexer::{Keyword, Token, TokenKind, next};
use lido_syntax::{Decl, RuleItem, SymbolItem, Typed1};
use std::alloc::Global;

/// The items that are read so far, and the number of the next computation.
#[derive(Debug, Drop)]
pub(crate) struct Found {
    pub rules: Vec<RuleItem>,
    pub symbols: Vec<SymbolItem>,
    pub attrs: Vec<Decl>,
    pub terms: Vec<Typed1>,
    pub chains: Vec<Typed1>,
    pub next: u32,
}

/// A RULE item more.
fn rule_item<'a>(
    alloc: Global,
    tokens: &'a [Token],
    end: u32,
    strings: &mut Strings,
    words: MessageWords,
    found: Found,
) -> Result<(Found, &'a [Token]), ReadSpecFault>
    ensures reads { (texts : List (List ℕ)) → IsLater strings.new texts
        → ReadsSeen found_in (IsRuleItem (called_in texts) (IsComputationIn words texts) (found_in found)) nothing end tokens.now result }
    ensures kept { Gains strings.old strings.new }
    ensures few { length strings.new ≤ length strings.old + length tokens.now }
    ensures each { IfOk result (λ x. length strings.new + length x.1.now ≤ length strings.old + length tokens.now) }
    ensures shorter { IfOk result (λ x. length x.1.now < length tokens.now) }
    ensures table { OnOk result (Adds (first_names (length found.rules.items + 1) tokens.now) strings.old strings.new) }
    ensures within { AddsSome (first_names (length found.rules.items + 1) tokens.now) strings.old strings.new }
{
    let mut all = found;
    let place = all.rules.len() as u64 + 1;
    let ((item, next), rest) = rule(alloc, tokens, end, strings, words, place, all.next)?;
    all.rules.push(item)?;
    all.next = next;
    Ok((all, rest))
}

/// A SYMBOL item more.
fn symbol_item<'a>(
    alloc: Global,
    tokens: &'a [Token],
    end: u32,
    strings: &mut Strings,
    words: MessageWords,
    found: Found,
) -> Result<(Found, &'a [Token]), ReadSpecFault>
    ensures reads { (texts : List (List ℕ)) → IsLater strings.new texts
        → ReadsSeen found_in (IsSymbolItem (called_in texts) (IsComputationIn words texts) (found_in found)) nothing end tokens.now result }
    ensures kept { Gains strings.old strings.new }
    ensures same { Keeps strings.old strings.new }
    ensures few { length strings.new ≤ length strings.old + length tokens.now }
    ensures each { IfOk result (λ x. length strings.new + length x.1.now ≤ length strings.old + length tokens.now) }
    ensures shorter { IfOk result (λ x. length x.1.now < length tokens.now) }
{
    let mut all = found;
    let ((item, next), rest) = symbol(alloc, tokens, end, strings, words, all.next)?;
    all.symbols.push(item)?;
    all.next = next;
    Ok((all, rest))
}

/// A ATTR item more.
fn attr_item(
    alloc: Global,
    tokens: &[Token],
    end: u32,
    found: Found,
) -> Result<(Found, &[Token]), ReadSpecFault>
    ensures reads { ReadsSeen found_in (IsAttrItem (found_in found)) nothing end tokens.now result }
    ensures shorter { IfOk result (λ x. length x.1.now < length tokens.now) }
{
    let mut all = found;
    let (mut more, rest) = attr(alloc, tokens, end)?;
    all.attrs.append(&mut more)?;
    Ok((all, rest))
}

/// A TERM item more.
fn term_item(
    alloc: Global,
    tokens: &[Token],
    end: u32,
    found: Found,
) -> Result<(Found, &[Token]), ReadSpecFault>
    ensures reads { ReadsSeen found_in (IsTermItem (found_in found)) nothing end tokens.now result }
    ensures shorter { IfOk result (λ x. length x.1.now < length tokens.now) }
{
    let mut all = found;
    let (mut more, rest) = term(alloc, tokens, end)?;
    all.terms.append(&mut more)?;
    Ok((all, rest))
}

/// A CHAIN item more.
fn chain_item(
    alloc: Global,
    tokens: &[Token],
    end: u32,
    found: Found,
) -> Result<(Found, &[Token]), ReadSpecFault>
    ensures reads { ReadsSeen found_in (IsChainItem (found_in found)) nothing end tokens.now result }
    ensures shorter { IfOk result (λ x. length x.1.now < length tokens.now) }
{
    let mut all = found;
    let (mut more, rest) = chain(alloc, tokens, end)?;
    all.chains.append(&mut more)?;
    Ok((all, rest))
}

/// Whether this keyword comes next.
fn has_key(tokens: &[Token], wanted: Keyword) -> bool
    ensures there { IsTrue result → (t : Token) × (us : List Token) × Keys wanted tokens.now t us }
    ensures missing { result ≡ false → (t : Token) (us : List Token) → Keys wanted tokens.now t us → ⊥ }
{
    let Some(_) = after_key(tokens, wanted) else {
        return false;
    };
    true
}

/// Whether an item begins with this word.
fn is_item_word(word: Keyword) -> bool
    ensures { result ≡ is_item_word word }
{
    matches!(
        word,
        Keyword::Rule
            | Keyword::Class
            | Keyword::Symbol
            | Keyword::Attr
            | Keyword::Term
            | Keyword::Chain
    )
}

/// Whether an item begins here.
fn begins_item(tokens: &[Token]) -> bool
    ensures { IsTrue result ↔ GoesOn begins_item tokens.now }
{
    let Some((token, _)) = next(tokens) else {
        return false;
    };
    match token.what {
        TokenKind::Key(word) => is_item_word(word),
        _ => false,
    }
}

/// One item more.
fn item<'a>(
    alloc: Global,
    tokens: &'a [Token],
    end: u32,
    strings: &mut Strings,
    words: MessageWords,
    found: Found,
) -> Result<(Found, &'a [Token]), ReadSpecFault>
    ensures reads { (texts : List (List ℕ)) → IsLater strings.new texts
        → ReadsSeen found_in (IsFurtherItem (called_in texts) (IsComputationIn words texts) (found_in found))
        nothing end tokens.now result }
    ensures kept { Gains strings.old strings.new }
    ensures few { length strings.new ≤ length strings.old + length tokens.now }
    ensures each { IfOk result (λ x. length strings.new + length x.1.now ≤ length strings.old + length tokens.now) }
    ensures shorter { IfOk result (λ x. length x.1.now < length tokens.now) }
    ensures table { OnOk result (Adds (first_names (length found.rules.items + 1) tokens.now) strings.old strings.new) }
    ensures within { AddsSome (first_names (length found.rules.items + 1) tokens.now) strings.old strings.new }
{
    if has_key(tokens, Keyword::Rule) {
        return rule_item(alloc, tokens, end, strings, words, found);
    }
    if has_key(tokens, Keyword::Attr) {
        return attr_item(alloc, tokens, end, found);
    }
    if has_key(tokens, Keyword::Term) {
        return term_item(alloc, tokens, end, found);
    }
    if has_key(tokens, Keyword::Chain) {
        return chain_item(alloc, tokens, end, found);
    }
    symbol_item(alloc, tokens, end, strings, words, found)
}

/// `{ rule | symbol | attr | term | chain }`
pub(crate) fn items<'a>(
    alloc: Global,
    tokens: &'a [Token],
    end: u32,
    strings: &mut Strings,
    words: MessageWords,
) -> Result<(Found, &'a [Token]), ReadSpecFault>
    ensures reads { (texts : List (List ℕ)) → IsLater strings.new texts
        → ReadsSeen found_in (Repeats (IsFurtherItem (called_in texts) (IsComputationIn words texts)) (no_items, 0))
        begins_item end tokens.now result }
    ensures kept { Gains strings.old strings.new }
    ensures few { length strings.new ≤ length strings.old + length tokens.now }
    ensures table { IfOk result (λ x. (texts : List (List ℕ)) → IsLater strings.new texts
        → Owes 1 tokens.now strings.old (length x.0.rules.items + 1) x.1.now strings.new) }
    ensures within { (texts : List (List ℕ)) → IsLater strings.new texts → AddsSome (rule_names 1 tokens.now) strings.old strings.new }
{
    let mut found = Found {
        rules: Vec::new(alloc),
        symbols: Vec::new(alloc),
        attrs: Vec::new(alloc),
        terms: Vec::new(alloc),
        chains: Vec::new(alloc),
        next: 0,
    };
    let mut rest = tokens;
    while begins_item(rest) {
        let (more, behind) = item(alloc, rest, end, strings, words, found)?;
        found = more;
        rest = behind;
    }
    Ok((found, rest))
}
