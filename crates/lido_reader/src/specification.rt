//! Whole specifications.
ghost use Rattle.std.specs.Prelude.{◌≡◌, ◌+◌, ◌≤◌, List as Sequence, ℕ, length, IfOk, OnOk};
ghost use Rattle.lido_base.specs.Phases.{Gives};
ghost use Rattle.lido_lexer.specs.Lexing.{Gains};
ghost use Rattle.lido_lexer.specs.Tables.{interned};
ghost use Rattle.lido_computations.specs.Functions.{HasAll, known_words};
ghost use Rattle.lido_computations.specs.Messages.{IsComputationIn};
ghost use Rattle.lido_computations.specs.Phrases.{ReadsSeen};
ghost use Rattle.lido_reader.specs.Added.{AddsSome, Owes, rule_names};
ghost use Rattle.lido_reader.specs.Found.{found_in};
ghost use Rattle.lido_reader.specs.Items.{IsFurtherItem, Repeats, begins_item, called_in, no_items};
ghost use Rattle.lido_reader.specs.Specification.{IsLater, IsReading, words_in};

use crate::ReadSpecFault;
use crate::items::{Found, items};
use crate::known_words::message_words;
use lido_base::{List, Strings};
use lido_lexer::{Token, next};
use lido_syntax::Spec;
use std::alloc::Global;

/// The items that the tokens begin with, once the words of messages are texts.
fn read_items<'a>(
    alloc: Global,
    tokens: &'a [Token],
    end: u32,
    strings: &mut Strings,
) -> Result<(Found, &'a [Token]), ReadSpecFault>
    ensures reads { (texts : Sequence (Sequence ℕ)) → IsLater strings.new texts
        → ReadsSeen found_in (Repeats (IsFurtherItem (called_in texts) (IsComputationIn (words_in texts) texts)) (no_items, 0))
        begins_item end tokens.now result }
    ensures kept { Gains strings.old strings.new }
    ensures few { length strings.new ≤ length strings.old + length tokens.now + 5 }
    ensures table { IfOk result (λ x. (texts : Sequence (Sequence ℕ)) → IsLater strings.new texts
        → Owes 1 tokens.now strings.old (length x.0.rules.items + 1) x.1.now strings.new) }
    ensures within { (texts : Sequence (Sequence ℕ)) → IsLater strings.new texts
        → AddsSome (rule_names 1 tokens.now) strings.old strings.new }
{
    let words = message_words(strings)?;
    items(alloc, tokens, end, strings, words)
}

/// Reads a specification: the LIDO part of a job, as tokens.
///
/// `end` is the place where the text of the tokens ends, in bytes. The tree's ids are those of `strings`, to which the words of
/// messages are added, and the names of operators and of rules without a name: one text for each token at most. Ids that were given
/// stay. The answer is
/// the tree that the tokens derive by the grammar, or `Syntax` at the first token with which they begin no specification, or at
/// `end` where the tokens begin one and are none. `Memory` is want of memory, or of a number: there are 2^32 of them for
/// computations.
pub fn read_spec(
    alloc: Global,
    tokens: &[Token],
    end: u32,
    strings: &mut Strings,
) -> Result<Spec, ReadSpecFault>
    // At any texts that are added later, too.
    ensures reads { (texts : Sequence (Sequence ℕ)) → IsLater strings.new texts
        → Gives (λ spec. spec) (IsReading texts tokens.now end) ReadSpecFault.Memory result }
    ensures kept { Gains strings.old strings.new }
    ensures few { length strings.new ≤ length strings.old + length tokens.now + 5 }
    // Where all known words are texts already (`intern_known_words`), the tokens tell which texts there are later.
    ensures table { OnOk result (HasAll known_words strings.old → strings.new ≡ interned strings.old (rule_names 1 tokens.now)) }
    ensures within { HasAll known_words strings.old → IsLater strings.new (interned strings.old (rule_names 1 tokens.now)) }
    ensures exact { HasAll known_words strings.old
        → Gives (λ spec. spec) (IsReading (interned strings.old (rule_names 1 tokens.now)) tokens.now end) ReadSpecFault.Memory result }
{
    let read = read_items(alloc, tokens, end, strings);
    // Ids tell texts apart.
    let _texts = strings.len();
    let (found, rest) = read?;
    if let Some((token, _)) = next(rest) {
        return Err(ReadSpecFault::Syntax { at: token.from });
    }
    Ok(Spec {
        rules: List::from_vec(found.rules),
        symbols: List::from_vec(found.symbols),
        attrs: List::from_vec(found.attrs),
        terms: List::from_vec(found.terms),
        chains: List::from_vec(found.chains),
    })
}
