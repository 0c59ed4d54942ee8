//! What a rule is called.
ghost use Rattle.std.specs.Prelude.{◌≡◌, ◌+◌, ◌≤◌, List, ℕ, length, IfOk, IfErr, OnOk, OnErr};
ghost use Rattle.lido_base.specs.Reading.{Finds};
ghost use Rattle.lido_base.specs.Texts.{with_text};
ghost use Rattle.lido_lexer.specs.Lexing.{Gains};
ghost use Rattle.lido_lexer.specs.Tables.{interned};
ghost use Rattle.lido_reader.specs.Added.{called_names};
ghost use Rattle.lido_reader.specs.Items.{IsRuleName, called_in, is_word, rule_text};
ghost use Rattle.lido_reader.specs.Specification.{IsLater};

use crate::ReadSpecFault;
use lido_base::{StrId, Strings};
use lido_computations::names::after_name;
use lido_lexer::Token;
use lido_syntax::Name;
use std::alloc::{AllocError, Global};

/// What the rule of this number is called where it has no name.
fn rule_text(alloc: Global, number: u64) -> Result<String, AllocError>
    ensures { IfOk result (λ text. text.bytes.items ≡ rule_text number) }
{
    format!(in alloc; "rule_{number}")
}

/// The id of what the rule of this number is called where it has no name.
fn called(alloc: Global, strings: &mut Strings, number: u64) -> Result<StrId, ReadSpecFault>
    ensures id { IfOk result (λ id. (texts : List (List ℕ)) → IsLater strings.new texts → called_in texts number ≡ id) }
    ensures kept { Gains strings.old strings.new }
    ensures few { length strings.new ≤ length strings.old + 1 }
    ensures table { OnOk result (strings.new ≡ with_text strings.old (rule_text number)) }
    ensures refused { OnErr result (strings.new ≡ strings.old) }
    ensures memory { IfErr result (λ fault. fault ≡ ReadSpecFault.Memory) }
{
    let text = rule_text(alloc, number)?;
    let id = strings.intern(text.as_bytes())?;
    Ok(id)
}

/// `[name]`, for the rule of this number among the rules, whose place is this one where it has no name.
pub(crate) fn rule_name<'a>(
    alloc: Global,
    tokens: &'a [Token],
    strings: &mut Strings,
    number: u64,
    at: u32,
) -> Result<(Name, &'a [Token]), ReadSpecFault>
    ensures reads { IfOk result (λ x. (texts : List (List ℕ)) → IsLater strings.new texts
        → Finds (IsRuleName (called_in texts) number at) is_word tokens.now x.0 x.1.now) }
    ensures no_longer { IfOk result (λ x. length x.1.now ≤ length tokens.now) }
    ensures kept { Gains strings.old strings.new }
    ensures few { length strings.new ≤ length strings.old + 1 }
    ensures table { OnOk result (strings.new ≡ interned strings.old (called_names number tokens.now)) }
    ensures refused { OnErr result (strings.new ≡ strings.old) }
    ensures memory { IfErr result (λ fault. fault ≡ ReadSpecFault.Memory) }
{
    if let Some((name, rest)) = after_name(tokens) {
        return Ok((name, rest));
    }
    let id = called(alloc, strings, number)?;
    Ok((Name { at, id }, tokens))
}
