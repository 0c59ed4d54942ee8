//! What is in force in specifications that are read from texts, and whether it has its types.
ghost use Rattle.std.specs.Prelude.{◌≡◌, ◌≤◌, length, All, IfOk, OnOk};
ghost use Rattle.lido_base.specs.Environment.{Environment};
ghost use Rattle.lido_base.specs.Faults.{HasNone};
ghost use Rattle.lido_base.specs.Texts.{Gains};
ghost use Rattle.lido_computations.specs.Functions.{HasAll, known_words};
ghost use Rattle.lido_lexer.specs.Lexing.{HasText, IsInOrder};
ghost use Rattle.lido_symbols.specs.FromText.{IsFromText};
ghost use Rattle.table_faults.specs.Faults.{table_faults};
ghost use Rattle.rule_tables.specs.RuleNames.{HasIds};
ghost use Rattle.rule_tables.specs.ForcedOf.{AreForcedOf};
ghost use Rattle.need_graphs.specs.Clear.{AreWithin};
ghost use Rattle.expr_types.specs.Functions.{AreNamedIn};

use lido_base::{Patterns, Strings};
use lido_lexer::{LexFault, Token, lex};
use lido_reader::{ReadSpecFault, intern_known_words, read_spec};
use lido_syntax::{Spec, SpecFault};
use rule_tables::{Forced, tables};
use std::alloc::Global;
use symbol_inherit::in_force;
use type_checks::check_forced;

/// The tokens of a text, or the fault of the first that can't be formed.
fn tokens_of(alloc: Global, text: &[u8], strings: &mut Strings) -> Result<Vec<Token>, SpecFault>
    requires { length text.now ≤ 8388608 }
    ensures in_order { IfOk result (λ tokens. IsInOrder 0 (length text.now) tokens.items) }
    ensures ids { IfOk result (λ tokens. All (λ token. HasText (length strings.new) token.what) tokens.items) }
    ensures there { HasAll known_words strings.old → OnOk result (HasAll known_words strings.new) }
    ensures kept { Gains strings.old strings.new }
{
    match lex(alloc, text, strings) {
        Ok(tokens) => Ok(tokens),
        Err(LexFault::Lexical { at }) => Err(SpecFault::Lexical { at }),
        Err(LexFault::Memory) => Err(SpecFault::Memory),
    }
}

/// The specification that the tokens of a text of this size are, or the fault of the place where they stop being one.
fn syntax_of(
    alloc: Global,
    tokens: &[Token],
    size: u32,
    strings: &mut Strings,
) -> Result<Spec, SpecFault>
    requires there { HasAll known_words strings.old }
    requires in_order { IsInOrder 0 size tokens.now }
    requires ids { All (λ token. HasText (length strings.old) token.what) tokens.now }
    ensures text { IfOk result (λ spec. IsFromText spec) }
    ensures ids { IfOk result (λ spec. HasIds strings.new spec) }
    ensures kept { Gains strings.old strings.new }
{
    match read_spec(alloc, tokens, size, strings) {
        Ok(spec) => Ok(spec),
        Err(ReadSpecFault::Syntax { at }) => Err(SpecFault::Syntax { at }),
        Err(ReadSpecFault::Memory) => Err(SpecFault::Memory),
    }
}

/// The specification that the text is, or its first fault of reading.
fn spec_of(alloc: Global, text: &[u8], strings: &mut Strings) -> Result<Spec, SpecFault>
    requires { length text.now ≤ 8388608 }
    ensures text { IfOk result (λ spec. IsFromText spec) }
    ensures ids { IfOk result (λ spec. HasIds strings.new spec) }
    ensures kept { Gains strings.old strings.new }
{
    intern_known_words(strings)?;
    let tokens = tokens_of(alloc, text, strings)?;
    syntax_of(alloc, tokens.as_slice(), text.len() as u32, strings)
}

/// What is in force in a specification, or its first fault up to there.
fn forced(alloc: Global, spec: Spec, strings: &mut Strings) -> Result<Forced, SpecFault>
    requires text { IsFromText spec }
    requires ids { HasIds strings.old spec }
    ensures forced { IfOk result (λ forced. (env : Environment) × AreForcedOf env forced) }
    ensures within { IfOk result (λ forced. AreWithin forced.tables) }
    ensures text { IfOk result (λ forced. IsFromText forced.tables.spec) }
    ensures none { IfOk result (λ forced. (env : Environment) → env.texts ≡ strings.new → HasNone (table_faults forced.tables.spec env)) }
    ensures kept { Gains strings.old strings.new }
{
    let tables = tables(alloc, spec, strings)?;
    in_force(alloc, tables)
}

/// What is in force in the specification that the text is, or its first fault up to there.
pub fn forced_of(alloc: Global, text: &[u8], strings: &mut Strings) -> Result<Forced, SpecFault>
    requires { length text.now ≤ 8388608 }
    ensures forced { IfOk result (λ forced. (env : Environment) × AreForcedOf env forced) }
    ensures within { IfOk result (λ forced. AreWithin forced.tables) }
    ensures text { IfOk result (λ forced. IsFromText forced.tables.spec) }
    ensures none { IfOk result (λ forced. (env : Environment) → env.texts ≡ strings.new → HasNone (table_faults forced.tables.spec env)) }
    ensures kept { Gains strings.old strings.new }
{
    let spec = spec_of(alloc, text, strings)?;
    forced(alloc, spec, strings)
}

/// Whether all that is in force in the specification that the text is has its types, or its first fault up to there. (The patterns'
/// names are ids of `strings`.)
pub fn check_text(
    alloc: Global,
    text: &[u8],
    patterns: &Patterns,
    strings: &mut Strings,
) -> Result<(), SpecFault>
    requires length { length text.now ≤ 8388608 }
    requires named { AreNamedIn strings.old patterns.now.list }
{
    let forced = forced_of(alloc, text, strings)?;
    check_forced(alloc, &forced, patterns, strings)
}
