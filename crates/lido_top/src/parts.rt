//! What the parts of a job text say.
ghost use Rattle.std.specs.Prelude.{◌≡◌, ◌≤◌, ℕ, List, [], length, IfOk, IfErr, OnOk};
ghost use Rattle.lido_base.specs.Inputs.{most};
ghost use Rattle.lido_computations.specs.Functions.{HasAll, known_words};
ghost use Rattle.order_report.specs.declared.status.Status.{Status};
ghost use Rattle.order_report.specs.Lines.{IsNamed};
ghost use Rattle.lido_top.specs.Endings.{GivesAs, ending, no_memory};
ghost use Rattle.lido_top.specs.Verdict.{IsWithin, part, behind_spec, PatternsOf, SectionsOf, SyntaxOf, TokensOf};

use job_text::{CutFault, Sections, Span, cut};
use lido_base::{Patterns, Strings};
use lido_lexer::{LexFault, Token, lex};
use lido_reader::{ReadSpecFault, intern_known_words, read_spec};
use lido_syntax::{Spec, SpecFault};
use order_report::Status;
use ptg_patterns::{PtgFault, read_patterns};
use std::alloc::Global;

/// The bytes of a part.
fn part(bytes: &[u8], span: Span) -> &[u8]
    requires { IsWithin bytes.now span }
    ensures is { result.now ≡ part bytes.now span }
    ensures shorter { length result.now ≤ length bytes.now }
{
    &bytes[span.from as usize..span.to as usize]
}

/// The sections of the input, or the status of the section line that it lacks.
pub fn sections_of(bytes: &[u8]) -> Result<Sections, Status>
    requires { length bytes.now ≤ most }
    ensures gives { (texts : List (List ℕ)) → GivesAs (λ sections. sections) (ending texts) (SectionsOf bytes.now) no_memory result }
    ensures named { (texts : List (List ℕ)) → IfErr result (IsNamed texts) }
    ensures within { IfOk result (λ sections. IsWithin bytes.now sections.spec) }
    ensures ptg_within { IfOk result (λ sections. IsWithin bytes.now sections.ptg) }
{
    match cut(bytes) {
        Ok(sections) => Ok(sections),
        Err(CutFault::NoPtg) => Err(Status::NoPtg),
        Err(CutFault::NoTree) => Err(Status::NoTree),
    }
}

/// Makes the words that the reader of specifications knows by their texts the texts of a table that has none, or says that memory is wanting.
pub fn first_texts(strings: &mut Strings) -> Result<(), Status>
    requires { strings.old ≡ [] }
    ensures table { OnOk result (strings.new ≡ known_words) }
    ensures memory { IfErr result (λ status. status ≡ Status.Memory) }
{
    match intern_known_words(strings) {
        Ok(()) => Ok(()),
        Err(_) => Err(Status::Memory),
    }
}

/// The tokens of the specification, or the status of its first token that can't be formed.
pub fn tokens_of(
    alloc: Global,
    bytes: &[u8],
    sections: Sections,
    strings: &mut Strings,
) -> Result<Vec<Token>, Status>
    requires few { length bytes.now ≤ most }
    requires within { IsWithin bytes.now sections.spec }
    ensures gives { GivesAs (λ tokens. (strings.new, tokens.items)) (ending strings.new) (TokensOf strings.old bytes.now sections) no_memory result }
    ensures named { IfErr result (IsNamed strings.new) }
    ensures there { HasAll known_words strings.old → HasAll known_words strings.new }
{
    match lex(alloc, part(bytes, sections.spec), strings) {
        Ok(tokens) => Ok(tokens),
        Err(LexFault::Lexical { at }) => Err(Status::Spec(SpecFault::Lexical { at })),
        Err(LexFault::Memory) => Err(Status::Memory),
    }
}

/// The specification that the tokens of a text of this size are, or the status of the place where they stop being one.
pub fn syntax_of(
    alloc: Global,
    tokens: &[Token],
    size: u32,
    strings: &mut Strings,
) -> Result<Spec, Status>
    requires { HasAll known_words strings.old }
    ensures gives { GivesAs (λ spec. spec) (ending strings.new) (SyntaxOf (strings.old, tokens.now) size) no_memory result }
    ensures named { IfErr result (IsNamed strings.new) }
    ensures table { OnOk result (strings.new ≡ behind_spec (strings.old, tokens.now)) }
{
    match read_spec(alloc, tokens, size, strings) {
        Ok(spec) => Ok(spec),
        Err(ReadSpecFault::Syntax { at }) => Err(Status::Spec(SpecFault::Syntax { at })),
        Err(ReadSpecFault::Memory) => Err(Status::Memory),
    }
}

/// The patterns, or the status of their first fault.
pub fn patterns_of(
    alloc: Global,
    bytes: &[u8],
    sections: Sections,
    strings: &mut Strings,
) -> Result<Patterns, Status>
    requires few { length bytes.now ≤ most }
    requires within { IsWithin bytes.now sections.ptg }
    ensures gives { GivesAs (λ patterns. patterns.list) (ending strings.new) (PatternsOf strings.old bytes.now sections) no_memory result }
    ensures named { IfErr result (IsNamed strings.new) }
{
    match read_patterns(alloc, part(bytes, sections.ptg), strings) {
        Ok(patterns) => Ok(patterns),
        Err(PtgFault::PtgSyntax { at }) => Err(Status::Spec(SpecFault::PtgSyntax { at })),
        Err(PtgFault::PtgDuplicate { at }) => Err(Status::Spec(SpecFault::PtgDuplicate { at })),
        Err(PtgFault::PtgMixed { at }) => Err(Status::Spec(SpecFault::PtgMixed { at })),
        Err(PtgFault::Memory) => Err(Status::Memory),
    }
}
