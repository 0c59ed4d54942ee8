//! Declarations: of attributes, of terminals, of chains.
ghost use Rattle.std.specs.Prelude.{◌≡◌, ◌<◌, ◌≤◌, length, IfOk, IfErr, IsTrue};
ghost use Rattle.lido_base.specs.Reading.{nothing, Finds};
ghost use Rattle.lido_reader.specs.Items.{AreDecls, IsAttr, IsChain, IsDecl, IsSide, IsTerm, IsTerminalType, continues_decls, declared, is_side, is_terminal_type, typed};
ghost use Rattle.lido_computations.specs.Phrases.{ReadsSeen};

use crate::ReadSpecFault;
use lido_base::{Kind, ValueType};
use lido_computations::names::{
    after_key, after_sign, after_type, keyword, names, sign, stop, value_type,
};
use lido_lexer::{Keyword, Sign, Token};
use lido_syntax::{Decl, Name, Typed1};
use std::alloc::Global;

/// Whether a terminal may have this type.
fn is_terminal_type(ty: ValueType) -> bool
    ensures { result ≡ is_terminal_type ty }
{
    matches!(ty, ValueType::Int | ValueType::Str)
}

/// A terminal's type.
fn terminal_type(tokens: &[Token], end: u32) -> Result<(ValueType, &[Token]), ReadSpecFault>
    ensures reads { ReadsSeen (λ ty. ty) IsTerminalType nothing end tokens.now result }
    ensures shorter { IfOk result (λ x. length x.1.now < length tokens.now) }
{
    let Some((ty, rest)) = after_type(tokens) else {
        return Err(stop(tokens, end));
    };
    if is_terminal_type(ty) {
        Ok((ty, rest))
    } else {
        Err(stop(tokens, end))
    }
}

/// Whether an attribute is synthesized or inherited, if that is said.
fn side(tokens: &[Token]) -> (Option<Kind>, &[Token])
    ensures reads { Finds IsSide is_side tokens.now result.0 result.1.now }
    ensures no_longer { length result.1.now ≤ length tokens.now }
{
    if let Some((_, rest)) = after_key(tokens, Keyword::Synt) {
        return (Some(Kind::Synthesized), rest);
    }
    if let Some((_, rest)) = after_key(tokens, Keyword::Inh) {
        return (Some(Kind::Inherited), rest);
    }
    (None, tokens)
}

/// Each of the names with this type and kind.
fn declared(
    alloc: Global,
    names: &[Name],
    ty: ValueType,
    kind: Option<Kind>,
) -> Result<Vec<Decl>, ReadSpecFault>
    ensures all { IfOk result (λ all. all.items ≡ declared names.now ty kind) }
    ensures memory { IfErr result (λ e. e ≡ ReadSpecFault.Memory) }
{
    let mut all = Vec::new(alloc);
    for name in names {
        all.push(Decl {
            attr: *name,
            ty,
            kind,
        })?;
    }
    Ok(all)
}

/// Each of the names with this type.
fn typed(alloc: Global, names: &[Name], ty: ValueType) -> Result<Vec<Typed1>, ReadSpecFault>
    ensures all { IfOk result (λ all. all.items ≡ typed names.now ty) }
    ensures memory { IfErr result (λ e. e ≡ ReadSpecFault.Memory) }
{
    let mut all = Vec::new(alloc);
    for name in names {
        all.push(Typed1 { name: *name, ty })?;
    }
    Ok(all)
}

/// `name {"," name} ":" type ["SYNT" | "INH"]`
fn decl(alloc: Global, tokens: &[Token], end: u32) -> Result<(Vec<Decl>, &[Token]), ReadSpecFault>
    ensures reads { ReadsSeen (λ all. all.items) IsDecl is_side end tokens.now result }
    ensures shorter { IfOk result (λ x. length x.1.now < length tokens.now) }
{
    let (attrs, behind_names) = names(alloc, tokens, end)?;
    let (_, behind_colon) = sign(behind_names, end, Sign::Colon)?;
    let (ty, behind_type) = value_type(behind_colon, end)?;
    let (kind, rest) = side(behind_type);
    let all = declared(alloc, attrs.as_slice(), ty, kind)?;
    Ok((all, rest))
}

/// `decl {"," decl}`
pub(crate) fn decls(
    alloc: Global,
    tokens: &[Token],
    end: u32,
) -> Result<(Vec<Decl>, &[Token]), ReadSpecFault>
    ensures reads { ReadsSeen (λ all. all.items) AreDecls continues_decls end tokens.now result }
    ensures shorter { IfOk result (λ x. length x.1.now < length tokens.now) }
{
    let (mut all, mut rest) = decl(alloc, tokens, end)?;
    while let Some((_, behind_comma)) = after_sign(rest, Sign::Comma) {
        let (mut more, behind) = decl(alloc, behind_comma, end)?;
        all.append(&mut more)?;
        rest = behind;
    }
    Ok((all, rest))
}

/// `"ATTR" decls ";"`
pub(crate) fn attr(
    alloc: Global,
    tokens: &[Token],
    end: u32,
) -> Result<(Vec<Decl>, &[Token]), ReadSpecFault>
    ensures reads { ReadsSeen (λ all. all.items) IsAttr nothing end tokens.now result }
    ensures shorter { IfOk result (λ x. length x.1.now < length tokens.now) }
{
    let (_, behind_word) = keyword(tokens, end, Keyword::Attr)?;
    let (all, behind_decls) = decls(alloc, behind_word, end)?;
    let (_, rest) = sign(behind_decls, end, Sign::Semicolon)?;
    Ok((all, rest))
}

/// `"TERM" name {"," name} ":" type ";"`
pub(crate) fn term(
    alloc: Global,
    tokens: &[Token],
    end: u32,
) -> Result<(Vec<Typed1>, &[Token]), ReadSpecFault>
    ensures reads { ReadsSeen (λ all. all.items) IsTerm nothing end tokens.now result }
    ensures shorter { IfOk result (λ x. length x.1.now < length tokens.now) }
{
    let (_, behind_word) = keyword(tokens, end, Keyword::Term)?;
    let (terms, behind_names) = names(alloc, behind_word, end)?;
    let (_, behind_colon) = sign(behind_names, end, Sign::Colon)?;
    let (ty, behind_type) = terminal_type(behind_colon, end)?;
    let (_, rest) = sign(behind_type, end, Sign::Semicolon)?;
    let all = typed(alloc, terms.as_slice(), ty)?;
    Ok((all, rest))
}

/// `"CHAIN" name {"," name} ":" type ";"`
pub(crate) fn chain(
    alloc: Global,
    tokens: &[Token],
    end: u32,
) -> Result<(Vec<Typed1>, &[Token]), ReadSpecFault>
    ensures reads { ReadsSeen (λ all. all.items) IsChain nothing end tokens.now result }
    ensures shorter { IfOk result (λ x. length x.1.now < length tokens.now) }
{
    let (_, behind_word) = keyword(tokens, end, Keyword::Chain)?;
    let (chains, behind_names) = names(alloc, behind_word, end)?;
    let (_, behind_colon) = sign(behind_names, end, Sign::Colon)?;
    let (ty, behind_type) = value_type(behind_colon, end)?;
    let (_, rest) = sign(behind_type, end, Sign::Semicolon)?;
    let all = typed(alloc, chains.as_slice(), ty)?;
    Ok((all, rest))
}
