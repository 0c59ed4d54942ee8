//! Tokens by their part in a pattern.
ghost use Rattle.std.specs.Prelude.{◌≡◌, ◌++◌, IfOk, IfErr, IsTrue, ◌↔◌};
ghost use Rattle.ptg_patterns.specs.Marks.{is_numbered, key_mark, mark_of, marks_up_to, number_mark, sign_mark};

use crate::PtgFault;
use lido_base::StrId;
use lido_lexer::{Keyword, Sign, Token, TokenKind, next};
use std::alloc::Global;

/// What a token may be in a pattern. A place is that of the token's first byte.
#[derive(Clone, Copy)]
pub enum Mark {
    /// A name that is no keyword, and its place.
    Name(u32, StrId),
    /// `:`
    Colon,
    /// A string.
    Fixed(StrId),
    /// A `$` that no int follows directly, and its place.
    Bare(u32),
    /// A `$` that an int follows directly, and its place.
    Numbering(u32),
    /// An int from 1 to 64.
    Number(u32),
    /// `{`
    BraceOpen,
    /// `}`
    BraceClose,
    /// The word `int`.
    IntWord,
    /// The word `string`.
    StringWord,
    /// Any other token, or a place where no token can be formed.
    Misfit,
}

/// What a keyword may be.
fn key_mark(keyword: Keyword) -> Mark
    ensures { result ≡ key_mark keyword }
{
    match keyword {
        Keyword::Int => Mark::IntWord,
        Keyword::Str => Mark::StringWord,
        _ => Mark::Misfit,
    }
}

/// What an int may be.
fn number_mark(value: i64) -> Mark
    ensures { result ≡ number_mark value }
{
    if 1 <= value && value <= 64 {
        Mark::Number(value as u32)
    } else {
        Mark::Misfit
    }
}

/// Whether an int stands directly behind this `$`.
fn is_numbered(dollar: Token, behind: &[Token]) -> bool
    ensures { result ≡ is_numbered dollar behind.now }
{
    match next(behind) {
        Some((token, _)) => match token.what {
            TokenKind::Int(_) => token.from == dollar.to,
            _ => false,
        },
        None => false,
    }
}

/// What a sign may be, by the tokens behind it.
fn sign_mark(token: Token, sign: Sign, behind: &[Token]) -> Mark
    ensures { result ≡ sign_mark token sign behind.now }
{
    match sign {
        Sign::Colon => Mark::Colon,
        Sign::BraceOpen => Mark::BraceOpen,
        Sign::BraceClose => Mark::BraceClose,
        Sign::Dollar => {
            if is_numbered(token, behind) {
                Mark::Numbering(token.from)
            } else {
                Mark::Bare(token.from)
            }
        }
        _ => Mark::Misfit,
    }
}

/// What a token may be, by the tokens behind it.
fn mark_of(token: Token, behind: &[Token]) -> Mark
    ensures { result ≡ mark_of token behind.now }
{
    match token.what {
        TokenKind::Word(id) => Mark::Name(token.from, id),
        TokenKind::Key(keyword) => key_mark(keyword),
        TokenKind::Int(value) => number_mark(value),
        TokenKind::Str(id) => Mark::Fixed(id),
        TokenKind::Literal(_) => Mark::Misfit,
        TokenKind::Sign(sign) => sign_mark(token, sign, behind),
    }
}

/// What each of the tokens may be, and a misfit behind them where they end before the text does.
pub fn marks(alloc: Global, tokens: &[Token], stuck: Option<u32>) -> Result<Vec<Mark>, PtgFault>
    ensures marks { IfOk result (λ found. found.items ≡ marks_up_to tokens.now stuck) }
    ensures memory { IfErr result (λ e. e ≡ PtgFault.Memory) }
{
    let mut found = Vec::new(alloc);
    let mut rest = tokens;
    while let Some((token, behind)) = next(rest) {
        found.push(mark_of(token, behind))?;
        rest = behind;
    }
    if stuck.is_some() {
        found.push(Mark::Misfit)?;
    }
    Ok(found)
}
