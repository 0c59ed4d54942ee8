//! Operators and constants by their tokens, and the calls that operators give.
ghost use Rattle.std.specs.Prelude.{◌≡◌, ◌+◌, ◌≤◌, None, Some, [], ◌∷◌, length, slice_get, IfErr, IfOk, MatchOption};
ghost use Rattle.lido_lexer.specs.Lexing.{Gains};
ghost use Rattle.lido_computations.specs.Functions.{IsAmong, Keeps, known_words};
ghost use Rattle.lido_computations.specs.Expressions.{constant_of, infix_of, prefix_of, start_of};

use crate::ReadSpecFault;
use lido_base::{List, Strings};
use lido_lexer::{Keyword, Sign, Token, TokenKind};
use lido_syntax::{Expr, Name};
use std::alloc::Global;

/// What a token begins, where an operand is read.
#[derive(Clone, Copy, Debug, PartialEq, Eq)]
pub enum Start {
    /// It is a constant.
    Constant,
    /// A call or a parenthesis that counts: PTGNULL, IF, ORDER or an opening parenthesis.
    Counted,
    Including,
    Constituents,
    /// A word for a place: TAIL, SYNT, INH or THIS.
    Context,
    /// A name.
    Word,
    /// Nothing.
    Other,
}

/// What a token begins.
pub(crate) fn begins(what: TokenKind) -> Start
    ensures { result ≡ start_of what }
{
    match what {
        TokenKind::Int(_) | TokenKind::Str(_) => Start::Constant,
        TokenKind::Word(_) => Start::Word,
        TokenKind::Sign(Sign::ParenOpen) => Start::Counted,
        TokenKind::Key(word) => word_start(word),
        _ => Start::Other,
    }
}

/// What a keyword begins.
fn word_start(word: Keyword) -> Start
    ensures { result ≡ start_of (TokenKind.Key word) }
{
    match word {
        Keyword::True | Keyword::False => Start::Constant,
        Keyword::PtgNull | Keyword::If | Keyword::Order => Start::Counted,
        Keyword::Including => Start::Including,
        Keyword::Constituents => Start::Constituents,
        Keyword::Tail | Keyword::Synt | Keyword::Inh | Keyword::This => Start::Context,
        _ => Start::Other,
    }
}

/// The constant that a token at this place is.
pub(crate) fn constant(at: u32, what: TokenKind) -> Option<Expr>
    ensures { result ≡ constant_of at what }
{
    match what {
        TokenKind::Int(number) => Some(Expr::Int(at, number)),
        TokenKind::Str(text) => Some(Expr::Str(at, text)),
        TokenKind::Key(Keyword::True) => Some(Expr::Bool(at, true)),
        TokenKind::Key(Keyword::False) => Some(Expr::Bool(at, false)),
        _ => None,
    }
}

/// The function of a prefix operator.
pub(crate) fn prefix(what: TokenKind) -> Option<&'static [u8]>
    ensures { MatchOption result (prefix_of what ≡ None) (λ function. prefix_of what ≡ Some function.now) }
{
    match what {
        TokenKind::Sign(Sign::Minus) => Some(b"NEG"),
        TokenKind::Sign(Sign::Bang) => Some(b"NOT"),
        _ => None,
    }
}

/// How tightly an infix operator binds, from 0, and its function.
pub(crate) fn infix(what: TokenKind) -> Option<(u32, &'static [u8])>
    ensures { MatchOption result (infix_of what ≡ None) (λ x. infix_of what ≡ Some (x.0, x.1.now)) }
{
    match what {
        TokenKind::Sign(sign) => infix_sign(sign),
        _ => None,
    }
}

/// How tightly a sign binds, if it is an infix operator, and its function.
fn infix_sign(sign: Sign) -> Option<(u32, &'static [u8])>
    ensures { MatchOption result (infix_of (TokenKind.Sign sign) ≡ None)
        (λ x. infix_of (TokenKind.Sign sign) ≡ Some (x.0, x.1.now)) }
{
    match sign {
        Sign::OrOr => Some((0, b"OR")),
        Sign::AndAnd => Some((1, b"AND")),
        Sign::EqEq => Some((2, b"EQ")),
        Sign::NotEq => Some((2, b"NE")),
        Sign::Less => Some((3, b"LT")),
        Sign::LessEq => Some((3, b"LE")),
        Sign::Greater => Some((3, b"GT")),
        Sign::GreaterEq => Some((3, b"GE")),
        Sign::Plus => Some((4, b"ADD")),
        Sign::Minus => Some((4, b"SUB")),
        Sign::Star => Some((5, b"MUL")),
        Sign::Slash => Some((5, b"DIV")),
        Sign::Percent => Some((5, b"MOD")),
        _ => None,
    }
}

/// The name of an operator's function, at the operator's place.
pub(crate) fn function_name(
    strings: &mut Strings,
    function: &[u8],
    at: u32,
) -> Result<Name, ReadSpecFault>
    ensures name { IfOk result (λ name. (name.at ≡ at) × (slice_get strings.new name.id.0 ≡ Some function.now)) }
    ensures memory { IfErr result (λ fault. fault ≡ ReadSpecFault.Memory) }
    ensures kept { Gains strings.old strings.new }
    ensures few { length strings.new ≤ length strings.old + 1 }
    ensures same { IsAmong known_words function.now → Keeps strings.old strings.new }
{
    match strings.intern(function) {
        Ok(id) => Ok(Name { at, id }),
        Err(_) => Err(ReadSpecFault::Memory),
    }
}
