//! Tokens, and why a text has none.
ghost use Rattle.std.specs.Prelude.{◌≡◌};
ghost use Rattle.lido_lexer.specs.declared.token.LexFault.TheVariants.{Memory};

use crate::{Keyword, Sign};
use lido_base::StrId;
use std::alloc::AllocFailed;
use thiserror::Error;

/// A token: the bytes of the text from `from` up to and without `to`, and what they say. Both count bytes from the start of the
/// text, and `from` is below `to`.
#[derive(Clone, Copy, Debug, PartialEq, Eq)]
pub struct Token {
    pub from: u32,
    pub to: u32,
    pub what: TokenKind,
}

/// What a token says. Texts are named by their ids in the `Strings` that `lex` was given.
#[derive(Clone, Copy, Debug, PartialEq, Eq)]
pub enum TokenKind {
    /// A name that is no keyword.
    Word(StrId),
    Key(Keyword),
    /// A number without sign, from 0 to 9,223,372,036,854,775,807.
    Int(i64),
    /// What a string in double quotes stands for, its escapes replaced by the bytes that they mean.
    Str(StrId),
    /// What stands between the quotes of a literal.
    Literal(StrId),
    Sign(Sign),
}

/// The tokens in front of a text.
#[derive(Debug, Drop)]
pub struct Lexed {
    pub tokens: Vec<Token>,
    /// The first byte, counted from 0, of the first token that can't be formed; none where the tokens go up to the text's end.
    pub stuck: Option<u32>,
}

/// Why `lex` gave no tokens.
#[derive(Clone, Copy, Debug, PartialEq, Eq, Error)]
pub enum LexFault {
    /// At this byte, counted from 0, something begins that is no token and may not stand between tokens.
    #[error("no token begins at byte {at}")]
    Lexical { at: u32 },
    #[error("out of memory")]
    Memory,
}

impl<T: Drop> From<AllocFailed<T>> for LexFault {
    ghost from_gives = { λ _ e. e ≡ Memory };

    fn from(_: AllocFailed<T>) -> Self {
        LexFault::Memory
    }
}
