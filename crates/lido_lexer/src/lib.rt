//! Tokens of LIDO and PTG: what they are, and how a text is cut into them.
#![tactic(auto)]

mod bytes;
mod gaps;
mod keyword;
pub mod laws;
mod lexeme;
mod lexer;
mod look;
mod numbers;
mod quoted;
mod sign;
mod token;
mod words;

pub use bytes::{is_octal, is_plain};
pub use keyword::Keyword;
pub use lexer::{lex, lex_as_far};
pub use look::{is_key, is_sign, next};
pub use quoted::escaped;
pub use sign::Sign;
pub use token::{LexFault, Lexed, Token, TokenKind};
