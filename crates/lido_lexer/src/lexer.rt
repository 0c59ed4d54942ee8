//! A whole text is cut into its tokens.
ghost use Rattle.std.specs.Prelude.{◌≡◌, ◌⊎◌, ◌+◌, ◌<◌, ◌≤◌, ◌^◌, List, ℕ, Some, length, map, slice_get, IfOk, IfErr, IfSome, All};
ghost use Rattle.lido_base.specs.Phases.{Gives};
ghost use Rattle.lido_base.specs.Texts.{with_text, Gains, interned};
ghost use Rattle.lido_lexer.specs.Lexemes.{name_shown, said};
ghost use Rattle.lido_lexer.specs.Tokens.{IsFront, shown_kind};
ghost use Rattle.lido_lexer.specs.Lexing.{HasText, IsCutInto, IsInOrder, IsRefusedAt, Lexing, place, placed, shown_in};
ghost use Rattle.lido_lexer.specs.Tables.{LexedFrom, text_of, texts_in};

use crate::gaps::skip_gaps;
use crate::keyword::keyword_of;
use crate::lexeme::{Lexeme, lexeme_front};
use crate::{LexFault, Lexed, Token, TokenKind};
use lido_base::{StrId, Strings};
use std::alloc::Global;

/// The id of a text.
fn intern(strings: &mut Strings, text: &[u8]) -> Result<StrId, LexFault>
    ensures text { IfOk result (λ id. slice_get strings.new id.0 ≡ Some text.now) }
    ensures table { IfOk result (λ _. strings.new ≡ with_text strings.old text.now) }
    ensures kept { Gains strings.old strings.new }
    ensures few { length strings.new ≤ length strings.old + 1 }
    ensures memory { IfErr result (λ e. e ≡ LexFault.Memory) }
{
    match strings.intern(text) {
        Ok(id) => Ok(id),
        Err(_) => Err(LexFault::Memory),
    }
}

/// What a name says.
fn name_kind(strings: &mut Strings, name: &[u8]) -> Result<TokenKind, LexFault>
    ensures shown { IfOk result (λ what. shown_kind strings.new what ≡ name_shown name.now) }
    ensures text { IfOk result (λ what. HasText (length strings.new) what) }
    ensures table { IfOk result (λ what. strings.new ≡ interned strings.old (text_of (shown_kind strings.new what))) }
    ensures kept { Gains strings.old strings.new }
    ensures few { length strings.new ≤ length strings.old + 1 }
    ensures memory { IfErr result (λ e. e ≡ LexFault.Memory) }
{
    if let Some(keyword) = keyword_of(name) {
        return Ok(TokenKind::Key(keyword));
    }
    match intern(strings, name) {
        Ok(id) => Ok(TokenKind::Word(id)),
        Err(e) => Err(e),
    }
}

/// What a token says, its text put among the others.
fn token_kind(strings: &mut Strings, lexeme: Lexeme) -> Result<TokenKind, LexFault>
    ensures shown { IfOk result (λ what. shown_kind strings.new what ≡ said lexeme.entry) }
    ensures text { IfOk result (λ what. HasText (length strings.new) what) }
    ensures table { IfOk result (λ what. strings.new ≡ interned strings.old (text_of (shown_kind strings.new what))) }
    ensures kept { Gains strings.old strings.new }
    ensures few { length strings.new ≤ length strings.old + 1 }
    ensures memory { IfErr result (λ e. e ≡ LexFault.Memory) }
{
    match lexeme {
        Lexeme::Name(name) => name_kind(strings, name),
        Lexeme::Int(value) => Ok(TokenKind::Int(value)),
        Lexeme::Sign(sign) => Ok(TokenKind::Sign(sign)),
        Lexeme::Literal(text) => match intern(strings, text) {
            Ok(id) => Ok(TokenKind::Literal(id)),
            Err(e) => Err(e),
        },
        Lexeme::Str(text) => match intern(strings, text.as_slice()) {
            Ok(id) => Ok(TokenKind::Str(id)),
            Err(e) => Err(e),
        },
    }
}

/// How many bytes of the text stand before what is left of it.
fn place(text: &[u8], left: &[u8]) -> u32
    requires within { length left.now ≤ length text.now }
    requires small { length text.now < 2 ^ 32 }
    ensures { result ≡ place (length text.now) left.now }
{
    (text.len() - left.len()) as u32
}

/// The token with which what is left of the text begins, and what stands behind it.
fn next_token<'a>(
    alloc: Global,
    text: &[u8],
    left: &'a [u8],
    strings: &mut Strings,
) -> Result<(Token, &'a [u8]), LexFault>
    requires within { length left.now ≤ length text.now }
    requires small { length text.now < 2 ^ 32 }
    ensures front { IfOk result (λ x. IsFront left.now (shown_kind strings.new x.0.what) x.1.now) }
    ensures shown { IfOk result (λ x. shown_in strings.new x.0
        ≡ placed (length text.now) left.now (shown_kind strings.new x.0.what) x.1.now) }
    ensures shorter { IfOk result (λ x. length x.1.now < length left.now) }
    ensures text { IfOk result (λ x. HasText (length strings.new) x.0.what) }
    ensures table { IfOk result (λ x. strings.new ≡ interned strings.old (text_of (shown_kind strings.new x.0.what))) }
    ensures refusal { IfErr result (λ e. IsRefusedAt (length text.now) left.now e) }
    ensures same { IfErr result (λ e. (e ≡ LexFault.Memory) ⊎ (strings.new ≡ strings.old)) }
    ensures kept { Gains strings.old strings.new }
    ensures few { length strings.new ≤ length strings.old + 1 }
{
    match lexeme_front(alloc, left) {
        Ok(Some((lexeme, rest))) => match token_kind(strings, lexeme) {
            Ok(what) => {
                let token = Token {
                    from: place(text, left),
                    to: place(text, rest),
                    what,
                };
                Ok((token, rest))
            }
            Err(_) => Err(LexFault::Memory),
        },
        Ok(None) => Err(LexFault::Lexical {
            at: place(text, left),
        }),
        Err(_) => Err(LexFault::Memory),
    }
}

/// The tokens in front of a text in order, as far as they go, with their texts put into `strings`.
///
/// They go up to the text's end, or up to the first byte of the first token that can't be formed. An `Err` is want of memory.
/// Texts that were in `strings` keep their ids whatever the answer; a text gains at most as many texts as it has bytes.
pub fn lex_as_far(alloc: Global, text: &[u8], strings: &mut Strings) -> Result<Lexed, LexFault>
    requires { length text.now ≤ 8388608 }
    // Read with the texts of `strings`, the tokens are those that the text spells.
    ensures cut { IfOk result (λ lexed. IsCutInto (length text.now) text.now (map (shown_in strings.new) lexed.tokens.items) lexed.stuck) }
    // The texts behind those that were there are the new ones among the tokens' texts, in order.
    ensures table { IfOk result (λ lexed. strings.new ≡ interned strings.old (texts_in (map (shown_in strings.new) lexed.tokens.items))) }
    ensures memory { IfErr result (λ e. e ≡ LexFault.Memory) }
    ensures ids { IfOk result (λ lexed. All (λ token. HasText (length strings.new) token.what) lexed.tokens.items) }
    ensures in_order { IfOk result (λ lexed. IsInOrder 0 (length text.now) lexed.tokens.items) }
    ensures count { IfOk result (λ lexed. length lexed.tokens.items ≤ length text.now) }
    ensures within { IfOk result (λ lexed. IfSome lexed.stuck (λ at. at ≤ length text.now)) }
    ensures kept { Gains strings.old strings.new }
    ensures few { length strings.new ≤ length strings.old + length text.now }
{
    let mut tokens = Vec::new(alloc);
    let mut left = skip_gaps(text);
    while !left.is_empty() {
        match next_token(alloc, text, left, strings) {
            Ok((token, rest)) => {
                tokens.push(token)?;
                left = skip_gaps(rest);
            }
            Err(LexFault::Lexical { at }) => {
                return Ok(Lexed {
                    tokens,
                    stuck: Some(at),
                });
            }
            Err(LexFault::Memory) => return Err(LexFault::Memory),
        }
    }
    Ok(Lexed {
        tokens,
        stuck: None,
    })
}

/// The tokens of a text in order, with their texts put into `strings`.
///
/// `Lexical` comes exactly where the text is not made of tokens with white space and comments between them, and names the first
/// byte of the first token that can't be formed. `Memory` is want of memory. Texts that were in `strings` keep their ids whatever
/// the answer; a text gains at most as many texts as it has bytes.
pub fn lex(alloc: Global, text: &[u8], strings: &mut Strings) -> Result<Vec<Token>, LexFault>
    requires { length text.now ≤ 8388608 }
    // Read with the texts of `strings`, the answer is what the text spells, and nothing else is.
    ensures gives { Gives (λ tokens. map (shown_in strings.new) tokens.items) (Lexing text.now) LexFault.Memory result }
    // What was in `strings` and the text decide of the answer and of what is in `strings` now.
    ensures reads { Gives (λ tokens. (strings.new, tokens.items)) (LexedFrom strings.old text.now) LexFault.Memory result }
    ensures ids { IfOk result (λ tokens. All (λ token. HasText (length strings.new) token.what) tokens.items) }
    ensures in_order { IfOk result (λ tokens. IsInOrder 0 (length text.now) tokens.items) }
    ensures count { IfOk result (λ tokens. length tokens.items ≤ length text.now) }
    ensures kept { Gains strings.old strings.new }
    ensures few { length strings.new ≤ length strings.old + length text.now }
{
    let Lexed { tokens, stuck } = match lex_as_far(alloc, text, strings) {
        Ok(lexed) => lexed,
        Err(e) => return Err(e),
    };
    // Ids tell texts apart.
    let _texts = strings.len();
    if let Some(at) = stuck {
        return Err(LexFault::Lexical { at });
    }
    Ok(tokens)
}
