//! Strings in double quotes, and literals.
ghost use Rattle.std.specs.Prelude.{◌≡◌, ◌≢◌, ◌<◌, ◌≤◌, List, ℕ, ◌∷◌, length, IfOk, IfSome, IfNone};
ghost use Rattle.std.specs.Option.{SomeIff};
ghost use Rattle.lido_lexer.specs.Bytes.{value_in};
ghost use Rattle.lido_lexer.specs.Tokens.{escaped, IsPart, IsQuoted, IsString, IsLiteral};

use crate::bytes::{is_plain, split_literal, split_octal};
use std::alloc::{AllocError, Global};

/// The literal in front, as the text between its quotes, and what stands behind it.
pub fn literal_front(bytes: &[u8]) -> Option<(&[u8], &[u8])>
    ensures some { IfSome result (λ x. IsLiteral bytes.now x.0.now x.1.now) }
    ensures shorter { IfSome result (λ x. length x.1.now < length bytes.now) }
    ensures none { IfNone result ((text rest : List ℕ) → IsLiteral bytes.now text rest → ⊥) }
{
    let [b'\'', inner @ ..] = bytes else {
        return None;
    };
    let (text, closed) = split_literal(inner);
    match closed {
        [b'\'', rest @ ..] if !text.is_empty() => Some((text, rest)),
        _ => None,
    }
}

/// What a byte behind a backslash stands for.
pub fn escaped(letter: u8) -> Option<u8>
    ensures { result ≡ escaped letter }
{
    match letter {
        b'n' => Some(b'\n'),
        b't' => Some(b'\t'),
        b'r' => Some(b'\r'),
        b'a' => Some(7),
        b'b' => Some(8),
        b'f' => Some(12),
        b'v' => Some(11),
        b'\\' => Some(b'\\'),
        b'"' => Some(b'"'),
        b'\'' => Some(b'\''),
        b'?' => Some(b'?'),
        _ => None,
    }
}

/// The byte that octal digits write, if it is one.
fn octal_value(digits: &[u8]) -> Option<u8>
    ensures { SomeIff result (value_in 8 digits.now ≤ 255) (value_in 8 digits.now) }
{
    let mut value = 0u32;
    for b in digits {
        if value > 255 {
            return None;
        }
        value = value * 8 + u32::from(b.saturating_sub(b'0'));
    }
    if value > 255 {
        return None;
    }
    Some(value as u8)
}

/// The byte that an escape stands for, of which the backslash is gone, and what stands behind it.
fn escape_front(inner: &[u8]) -> Option<(u8, &[u8])>
    ensures some { IfSome result (λ x. IsPart (92 ∷ inner.now) x.0 x.1.now) }
    ensures shorter { IfSome result (λ x. length x.1.now < length inner.now) }
    ensures none { IfNone result ((byte : ℕ) (rest : List ℕ) → IsPart (92 ∷ inner.now) byte rest → ⊥) }
{
    let (digits, rest) = split_octal(inner);
    if !digits.is_empty() {
        return match octal_value(digits) {
            Some(byte) => Some((byte, rest)),
            None => None,
        };
    }
    let (letter, rest) = inner.split_first()?;
    match escaped(*letter) {
        Some(byte) => Some((byte, rest)),
        None => None,
    }
}

/// The byte that one part of a string in front stands for, and what stands behind that part.
fn part_front(bytes: &[u8]) -> Option<(u8, &[u8])>
    ensures some { IfSome result (λ x. IsPart bytes.now x.0 x.1.now) }
    ensures shorter { IfSome result (λ x. length x.1.now < length bytes.now) }
    ensures none { IfNone result ((byte : ℕ) (rest : List ℕ) → IsPart bytes.now byte rest → ⊥) }
{
    let (first, rest) = bytes.split_first()?;
    if *first == b'\\' {
        return escape_front(rest);
    }
    if is_plain(*first) {
        return Some((*first, rest));
    }
    None
}

/// What stands behind a double quote in front.
fn behind_quote(bytes: &[u8]) -> Option<&[u8]>
    ensures some { IfSome result (λ rest. bytes.now ≡ 34 ∷ rest.now) }
    ensures shorter { IfSome result (λ rest. length rest.now < length bytes.now) }
    ensures none { IfNone result ((rest : List ℕ) → bytes.now ≢ 34 ∷ rest) }
{
    let (first, rest) = bytes.split_first()?;
    if *first != b'"' {
        return None;
    }
    Some(rest)
}

/// What stands behind the opening quote of a string: the bytes that its parts stand for, and what is behind its end.
fn parts_front(alloc: Global, inner: &[u8]) -> Result<Option<(Vec<u8>, &[u8])>, AllocError>
    ensures some { IfOk result (λ found. IfSome found (λ x. IsQuoted inner.now x.0.items x.1.now)) }
    ensures shorter { IfOk result (λ found. IfSome found (λ x. length x.1.now < length inner.now)) }
    ensures none { IfOk result (λ found. IfNone found ((text rest : List ℕ) → IsQuoted inner.now text rest → ⊥)) }
{
    let mut text = Vec::new(alloc);
    let mut left = inner;
    while let Some((byte, rest)) = part_front(left) {
        text.push(byte)?;
        left = rest;
    }
    match behind_quote(left) {
        Some(rest) => Ok(Some((text, rest))),
        None => Ok(None),
    }
}

/// The string in front, as the bytes that it stands for, and what stands behind it.
pub fn string_front(alloc: Global, bytes: &[u8]) -> Result<Option<(Vec<u8>, &[u8])>, AllocError>
    ensures some { IfOk result (λ found. IfSome found (λ x. IsString bytes.now x.0.items x.1.now)) }
    ensures shorter { IfOk result (λ found. IfSome found (λ x. length x.1.now < length bytes.now)) }
    ensures none { IfOk result (λ found. IfNone found ((text rest : List ℕ) → IsString bytes.now text rest → ⊥)) }
{
    match behind_quote(bytes) {
        Some(inner) => parts_front(alloc, inner),
        None => Ok(None),
    }
}
