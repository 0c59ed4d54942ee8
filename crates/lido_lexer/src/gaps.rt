//! What may stand between tokens: white space and comments.
ghost use Rattle.std.specs.Prelude.{◌≡◌, ◌<◌, ◌≤◌, List, ℕ, ◌∷◌, length, IfSome, IfNone};
ghost use Rattle.lido_lexer.specs.Gaps.{EndsFirst, IsGap, IsPast};

use crate::bytes::{is_white, line_end};

/// What stands behind the first `*/`.
fn block_end(bytes: &[u8]) -> Option<&[u8]>
    ensures some { IfSome result (λ rest. EndsFirst bytes.now rest.now) }
    ensures shorter { IfSome result (λ rest. length rest.now < length bytes.now) }
    ensures none { IfNone result ((rest : List ℕ) → EndsFirst bytes.now rest → ⊥) }
{
    let mut star = false;
    for (i, b) in bytes.iter().enumerate() {
        if star && *b == b'/' {
            return Some(&bytes[i + 1..]);
        }
        star = *b == b'*';
    }
    None
}

/// What stands behind a comment, of which the first slash is gone.
fn comment_end(inner: &[u8]) -> Option<&[u8]>
    ensures some { IfSome result (λ rest. IsGap (47 ∷ inner.now) rest.now) }
    ensures shorter { IfSome result (λ rest. length rest.now < length inner.now) }
    ensures none { IfNone result ((rest : List ℕ) → IsGap (47 ∷ inner.now) rest → ⊥) }
{
    let (second, body) = inner.split_first()?;
    if *second == b'*' {
        return block_end(body);
    }
    if *second == b'/' {
        return Some(line_end(body));
    }
    None
}

/// What stands behind one piece between tokens.
fn gap_front(bytes: &[u8]) -> Option<&[u8]>
    ensures some { IfSome result (λ rest. IsGap bytes.now rest.now) }
    ensures shorter { IfSome result (λ rest. length rest.now < length bytes.now) }
    ensures none { IfNone result ((rest : List ℕ) → IsGap bytes.now rest → ⊥) }
{
    let (first, rest) = bytes.split_first()?;
    if is_white(*first) {
        return Some(rest);
    }
    if *first == b'/' {
        return comment_end(rest);
    }
    None
}

/// What stands behind all pieces between tokens.
pub fn skip_gaps(bytes: &[u8]) -> &[u8]
    ensures past { IsPast bytes.now result.now }
    ensures bound { length result.now ≤ length bytes.now }
    ensures none { (rest : List ℕ) → IsGap result.now rest → ⊥ }
{
    let mut left = bytes;
    while let Some(rest) = gap_front(left) {
        left = rest;
    }
    left
}
