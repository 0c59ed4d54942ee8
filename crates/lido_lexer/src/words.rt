//! Names.
ghost use Rattle.std.specs.Prelude.{◌≡◌, ◌<◌, List, ℕ, length, IfSome, IfNone};
ghost use Rattle.lido_lexer.specs.Tokens.{IsName};

use crate::bytes::{is_letter, split_name};

/// The name in front, which may be a keyword, and what stands behind it.
pub fn name_front(bytes: &[u8]) -> Option<(&[u8], &[u8])>
    ensures some { IfSome result (λ x. IsName bytes.now x.0.now x.1.now) }
    ensures shorter { IfSome result (λ x. length x.1.now < length bytes.now) }
    ensures none { IfNone result ((name rest : List ℕ) → IsName bytes.now name rest → ⊥) }
{
    match bytes {
        [first, ..] if is_letter(*first) => Some(split_name(bytes)),
        _ => None,
    }
}
