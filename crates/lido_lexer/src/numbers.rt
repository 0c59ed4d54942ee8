//! Numbers.
ghost use Rattle.std.specs.Prelude.{◌≡◌, ◌<◌, ◌≤◌, List, ℕ, ℤ, length, IfSome, IfNone};
ghost use Rattle.std.specs.Option.{SomeIff};
ghost use Rattle.lido_lexer.specs.Bytes.{value_in};
ghost use Rattle.lido_lexer.specs.Tokens.{IsNumber};

use crate::bytes::split_digits;

/// The number that decimal digits write, if it is below 2^63.
fn decimal_value(digits: &[u8]) -> Option<u64>
    ensures { SomeIff result (value_in 10 digits.now ≤ 9223372036854775807) (value_in 10 digits.now) }
{
    let mut value = 0u64;
    for b in digits {
        if value > 922_337_203_685_477_580 {
            return None;
        }
        value = value * 10 + u64::from(b.saturating_sub(b'0'));
    }
    if value > 9_223_372_036_854_775_807 {
        return None;
    }
    Some(value)
}

/// The number in front, and what stands behind it.
pub fn number_front(bytes: &[u8]) -> Option<(i64, &[u8])>
    ensures some { IfSome result (λ x. IsNumber bytes.now x.0 x.1.now) }
    ensures shorter { IfSome result (λ x. length x.1.now < length bytes.now) }
    ensures none { IfNone result ((z : ℤ) (rest : List ℕ) → IsNumber bytes.now z rest → ⊥) }
{
    let (digits, rest) = split_digits(bytes);
    if digits.is_empty() {
        return None;
    }
    match decimal_value(digits) {
        Some(value) => Some((value as i64, rest)),
        None => None,
    }
}
