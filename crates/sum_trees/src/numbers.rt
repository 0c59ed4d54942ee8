//! The number at the front of a text.
ghost use Rattle.std.specs.Prelude.{◌≡◌, ◌≤◌, ◌<◌, ℕ, ℤ, pos, if◌then◌else◌, ◌^◌, List, length, IfSome, IfNone, FitsSigned};
ghost use Rattle.std.specs.Int.{w64};
ghost use Rattle.std.specs.Option.{SomeIff};
ghost use Rattle.sum_trees.specs.Bytes.{is_digit, behind, unsigned, digits_at, number_at, said_after, minus};

use crate::scan::digits_front;

/// What the digits say, up to 2^63.
fn magnitude(digits: &[u8]) -> Option<u64>
    ensures { SomeIff result (said_after 0 digits.now ≤ 2 ^ 63) (said_after 0 digits.now) }
{
    let mut value = 0u64;
    for b in digits {
        if value > (1 << 60) {
            return None;
        }
        value = value * 10 + u64::from(b.saturating_sub(b'0'));
    }
    if value > (1 << 63) {
        return None;
    }
    Some(value)
}

/// The number with this sign, if it is one of 64 bits.
fn signed(negative: bool, value: u64) -> Option<i64>
    requires { value ≤ 2 ^ 63 }
    ensures { SomeIff result (FitsSigned w64 (if negative then minus value else pos value)) (if negative then minus value else pos value) }
{
    if negative {
        if value == (1 << 63) {
            Some(i64::MIN)
        } else {
            Some(-(value as i64))
        }
    } else if value == (1 << 63) {
        None
    } else {
        Some(value as i64)
    }
}

/// The number in front, which is of 64 bits, and what stands behind it.
pub fn number_front(bytes: &[u8]) -> Option<(i64, &[u8])>
    ensures some { IfSome result (λ x. (0 < length (digits_at bytes.now)) × (number_at bytes.now ≡ x.0) × FitsSigned w64 x.0) }
    ensures rest { IfSome result (λ x. x.1.now ≡ behind is_digit (unsigned bytes.now)) }
    ensures shorter { IfSome result (λ x. length x.1.now < length bytes.now) }
    ensures none { IfNone result (0 < length (digits_at bytes.now) → FitsSigned w64 (number_at bytes.now) → ⊥) }
{
    let negative = bytes.first() == Some(&b'-');
    let (digits, rest) = digits_front(if negative { &bytes[1..] } else { bytes });
    if digits.is_empty() {
        return None;
    }
    match signed(negative, magnitude(digits)?) {
        Some(z) => Some((z, rest)),
        None => None,
    }
}
