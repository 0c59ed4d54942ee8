//! Words of bits that are moved or cut off.
ghost use Rattle.std.specs.Prelude.{◌≡◌, ◌+◌, ◌-◌, ◌<◌, ◌≤◌, ◌↔◌, ℕ, IsBitSet};

use flat_grammar::Bits;

/// The bits of a word, each so many places further up. Those that come to 128 or behind are left out.
pub fn moved_up(word: u128, by: usize) -> u128
    ensures { (k : ℕ) → IsBitSet result k ↔ ((k < 128) × (by ≤ k) × IsBitSet word (k - by)) }
{
    if by < 128 { word << by } else { 0 }
}

/// The bits of a word, each so many places further down. Those below are left out.
pub fn moved_down(word: u128, by: usize) -> u128
    ensures { (k : ℕ) → IsBitSet result k ↔ IsBitSet word (k + by) }
{
    if by < 128 { word >> by } else { 0 }
}

/// The bits of a word below this place.
fn below(word: u128, place: usize) -> u128
    ensures { (k : ℕ) → IsBitSet result k ↔ ((k < place) × IsBitSet word k) }
{
    if place >= 128 {
        return word;
    }
    moved_down(moved_up(word, 128 - place), 128 - place)
}

/// The attributes of the set below this number.
pub fn first_bits(bits: Bits, count: usize) -> Bits
    ensures { (k : ℕ) → IsBitSet result k ↔ ((k < count) × IsBitSet bits k) }
{
    Bits {
        low: below(bits.low, count),
        high: below(bits.high, count.saturating_sub(128)),
    }
}
