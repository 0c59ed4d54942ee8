//! Sets of numbers below 128, as the bits of a word.
ghost use Rattle.std.specs.Prelude.{◌≡◌, ◌<◌, ◌≤◌, ◌↔◌, ◌-◌, ◌⊎◌, ℕ, IsTrue, IsBitSet, MatchOption};

/// Whether the set has the number. It has none from 128.
pub fn has(set: u128, k: usize) -> bool
    ensures { IsTrue result ↔ IsBitSet set k }
{
    k < 128 && set & (1 << k) != 0
}

/// The set with one more number.
pub fn with(set: u128, k: usize) -> u128
    requires { k < 128 }
    ensures { (j : ℕ) → IsBitSet result j ↔ ((j ≡ k) ⊎ IsBitSet set j) }
{
    set | (1 << k)
}

/// What is in one of the two sets.
pub fn union(set: u128, other: u128) -> u128
    ensures members { (j : ℕ) → IsBitSet result j ↔ (IsBitSet set j ⊎ IsBitSet other j) }
    ensures grows { set ≤ result }
{
    set | other
}

/// Whether the other set has all that the set has.
pub fn is_within(set: u128, other: u128) -> bool
    ensures { IsTrue result ↔ ((j : ℕ) → IsBitSet set j → IsBitSet other j) }
{
    set | other == other
}

/// What is in the set and not in the other one.
pub fn without(set: u128, other: u128) -> u128
    ensures { (j : ℕ) → IsBitSet result j ↔ (IsBitSet set j × (IsBitSet other j → ⊥)) }
{
    set & !other
}

/// The least number of the set.
pub fn first(set: u128) -> Option<usize>
    ensures { MatchOption result ((j : ℕ) → IsBitSet set j → ⊥) (λ k. (k < 128) × IsBitSet set k × ((j : ℕ) → j < k → IsBitSet set j → ⊥)) }
{
    if set == 0 {
        return None;
    }
    Some(set.trailing_zeros() as usize)
}
