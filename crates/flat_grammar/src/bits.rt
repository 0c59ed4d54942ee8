//! Sets of attributes of one symbol.
ghost use Rattle.std.specs.Prelude.{◌≡◌, ◌<◌, ◌≤◌, ◌↔◌, ◌⊎◌, ℕ, IsTrue, IsBitSet, MatchOption, IfOk, All, Contains, map};
ghost use Rattle.std.specs.List.Sorted.{IsStrictlyIncreasing};
ghost use Rattle.lido_base.specs.declared.ids.AttrId.{AttrId as Attribute};

use crate::words;
use lido_base::AttrId;
use std::alloc::{AllocError, Global};
use std::marker::Model;

/// A set of attributes, whose numbers are below 256. Contracts see it as one number, `low + 2^128 * high`.
#[derive(Clone, Copy, Debug, PartialEq, Eq)]
pub struct Bits {
    /// Bit b for attribute b, which is below 128.
    pub low: u128,
    /// Bit b for attribute 128 + b.
    pub high: u128,
}

impl Model for Bits {
    ghost use Rattle.std.specs.Prelude.{ℕ, ◌<◌, ◌^◌, ◌%◌, ◌/◌};
    ghost use Rattle.flat_grammar.specs.Halves.{number_of, low_again, high_again};

    ghost Value = { ℕ };

    ghost view = { λ bits. number_of bits.low bits.high };

    ghost invariant = { λ bits. bits.low < 2 ^ 128 };

    ghost inverse = { λ number. record { low = number % 2 ^ 128; high = number / 2 ^ 128 } };

    ghost inverse_ok = { λ bits small i. record {
      low = low_again bits.low bits.high small i;
      high = high_again bits.low bits.high small i;
    } };
}

impl Bits {
    /// The set without attributes.
    pub fn empty() -> Bits
        ensures { result ≡ 0 }
    {
        Bits { low: 0, high: 0 }
    }

    /// Whether the set has the number. It has none from 256.
    pub fn has(self, k: usize) -> bool
        ensures { IsTrue result ↔ IsBitSet self k }
    {
        if k < 128 {
            words::has(self.low, k)
        } else {
            words::has(self.high, k - 128)
        }
    }

    /// The set with one more number.
    pub fn with(self, k: usize) -> Bits
        requires { k < 256 }
        ensures { (j : ℕ) → IsBitSet result j ↔ ((j ≡ k) ⊎ IsBitSet self j) }
    {
        if k < 128 {
            Bits {
                low: words::with(self.low, k),
                high: self.high,
            }
        } else {
            Bits {
                low: self.low,
                high: words::with(self.high, k - 128),
            }
        }
    }

    /// What is in one of the two sets.
    pub fn union(self, other: Bits) -> Bits
        ensures members { (j : ℕ) → IsBitSet result j ↔ (IsBitSet self j ⊎ IsBitSet other j) }
        ensures grows { self ≤ result }
    {
        Bits {
            low: words::union(self.low, other.low),
            high: words::union(self.high, other.high),
        }
    }

    /// What is in the set and not in the other one.
    pub fn without(self, other: Bits) -> Bits
        ensures { (j : ℕ) → IsBitSet result j ↔ (IsBitSet self j × (IsBitSet other j → ⊥)) }
    {
        Bits {
            low: words::without(self.low, other.low),
            high: words::without(self.high, other.high),
        }
    }

    /// Whether the other set has all that the set has.
    pub fn is_within(self, other: Bits) -> bool
        ensures { IsTrue result ↔ ((j : ℕ) → IsBitSet self j → IsBitSet other j) }
    {
        words::is_within(self.low, other.low) && words::is_within(self.high, other.high)
    }

    /// The least attribute of the set.
    pub fn first(self) -> Option<AttrId>
        ensures { MatchOption result ((j : ℕ) → IsBitSet self j → ⊥)
            (λ a. (a.0 < 256) × IsBitSet self a.0 × ((j : ℕ) → j < a.0 → IsBitSet self j → ⊥)) }
    {
        if let Some(k) = words::first(self.low) {
            return Some(AttrId(k as u16));
        }
        match words::first(self.high) {
            Some(k) => Some(AttrId(128 + k as u16)),
            None => None,
        }
    }

    /// The attributes of the list.
    pub fn of(attrs: &[AttrId]) -> Bits
        requires { All (λ a. a.0 < 256) attrs.now }
        ensures { (a : Attribute) → IsBitSet result a.0 ↔ Contains attrs.now a }
    {
        let mut set = Bits::empty();
        for attr in attrs {
            set = set.with(attr.0 as usize);
        }
        set
    }

    /// The attributes of the set, by ascending numbers.
    pub fn attrs(self, alloc: Global) -> Result<Vec<AttrId>, AllocError>
        ensures same { IfOk result (λ list. (a : Attribute) → Contains list.items a ↔ IsBitSet self a.0) }
        ensures ascending { IfOk result (λ list. IsStrictlyIncreasing (map (λ (a : Attribute). a.0) list.items)) }
    {
        let mut list = Vec::new(alloc);
        let mut rest = self;
        while let Some(attr) = rest.first() {
            list.push(attr)?;
            rest = rest.without(Bits::empty().with(attr.0 as usize));
        }
        Ok(list)
    }
}
