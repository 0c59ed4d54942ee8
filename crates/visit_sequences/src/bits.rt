//! Sets of attributes: what may be too large is left out.
ghost use Rattle.std.specs.Prelude.{◌≡◌, ◌<◌, ◌↔◌, ◌⊎◌, ℕ, IsBitSet, Contains, MatchOption};
ghost use Rattle.lido_base.specs.declared.ids.AttrId.{AttrId as Attribute};

use flat_grammar::Bits;
use lido_base::AttrId;

/// The set with one more number, if it is one of an attribute.
pub fn with_small(set: Bits, k: usize) -> Bits
    ensures { (j : ℕ) → IsBitSet result j ↔ (((j ≡ k) × (j < 256)) ⊎ IsBitSet set j) }
{
    if k < 256 { set.with(k) } else { set }
}

/// The numbers of these attributes.
pub fn members(attrs: &[AttrId]) -> Bits
    ensures { (a : Attribute) → IsBitSet result a.0 ↔ ((a.0 < 256) × Contains attrs.now a) }
{
    let mut set = Bits::empty();
    for attr in attrs {
        set = with_small(set, attr.0 as usize);
    }
    set
}

/// The least attribute that is in the one set and not in the other.
pub fn least_new(set: Bits, old: Bits) -> Option<AttrId>
    ensures { MatchOption result ((j : ℕ) → IsBitSet set j → IsBitSet old j)
        (λ a. (a.0 < 256) × IsBitSet set a.0 × ¬ IsBitSet old a.0 × ((j : ℕ) → j < a.0 → IsBitSet set j → IsBitSet old j)) }
{
    set.without(old).first()
}
