//! The peeling of a symbol's attributes into classes.
ghost use Rattle.std.specs.Prelude.{◌≡◌, ◌<◌, ◌≤◌, ◌+◌, ◌*◌, ◌↔◌, ◌⊎◌, ℕ, suc, IsTrue, List as Sequence, Contains, length, vec_len, IsBitSet, IfOk};
ghost use Rattle.lido_base.specs.declared.ids.AttrId.{AttrId as Attribute};
ghost use Rattle.flat_grammar.specs.Rules.{attrs_of};
ghost use Rattle.flat_grammar.specs.Dependencies.{IDS};
ghost use Rattle.flat_grammar.specs.Partition.{HasKind, IsClosedSet, kind_of_class, PeelsAll};
ghost use Rattle.partitions.specs.Peeling.{IsKept, AreRows, ArePeeled, AreLevels, AreAllLevels, IsLast};

use flat_grammar::{Bits, Flat, FlatAttr};
use lido_base::{Kind, SymId};
use std::alloc::{AllocError, Global};

/// What is peeled of a symbol.
#[derive(Clone, Copy)]
pub struct Levels {
    /// Before a visit, which is what passes in later visits.
    pub later: Bits,
    /// With the visit's synthesized class.
    pub synthesized: Bits,
    /// With its inherited class too.
    pub both: Bits,
}

/// The attributes of a symbol.
pub fn attributes(flat: &Flat, x: SymId) -> &[FlatAttr]
    ensures all { result.now ≡ attrs_of flat.now.symbols x }
    ensures few { length result.now ≤ 256 }
{
    match flat.symbols.as_slice().get(x.0 as usize) {
        Some(symbol) => symbol.attrs.as_slice(),
        None => &[],
    }
}

/// Whether the attribute has the kind.
fn has_kind(attr: FlatAttr, kind: Kind) -> bool
    ensures { IsTrue result ↔ (attr.kind ≡ kind) }
{
    attr.kind == kind
}

/// The attributes of one kind.
fn of_kind(flat: &Flat, x: SymId, kind: Kind) -> Bits
    ensures { (a : Attribute) → IsBitSet result a.0 ↔ HasKind flat.now.symbols x kind a }
{
    let mut set = Bits::empty();
    for (a, attr) in attributes(flat, x).iter().enumerate() {
        if has_kind(*attr, kind) {
            set = set.with(a);
        }
    }
    set
}

/// Whether a number is in the set, and its row lies within the set and what is allowed.
fn is_kept(row: Bits, k: usize, set: Bits, allowed: Bits) -> bool
    requires { k < 256 }
    ensures { IsTrue result ↔ (IsBitSet set k × ((b : ℕ) → IsBitSet row b → IsBitSet allowed b ⊎ IsBitSet set b)) }
{
    set.has(k) && row.is_within(allowed.union(set))
}

/// The members of the set whose rows lie within it and what is allowed.
fn kept(rows: &[Bits], set: Bits, allowed: Bits) -> Bits
    requires { length rows.now ≤ 256 }
    ensures { (j : ℕ) → IsBitSet result j ↔ IsKept rows.now set allowed j }
{
    let mut left = Bits::empty();
    for (a, row) in rows.iter().enumerate() {
        if is_kept(*row, a, set, allowed) {
            left = left.with(a);
        }
    }
    left
}

/// The greatest set of attributes of one kind all of whose successors are peeled or in it. Since induced dependencies are
/// transitive, what has another successor goes at once.
fn closed_set(flat: &Flat, x: SymId, rows: &[Bits], kind: Kind, peeled: Bits) -> Bits
    requires { AreRows flat.now.symbols flat.now.rules x rows.now }
    ensures closed { (a : Attribute) → IsBitSet result a.0 → HasKind flat.now.symbols x kind a
        × ((b : Attribute) → IDS flat.now.rules x a b → IsBitSet peeled b.0 ⊎ IsBitSet result b.0) }
    ensures greatest { (set : Sequence Attribute) → IsClosedSet flat.now.symbols flat.now.rules x (λ b. IsBitSet peeled b.0) kind set
        → (a : Attribute) → Contains set a → IsBitSet result a.0 }
{
    kept(rows, of_kind(flat, x, kind), peeled)
}

/// What is peeled with one more class.
fn with_class(flat: &Flat, x: SymId, rows: &[Bits], kind: Kind, peeled: Bits) -> Bits
    requires { AreRows flat.now.symbols flat.now.rules x rows.now }
    ensures level { (k : ℕ) → kind_of_class k ≡ kind → ArePeeled flat.now.symbols flat.now.rules x k peeled
        → ArePeeled flat.now.symbols flat.now.rules x (suc k) result }
    ensures grows { peeled ≤ result }
{
    peeled.union(closed_set(flat, x, rows, kind, peeled))
}

/// What is peeled with one more pair of classes.
fn with_visit(flat: &Flat, x: SymId, rows: &[Bits], later: Bits) -> Levels
    requires { AreRows flat.now.symbols flat.now.rules x rows.now }
    ensures later { result.later ≡ later }
    ensures levels { (j : ℕ) → ArePeeled flat.now.symbols flat.now.rules x (2 * j) later
        → AreLevels flat.now.symbols flat.now.rules x j result }
    ensures grows { later ≤ result.both }
{
    let synthesized = with_class(flat, x, rows, Kind::Synthesized, later);
    let both = with_class(flat, x, rows, Kind::Inherited, synthesized);
    Levels {
        later,
        synthesized,
        both,
    }
}

/// Whether the visit has no attribute.
fn adds_nothing(visit: &Levels) -> bool
    ensures { IsTrue result ↔ ((j : ℕ) → IsBitSet visit.now.both j → IsBitSet visit.now.later j) }
{
    visit.both.is_within(visit.later)
}

/// What is peeled with the visit.
fn peeled_with(visit: &Levels) -> Bits
    ensures { result ≡ visit.now.both }
{
    visit.both
}

/// What is peeled with each pair of classes, one pair at least, up to the first later one that has no attribute.
pub fn peel(alloc: Global, flat: &Flat, x: SymId, rows: &[Bits]) -> Result<Vec<Levels>, AllocError>
    requires { AreRows flat.now.symbols flat.now.rules x rows.now }
    ensures each { IfOk result (λ all. AreAllLevels flat.now.symbols flat.now.rules x all.items) }
    ensures last { IfOk result (λ all. IsLast flat.now.symbols flat.now.rules x (2 * vec_len all)) }
    ensures fewest { IfOk result (λ all. (k : ℕ) → PeelsAll flat.now.symbols flat.now.rules x (2 * k) → 0 < k → vec_len all ≤ k) }
    ensures one { IfOk result (λ all. 0 < vec_len all) }
{
    let mut all = Vec::new(alloc);
    let last = with_visit(flat, x, rows, Bits::empty());
    let mut peeled = peeled_with(&last);
    all.push(last)?;
    loop {
        let visit = with_visit(flat, x, rows, peeled);
        if adds_nothing(&visit) {
            return Ok(all);
        }
        peeled = peeled_with(&visit);
        all.push(visit)?;
    }
}
