//! The visits of a symbol, and which of its attributes are in later classes.
ghost use Rattle.std.specs.Prelude.{◌≡◌, ◌<◌, ◌+◌, ◌*◌, ◌↔◌, ℕ, List as Sequence, Some, reverse, slice_get, length, IsBitSet, IfOk};
ghost use Rattle.lido_base.specs.declared.ids.SymId.{SymId as SymbolId};
ghost use Rattle.flat_grammar.specs.declared.flat.FlatSymbol.{FlatSymbol as Symbol};
ghost use Rattle.flat_grammar.specs.declared.flat.FlatRule.{FlatRule as Rule};
ghost use Rattle.flat_grammar.specs.declared.plan.VisitClass.{VisitClass as Visit};
ghost use Rattle.flat_grammar.specs.Partition.{IsClass};
ghost use Rattle.partitions.specs.Peeling.{AreLevels, AreAllLevels, IsLast, AreLaterRows, IsPast, IsPastAmong};

use crate::peeling::{Levels, attributes};
use flat_grammar::{Bits, Flat, VisitClass};
use lido_base::{List, SymId};
use std::alloc::{AllocError, Global};

/// The visit that a pair of classes makes.
fn visit_of(alloc: Global, levels: Levels) -> Result<VisitClass, AllocError>
    ensures { IfOk result (λ visit. (symbols : Sequence Symbol) (rules : Sequence Rule) (x : SymbolId) (j : ℕ)
        → AreLevels symbols rules x j levels
        → IsClass symbols rules x (2 * j) visit.synthesized
        × IsClass symbols rules x (2 * j + 1) visit.inherited) }
{
    let synthesized = levels.synthesized.without(levels.later).attrs(alloc)?;
    let inherited = levels.both.without(levels.synthesized).attrs(alloc)?;
    Ok(VisitClass {
        inherited: List::from_vec(inherited),
        synthesized: List::from_vec(synthesized),
    })
}

/// The visits that pairs of classes make, the last pair's first.
pub fn visits_of(alloc: Global, all: &[Levels]) -> Result<List<VisitClass>, AllocError>
    ensures classes { IfOk result (λ row. (symbols : Sequence Symbol) (rules : Sequence Rule) (x : SymbolId)
        → AreAllLevels symbols rules x all.now
        → (k : ℕ) (visit : Visit) → slice_get (reverse row) k ≡ Some visit → IsClass symbols rules x (2 * k) visit.synthesized
        × IsClass symbols rules x (2 * k + 1) visit.inherited) }
    ensures count { IfOk result (λ row. length row ≡ length all.now) }
{
    let mut visits = Vec::new(alloc);
    for levels in all {
        visits.push(visit_of(alloc, *levels)?)?;
    }
    visits.reverse();
    Ok(List::from_vec(visits))
}

/// The set, or none where it has the number.
fn absent(set: Bits, k: usize) -> Bits
    requires { k < 256 }
    ensures { (b : ℕ) → IsBitSet result b ↔ (IsBitSet set b × ¬ IsBitSet set k) }
{
    if set.has(k) { Bits::empty() } else { set }
}

/// What is in one of the three sets that the number is not in.
fn past(levels: Levels, k: usize) -> Bits
    requires { k < 256 }
    ensures { (b : ℕ) → IsBitSet result b ↔ IsPast levels k b }
{
    let classes = absent(levels.synthesized, k).union(absent(levels.both, k));
    absent(levels.later, k).union(classes)
}

/// What is in one of the sets that the number is not in.
fn past_among(all: &[Levels], k: usize) -> Bits
    requires { k < 256 }
    ensures { (b : ℕ) → IsBitSet result b ↔ IsPastAmong all.now k b }
{
    let mut row = Bits::empty();
    for levels in all {
        row = row.union(past(*levels, k));
    }
    row
}

/// For each attribute the attributes in later classes than its own.
pub fn later_rows(
    alloc: Global,
    flat: &Flat,
    x: SymId,
    all: &[Levels],
) -> Result<List<Bits>, AllocError>
    requires each { AreAllLevels flat.now.symbols flat.now.rules x all.now }
    requires last { IsLast flat.now.symbols flat.now.rules x (2 * length all.now) }
    requires one { 0 < length all.now }
    ensures { IfOk result (λ rows. AreLaterRows flat.now.symbols flat.now.rules x rows) }
{
    let mut rows = Vec::new(alloc);
    for k in 0..attributes(flat, x).len() {
        rows.push(past_among(all, k))?;
    }
    Ok(List::from_vec(rows))
}
