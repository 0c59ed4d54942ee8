//! The goals of a rule, and what they wait for.
ghost use Rattle.std.specs.Prelude.{◌≡◌, ◌<◌, ◌↔◌, ◌⊎◌, ℕ, Contains, Some, slice_get, IfOk, IsSome, IsBitSet};
ghost use Rattle.lido_base.specs.declared.ids.AttrId.{AttrId as Attribute};
ghost use Rattle.flat_grammar.specs.Dependencies.{AreInducedRows};
ghost use Rattle.flat_grammar.specs.Partition.{AreAllVisits};
ghost use Rattle.flat_grammar.specs.WellFormed.{attribute_of};
ghost use Rattle.visit_sequences.specs.Steps.{IsGoal, AreGoals, IsBefore, StandsBefore};

use crate::bits::{members, with_small};
use crate::rows::visits_at;
use flat_grammar::{
    Bits, Deps, Flat, FlatComp, FlatRule, Occ, Parts, VisitClass, dependencies_of, symbol_at,
};
use lido_base::{AttrId, Memory};
use std::alloc::Global;

/// A goal of a rule, and what has to be at hand before it is evaluated.
#[derive(Drop)]
pub struct Goal {
    pub goal: Occ,
    /// Attributes of its own occurrence, by their numbers.
    pub same: Bits,
    /// What its computation depends on.
    pub direct: Vec<Occ>,
}

impl Goal {
    /// What the goal's computation depends on, by its place in the list.
    pub fn dependency(&self, at: usize) -> Option<Occ>
        ensures { result ≡ slice_get self.now.direct.items at }
    {
        self.direct.as_slice().get(at).copied()
    }
}

/// The attributes that come before this one by the rows of induced dependencies.
fn induced(rows: &[Bits], b: AttrId) -> Bits
    ensures { (a : Attribute) → IsBitSet result a.0 ↔ ((a.0 < 256) × (row : ℕ) × (slice_get rows.now a.0 ≡ Some row) × IsBitSet row b.0) }
{
    let mut set = Bits::empty();
    for (a, row) in rows.iter().enumerate() {
        if row.has(b.0 as usize) {
            set = with_small(set, a);
        }
    }
    set
}

/// The attributes of the classes that pass before the first one that has this attribute.
fn earlier(row: &[VisitClass], b: AttrId) -> Bits
    requires { b.0 < 256 }
    ensures { (a : Attribute) → IsBitSet result a.0 ↔ ((a.0 < 256) × StandsBefore row.now a b) }
{
    let mut set = Bits::empty();
    for class in row {
        let inherited = members(class.inherited.as_slice());
        if inherited.has(b.0 as usize) {
            return set;
        }
        let both = set.union(inherited);
        let synthesized = members(class.synthesized.as_slice());
        if synthesized.has(b.0 as usize) {
            return both;
        }
        set = both.union(synthesized);
    }
    set
}

/// The attributes of the goal's own occurrence that come before it.
fn same_of(flat: &Flat, deps: &Deps, parts: &Parts, rule: &FlatRule, goal: Occ) -> Bits
    requires rows { AreInducedRows flat.now.symbols flat.now.rules deps.now.ids }
    requires visits { AreAllVisits flat.now.symbols flat.now.rules parts.now.visits }
    requires attribute { IsSome (attribute_of flat.now.symbols rule.now goal) }
    ensures { (a : Attribute) → IsBitSet result a.0 ↔ IsBefore flat.now.symbols flat.now.rules rule.now goal a }
{
    let Some(symbol) = symbol_at(rule, goal.occ) else {
        return Bits::empty();
    };
    let before = earlier(
        visits_at(parts.visits.as_slice(), rule, goal.occ),
        goal.attr,
    );
    match deps.ids.as_slice().get(symbol.0 as usize) {
        Some(rows) => before.union(induced(rows.as_slice(), goal.attr)),
        None => before,
    }
}

/// The goal of a computation.
fn goal_of(
    alloc: Global,
    flat: &Flat,
    deps: &Deps,
    parts: &Parts,
    rule: &FlatRule,
    comp: &FlatComp,
) -> Result<Goal, Memory>
    requires rows { AreInducedRows flat.now.symbols flat.now.rules deps.now.ids }
    requires visits { AreAllVisits flat.now.symbols flat.now.rules parts.now.visits }
    requires rule { Contains flat.now.rules rule.now }
    requires comp { Contains rule.now.comps comp.now }
    ensures goal { IfOk result (λ goal. goal.goal ≡ comp.now.goal) }
    ensures waits { IfOk result (IsGoal flat.now.symbols flat.now.rules rule.now) }
{
    Ok(Goal {
        goal: comp.goal,
        same: same_of(flat, deps, parts, rule, comp.goal),
        direct: dependencies_of(alloc, comp)?,
    })
}

/// The goals of a rule, in the order of its computations.
pub fn goals(
    alloc: Global,
    flat: &Flat,
    deps: &Deps,
    parts: &Parts,
    rule: &FlatRule,
) -> Result<Vec<Goal>, Memory>
    requires rows { AreInducedRows flat.now.symbols flat.now.rules deps.now.ids }
    requires visits { AreAllVisits flat.now.symbols flat.now.rules parts.now.visits }
    requires rule { Contains flat.now.rules rule.now }
    ensures { IfOk result (λ goals. AreGoals flat.now.symbols flat.now.rules rule.now goals.items) }
{
    let mut goals = Vec::new(alloc);
    for comp in rule.comps.as_slice() {
        let goal = goal_of(alloc, flat, deps, parts, rule, comp)?;
        goals.push(goal)?;
    }
    Ok(goals)
}
