//! The cycles of a rule's extended dependencies.
ghost use Rattle.std.specs.Prelude.{◌≡◌, ◌<◌, ◌≤◌, ◌+◌, ◌^◌, ◌↔◌, ℕ, All, Contains, IsTrue, Some, length, sum_by, slice_get, IfOk, IfSome, IfNone};
ghost use Rattle.flat_grammar.specs.declared.flat.Occ.{Occ as Occurrence};
ghost use Rattle.flat_grammar.specs.declared.plan.CycleStep.{CycleStep as Step};
ghost use Rattle.flat_grammar.specs.Rules.{symbol_at, symbols_of, attrs_of};
ghost use Rattle.flat_grammar.specs.WellFormed.{IsRule};
ghost use Rattle.flat_grammar.specs.Dependencies.{AreInducedRows, DP};
ghost use Rattle.flat_grammar.specs.Cycles.{EDP, IsCycle};
ghost use Rattle.partitions.specs.Symbols.{AreAllLaterRows};
ghost use Rattle.partitions.specs.Graph.{IsEdge, IsGraphCycle};
ghost use Rattle.partitions.specs.RuleGraph.{AreNumbered, AreExtended, IsExtended, IsRanked, IsInducedAt, AreStepsOf, IsStepOf};

use crate::edges::{add_direct, bare_graph, symbol_preds};
use crate::search::find_cycle;
use crate::symbols::rows_of;
use crate::vertices::{Vertices, symbol_of, vertices_of};
use flat_grammar::{Bits, CycleStep, Deps, Flat, FlatRule, Label, Occ};
use lido_base::{List, Memory};
use std::alloc::{AllocError, Global};

/// The graph of a rule's extended dependencies.
fn extended_graph(
    alloc: Global,
    flat: &Flat,
    deps: &Deps,
    later: &List<List<Bits>>,
    rule: &FlatRule,
    vertices: &Vertices,
) -> Result<Vec<List<usize>>, Memory>
    requires ids { AreInducedRows flat.now.symbols flat.now.rules deps.now.ids }
    requires later { AreAllLaterRows flat.now.symbols flat.now.rules later.now }
    requires rule { Contains flat.now.rules rule.now }
    requires vertices { AreNumbered flat.now.symbols rule.now vertices.now.occs.items vertices.now.starts.items }
    ensures { IfOk result
        (λ preds. AreExtended flat.now.symbols flat.now.rules rule.now vertices.now.occs.items vertices.now.starts.items preds.items) }
{
    let mut preds = symbol_preds(alloc, rule, &deps.ids, later, vertices)?;
    add_direct(alloc, &mut preds, &vertices.starts, rule.comps.as_slice())?;
    Ok(preds)
}

/// The graph of a rule's direct dependencies.
fn direct_graph(
    alloc: Global,
    flat: &Flat,
    rule: &FlatRule,
    vertices: &Vertices,
) -> Result<Vec<List<usize>>, Memory>
    requires rule { Contains flat.now.rules rule.now }
    requires vertices { AreNumbered flat.now.symbols rule.now vertices.now.occs.items vertices.now.starts.items }
    ensures count { IfOk result (λ preds. length preds.items ≡ length vertices.now.occs.items) }
    ensures edges { IfOk result (λ preds. (u v : ℕ) (o p : Occurrence) → slice_get vertices.now.occs.items u ≡ Some o
        → slice_get vertices.now.occs.items v ≡ Some p
        → IsEdge preds.items u v ↔ DP rule.now o p) }
{
    let mut preds = bare_graph(alloc, vertices.occs.len())?;
    add_direct(alloc, &mut preds, &vertices.starts, rule.comps.as_slice())?;
    Ok(preds)
}

/// Whether the number is in the list.
fn is_in(row: &[usize], u: usize) -> bool
    ensures yes { IsTrue result → Contains row.now u }
    ensures no { Contains row.now u → IsTrue result }
{
    for v in row {
        if *v == u {
            return true;
        }
    }
    false
}

/// Whether an edge leads from one vertex to the other.
fn is_edge(preds: &[List<usize>], from: usize, to: usize) -> bool
    requires { to < length preds.now }
    ensures { IsTrue result ↔ IsEdge preds.now from to }
{
    is_in(preds[to].as_slice(), from)
}

/// Whether an induced dependency joins two attributes of one occurrence.
fn is_induced(ids: &List<List<Bits>>, rule: &FlatRule, from: Occ, to: Occ) -> bool
    requires occurrence { from.occ < 1 + length rule.now.right }
    requires attribute { to.attr.0 < 256 }
    ensures { IsTrue result ↔ IsInducedAt rule.now ids.now from to }
{
    let x = symbol_of(rule, from.occ as usize);
    match rows_of(ids, x).get(from.attr.0 as usize) {
        Some(row) => row.has(to.attr.0 as usize),
        None => false,
    }
}

/// The label of an edge that is direct or not: the first that fits.
fn label_of(flat: &Flat, deps: &Deps, rule: &FlatRule, direct: bool, from: Occ, to: Occ) -> Label
    requires ids { AreInducedRows flat.now.symbols flat.now.rules deps.now.ids }
    requires rule { Contains flat.now.rules rule.now }
    requires direct { IsTrue direct ↔ DP rule.now from to }
    requires edge { IsExtended flat.now.symbols flat.now.rules rule.now from to }
    requires occurrence { from.occ < 1 + length rule.now.right }
    requires attribute { to.attr.0 < 256 }
    ensures { EDP flat.now.symbols flat.now.rules rule.now from to result }
{
    if direct {
        return Label::Direct;
    }
    if is_induced(&deps.ids, rule, from, to) {
        return Label::Induced;
    }
    Label::Partition
}

/// The place behind another in a circle of so many.
fn next_place(place: usize, count: usize) -> usize
    requires { place < count }
    ensures within { result < count }
    ensures next { place + 1 < count → result ≡ place + 1 }
    ensures last { place + 1 ≡ count → result ≡ 0 }
{
    if place + 1 < count { place + 1 } else { 0 }
}

/// The step of a cycle at one of its places.
fn step_at(
    flat: &Flat,
    deps: &Deps,
    rule: &FlatRule,
    direct: &[List<usize>],
    occs: &[Occ],
    cycle: &[usize],
    place: usize,
) -> CycleStep
    requires place { place < length cycle.now }
    requires vertices { (j v : ℕ) → slice_get cycle.now j ≡ Some v → v < length occs.now }
    requires ids { AreInducedRows flat.now.symbols flat.now.rules deps.now.ids }
    requires rule { Contains flat.now.rules rule.now }
    requires count { length direct.now ≡ length occs.now }
    requires direct { (u v : ℕ) (o p : Occurrence) → slice_get occs.now u ≡ Some o → slice_get occs.now v ≡ Some p
        → IsEdge direct.now u v ↔ DP rule.now o p }
    requires edges { AreStepsOf flat.now.symbols flat.now.rules rule.now occs.now cycle.now }
    requires occurrences { (v : ℕ) (o : Occurrence) → slice_get occs.now v ≡ Some o → (o.occ < 1 + length rule.now.right)
        × (o.attr.0 < 256) }
    ensures { IsStepOf flat.now.symbols flat.now.rules rule.now occs.now cycle.now place result }
{
    let u = cycle[place];
    let v = cycle[next_place(place, cycle.len())];
    CycleStep {
        from: occs[u],
        label: label_of(flat, deps, rule, is_edge(direct, u, v), occs[u], occs[v]),
    }
}

/// The steps of a cycle.
fn steps_of(
    alloc: Global,
    flat: &Flat,
    deps: &Deps,
    rule: &FlatRule,
    direct: &[List<usize>],
    occs: &[Occ],
    cycle: &[usize],
) -> Result<List<CycleStep>, AllocError>
    requires vertices { (j v : ℕ) → slice_get cycle.now j ≡ Some v → v < length occs.now }
    requires ids { AreInducedRows flat.now.symbols flat.now.rules deps.now.ids }
    requires rule { Contains flat.now.rules rule.now }
    requires count { length direct.now ≡ length occs.now }
    requires direct { (u v : ℕ) (o p : Occurrence) → slice_get occs.now u ≡ Some o → slice_get occs.now v ≡ Some p
        → IsEdge direct.now u v ↔ DP rule.now o p }
    requires edges { AreStepsOf flat.now.symbols flat.now.rules rule.now occs.now cycle.now }
    requires occurrences { (v : ℕ) (o : Occurrence) → slice_get occs.now v ≡ Some o → (o.occ < 1 + length rule.now.right)
        × (o.attr.0 < 256) }
    ensures count { IfOk result (λ steps. length steps ≡ length cycle.now) }
    ensures steps { IfOk result (λ steps. (j : ℕ) (s : Step) → slice_get steps j ≡ Some s
        → IsStepOf flat.now.symbols flat.now.rules rule.now occs.now cycle.now j s) }
{
    let mut steps = Vec::new(alloc);
    for place in 0..cycle.len() {
        steps.push(step_at(flat, deps, rule, direct, occs, cycle, place))?;
    }
    Ok(List::from_vec(steps))
}

/// A cycle of a rule's extended dependencies, or `None` where there is none.
pub fn rule_cycle(
    alloc: Global,
    flat: &Flat,
    deps: &Deps,
    later: &List<List<Bits>>,
    rule: &FlatRule,
) -> Result<Option<List<CycleStep>>, Memory>
    requires ids { AreInducedRows flat.now.symbols flat.now.rules deps.now.ids }
    requires later { AreAllLaterRows flat.now.symbols flat.now.rules later.now }
    requires rule { Contains flat.now.rules rule.now }
    ensures ranked { IfOk result (λ found. IfNone found (IsRanked flat.now.symbols flat.now.rules rule.now)) }
    ensures cycle { IfOk result (λ found. IfSome found (λ steps. IsCycle flat.now.symbols flat.now.rules rule.now steps)) }
{
    let vertices = vertices_of(alloc, flat, rule)?;
    let preds = extended_graph(alloc, flat, deps, later, rule, &vertices)?;
    match find_cycle(alloc, &preds)? {
        None => Ok(None),
        Some(cycle) => {
            let direct = direct_graph(alloc, flat, rule, &vertices)?;
            let steps = steps_of(alloc, flat, deps, rule, &direct, &vertices.occs, &cycle)?;
            Ok(Some(steps))
        }
    }
}
