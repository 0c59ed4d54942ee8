//! The predecessors of the vertices of a rule, in its extended dependencies.
ghost use Rattle.std.specs.Prelude.{◌≡◌, ◌<◌, ◌≤◌, ◌+◌, ◌^◌, ◌↔◌, ◌⊎◌, ℕ, IsTrue, IsBitSet, Some, Contains, map, length, slice_get, IfOk};
ghost use Rattle.lido_base.specs.declared.ids.SymId.{SymId as Symbol};
ghost use Rattle.flat_grammar.specs.declared.flat.FlatComp.{FlatComp as Computation};
ghost use Rattle.flat_grammar.specs.declared.flat.Occ.{Occ as Occurrence};
ghost use Rattle.flat_grammar.specs.Rules.{dependencies, symbol_at};
ghost use Rattle.partitions.specs.Symbols.{rows_at};
ghost use Rattle.partitions.specs.Graph.{IsEdge};
ghost use Rattle.partitions.specs.RuleGraph.{IsComing, IsNumberOf, IsComingAt, IsAmongAt, IsDirectBy};

use crate::symbols::rows_of;
use crate::vertices::{Vertices, symbol_of};
use flat_grammar::{Bits, FlatComp, FlatRule, Occ, dependencies_of};
use lido_base::{List, Memory};
use std::alloc::{AllocError, Global};

/// Whether one of the two sets has the number.
fn is_in_one(set: Bits, other: Bits, b: usize) -> bool
    requires { b < 256 }
    ensures { IsTrue result ↔ (IsBitSet set b ⊎ IsBitSet other b) }
{
    set.has(b) || other.has(b)
}

/// The numbers of the attributes of an occurrence that come before one of it, by the rows of its symbol.
fn coming(
    alloc: Global,
    ids: &[Bits],
    later: &[Bits],
    start: usize,
    b: usize,
) -> Result<Vec<usize>, AllocError>
    requires attribute { b < 256 }
    requires each { length ids.now ≡ length later.now }
    requires few { length ids.now ≤ 256 }
    requires small { start ≤ 1024 }
    ensures { IfOk result (λ row. (u : ℕ) → Contains row.items u ↔ ((a : ℕ) × (u ≡ start + a) × IsComing ids.now later.now a b)) }
{
    let mut row = Vec::new(alloc);
    for a in 0..ids.len() {
        if is_in_one(ids[a], later[a], b) {
            row.push(start + a)?;
        }
    }
    Ok(row)
}

/// The numbers of the attributes at its occurrence that come before it.
fn coming_at(
    alloc: Global,
    rule: &FlatRule,
    ids: &List<List<Bits>>,
    later: &List<List<Bits>>,
    starts: &[usize],
    o: Occ,
) -> Result<List<usize>, AllocError>
    requires occurrence { o.occ < 1 + length rule.now.right }
    requires starts { length starts.now ≡ 1 + length rule.now.right }
    requires small { (k start : ℕ) → slice_get starts.now k ≡ Some start → start ≤ 1024 }
    requires attribute { o.attr.0 < 256 }
    requires each { (x : Symbol) → length (rows_at ids.now x.0) ≡ length (rows_at later.now x.0) }
    requires few { (x : Symbol) → length (rows_at ids.now x.0) ≤ 256 }
    ensures { IfOk result (λ row. (u : ℕ) → Contains row u ↔ IsComingAt rule.now ids.now later.now starts.now o u) }
{
    let x = symbol_of(rule, o.occ as usize);
    let row = coming(
        alloc,
        rows_of(ids, x),
        rows_of(later, x),
        starts[o.occ as usize],
        o.attr.0 as usize,
    )?;
    Ok(List::from_vec(row))
}

/// For each vertex those at its occurrence that come before it.
pub fn symbol_preds(
    alloc: Global,
    rule: &FlatRule,
    ids: &List<List<Bits>>,
    later: &List<List<Bits>>,
    vertices: &Vertices,
) -> Result<Vec<List<usize>>, AllocError>
    requires occurrence { (v : ℕ) (o : Occurrence) → slice_get vertices.now.occs.items v ≡ Some o → o.occ < 1 + length rule.now.right }
    requires attribute { (v : ℕ) (o : Occurrence) → slice_get vertices.now.occs.items v ≡ Some o → o.attr.0 < 256 }
    requires starts { length vertices.now.starts.items ≡ 1 + length rule.now.right }
    requires small { (k start : ℕ) → slice_get vertices.now.starts.items k ≡ Some start → start ≤ 1024 }
    requires each { (x : Symbol) → length (rows_at ids.now x.0) ≡ length (rows_at later.now x.0) }
    requires few { (x : Symbol) → length (rows_at ids.now x.0) ≤ 256 }
    ensures count { IfOk result (λ preds. length preds.items ≡ length vertices.now.occs.items) }
    ensures edges { IfOk result (λ preds. (u v : ℕ) → IsEdge preds.items u v
        ↔ ((o : Occurrence) × (slice_get vertices.now.occs.items v ≡ Some o)
        × IsComingAt rule.now ids.now later.now vertices.now.starts.items o u)) }
{
    let mut preds = Vec::new(alloc);
    for o in &vertices.occs {
        let row = coming_at(alloc, rule, ids, later, &vertices.starts, *o)?;
        preds.push(row)?;
    }
    Ok(preds)
}

/// The number of an attribute occurrence.
fn number_of(starts: &[usize], o: Occ) -> usize
    requires occurrence { o.occ < length starts.now }
    requires small { (k start : ℕ) → slice_get starts.now k ≡ Some start → start ≤ 1024 }
    ensures { IsNumberOf starts.now o result }
{
    starts[o.occ as usize] + o.attr.0 as usize
}

/// Adds a predecessor to a vertex.
fn add_pred(preds: &mut Vec<List<usize>>, v: usize, u: usize) -> Result<(), AllocError>
    requires { v < length preds.old.items }
    ensures count { IfOk result (λ _. length preds.new.items ≡ length preds.old.items) }
    ensures edges { IfOk result (λ _. (a b : ℕ) → IsEdge preds.new.items a b ↔ (IsEdge preds.old.items a b ⊎ ((a ≡ u) × (b ≡ v)))) }
{
    preds[v].push(u)?;
    Ok(())
}

/// Adds an edge from each of these to a goal.
fn add_preds(
    preds: &mut Vec<List<usize>>,
    starts: &[usize],
    from: &[Occ],
    to: Occ,
) -> Result<(), AllocError>
    requires small { (k start : ℕ) → slice_get starts.now k ≡ Some start → start ≤ 1024 }
    requires occurrences { (o : Occurrence) → Contains from.now o → o.occ < length starts.now }
    requires goal { to.occ < length starts.now }
    requires vertex { (v : ℕ) → IsNumberOf starts.now to v → v < length preds.old.items }
    ensures count { IfOk result (λ _. length preds.new.items ≡ length preds.old.items) }
    ensures edges { IfOk result (λ _. (u v : ℕ) → IsEdge preds.new.items u v ↔ (IsEdge preds.old.items u v
        ⊎ IsAmongAt starts.now from.now to u v)) }
{
    let v = number_of(starts, to);
    for o in from {
        add_pred(preds, v, number_of(starts, *o))?;
    }
    Ok(())
}

/// Adds the dependencies of a computation.
fn add_comp(
    alloc: Global,
    preds: &mut Vec<List<usize>>,
    starts: &[usize],
    comp: &FlatComp,
) -> Result<(), Memory>
    requires small { (k start : ℕ) → slice_get starts.now k ≡ Some start → start ≤ 1024 }
    requires occurrences { (o : Occurrence) → Contains (dependencies comp.now) o → o.occ < length starts.now }
    requires goal { comp.now.goal.occ < length starts.now }
    requires vertex { (v : ℕ) → IsNumberOf starts.now comp.now.goal v → v < length preds.old.items }
    ensures count { IfOk result (λ _. length preds.new.items ≡ length preds.old.items) }
    ensures edges { IfOk result (λ _. (u v : ℕ) → IsEdge preds.new.items u v ↔ (IsEdge preds.old.items u v
        ⊎ IsAmongAt starts.now (dependencies comp.now) comp.now.goal u v)) }
{
    let from = dependencies_of(alloc, comp)?;
    add_preds(preds, starts, &from, comp.goal)?;
    Ok(())
}

/// Adds the direct dependencies.
pub fn add_direct(
    alloc: Global,
    preds: &mut Vec<List<usize>>,
    starts: &[usize],
    comps: &[FlatComp],
) -> Result<(), Memory>
    requires small { (k start : ℕ) → slice_get starts.now k ≡ Some start → start ≤ 1024 }
    requires occurrences { (c : Computation) (o : Occurrence) → Contains comps.now c → Contains (dependencies c) o
        → o.occ < length starts.now }
    requires goals { (c : Computation) → Contains comps.now c → c.goal.occ < length starts.now }
    requires vertices { (c : Computation) (v : ℕ) → Contains comps.now c → IsNumberOf starts.now c.goal v → v < length preds.old.items }
    ensures count { IfOk result (λ _. length preds.new.items ≡ length preds.old.items) }
    ensures edges { IfOk result (λ _. (u v : ℕ) → IsEdge preds.new.items u v ↔ (IsEdge preds.old.items u v
        ⊎ IsDirectBy starts.now comps.now u v)) }
{
    for comp in comps {
        add_comp(alloc, preds, starts, comp)?;
    }
    Ok(())
}

/// The graph without edges.
pub fn bare_graph(alloc: Global, count: usize) -> Result<Vec<List<usize>>, AllocError>
    ensures count { IfOk result (λ preds. length preds.items ≡ count) }
    ensures edges { IfOk result (λ preds. (u v : ℕ) → ¬ IsEdge preds.items u v) }
{
    let mut preds = Vec::new(alloc);
    for _ in 0..count {
        preds.push(List::new(alloc))?;
    }
    Ok(preds)
}
