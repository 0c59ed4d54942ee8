//! Which symbols want a CONSTITUENTS, and which can reach a source of it, over the graph of plain rules: an edge leads from a left
//! side to each symbol of its right side.
ghost use Rattle.std.specs.Prelude.{◌≡◌, ◌<◌, ◌↔◌, ℕ, IsTrue, Bool, not, map, zip, ◌&&◌, length, IfOk};
ghost use Rattle.lido_base.specs.Reach.{Reaches};
ghost use Rattle.least_paths.specs.Graph.{IsGraph, has_edge, is_in};
ghost use Rattle.constituents_expand.specs.Reach.{is_filled, IsChildOf, up_edge, down_edge};

use least_paths::{reaching, turned, without};
use lido_base::List;
use std::alloc::{AllocError, Global};

/// The vertices that aren't in the set.
fn others(alloc: Global, set: &[bool]) -> Result<Vec<bool>, AllocError>
    ensures { IfOk result (λ others. others.items ≡ map not set.now) }
{
    set.iter().map(|one| !*one).collect(alloc)
}

/// The vertices from which an edge leads.
fn with_edges(alloc: Global, graph: &[List<usize>]) -> Result<Vec<bool>, AllocError>
    ensures { IfOk result (λ set. set.items ≡ map is_filled graph.now) }
{
    graph
        .iter()
        .map(|row| !row.as_slice().is_empty())
        .collect(alloc)
}

/// The vertices to which an edge leads from one of the set. An `Err` is want of memory.
pub fn children_of(
    alloc: Global,
    graph: &[List<usize>],
    set: &[bool],
) -> Result<Vec<bool>, AllocError>
    requires graph { IsGraph graph.now }
    requires each { length set.now ≡ length graph.now }
    ensures count { IfOk result (λ children. length children.items ≡ length graph.now) }
    ensures exactly { IfOk result (λ children. (y : ℕ) → IsTrue (is_in children.items y) ↔ IsChildOf graph.now set.now y) }
{
    let rest = others(alloc, set)?;
    let edges = without(alloc, graph, &rest)?;
    let back = turned(alloc, &edges)?;
    with_edges(alloc, &back)
}

/// The vertices that can be reached from the starts along edges that lead from no shield. An `Err` is want of memory.
pub fn wanted(
    alloc: Global,
    graph: &[List<usize>],
    starts: &[bool],
    shields: &[bool],
) -> Result<Vec<bool>, AllocError>
    requires graph { IsGraph graph.now }
    requires starts { length starts.now ≡ length graph.now }
    requires shields { length shields.now ≡ length graph.now }
    ensures count { IfOk result (λ set. length set.items ≡ length graph.now) }
    ensures exactly { IfOk result (λ set. (y : ℕ) → IsTrue (is_in set.items y) ↔ Reaches (is_in starts.now) (up_edge graph.now shields.now) y) }
{
    let edges = without(alloc, graph, shields)?;
    let back = turned(alloc, &edges)?;
    reaching(alloc, &back, starts)
}

/// The vertices from which a source can be reached along edges that lead from no shield. An `Err` is want of memory.
pub fn reached(
    alloc: Global,
    graph: &[List<usize>],
    sources: &[bool],
    shields: &[bool],
) -> Result<Vec<bool>, AllocError>
    requires graph { IsGraph graph.now }
    requires sources { length sources.now ≡ length graph.now }
    requires shields { length shields.now ≡ length graph.now }
    ensures count { IfOk result (λ set. length set.items ≡ length graph.now) }
    ensures exactly { IfOk result (λ set. (x : ℕ) → IsTrue (is_in set.items x) ↔ Reaches (is_in sources.now) (down_edge graph.now shields.now) x) }
{
    let edges = without(alloc, graph, shields)?;
    reaching(alloc, &edges, sources)
}

/// The vertices that are in both sets.
pub fn both(alloc: Global, one: &[bool], other: &[bool]) -> Result<Vec<bool>, AllocError>
    ensures { IfOk result (λ set. set.items ≡ map (λ (p : Bool × Bool). p.0 && p.1) (zip one.now other.now)) }
{
    one.iter()
        .zip(other.iter())
        .map(|pair| *pair.0 && *pair.1)
        .collect(alloc)
}
