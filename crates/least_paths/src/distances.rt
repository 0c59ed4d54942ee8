//! How many edges lead from each vertex to the nearest source.
ghost use Rattle.std.specs.Prelude.{◌≡◌, ◌<◌, ◌≤◌, ◌+◌, ◌↔◌, ◌⊎◌, ◌++◌, ◌∷◌};
ghost use Rattle.std.specs.Prelude.{[], ℕ, List as Sequence, IsTrue, Contains, flat_map, length, replicate, IfOk};
ghost use Rattle.lido_base.specs.Reach.{Reaches};
ghost use Rattle.least_paths.specs.Graph.{IsGraph, IsEdge, has_edge, is_in, row_of};
ghost use Rattle.least_paths.specs.Distances.{IsMarked, AreDistances};

use crate::edges::{row, turned};
use lido_base::List;
use std::alloc::{AllocError, Global};

/// Gives a vertex this distance where it has none, and adds it then to the list.
fn mark(
    dist: &mut Vec<Option<usize>>,
    added: &mut Vec<usize>,
    x: usize,
    d: usize,
) -> Result<(), AllocError>
    requires { x < length dist.old.items }
    ensures { IfOk result (λ _. (more : Sequence ℕ) × (added.new.items ≡ added.old.items ++ more)
        × IsMarked dist.old.items dist.new.items (x ∷ []) d more) }
{
    if dist[x].is_none() {
        added.push(x)?;
        dist[x] = Some(d);
    }
    Ok(())
}

/// Gives these vertices this distance where they have none, and adds them then to the list.
fn mark_row(
    dist: &mut Vec<Option<usize>>,
    added: &mut Vec<usize>,
    row: &[usize],
    d: usize,
) -> Result<(), AllocError>
    requires { (x : ℕ) → Contains row.now x → x < length dist.old.items }
    ensures { IfOk result (λ _. (more : Sequence ℕ) × (added.new.items ≡ added.old.items ++ more)
        × IsMarked dist.old.items dist.new.items row.now d more) }
{
    for x in row {
        mark(dist, added, *x, d)?;
    }
    Ok(())
}

/// The vertices without a distance from which an edge leads to one of these. They get this distance.
fn mark_level(
    alloc: Global,
    dist: &mut Vec<Option<usize>>,
    back: &[List<usize>],
    front: &[usize],
    d: usize,
) -> Result<Vec<usize>, AllocError>
    requires { (x y : ℕ) → IsEdge back.now y x → x < length dist.old.items }
    ensures { IfOk result (λ added. IsMarked dist.old.items dist.new.items (flat_map (row_of back.now) front.now) d added.items) }
{
    let mut added = Vec::new(alloc);
    for y in front {
        mark_row(dist, &mut added, row(back, *y), d)?;
    }
    Ok(added)
}

/// Adds a vertex where it is a source.
fn add_source(front: &mut Vec<usize>, sources: &[bool], x: usize) -> Result<(), AllocError>
    requires { x < length sources.now }
    ensures { IfOk result (λ _. (y : ℕ) → Contains front.new.items y
        ↔ (Contains front.old.items y ⊎ ((x ≡ y) × IsTrue (is_in sources.now x)))) }
{
    if sources[x] {
        front.push(x)?;
    }
    Ok(())
}

/// Which vertices are sources.
fn sources_of(alloc: Global, sources: &[bool]) -> Result<Vec<usize>, AllocError>
    ensures { IfOk result (λ front. (x : ℕ) → Contains front.items x ↔ IsTrue (is_in sources.now x)) }
{
    let mut front = Vec::new(alloc);
    for x in 0..sources.len() {
        add_source(&mut front, sources, x)?;
    }
    Ok(front)
}

/// No distances yet, for so many vertices.
fn no_distances(alloc: Global, count: usize) -> Result<Vec<Option<usize>>, AllocError>
    ensures { IfOk result (λ dist. dist.items ≡ replicate count None) }
{
    let mut dist = Vec::new(alloc);
    for _ in 0..count {
        dist.push(None)?;
    }
    Ok(dist)
}

/// For each vertex how many edges lead from it to the nearest source, where one can be reached. It takes time linear in the
/// graph.
pub fn distances(
    alloc: Global,
    next: &[List<usize>],
    sources: &[bool],
) -> Result<Vec<Option<usize>>, AllocError>
    requires graph { IsGraph next.now }
    requires each { length sources.now ≡ length next.now }
    ensures count { IfOk result (λ dist. length dist.items ≡ length next.now) }
    ensures distances { IfOk result (λ dist. AreDistances (is_in sources.now) (has_edge next.now) dist.items) }
{
    let back = turned(alloc, next)?;
    let mut dist = no_distances(alloc, next.len())?;
    let mut front = Vec::new(alloc);
    mark_row(&mut dist, &mut front, &sources_of(alloc, sources)?, 0)?;
    let mut d = 0;
    while !front.is_empty() {
        d += 1;
        front = mark_level(alloc, &mut dist, &back, &front, d)?;
    }
    Ok(dist)
}

/// The vertices from which a source can be reached along edges. It takes time linear in the graph. An `Err` is want of memory.
pub fn reaching(
    alloc: Global,
    next: &[List<usize>],
    sources: &[bool],
) -> Result<Vec<bool>, AllocError>
    requires graph { IsGraph next.now }
    requires each { length sources.now ≡ length next.now }
    ensures count { IfOk result (λ set. length set.items ≡ length next.now) }
    ensures exactly { IfOk result (λ set. (x : ℕ) → IsTrue (is_in set.items x) ↔ Reaches (is_in sources.now) (has_edge next.now) x) }
{
    let dist = distances(alloc, next, sources)?;
    let mut set = Vec::new(alloc);
    for d in &dist {
        set.push(d.is_some())?;
    }
    Ok(set)
}
