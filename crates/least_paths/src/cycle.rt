//! The first of the shortest cycles.
ghost use Rattle.std.specs.Prelude.{◌≡◌, ◌<◌, ◌↔◌, ◌∷◌, ℕ, List as Sequence, IsTrue, Contains, length, IfOk, IfSome, IfNone};
ghost use Rattle.lido_base.specs.Reach.{IsLeastCycle, IsClosedPath};
ghost use Rattle.least_paths.specs.Graph.{IsGraph, has_edge, is_in};
ghost use Rattle.least_paths.specs.Cycle.{items_of, IsFound, IsFrom, shorter_of};

use crate::edges::row;
use crate::path::least_path;
use lido_base::List;
use std::alloc::{AllocError, Global};

/// The set without vertices, for so many.
fn empty_set(alloc: Global, count: usize) -> Result<Vec<bool>, AllocError>
    ensures count { IfOk result (λ set. length set.items ≡ count) }
    ensures empty { IfOk result (λ set. (x : ℕ) → ¬ IsTrue (is_in set.items x)) }
{
    let set = vec![in alloc; false; count]?;
    Ok(set)
}

/// The set of these vertices.
fn set_of(alloc: Global, count: usize, row: &[usize]) -> Result<Vec<bool>, AllocError>
    requires { (x : ℕ) → Contains row.now x → x < count }
    ensures count { IfOk result (λ set. length set.items ≡ count) }
    ensures exactly { IfOk result (λ set. (x : ℕ) → IsTrue (is_in set.items x) ↔ Contains row.now x) }
{
    let mut set = empty_set(alloc, count)?;
    for x in row {
        set[*x] = true;
    }
    Ok(set)
}

/// The path with this vertex in front.
fn begun_at(alloc: Global, s: usize, path: &[usize]) -> Result<Vec<usize>, AllocError>
    ensures { IfOk result (λ longer. longer.items ≡ s ∷ path.now) }
{
    let mut longer = Vec::new(alloc);
    longer.push(s)?;
    for v in path {
        longer.push(*v)?;
    }
    Ok(longer)
}

/// The first of the shortest cycles that begin at a vertex.
fn cycle_at(alloc: Global, next: &[List<usize>], s: usize) -> Result<Option<Vec<usize>>, AllocError>
    requires graph { IsGraph next.now }
    requires vertex { s < length next.now }
    ensures { IfOk result (λ found. IsFound (IsFrom (has_edge next.now) s) (items_of found)) }
{
    let starts = set_of(alloc, next.len(), row(next, s))?;
    let sources = set_of(alloc, next.len(), &[s])?;
    match least_path(alloc, next, &starts, &sources)? {
        None => Ok(None),
        Some(path) => Ok(Some(begun_at(alloc, s, &path)?)),
    }
}

/// The shorter of two cycles, and the first where they have one length.
fn shorter(best: Option<Vec<usize>>, found: Option<Vec<usize>>) -> Option<Vec<usize>>
    ensures { items_of result ≡ shorter_of (items_of best) (items_of found) }
{
    match (best, found) {
        (None, found) => found,
        (best, None) => best,
        (Some(best), Some(found)) => {
            if found.len() < best.len() {
                Some(found)
            } else {
                Some(best)
            }
        }
    }
}

/// The first of the shortest cycles, compared vertex by vertex, or that there is none. A cycle begins and ends with the same
/// vertex. It takes time linear in the graph for each vertex. An `Err` is want of memory.
pub fn least_cycle(alloc: Global, next: &[List<usize>]) -> Result<Option<Vec<usize>>, AllocError>
    requires { IsGraph next.now }
    ensures least { IfOk result (λ found. IfSome found (λ cycle. IsLeastCycle (has_edge next.now) cycle.items)) }
    ensures none { IfOk result (λ found. IfNone found ((cycle : Sequence ℕ) → ¬ IsClosedPath (has_edge next.now) cycle)) }
{
    let mut best = None;
    for s in 0..next.len() {
        best = shorter(best, cycle_at(alloc, next, s)?);
    }
    Ok(best)
}
