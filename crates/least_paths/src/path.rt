//! The first of the shortest paths.
ghost use Rattle.std.specs.Prelude.{◌≡◌, ◌<◌, ◌+◌, ◌↔◌, ◌++◌, ◌∷◌, [], ℕ};
ghost use Rattle.std.specs.Prelude.{Bool, nat_eq, List as Sequence, IsTrue, Contains, length, IfOk, IfSome, IfNone};
ghost use Rattle.lido_base.specs.Reach.{IsLeastPath, IsPathFrom};
ghost use Rattle.least_paths.specs.Graph.{IsGraph, has_edge, is_in};
ghost use Rattle.least_paths.specs.Distances.{AreDistances, IsAt};
ghost use Rattle.least_paths.specs.Path.{pred_of, IsLess, IsNearest, IsStep, IsNearer, IsBestBelow};

use crate::distances::distances;
use crate::edges::row;
use lido_base::List;
use std::alloc::{AllocError, Global};

/// Whether the vertex has this distance.
fn is_at(dist: &[Option<usize>], x: usize, d: usize) -> bool
    requires { x < length dist.now }
    ensures { IsTrue result ↔ IsAt dist.now x d }
{
    dist[x] == Some(d)
}

/// Whether there is no number yet, or this one is less.
fn is_less(x: usize, least: Option<usize>) -> bool
    ensures { IsTrue result ↔ IsLess x least }
{
    match least {
        None => true,
        Some(m) => x < m,
    }
}

/// The less of a vertex, where it has this distance, and the least so far.
fn lesser(dist: &[Option<usize>], x: usize, d: usize, least: Option<usize>) -> Option<usize>
    requires { x < length dist.now }
    ensures { (vs : Sequence ℕ) → IsNearest vs dist.now d least → IsNearest (vs ++ x ∷ []) dist.now d result }
{
    if is_at(dist, x, d) && is_less(x, least) {
        return Some(x);
    }
    least
}

/// The least of these vertices that has this distance.
fn nearest(row: &[usize], dist: &[Option<usize>], d: usize) -> Option<usize>
    requires { (x : ℕ) → Contains row.now x → x < length dist.now }
    ensures { IsNearest row.now dist.now d result }
{
    let mut least = None;
    for x in row {
        least = lesser(dist, *x, d, least);
    }
    least
}

/// The distance that is less by one, if there is one.
fn one_less(d: Option<usize>) -> Option<usize>
    ensures { result ≡ pred_of d }
{
    match d {
        None => None,
        Some(d) => d.checked_sub(1),
    }
}

/// The least vertex that is nearer to a source and to which an edge leads from this one.
fn step(next: &[List<usize>], dist: &[Option<usize>], v: usize) -> Option<usize>
    requires graph { IsGraph next.now }
    requires each { length dist.now ≡ length next.now }
    requires vertex { v < length dist.now }
    ensures { (d : ℕ) → IsAt dist.now v d → IsStep (has_edge next.now) dist.now v d result }
{
    let nearer = one_less(dist[v])?;
    nearest(row(next, v), dist, nearer)
}

/// The first of the shortest paths from a vertex to a source, if one can be reached.
fn walk(
    alloc: Global,
    next: &[List<usize>],
    dist: &[Option<usize>],
    start: usize,
) -> Result<Vec<usize>, AllocError>
    requires graph { IsGraph next.now }
    requires each { length dist.now ≡ length next.now }
    requires reached { (d : ℕ) × IsAt dist.now start d }
    ensures { IfOk result (λ path. (is_source : ℕ → Bool) → AreDistances is_source (has_edge next.now) dist.now
        → IsLeastPath (nat_eq start) is_source (has_edge next.now) path.items) }
{
    let mut path = Vec::new(alloc);
    path.push(start)?;
    let mut v = start;
    while let Some(w) = step(next, dist, v) {
        path.push(w)?;
        v = w;
    }
    Ok(path)
}

/// Whether the vertex has a distance, and a less one than this vertex, if there is one.
fn is_nearer(dist: &[Option<usize>], s: usize, best: Option<usize>) -> bool
    requires vertex { s < length dist.now }
    requires best { IfSome best (λ b. b < length dist.now) }
    ensures { IsTrue result ↔ IsNearer dist.now s best }
{
    match (dist[s], best) {
        (None, _) => false,
        (Some(_), None) => true,
        (Some(d), Some(b)) => is_less(d, dist[b]),
    }
}

/// The better of a vertex, where it is a start, and the best start before it.
fn better(starts: &[bool], dist: &[Option<usize>], s: usize, best: Option<usize>) -> Option<usize>
    requires each { length starts.now ≡ length dist.now }
    requires vertex { s < length dist.now }
    requires best { IsBestBelow starts.now dist.now s best }
    ensures { IsBestBelow starts.now dist.now (s + 1) result }
{
    if starts[s] && is_nearer(dist, s, best) {
        return Some(s);
    }
    best
}

/// Of the starts from which a source can be reached the least of those that are nearest to one.
fn best_start(starts: &[bool], dist: &[Option<usize>]) -> Option<usize>
    requires { length starts.now ≡ length dist.now }
    ensures { IsBestBelow starts.now dist.now (length starts.now) result }
{
    let mut best = None;
    for s in 0..starts.len() {
        best = better(starts, dist, s, best);
    }
    best
}

/// The first of the shortest paths from a start to a source, compared vertex by vertex, or that there is none. It takes time
/// linear in the graph. An `Err` is want of memory.
pub fn least_path(
    alloc: Global,
    next: &[List<usize>],
    starts: &[bool],
    sources: &[bool],
) -> Result<Option<Vec<usize>>, AllocError>
    requires graph { IsGraph next.now }
    requires starts { length starts.now ≡ length next.now }
    requires sources { length sources.now ≡ length next.now }
    ensures least { IfOk result (λ found. IfSome found (λ path.
        IsLeastPath (is_in starts.now) (is_in sources.now) (has_edge next.now) path.items)) }
    ensures none { IfOk result (λ found. IfNone found ((path : Sequence ℕ)
        → ¬ IsPathFrom (is_in starts.now) (is_in sources.now) (has_edge next.now) path)) }
{
    let dist = distances(alloc, next, sources)?;
    match best_start(starts, &dist) {
        None => Ok(None),
        Some(start) => Ok(Some(walk(alloc, next, &dist, start)?)),
    }
}
