//! A cycle that stands on a path, turned so that its least vertex is the first.
ghost use Rattle.std.specs.Prelude.{◌≡◌, ◌<◌, ◌≤◌, ◌+◌, ◌-◌, ℕ, Some, slice_get, length, Contains, IfOk};
ghost use Rattle.partitions.specs.Search.{IsTurned, IsTurnedPlace, IsCycleOn};

use std::alloc::{AllocError, Global};

/// The place of a vertex on the path.
fn place_of(path: &[usize], u: usize) -> usize
    ensures { (j : ℕ) → slice_get path.now j ≡ Some u → slice_get path.now result ≡ Some u }
{
    for (i, v) in path.iter().enumerate() {
        if *v == u {
            return i;
        }
    }
    path.len()
}

/// The place of the least vertex on the path, from a place on.
fn least_of(path: &[usize], from: usize) -> usize
    requires { from < length path.now }
    ensures inside { result < length path.now }
    ensures behind { from ≤ result }
    ensures least { (j u v : ℕ) → from ≤ j → slice_get path.now result ≡ Some u → slice_get path.now j ≡ Some v → u ≤ v }
{
    let mut least = from;
    for i in from..path.len() {
        if path[i] < path[least] {
            least = i;
        }
    }
    least
}

/// The place of the j-th vertex of the cycle that stands on a path from `from` on, begun at `first`. It goes back along the
/// path and on at its end.
fn turned_place(len: usize, from: usize, first: usize, j: usize) -> usize
    requires first { from ≤ first }
    requires inside { first < len }
    requires vertex { from + j < len }
    ensures place { IsTurnedPlace len from first j result }
    ensures inside { result < len }
{
    if j <= first - from {
        first - j
    } else {
        len - (from + j - first)
    }
}

/// The cycle that stands on a path from `from` on, begun at `first`.
fn turned(
    alloc: Global,
    path: &[usize],
    from: usize,
    first: usize,
) -> Result<Vec<usize>, AllocError>
    requires first { from ≤ first }
    requires inside { first < length path.now }
    ensures { IfOk result (λ cycle. IsTurned path.now from first cycle.items) }
{
    let mut cycle = Vec::new(alloc);
    for j in 0..path.len() - from {
        cycle.push(path[turned_place(path.len(), from, first, j)])?;
    }
    Ok(cycle)
}

/// The cycle that the path makes with an edge from a vertex on it to its last one.
pub fn cycle_on(alloc: Global, path: &[usize], u: usize) -> Result<Vec<usize>, AllocError>
    requires { Contains path.now u }
    ensures { IfOk result (λ cycle. IsCycleOn path.now u cycle.items) }
{
    let from = place_of(path, u);
    turned(alloc, path, from, least_of(path, from))
}
