//! A graph without the edges of some vertices.
ghost use Rattle.std.specs.Prelude.{◌≡◌, ◌<◌, ◌↔◌, ℕ, IsTrue, length, IfOk};
ghost use Rattle.least_paths.specs.Graph.{has_edge, is_in};
ghost use Rattle.least_paths.specs.Without.{kept_of};

use crate::edges::row;
use lido_base::List;
use std::alloc::{AllocError, Global};

/// A copy of the row.
fn copied(alloc: Global, row: &[usize]) -> Result<List<usize>, AllocError>
    ensures { IfOk result (λ copy. copy ≡ row.now) }
{
    let mut copy = Vec::new(alloc);
    for x in row {
        copy.push(*x)?;
    }
    Ok(List::from_vec(copy))
}

/// The row of a vertex, which is empty where the vertex is closed.
fn kept_row(
    alloc: Global,
    next: &[List<usize>],
    closed: &[bool],
    x: usize,
) -> Result<List<usize>, AllocError>
    requires { x < length closed.now }
    ensures { IfOk result (λ kept. kept ≡ kept_of next.now closed.now x) }
{
    if closed[x] {
        return Ok(List::new(alloc));
    }
    copied(alloc, row(next, x))
}

/// The graph without the edges that lead from a closed vertex.
pub fn without(
    alloc: Global,
    next: &[List<usize>],
    closed: &[bool],
) -> Result<Vec<List<usize>>, AllocError>
    requires { length closed.now ≡ length next.now }
    ensures count { IfOk result (λ kept. length kept.items ≡ length next.now) }
    ensures edges { IfOk result (λ kept. (x y : ℕ) → IsTrue (has_edge kept.items x y)
        ↔ (IsTrue (has_edge next.now x y) × ¬ IsTrue (is_in closed.now x))) }
{
    let mut kept = Vec::new(alloc);
    for x in 0..next.len() {
        kept.push(kept_row(alloc, next, closed, x)?)?;
    }
    Ok(kept)
}
