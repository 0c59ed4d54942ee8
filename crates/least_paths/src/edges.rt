//! The edges of a graph, turned round.
ghost use Rattle.std.specs.Prelude.{◌≡◌, ◌<◌, ◌↔◌, ◌⊎◌, ℕ, Contains, length, IfOk};
ghost use Rattle.least_paths.specs.Graph.{IsGraph, IsEdge, row_of};

use lido_base::List;
use std::alloc::{AllocError, Global};

/// The vertices to which an edge leads from this one.
pub fn row(next: &[List<usize>], x: usize) -> &[usize]
    ensures { result.now ≡ row_of next.now x }
{
    match next.get(x) {
        Some(row) => row.as_slice(),
        None => &[],
    }
}

/// Adds an edge from each of these vertices to one.
fn add_edges(back: &mut Vec<List<usize>>, row: &[usize], x: usize) -> Result<(), AllocError>
    requires { (y : ℕ) → Contains row.now y → y < length back.old.items }
    ensures count { IfOk result (λ _. length back.new.items ≡ length back.old.items) }
    ensures edges { IfOk result (λ _. (u v : ℕ) → IsEdge back.new.items u v
        ↔ (IsEdge back.old.items u v ⊎ (Contains row.now u × (v ≡ x)))) }
{
    for y in row {
        back[*y].push(x)?;
    }
    Ok(())
}

/// The graph without edges, of so many vertices. An `Err` is want of memory.
pub fn bare(alloc: Global, count: usize) -> Result<Vec<List<usize>>, AllocError>
    ensures count { IfOk result (λ back. length back.items ≡ count) }
    ensures edges { IfOk result (λ back. (u v : ℕ) → ¬ IsEdge back.items u v) }
{
    let mut back = Vec::new(alloc);
    for _ in 0..count {
        back.push(List::new(alloc))?;
    }
    Ok(back)
}

/// The graph with an edge from y to x for each edge from x to y. An `Err` is want of memory.
pub fn turned(alloc: Global, next: &[List<usize>]) -> Result<Vec<List<usize>>, AllocError>
    requires { IsGraph next.now }
    ensures count { IfOk result (λ back. length back.items ≡ length next.now) }
    ensures edges { IfOk result (λ back. (x y : ℕ) → IsEdge back.items y x ↔ IsEdge next.now x y) }
{
    let mut back = bare(alloc, next.len())?;
    for x in 0..next.len() {
        add_edges(&mut back, row(next, x), x)?;
    }
    Ok(back)
}
