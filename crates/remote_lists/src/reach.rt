//! Sets of symbols, and what can be reached along edges of a graph that lead from no closed vertex.
ghost use Rattle.std.specs.Prelude.{◌≡◌, ◌↔◌, ℕ, IsTrue, length, IfOk};
ghost use Rattle.lido_base.specs.Reach.{Reaches};
ghost use Rattle.least_paths.specs.Graph.{IsGraph, is_in};
ghost use Rattle.remote_lists.specs.Reach.{down_edge};

use least_paths::{reaching, without};
use lido_base::{List, SymId};
use std::alloc::{AllocError, Global};

/// Whether the symbol is in the set, which tells it for each number.
pub fn is_set(set: &[bool], symbol: SymId) -> bool
    ensures { result ≡ is_in set.now symbol.0 }
{
    match set.get(symbol.0 as usize) {
        Some(found) => *found,
        None => false,
    }
}

/// The vertices from which a source can be reached along edges that lead from no closed one. It takes time linear in the graph.
/// An `Err` is want of memory.
pub fn reached(
    alloc: Global,
    graph: &[List<usize>],
    sources: &[bool],
    closed: &[bool],
) -> Result<Vec<bool>, AllocError>
    requires graph { IsGraph graph.now }
    requires sources { length sources.now ≡ length graph.now }
    requires closed { length closed.now ≡ length graph.now }
    ensures count { IfOk result (λ set. length set.items ≡ length graph.now) }
    ensures exactly { IfOk result (λ set. (x : ℕ) → IsTrue (is_in set.items x) ↔ Reaches (is_in sources.now) (down_edge graph.now closed.now) x) }
{
    let edges = without(alloc, graph, closed)?;
    reaching(alloc, &edges, sources)
}
