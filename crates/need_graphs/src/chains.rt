//! The graph along which a chain is needed.
ghost use Rattle.std.specs.Prelude.{◌≡◌, ◌↔◌, ℕ, IsTrue, map, length, IfOk};
ghost use Rattle.std.specs.List.{list_any};
ghost use Rattle.lido_base.specs.Environment.{Environment};
ghost use Rattle.least_paths.specs.Graph.{IsGraph, has_edge};
ghost use Rattle.rule_tables.specs.ForcedOf.{AreForcedOf, AreNumbersOf};
ghost use Rattle.rule_tables.specs.Needs.{Tables as Numbered, passes_chain};
ghost use Rattle.need_graphs.specs.Starts.{is_called, is_start, starts};

use lido_base::{List, Memory, StrId};
use lido_syntax::Typed1;
use rule_graphs::rule_graph;
use rule_tables::{Force, Forced, Goal};
use std::alloc::Global;

/// Whether the chain that is declared at the place has this name.
pub fn is_declared(chains: &[Typed1], chain: StrId, place: usize) -> bool
    ensures { result ≡ is_called chains.now chain.0 place }
{
    match chains.get(place) {
        Some(declared) => declared.name.id == chain,
        None => false,
    }
}

/// Whether the goal is the start of the chain.
fn is_start_of(chains: &[Typed1], chain: StrId, goal: Goal) -> bool
    ensures { result ≡ is_start chains.now chain.0 goal }
{
    match goal {
        Goal::Start(place) => is_declared(chains, chain, place as usize),
        Goal::Attr(_) | Goal::Behind(_) | Goal::Out | Goal::Message(_) => false,
    }
}

/// Whether the chain starts at the left side by the computation.
fn starts_chain(chains: &[Typed1], chain: StrId, force: &Force) -> bool
    ensures { result ≡ starts chains.now chain.0 force.now }
{
    force.occ == 0 && is_start_of(chains, chain, force.goal)
}

/// Whether the chain starts at the left side by one of the computations.
pub fn has_start(chains: &[Typed1], chain: StrId, forces: &[Force]) -> bool
    ensures { result ≡ list_any (starts chains.now chain.0) forces.now }
{
    forces
        .iter()
        .any(|force| starts_chain(chains, chain, force))
}

/// For each plain rule whether the chain starts in it. An `Err` is want of memory.
pub fn started(alloc: Global, forced: &Forced, chain: StrId) -> Result<Vec<bool>, Memory>
    ensures { IfOk result (λ closed. closed.items ≡ map (list_any (starts forced.now.tables.spec.chains chain.0)) forced.now.comps) }
{
    let chains = forced.tables.spec.chains.as_slice();
    let rows = forced.comps.as_slice();
    let mut closed = Vec::new(alloc);
    for forces in rows {
        closed.push(has_start(chains, chain, forces.as_slice()))?;
    }
    Ok(closed)
}

/// The graph along which a chain is needed: an edge leads from a symbol or cell to each one that stands on the right side of one
/// of its rules in which the chain doesn't start. They are named by their numbers. It takes time linear in the rules and in the
/// computations in force. An `Err` is want of memory.
pub fn chain_graph(alloc: Global, forced: &Forced, chain: StrId) -> Result<Vec<List<usize>>, Memory>
    requires { (env : Environment) × AreForcedOf env forced.now }
    ensures count { IfOk result (λ graph. length graph.items ≡ length forced.now.tables.symbols) }
    ensures graph { IfOk result (λ graph. IsGraph graph.items) }
    ensures edges { IfOk result (λ graph. (env : Environment) (T : Numbered forced.now.tables.spec) → AreForcedOf env forced.now
        → AreNumbersOf env forced.now T → (x y : ℕ) → IsTrue (has_edge graph.items x y)
        ↔ IsTrue (passes_chain forced.now.tables.spec T chain.0 x y)) }
{
    let plain = forced.tables.plain.as_slice();
    let closed = started(alloc, forced, chain)?;
    let graph = rule_graph(alloc, forced.tables.symbols.len(), plain, &closed)?;
    Ok(graph)
}
