//! How the root comes to need a chain.
ghost use Rattle.std.specs.Prelude.{◌≡◌, ◌<◌, ◌↔◌, ℕ, List as Sequence, IsTrue, nat_eq, length, IfOk, IfSome, IfNone};
ghost use Rattle.lido_base.specs.Environment.{Environment};
ghost use Rattle.lido_base.specs.Reach.{IsLeastPath, IsPathFrom};
ghost use Rattle.least_paths.specs.Graph.{is_in};
ghost use Rattle.rule_tables.specs.ForcedOf.{AreForcedOf, AreNumbersOf};
ghost use Rattle.rule_tables.specs.Needs.{Tables as Numbered, passes_chain, uses_chain};

use crate::chains::chain_graph;
use crate::children::none_of;
use least_paths::least_path;
use lido_base::{Memory, StrId};
use rule_tables::Forced;
use std::alloc::Global;

/// The set of one number, for so many.
pub fn only(alloc: Global, count: usize, x: usize) -> Result<Vec<bool>, Memory>
    requires { x < count }
    ensures count { IfOk result (λ set. length set.items ≡ count) }
    ensures exactly { IfOk result (λ set. (y : ℕ) → IsTrue (is_in set.items y) ↔ IsTrue (nat_eq x y)) }
{
    let mut set = none_of(alloc, count)?;
    set[x] = true;
    Ok(set)
}

/// The first of the shortest paths from the root to a symbol that uses the chain, along which the chain is needed, and `None`
/// where the root doesn't need it. `users` tells which symbols use it. It takes time linear in the rules and in the computations
/// in force. An `Err` is want of memory.
pub fn chain_path(
    alloc: Global,
    forced: &Forced,
    chain: StrId,
    users: &[bool],
) -> Result<Option<Vec<usize>>, Memory>
    requires forced { (env : Environment) × AreForcedOf env forced.now }
    requires each { length users.now ≡ length forced.now.tables.symbols }
    ensures least { IfOk result (λ found. IfSome found (λ path. (env : Environment) (T : Numbered forced.now.tables.spec)
        → AreForcedOf env forced.now → AreNumbersOf env forced.now T
        → ((x : ℕ) → IsTrue (is_in users.now x) ↔ IsTrue (uses_chain forced.now.tables.spec T chain.0 x))
        → IsLeastPath (nat_eq forced.now.tables.root.0) (uses_chain forced.now.tables.spec T chain.0)
        (passes_chain forced.now.tables.spec T chain.0) path.items)) }
    ensures none { IfOk result (λ found. IfNone found ((env : Environment) (T : Numbered forced.now.tables.spec)
        → AreForcedOf env forced.now → AreNumbersOf env forced.now T
        → ((x : ℕ) → IsTrue (is_in users.now x) ↔ IsTrue (uses_chain forced.now.tables.spec T chain.0 x))
        → (path : Sequence ℕ) → ¬ IsPathFrom (nat_eq forced.now.tables.root.0) (uses_chain forced.now.tables.spec T chain.0)
        (passes_chain forced.now.tables.spec T chain.0) path)) }
{
    let graph = chain_graph(alloc, forced, chain)?;
    let starts = only(alloc, users.len(), forced.tables.root.0 as usize)?;
    let found = least_path(alloc, &graph, &starts, users)?;
    Ok(found)
}
