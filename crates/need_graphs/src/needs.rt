//! Which symbols need a chain.
ghost use Rattle.std.specs.Prelude.{◌≡◌, ◌↔◌, ℕ, IsTrue, length, IfOk};
ghost use Rattle.lido_base.specs.Environment.{Environment};
ghost use Rattle.least_paths.specs.Graph.{is_in};
ghost use Rattle.rule_tables.specs.ForcedOf.{AreForcedOf, AreNumbersOf};
ghost use Rattle.rule_tables.specs.Needs.{Tables as Numbered, uses_chain, NeedsChain};

use crate::chains::chain_graph;
use least_paths::reaching;
use lido_base::{Memory, StrId};
use rule_tables::Forced;
use std::alloc::Global;

/// For each symbol and cell, by number, whether it needs the chain: it uses it, or one that needs it stands on the right side of
/// one of its rules in which the chain doesn't start. `users` tells which use it. It takes time linear in the rules and in the
/// computations in force. An `Err` is want of memory.
pub fn chain_needs(
    alloc: Global,
    forced: &Forced,
    chain: StrId,
    users: &[bool],
) -> Result<Vec<bool>, Memory>
    requires forced { (env : Environment) × AreForcedOf env forced.now }
    requires each { length users.now ≡ length forced.now.tables.symbols }
    ensures count { IfOk result (λ set. length set.items ≡ length forced.now.tables.symbols) }
    ensures exactly { IfOk result (λ set. (env : Environment) (T : Numbered forced.now.tables.spec) → AreForcedOf env forced.now
        → AreNumbersOf env forced.now T
        → ((x : ℕ) → IsTrue (is_in users.now x) ↔ IsTrue (uses_chain forced.now.tables.spec T chain.0 x))
        → (x : ℕ) → IsTrue (is_in set.items x) ↔ NeedsChain forced.now.tables.spec T chain.0 x) }
{
    let graph = chain_graph(alloc, forced, chain)?;
    let set = reaching(alloc, &graph, users)?;
    Ok(set)
}
