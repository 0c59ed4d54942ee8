//! The walks of all chains.
ghost use Rattle.std.specs.Prelude.{◌≡◌, ◌≤◌, ◌^◌, length, IfOk};
ghost use Rattle.need_graphs.specs.Clear.{AreFew};
ghost use Rattle.chain_expand.specs.Walks.{AreWalks, AreAllWalks};

use crate::walk::{Walk, chain_walk, has_node};
use flat_grammar::FlatRule;
use lido_base::{List, Memory};
use need_graphs::forces_at;
use rule_tables::{Force, Forced, SymbolRow};
use std::alloc::Global;

/// The walks of the chains over the children of a plain rule. `needs` tells for each chain who needs it.
fn rule_walks(
    alloc: Global,
    rows: &[SymbolRow],
    needs: &[List<bool>],
    rule: &FlatRule,
    forces: &[Force],
) -> Result<List<Walk>, Memory>
    requires few { length needs.now ≤ 2 ^ 32 }
    requires right { length rule.now.right ≤ 1024 }
    ensures { IfOk result (AreWalks rows.now needs.now rule.now forces.now) }
{
    let inner = has_node(rows, rule.right.as_slice());
    let mut walks = Vec::new(alloc);
    for (i, row) in needs.iter().enumerate() {
        walks.push(chain_walk(alloc, inner, i as u32, row.as_slice(), rule, forces)?)?;
    }
    Ok(List::from_vec(walks))
}

/// The walks of the chains over the children of each plain rule. It takes time linear in the rules and in the computations in
/// force for each chain.
pub fn all_walks(
    alloc: Global,
    forced: &Forced,
    needs: &[List<bool>],
) -> Result<Vec<List<Walk>>, Memory>
    requires chains { length needs.now ≤ 2 ^ 32 }
    requires few { AreFew forced.now.tables.plain }
    ensures { IfOk result (λ all. AreAllWalks forced.now.tables.symbols needs.now forced.now.tables.plain forced.now.comps all.items) }
{
    let rows = forced.tables.symbols.as_slice();
    let plain = forced.tables.plain.as_slice();
    let comps = forced.comps.as_slice();
    let mut all = Vec::new(alloc);
    for (k, rule) in plain.iter().enumerate() {
        all.push(rule_walks(alloc, rows, needs, rule, forces_at(comps, k))?)?;
    }
    Ok(all)
}
