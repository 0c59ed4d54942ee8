//! Who needs the sets of INCLUDINGs, over the graph of plain rules: an edge leads from a left side to each symbol of its right side.
ghost use Rattle.std.specs.Prelude.{Contains, IfOk};
ghost use Rattle.std.specs.List.{AllZip};
ghost use Rattle.least_paths.specs.Graph.{IsGraph};
ghost use Rattle.including_sets.specs.declared.sets.PairSet.{PairSet as Set};
ghost use Rattle.including_expand.specs.Needed.{IsOver, IsNeedOf};

use including_sets::PairSet;
use lido_base::{List, Memory};
use remote_lists::reached;
use std::alloc::Global;

/// For each symbol and cell whether it needs the set: it uses it, or nothing is listed for it and one that needs it stands on a
/// right side of its rules.
fn set_needs(alloc: Global, graph: &[List<usize>], set: &PairSet) -> Result<List<bool>, Memory>
    requires graph { IsGraph graph.now }
    requires each { IsOver graph.now set.now }
    ensures { IfOk result (IsNeedOf graph.now set.now) }
{
    let needs = reached(alloc, graph, set.users.as_slice(), set.listed.as_slice())?;
    Ok(List::from_vec(needs))
}

/// For each set who needs it. It takes time linear in the graph for each set. An `Err` is want of memory.
pub fn all_needs(
    alloc: Global,
    graph: &[List<usize>],
    sets: &[PairSet],
) -> Result<Vec<List<bool>>, Memory>
    requires graph { IsGraph graph.now }
    requires each { (set : Set) → Contains sets.now set → IsOver graph.now set }
    ensures { IfOk result (λ needs. AllZip (IsNeedOf graph.now) sets.now needs.items) }
{
    let mut needs = Vec::new(alloc);
    for set in sets {
        needs.push(set_needs(alloc, graph, set)?)?;
    }
    Ok(needs)
}
