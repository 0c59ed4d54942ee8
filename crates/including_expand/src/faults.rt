//! The fault of a set of INCLUDINGs that the root needs.
ghost use Rattle.std.specs.Prelude.{◌≡◌, ◌<◌, ℕ, Some, Contains, length, slice_get, IfOk, IfSome, IfNone};
ghost use Rattle.least_paths.specs.Graph.{IsGraph};
ghost use Rattle.including_sets.specs.declared.sets.PairSet.{PairSet as Set};
ghost use Rattle.including_expand.specs.Needed.{IsOver, IsPathOf, HasNoPath, IsFaultOf, IsFirstFault};

use including_sets::PairSet;
use least_paths::{least_path, without};
use lido_base::{List, Memory};
use lido_syntax::SpecFault;
use need_graphs::only;
use remote_lists::path_names;
use rule_tables::Tables;
use std::alloc::Global;

/// The first of the shortest paths from the root to a symbol that uses the set, along which the set is needed, and `None` where
/// the root doesn't need it.
fn set_path(
    alloc: Global,
    graph: &[List<usize>],
    root: usize,
    set: &PairSet,
) -> Result<Option<Vec<usize>>, Memory>
    requires graph { IsGraph graph.now }
    requires root { root < length graph.now }
    requires each { IsOver graph.now set.now }
    ensures least { IfOk result (λ found. IfSome found (λ path. IsPathOf graph.now root set.now path.items)) }
    ensures none { IfOk result (λ found. IfNone found (HasNoPath graph.now root set.now)) }
{
    let edges = without(alloc, graph, set.listed.as_slice())?;
    let starts = only(alloc, graph.len(), root)?;
    let found = least_path(alloc, &edges, &starts, set.users.as_slice())?;
    Ok(found)
}

/// The fault, if the root needs the set.
fn set_fault(
    alloc: Global,
    tables: &Tables,
    graph: &[List<usize>],
    set: &PairSet,
) -> Result<Option<SpecFault>, Memory>
    requires graph { IsGraph graph.now }
    requires root { tables.now.root.0 < length graph.now }
    requires each { IsOver graph.now set.now }
    ensures some { IfOk result (λ found. IfSome found (IsFaultOf tables.now graph.now set.now)) }
    ensures none { IfOk result (λ found. IfNone found (HasNoPath graph.now tables.now.root.0 set.now)) }
{
    match set_path(alloc, graph, tables.root.0 as usize, set)? {
        None => Ok(None),
        Some(path) => {
            let path = path_names(alloc, tables.symbols.as_slice(), &path)?;
            Ok(Some(SpecFault::NoIncluding { path }))
        }
    }
}

/// The fault of the first set that the root needs. It takes time linear in the graph for each set. An `Err` is want of memory.
pub fn first_fault(
    alloc: Global,
    tables: &Tables,
    graph: &[List<usize>],
    sets: &[PairSet],
) -> Result<Option<SpecFault>, Memory>
    requires graph { IsGraph graph.now }
    requires root { tables.now.root.0 < length graph.now }
    requires each { (set : Set) → Contains sets.now set → IsOver graph.now set }
    ensures some { IfOk result (λ found. IfSome found (IsFirstFault tables.now graph.now sets.now)) }
    ensures none { IfOk result (λ found. IfNone found ((i : ℕ) (set : Set) → slice_get sets.now i ≡ Some set
        → HasNoPath graph.now tables.now.root.0 set)) }
{
    for set in sets {
        if let Some(fault) = set_fault(alloc, tables, graph, set)? {
            return Ok(Some(fault));
        }
    }
    Ok(None)
}
