//! What INCLUDINGs add to the flat grammar.
ghost use Rattle.std.specs.Prelude.{◌≡◌, ◌≤◌, ◌^◌, ◌⊎◌, Contains, length, IfOk, IfErr};
ghost use Rattle.lido_base.specs.Environment.{Environment};
ghost use Rattle.lido_syntax.specs.declared.fault.SpecFault.TheVariants as fault_of;
ghost use Rattle.rule_tables.specs.ForcedOf.{AreForcedOf};
ghost use Rattle.need_graphs.specs.Clear.{AreWithin};
ghost use Rattle.remote_lists.specs.Reach.{IsChildGraph};
ghost use Rattle.including_sets.specs.declared.sets.PairSet.{PairSet as Set};
ghost use Rattle.including_expand.specs.Needed.{IsOver};
ghost use Rattle.including_expand.specs.Expanded.{AreSetsIn, IsExtraOf, HasNoFault, IsFaultIn, IsExpansionOf};

use crate::extras::{all_attrs, all_comps};
use crate::faults::first_fault;
use crate::needs::all_needs;
use including_sets::{PairSet, sets_of};
use lido_base::{List, Memory};
use lido_syntax::SpecFault;
use need_graphs::child_graph;
use remote_lists::Symbols;
use rule_tables::{Extra, Forced};
use std::alloc::Global;

/// What the INCLUDINGs add, or the fault of the first set that the root needs.
#[derive(Drop)]
pub enum Expansion {
    Added(Extra),
    Fault(SpecFault),
}

/// What the sets of INCLUDINGs add.
fn including_extra(
    alloc: Global,
    forced: &Forced,
    graph: &[List<usize>],
    sets: &[PairSet],
) -> Result<Extra, Memory>
    requires within { AreWithin forced.now.tables }
    requires graph { IsChildGraph forced.now.tables graph.now }
    requires sets { AreSetsIn forced.now sets.now }
    requires each { (set : Set) → Contains sets.now set → IsOver graph.now set }
    requires few { length sets.now ≤ 2 ^ 32 }
    ensures { IfOk result (IsExtraOf forced.now) }
{
    let tables = &forced.tables;
    let needs = all_needs(alloc, graph, sets)?;
    let attrs = all_attrs(alloc, tables.symbols.as_slice(), sets, &needs)?;
    let comps = all_comps(alloc, tables.plain.as_slice(), sets, &needs)?;
    Ok(Extra {
        attrs: List::from_vec(attrs),
        comps: List::from_vec(comps),
    })
}

/// What the INCLUDINGs add, or the fault.
fn expanded(alloc: Global, forced: &Forced) -> Result<Expansion, Memory>
    requires forced { (env : Environment) × AreForcedOf env forced.now }
    requires within { AreWithin forced.now.tables }
    ensures { IfOk result (IsExpansionOf forced.now) }
{
    let tables = &forced.tables;
    let symbols = Symbols::of(alloc, tables)?;
    let sets = sets_of(alloc, forced, &symbols)?;
    let graph = child_graph(alloc, tables)?;
    match first_fault(alloc, tables, &graph, &sets)? {
        Some(fault) => Ok(Expansion::Fault(fault)),
        None => Ok(Expansion::Added(including_extra(alloc, forced, &graph, &sets)?)),
    }
}

/// What INCLUDINGs add to the flat grammar: to each symbol and cell that needs a set of INCLUDINGs an attribute, and in each plain
/// rule what its children are handed down; or NoIncluding for the first set that the root needs. It takes time linear in the
/// symbols for each pair, and in the rules and the computations in force for each set.
pub fn expand_including(alloc: Global, forced: &Forced) -> Result<Extra, SpecFault>
    requires forced { (env : Environment) × AreForcedOf env forced.now }
    requires within { AreWithin forced.now.tables }
    ensures ok { IfOk result (IsExtraOf forced.now) }
    ensures accepted { IfOk result (λ extra. HasNoFault forced.now) }
    ensures err { IfErr result (λ fault. (fault ≡ fault_of.Memory) ⊎ IsFaultIn forced.now fault) }
{
    match expanded(alloc, forced) {
        Ok(Expansion::Added(extra)) => Ok(extra),
        Ok(Expansion::Fault(fault)) => Err(fault),
        Err(Memory) => Err(SpecFault::Memory),
    }
}
