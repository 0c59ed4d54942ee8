//! What CONSTITUENTS add to the flat grammar.
ghost use Rattle.std.specs.Prelude.{◌≡◌, ◌⊎◌, map, IfOk, IfErr};
ghost use Rattle.lido_base.specs.Environment.{Environment};
ghost use Rattle.lido_syntax.specs.declared.fault.SpecFault.TheVariants as fault_of;
ghost use Rattle.rule_tables.specs.ForcedOf.{AreForcedOf};
ghost use Rattle.need_graphs.specs.Clear.{AreWithin};
ghost use Rattle.constituents_expand.specs.Uses.{told, AreUses};
ghost use Rattle.constituents_expand.specs.Listings.{AreSymbols};
ghost use Rattle.constituents_expand.specs.Expanded.{IsExtraOf, HasNoFault, IsFaultIn, IsExpansionOf};

use crate::extras::{all_attrs, all_comps};
use crate::faults::least_lack;
use crate::gatherings::gatherings;
use crate::symbols::Symbols;
use crate::uses::{Use, sorted_uses};
use lido_base::{List, Memory};
use lido_syntax::SpecFault;
use need_graphs::child_graph;
use rule_tables::{Extra, Forced};
use std::alloc::Global;

/// What the CONSTITUENTS add, or the fault of the first that lacks a WITH.
#[derive(Drop)]
pub enum Expansion {
    Added(Extra),
    Fault(SpecFault),
}

/// What the CONSTITUENTS of the text add.
fn constituents_extra(
    alloc: Global,
    forced: &Forced,
    symbols: &Symbols,
    uses: &[Use],
) -> Result<Extra, Memory>
    requires forced { (env : Environment) × AreForcedOf env forced.now }
    requires within { AreWithin forced.now.tables }
    requires symbols { AreSymbols forced.now.tables.spec symbols.now }
    requires uses { AreUses forced.now.tables.spec (map told uses.now) }
    ensures { IfOk result (IsExtraOf forced.now) }
{
    let tables = &forced.tables;
    let graph = child_graph(alloc, tables)?;
    let all = gatherings(alloc, forced, symbols, &graph, uses)?;
    let attrs = all_attrs(alloc, tables.symbols.as_slice(), &all)?;
    let comps = all_comps(
        alloc,
        tables.spec.rules.as_slice(),
        tables.plain.as_slice(),
        &all,
    )?;
    Ok(Extra {
        attrs: List::from_vec(attrs),
        comps: List::from_vec(comps),
    })
}

/// What the CONSTITUENTS add, or the fault.
fn expanded(alloc: Global, forced: &Forced) -> Result<Expansion, Memory>
    requires forced { (env : Environment) × AreForcedOf env forced.now }
    requires within { AreWithin forced.now.tables }
    ensures { IfOk result (IsExpansionOf forced.now) }
{
    let symbols = Symbols::of(alloc, &forced.tables)?;
    let uses = sorted_uses(alloc, &forced.tables.spec)?;
    match least_lack(&symbols, forced.tables.symbols.as_slice(), &uses) {
        Some(at) => Ok(Expansion::Fault(SpecFault::NoWith { at })),
        None => Ok(Expansion::Added(constituents_extra(alloc, forced, &symbols, &uses)?)),
    }
}

/// What CONSTITUENTS add to the flat grammar: to each symbol and cell that one wants and from which a source of it can be reached
/// an attribute, and its computations in the plain rules, which join what stands below from the right; or NoWith for the first
/// CONSTITUENTS that lacks a WITH. It takes time linear in the symbols for each name of a list, and in the rules and the
/// computations in force for each CONSTITUENTS.
pub fn expand_constituents(alloc: Global, forced: &Forced) -> Result<Extra, SpecFault>
    requires forced { (env : Environment) × AreForcedOf env forced.now }
    requires within { AreWithin forced.now.tables }
    ensures ok { IfOk result (IsExtraOf forced.now) }
    ensures accepted { IfOk result (λ extra. HasNoFault forced.now) }
    ensures err { IfErr result (λ fault. (fault ≡ fault_of.Memory) ⊎ IsFaultIn forced.now fault) }
{
    match expanded(alloc, forced) {
        Ok(Expansion::Added(extra)) => Ok(extra),
        Ok(Expansion::Fault(fault)) => Err(fault),
        Err(Memory) => Err(SpecFault::Memory),
    }
}
