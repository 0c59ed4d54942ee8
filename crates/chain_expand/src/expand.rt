//! What chains add to the flat grammar.
ghost use Rattle.std.specs.Prelude.{◌≡◌, ◌⊎◌, IfOk, IfErr};
ghost use Rattle.lido_base.specs.Environment.{Environment};
ghost use Rattle.lido_syntax.specs.declared.fault.SpecFault.TheVariants as fault_of;
ghost use Rattle.rule_tables.specs.ForcedOf.{AreForcedOf};
ghost use Rattle.need_graphs.specs.Clear.{AreWithin};
ghost use Rattle.chain_expand.specs.Needed.{AreNeedsOf};
ghost use Rattle.chain_expand.specs.Expanded.{IsExtraOf, HasNoFault, IsFaultIn, IsExpansionOf};

use crate::attrs::all_attrs;
use crate::comps::all_comps;
use crate::faults::first_fault;
use crate::needs::all_needs;
use crate::walks::all_walks;
use lido_base::{List, Memory};
use lido_syntax::SpecFault;
use rule_tables::{Extra, Forced};
use std::alloc::Global;

/// What the chains add, or the fault of the first that the root needs.
#[derive(Drop)]
pub enum Expansion {
    Added(Extra),
    Fault(SpecFault),
}

/// What the chains add. `needs` tells for each who needs it.
fn chain_extra(alloc: Global, forced: &Forced, needs: &[List<bool>]) -> Result<Extra, Memory>
    requires needs { AreNeedsOf forced.now forced.now.tables.spec.chains needs.now }
    requires within { AreWithin forced.now.tables }
    ensures { IfOk result (IsExtraOf forced.now) }
{
    let tables = &forced.tables;
    let walks = all_walks(alloc, forced, needs)?;
    let attrs = all_attrs(
        alloc,
        tables.symbols.as_slice(),
        tables.spec.chains.as_slice(),
        needs,
    )?;
    let comps = all_comps(alloc, tables.plain.as_slice(), &walks)?;
    Ok(Extra {
        attrs: List::from_vec(attrs),
        comps: List::from_vec(comps),
    })
}

/// What the chains add, or the fault.
fn expanded(alloc: Global, forced: &Forced) -> Result<Expansion, Memory>
    requires forced { (env : Environment) × AreForcedOf env forced.now }
    requires within { AreWithin forced.now.tables }
    ensures { IfOk result (IsExpansionOf forced.now) }
{
    let needs = all_needs(alloc, forced)?;
    match first_fault(alloc, forced)? {
        Some(fault) => Ok(Expansion::Fault(fault)),
        None => Ok(Expansion::Added(chain_extra(alloc, forced, &needs)?)),
    }
}

/// What the chains add to the flat grammar: to each symbol and cell that needs a chain an attribute for what it has in front and
/// one for what it has behind, and their computations in the plain rules; or ChainNoStart for the first chain that the root
/// needs. It takes time linear in the text, the rules and the computations in force for each chain.
pub fn expand_chains(alloc: Global, forced: &Forced) -> Result<Extra, SpecFault>
    requires forced { (env : Environment) × AreForcedOf env forced.now }
    requires within { AreWithin forced.now.tables }
    ensures ok { IfOk result (IsExtraOf forced.now) }
    ensures accepted { IfOk result (λ extra. HasNoFault forced.now) }
    ensures err { IfErr result (λ fault. (fault ≡ fault_of.Memory) ⊎ IsFaultIn forced.now fault) }
{
    match expanded(alloc, forced) {
        Ok(Expansion::Added(extra)) => Ok(extra),
        Ok(Expansion::Fault(fault)) => Err(fault),
        Err(Memory) => Err(SpecFault::Memory),
    }
}
