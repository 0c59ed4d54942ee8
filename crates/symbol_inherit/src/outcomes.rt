//! What is in force in the plain rules of a specification, or the first fault that it has there.
ghost use Rattle.std.specs.Prelude.{◌≡◌, ◌≤◌, ◌⊎◌, length, IfOk, IfErr};
ghost use Rattle.std.specs.List.{AllZip};
ghost use Rattle.lido_base.specs.Environment.{Environment};
ghost use Rattle.lido_base.specs.Faults.{HasNone, First};
ghost use Rattle.lido_syntax.specs.declared.fault.SpecFault.TheVariants as Fault;
ghost use Rattle.lido_symbols.specs.FromText.{IsFromText};
ghost use Rattle.computation_aims.specs.Aims.{AreChains};
ghost use Rattle.table_faults.specs.Faults.{table_faults};
ghost use Rattle.rule_tables.specs.PlainRules.{plain_rules};
ghost use Rattle.rule_tables.specs.TablesOf.{AreTablesOf, named_symbols};
ghost use Rattle.rule_tables.specs.ForcedOf.{AreEntriesOf, AreForcedOf};
ghost use Rattle.rule_tables.specs.Needs.{Tables as Numbered};
ghost use Rattle.rule_tables.specs.InForceFaults.{in_force_faults};
ghost use Rattle.symbol_inherit.specs.Entries.{AreKnown};
ghost use Rattle.symbol_inherit.specs.Clashes.{AreNumbersIn, clash_fault as fault_of_clash};
ghost use Rattle.symbol_inherit.specs.Later.{IsLaterFault};

use crate::clashes::{ClashAt, first_clash};
use crate::cycle::class_cycle;
use crate::missing::first_missing;
use crate::rule_entries::all_entries;
use crate::symbols::Symbols;
use computation_aims::chain_names;
use kind_clashes::NameSets;
use lido_base::{List, Memory};
use lido_symbols::Names;
use lido_syntax::SpecFault;
use rule_tables::{Force, Forced, Tables};
use std::alloc::Global;

/// The fault of a clash.
fn clash_fault(at: ClashAt) -> SpecFault
    ensures { result ≡ fault_of_clash at }
{
    SpecFault::ClashInherited {
        sym: at.symbol,
        attr: at.clash.name,
        first: at.clash.two.first,
        second: at.clash.two.second,
    }
}

/// The first clash, else what is missing first.
fn later_fault(
    alloc: Global,
    tables: &Tables,
    symbols: &Symbols,
    chains: &Names,
) -> Result<Option<SpecFault>, Memory>
    ensures { IfOk result (λ fault. (env : Environment) (T : Numbered tables.now.spec) → AreKnown env tables.now symbols.now
        → AreNumbersIn tables.now T → AreChains tables.now.spec chains.now → IsLaterFault tables.now T fault) }
{
    if let Some(at) = first_clash(tables, symbols) {
        return Ok(Some(clash_fault(at)));
    }
    let sets = NameSets::of(alloc, &tables.spec)?;
    let missing = first_missing(alloc, tables, symbols, chains, &sets)?;
    Ok(missing)
}

/// What is in force in each plain rule, or the first fault.
fn outcome(alloc: Global, tables: &Tables) -> Result<Result<List<List<Force>>, SpecFault>, Memory>
    requires few { length tables.now.symbols ≤ 512 }
    requires tables { (env : Environment) × AreTablesOf env tables.now }
    requires text { IsFromText tables.now.spec }
    requires faults { (texts : Environment) × HasNone (table_faults tables.now.spec texts) }
    ensures comps { IfOk result (λ r. IfOk r (λ comps. AllZip (AreEntriesOf tables.now) (plain_rules tables.now.spec (named_symbols tables.now)) comps)) }
    ensures none { IfOk result (λ r. IfOk r (λ comps. (T : Numbered tables.now.spec) → AreNumbersIn tables.now T
        → HasNone (in_force_faults tables.now.spec T))) }
    ensures fault { IfOk result (λ r. IfErr r (λ fault. (T : Numbered tables.now.spec) → AreNumbersIn tables.now T
        → First (in_force_faults tables.now.spec T) fault)) }
{
    let cycle = class_cycle(alloc, tables)?;
    if let Some(path) = cycle {
        return Ok(Err(SpecFault::ClassCycle { path }));
    }
    let symbols = Symbols::of(alloc, tables)?;
    let chains = chain_names(alloc, &tables.spec)?;
    let later = later_fault(alloc, tables, &symbols, &chains)?;
    if let Some(fault) = later {
        return Ok(Err(fault));
    }
    let comps = all_entries(alloc, tables, &symbols, &chains)?;
    Ok(Ok(comps))
}

/// The tables with what is in force in each of their plain rules. An `Err` is the first fault: a class that inherits itself,
/// computations of two classes that are left for one goal, or an attribute that nothing computes; or it is want of memory.
pub fn in_force(alloc: Global, tables: Tables) -> Result<Forced, SpecFault>
    requires few { length tables.symbols ≤ 512 }
    requires tables { (env : Environment) × AreTablesOf env tables }
    requires text { IsFromText tables.spec }
    requires faults { (texts : Environment) × HasNone (table_faults tables.spec texts) }
    ensures tables { IfOk result (λ forced. forced.tables ≡ tables) }
    ensures forced { IfOk result (λ forced. (env : Environment) → AreTablesOf env tables → AreForcedOf env forced) }
    ensures none { IfOk result (λ _. (T : Numbered tables.spec) → AreNumbersIn tables T → HasNone (in_force_faults tables.spec T)) }
    ensures fault { IfErr result (λ fault. (fault ≡ Fault.Memory) ⊎ ((T : Numbered tables.spec) → AreNumbersIn tables T
        → First (in_force_faults tables.spec T) fault)) }
{
    let Ok(result) = outcome(alloc, &tables) else {
        return Err(SpecFault::Memory);
    };
    match result {
        Ok(comps) => Ok(Forced { tables, comps }),
        Err(fault) => Err(fault),
    }
}
