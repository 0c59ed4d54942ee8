//! Types of a specification.
ghost use Rattle.std.specs.Prelude.{◌≡◌, ◌⊎◌, IfOk, IfErr};
ghost use Rattle.lido_base.specs.Environment.{Environment};
ghost use Rattle.lido_base.specs.Faults.{HasNone, First};
ghost use Rattle.lido_syntax.specs.declared.fault.SpecFault.TheVariants as fault;
ghost use Rattle.lido_symbols.specs.FromText.{IsFromText};
ghost use Rattle.table_faults.specs.Faults.{table_faults};
ghost use Rattle.rule_tables.specs.Needs.{Tables as Numbered};
ghost use Rattle.rule_tables.specs.ForcedOf.{AreForcedOf, AreNumbersOf};
ghost use Rattle.expr_types.specs.Functions.{AreNamedIn};
ghost use Rattle.expr_types.specs.TypeFaults.{type_faults};

use crate::checker::Checker;
use crate::entries::check_rules;
use lido_base::{Patterns, Strings};
use lido_syntax::SpecFault;
use rule_tables::Forced;
use std::alloc::Global;

/// Whether each computation in force of a specification that was read from a text and has no fault of the tables has its type; or
/// the first fault of types. (`strings` are the texts of all its names and of the patterns' names.) The time is near linear in the
/// computations in force. An `Err` may be want of memory too.
pub fn check_forced(
    alloc: Global,
    forced: &Forced,
    patterns: &Patterns,
    strings: &Strings,
) -> Result<(), SpecFault>
    requires forced { (env : Environment) × AreForcedOf env forced.now }
    requires text { IsFromText forced.now.tables.spec }
    requires faults { (texts : Environment) → texts.texts ≡ strings.now → HasNone (table_faults forced.now.tables.spec texts) }
    requires named { AreNamedIn strings.now patterns.now.list }
    ensures ok { IfOk result (λ done. (env : Environment) (T : Numbered forced.now.tables.spec) → AreNumbersOf env forced.now T
        → HasNone (type_faults forced.now.tables.spec T (record { texts = strings.now; patterns = patterns.now.list }))) }
    ensures err { IfErr result (λ e. (e ≡ fault.Memory) ⊎ ((env : Environment) (T : Numbered forced.now.tables.spec) → AreNumbersOf env forced.now T
        → First (type_faults forced.now.tables.spec T (record { texts = strings.now; patterns = patterns.now.list })) e)) }
{
    let Ok(checker) = Checker::of(alloc, &forced.tables, patterns, strings) else {
        return Err(SpecFault::Memory);
    };
    check_rules(alloc, &checker, forced.comps.as_slice())
}
