//! Types of all computations in force.
ghost use Rattle.std.specs.Prelude.{◌≡◌, ◌⊎◌, ℕ, List as Sequence, Some, length, slice_get, IfOk, IfErr};
ghost use Rattle.lido_syntax.specs.declared.fault.SpecFault.TheVariants as fault;
ghost use Rattle.lido_syntax.specs.declared.spec.RuleItem.{RuleItem as Rule};
ghost use Rattle.rule_tables.specs.declared.forced.Force.{Force as Entry};
ghost use Rattle.rule_tables.specs.Forced.{Force as Forced};
ghost use Rattle.type_checks.specs.Checker.{IsChecker, texts_of};
ghost use Rattle.type_checks.specs.Entries.{IsEntryAt};
ghost use Rattle.type_checks.specs.Whole.{AreTypedIn, AreTypedBefore, IsFirstIn, IsFirstOf};

use crate::checker::Checker;
use lido_base::List;
use lido_syntax::SpecFault;
use rule_tables::Force;
use std::alloc::Global;

/// Whether the entries of plain rule `j` have their types, or the first fault of the first that hasn't. An `Err` may be want of
/// memory too.
fn check_entries(
    alloc: Global,
    checker: &Checker,
    j: usize,
    entries: &[Force],
) -> Result<(), SpecFault>
    requires checker { IsChecker checker.now }
    requires there { (k : ℕ) (e : Entry) → slice_get entries.now k ≡ Some e
        → (f : Forced) × (r : Rule) × (s : ℕ) × IsEntryAt checker.now.tables.now j e f r s }
    ensures ok { IfOk result (λ done. AreTypedIn checker.now.tables.now (texts_of checker.now) j entries.now (length entries.now)) }
    ensures err { IfErr result (λ e. (e ≡ fault.Memory) ⊎ IsFirstIn checker.now.tables.now (texts_of checker.now) j entries.now e) }
{
    for entry in entries {
        checker.check_entry(alloc, j, entry)?;
    }
    Ok(())
}

/// Whether the entries of all plain rules have their types, or the first fault of the first that hasn't. An `Err` may be want of
/// memory too.
pub(crate) fn check_rules(
    alloc: Global,
    checker: &Checker,
    all: &[List<Force>],
) -> Result<(), SpecFault>
    requires checker { IsChecker checker.now }
    requires there { (j k : ℕ) (entries : Sequence Entry) (e : Entry) → slice_get all.now j ≡ Some entries → slice_get entries k ≡ Some e
        → (f : Forced) × (r : Rule) × (s : ℕ) × IsEntryAt checker.now.tables.now j e f r s }
    ensures ok { IfOk result (λ done. AreTypedBefore checker.now.tables.now (texts_of checker.now) all.now (length all.now)) }
    ensures err { IfErr result (λ e. (e ≡ fault.Memory) ⊎ IsFirstOf checker.now.tables.now (texts_of checker.now) all.now e) }
{
    for (j, entries) in all.iter().enumerate() {
        check_entries(alloc, checker, j, entries.as_slice())?;
    }
    Ok(())
}
