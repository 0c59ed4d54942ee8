//! Rules with the names of earlier rules.
ghost use Rattle.std.specs.Prelude.{◌≡◌, IsTrue, IfOk};
ghost use Rattle.lido_base.specs.Environment.{Environment};
ghost use Rattle.kind_clashes.specs.Least.{IsFirst};
ghost use Rattle.kind_clashes.specs.Names.{has};
ghost use Rattle.table_faults.specs.Parts.{IsDuplicateIn};
ghost use Rattle.table_faults.specs.Faults.{IsDuplicate};

use kind_clashes::{Names, earlier};
use lido_base::Memory;
use lido_syntax::{RuleItem, Spec};
use std::alloc::Global;

fn if_seen(seen: &Names, rule: &RuleItem) -> Option<u32>
    ensures { IsFirst (λ at. IsTrue (has seen.now rule.now.name.0) × (at ≡ rule.now.at)) result }
{
    if seen.has(rule.name) {
        Some(rule.at)
    } else {
        None
    }
}

fn least_duplicate_in(alloc: Global, rules: &[RuleItem]) -> Result<Option<u32>, Memory>
    ensures { IfOk result (IsFirst (IsDuplicateIn rules.now)) }
{
    let mut seen = Names::new(alloc);
    let mut least = None;
    for rule in rules {
        least = earlier(least, if_seen(&seen, rule));
        seen.add(rule.name)?;
    }
    Ok(least)
}

/// The least place of a later rule with an earlier rule's name.
pub fn least_duplicate(alloc: Global, spec: &Spec) -> Result<Option<u32>, Memory>
    ensures { IfOk result (λ found. (env : Environment) → IsFirst (IsDuplicate spec.now env) found) }
{
    least_duplicate_in(alloc, spec.rules.as_slice())
}
