//! Clashes in the computations of all rules and symbols.
ghost use Rattle.std.specs.Prelude.{◌≡◌, IfOk};
ghost use Rattle.lido_syntax.specs.declared.spec.RuleItem.{RuleItem as Rule};
ghost use Rattle.lido_syntax.specs.declared.spec.SymbolItem.{SymbolItem as Item};
ghost use Rattle.lido_symbols.specs.Occurrences.{IsProductionOf};
ghost use Rattle.kind_clashes.specs.Comps.{IsBodyClash};
ghost use Rattle.kind_clashes.specs.Least.{IsFirst, Among};
ghost use Rattle.kind_clashes.specs.Sides.{IsRuleCompClash};

use crate::comps::body_clash;
use crate::least::earlier;
use crate::sets::NameSets;
use crate::sides::rule_comp_clash;
use lido_base::{Memory, Strings};
use lido_symbols::Production;
use lido_syntax::{Comp, RuleItem, SymbolItem};
use std::alloc::Global;

fn clash_in_comps(
    alloc: Global,
    sets: &NameSets,
    production: &Production,
    strings: &Strings,
    rule: &RuleItem,
    body: &[Comp],
) -> Result<Option<u32>, Memory>
    requires { IsProductionOf rule.now production.now }
    ensures { IfOk result (IsFirst (Among (IsRuleCompClash sets.now rule.now strings.now) body.now)) }
{
    let mut least = None;
    for comp in body {
        least = earlier(
            least,
            rule_comp_clash(alloc, sets, production, strings, rule, comp)?,
        );
    }
    Ok(least)
}

fn clash_in_rule(
    alloc: Global,
    sets: &NameSets,
    strings: &Strings,
    rule: &RuleItem,
) -> Result<Option<u32>, Memory>
    ensures { IfOk result (IsFirst (Among (IsRuleCompClash sets.now rule.now strings.now) rule.now.body)) }
{
    let production = Production::of(alloc, rule)?;
    let least = clash_in_comps(
        alloc,
        sets,
        &production,
        strings,
        rule,
        rule.body.as_slice(),
    )?;
    Ok(least)
}

/// The least place of a clash in the computations of rules.
pub fn clash_in_rules(
    alloc: Global,
    sets: &NameSets,
    strings: &Strings,
    rules: &[RuleItem],
) -> Result<Option<u32>, Memory>
    ensures { IfOk result (IsFirst (Among (λ (r : Rule). Among (IsRuleCompClash sets.now r strings.now) r.body) rules.now)) }
{
    let mut least = None;
    for rule in rules {
        least = earlier(least, clash_in_rule(alloc, sets, strings, rule)?);
    }
    Ok(least)
}

fn clash_in_body(alloc: Global, sets: &NameSets, body: &[Comp]) -> Result<Option<u32>, Memory>
    ensures { IfOk result (IsFirst (Among (IsBodyClash sets.now) body.now)) }
{
    let mut least = None;
    for comp in body {
        least = earlier(least, body_clash(alloc, sets, comp)?);
    }
    Ok(least)
}

/// The least place of a clash in the computations of symbols' bodies.
pub fn clash_in_symbols(
    alloc: Global,
    sets: &NameSets,
    items: &[SymbolItem],
) -> Result<Option<u32>, Memory>
    ensures { IfOk result (IsFirst (Among (λ (item : Item). Among (IsBodyClash sets.now) item.body) items.now)) }
{
    let mut least = None;
    for item in items {
        least = earlier(least, clash_in_body(alloc, sets, item.body.as_slice())?);
    }
    Ok(least)
}
