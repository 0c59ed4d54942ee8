//! Places and bare names of rules' computations that mean no occurrence.
ghost use Rattle.std.specs.Prelude.{◌≡◌, map, IfOk};
ghost use Rattle.lido_base.specs.Environment.{Environment};
ghost use Rattle.lido_syntax.specs.declared.spec.RuleItem.{RuleItem as Rule};
ghost use Rattle.lido_symbols.specs.Occurrences.{IsProductionOf};
ghost use Rattle.kind_clashes.specs.Least.{IsFirst, Among};
ghost use Rattle.table_faults.specs.Faults.{IsBadIndex};
ghost use Rattle.table_faults.specs.Indices.{IsBadPlace, IsBadBare, IsBadLeaf, IsBadTarget, IsBadComp};

use kind_clashes::earlier;
use lido_base::{Memory, Strings};
use lido_symbols::{Production, leaves};
use lido_syntax::{Comp, Expr, Name, Place, RuleItem, Spec, Target};
use std::alloc::Global;

fn bad_place(production: &Production, rule: &RuleItem, place: Place) -> Option<u32>
    requires { IsProductionOf rule.now production.now }
    ensures { IsFirst (IsBadPlace rule.now place) result }
{
    match place {
        Place::Named(name, index) => match production.occurrence(name, index) {
            Some(_) => None,
            None => Some(name.at),
        },
        _ => None,
    }
}

fn bad_bare(
    production: &Production,
    strings: &Strings,
    rule: &RuleItem,
    name: Name,
    index: Option<i64>,
) -> Option<u32>
    requires { IsProductionOf rule.now production.now }
    ensures { IsFirst (IsBadBare strings.now rule.now name index) result }
{
    if production.is_coordinate(strings, name, index) {
        return None;
    }
    match production.occurrence(name, index) {
        Some(_) => None,
        None => Some(name.at),
    }
}

fn bad_leaf(production: &Production, strings: &Strings, rule: &RuleItem, leaf: &Expr) -> Option<u32>
    requires { IsProductionOf rule.now production.now }
    ensures { IsFirst (IsBadLeaf strings.now rule.now leaf.now) result }
{
    match leaf {
        Expr::Terminal(name, index) => bad_bare(production, strings, rule, *name, *index),
        Expr::Read(_, place, _) => bad_place(production, rule, *place),
        _ => None,
    }
}

fn least_bad_leaf(
    production: &Production,
    strings: &Strings,
    rule: &RuleItem,
    leaves: &[&Expr],
) -> Option<u32>
    requires { IsProductionOf rule.now production.now }
    ensures { IsFirst (Among (IsBadLeaf strings.now rule.now) (map (λ e. e.now) leaves.now)) result }
{
    let mut least = None;
    for leaf in leaves {
        least = earlier(least, bad_leaf(production, strings, rule, *leaf));
    }
    least
}

fn bad_target(production: &Production, rule: &RuleItem, target: &Target) -> Option<u32>
    requires { IsProductionOf rule.now production.now }
    ensures { IsFirst (IsBadTarget rule.now target.now) result }
{
    match target {
        Target::Attr(place, _) => bad_place(production, rule, *place),
        _ => None,
    }
}

fn bad_comp(
    alloc: Global,
    production: &Production,
    strings: &Strings,
    rule: &RuleItem,
    comp: &Comp,
) -> Result<Option<u32>, Memory>
    requires { IsProductionOf rule.now production.now }
    ensures { IfOk result (IsFirst (IsBadComp strings.now rule.now comp.now)) }
{
    let all = leaves(alloc, comp)?;
    Ok(earlier(
        bad_target(production, rule, &comp.target),
        least_bad_leaf(production, strings, rule, all.as_slice()),
    ))
}

fn bad_in_body(
    alloc: Global,
    production: &Production,
    strings: &Strings,
    rule: &RuleItem,
    body: &[Comp],
) -> Result<Option<u32>, Memory>
    requires { IsProductionOf rule.now production.now }
    ensures { IfOk result (IsFirst (Among (IsBadComp strings.now rule.now) body.now)) }
{
    let mut least = None;
    for comp in body {
        least = earlier(least, bad_comp(alloc, production, strings, rule, comp)?);
    }
    Ok(least)
}

fn bad_in_rule(alloc: Global, strings: &Strings, rule: &RuleItem) -> Result<Option<u32>, Memory>
    ensures { IfOk result (IsFirst (Among (IsBadComp strings.now rule.now) rule.now.body)) }
{
    let production = Production::of(alloc, rule)?;
    let least = bad_in_body(alloc, &production, strings, rule, rule.body.as_slice())?;
    Ok(least)
}

fn bad_in_rules(alloc: Global, strings: &Strings, rules: &[RuleItem]) -> Result<Option<u32>, Memory>
    ensures { IfOk result (IsFirst (Among (λ (r : Rule). Among (IsBadComp strings.now r) r.body) rules.now)) }
{
    let mut least = None;
    for rule in rules {
        least = earlier(least, bad_in_rule(alloc, strings, rule)?);
    }
    Ok(least)
}

/// The least place of a place or a bare name of a rule's computation that means no occurrence.
pub fn least_bad_index(alloc: Global, spec: &Spec, strings: &Strings) -> Result<Option<u32>, Memory>
    ensures { IfOk result (λ found. (env : Environment) → env.texts ≡ strings.now → IsFirst (IsBadIndex spec.now env) found) }
{
    let least = bad_in_rules(alloc, strings, spec.rules.as_slice())?;
    Ok(least)
}
