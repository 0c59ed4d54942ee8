//! Clashes in rules' computations that the production tells.
ghost use Rattle.std.specs.Prelude.{◌≡◌, ◌↔◌, IsTrue, IfOk, map};
ghost use Rattle.lido_base.specs.declared.kinds.Kind.TheVariants.{Inherited};
ghost use Rattle.lido_syntax.specs.Attributes.{possible, IsOnSide};
ghost use Rattle.lido_symbols.specs.Occurrences.{IsProductionOf};
ghost use Rattle.kind_clashes.specs.Least.{IsFirst, Among};
ghost use Rattle.kind_clashes.specs.Sides.{IsSideClash, IsTargetSideClash, IsBareClash, IsLeafSideClash, IsRuleCompClash};

use crate::comps::comp_clash;
use crate::least::earlier;
use crate::sets::NameSets;
use lido_base::{Memory, Strings};
use lido_symbols::{Production, leaves};
use lido_syntax::{Comp, Expr, Name, Place, RuleItem, Target};
use std::alloc::Global;

/// Whether all occurrences that the name can mean are on the right side.
fn is_on_right(production: &Production, rule: &RuleItem, name: Name, index: Option<i64>) -> bool
    requires { IsProductionOf rule.now production.now }
    ensures { IsTrue result ↔ IsOnSide Inherited (possible rule.now name index) }
{
    match production.occurrence(name, index) {
        Some(k) => k > 0,
        None => rule.left.id.0 != name.id.0 && production.has(name.id),
    }
}

fn side_clash(
    sets: &NameSets,
    production: &Production,
    rule: &RuleItem,
    place: Place,
    attr: Name,
) -> Option<u32>
    requires { IsProductionOf rule.now production.now }
    ensures { IsFirst (IsSideClash sets.now rule.now place attr) result }
{
    match place {
        Place::Named(name, index) => {
            if sets.chains.has(attr.id) && is_on_right(production, rule, name, index) {
                Some(attr.at)
            } else {
                None
            }
        }
        _ => None,
    }
}

fn target_side_clash(
    sets: &NameSets,
    production: &Production,
    rule: &RuleItem,
    target: &Target,
) -> Option<u32>
    requires { IsProductionOf rule.now production.now }
    ensures { IsFirst (IsTargetSideClash sets.now rule.now target.now) result }
{
    match target {
        Target::Attr(place, attr) => side_clash(sets, production, rule, *place, *attr),
        _ => None,
    }
}

fn bare_clash(
    sets: &NameSets,
    production: &Production,
    strings: &Strings,
    rule: &RuleItem,
    name: Name,
    index: Option<i64>,
) -> Option<u32>
    requires { IsProductionOf rule.now production.now }
    ensures { IsFirst (IsBareClash sets.now rule.now strings.now name index) result }
{
    if production.is_coordinate(strings, name, index) {
        return None;
    }
    if sets.nonterminals.has(name.id) {
        Some(name.at)
    } else {
        None
    }
}

fn leaf_side_clash(
    sets: &NameSets,
    production: &Production,
    strings: &Strings,
    rule: &RuleItem,
    leaf: &Expr,
) -> Option<u32>
    requires { IsProductionOf rule.now production.now }
    ensures { IsFirst (IsLeafSideClash sets.now rule.now strings.now leaf.now) result }
{
    match leaf {
        Expr::Terminal(name, index) => bare_clash(sets, production, strings, rule, *name, *index),
        Expr::Read(_, place, attr) => side_clash(sets, production, rule, *place, *attr),
        _ => None,
    }
}

fn least_leaf_side_clash(
    sets: &NameSets,
    production: &Production,
    strings: &Strings,
    rule: &RuleItem,
    leaves: &[&Expr],
) -> Option<u32>
    requires { IsProductionOf rule.now production.now }
    ensures { IsFirst (Among (IsLeafSideClash sets.now rule.now strings.now) (map (λ e. e.now) leaves.now)) result }
{
    let mut least = None;
    for leaf in leaves {
        least = earlier(
            least,
            leaf_side_clash(sets, production, strings, rule, *leaf),
        );
    }
    least
}

/// The least place of a clash in a computation of a rule.
pub fn rule_comp_clash(
    alloc: Global,
    sets: &NameSets,
    production: &Production,
    strings: &Strings,
    rule: &RuleItem,
    comp: &Comp,
) -> Result<Option<u32>, Memory>
    requires { IsProductionOf rule.now production.now }
    ensures { IfOk result (IsFirst (IsRuleCompClash sets.now rule.now strings.now comp.now)) }
{
    let all = leaves(alloc, comp)?;
    let of_target = target_side_clash(sets, production, rule, &comp.target);
    let of_leaves = least_leaf_side_clash(sets, production, strings, rule, all.as_slice());
    let of_production = earlier(of_target, of_leaves);
    Ok(earlier(comp_clash(sets, comp, all.as_slice()), of_production))
}
