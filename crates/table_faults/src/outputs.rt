//! Outputs that may not stand where they do.
ghost use Rattle.std.specs.Prelude.{◌≡◌, ◌⊎◌, ◌<◌, IsTrue, not, ◌||◌};
ghost use Rattle.lido_base.specs.Environment.{Environment};
ghost use Rattle.lido_syntax.specs.declared.spec.RuleItem.{RuleItem as Rule};
ghost use Rattle.lido_syntax.specs.declared.spec.SymbolItem.{SymbolItem as Item};
ghost use Rattle.lido_syntax.specs.Production.{left_of};
ghost use Rattle.kind_clashes.specs.Least.{IsFirst, Among};
ghost use Rattle.kind_clashes.specs.Names.{has};
ghost use Rattle.kind_clashes.specs.Sets.{AreNameSets};
ghost use Rattle.table_faults.specs.Parts.{IsOutAt, IsOutBehind, IsSecondOut};
ghost use Rattle.table_faults.specs.Faults.{IsBadOut};

use kind_clashes::{NameSets, earlier};
use lido_syntax::{Comp, RuleItem, Spec, SymbolItem, Target};

fn if_out(comp: &Comp) -> Option<u32>
    ensures { IsFirst (IsOutAt comp.now) result }
{
    match comp.target {
        Target::Out => Some(comp.at),
        _ => None,
    }
}

fn least_out(body: &[Comp]) -> Option<u32>
    ensures { IsFirst (Among IsOutAt body.now) result }
{
    let mut least = None;
    for comp in body {
        least = earlier(least, if_out(comp));
    }
    least
}

fn if_out_behind(first: u32, comp: &Comp) -> Option<u32>
    ensures { IsFirst (IsOutBehind first comp.now) result }
{
    match comp.target {
        Target::Out if first < comp.at => Some(comp.at),
        _ => None,
    }
}

fn least_out_behind(first: u32, body: &[Comp]) -> Option<u32>
    ensures { IsFirst (Among (IsOutBehind first) body.now) result }
{
    let mut least = None;
    for comp in body {
        least = earlier(least, if_out_behind(first, comp));
    }
    least
}

fn second_out(body: &[Comp]) -> Option<u32>
    ensures { IsFirst (IsSecondOut body.now) result }
{
    match least_out(body) {
        Some(first) => least_out_behind(first, body),
        None => None,
    }
}

fn out_in_item(item: &SymbolItem) -> Option<u32>
    ensures { IsFirst (Among IsOutAt item.now.body) result }
{
    least_out(item.body.as_slice())
}

fn out_in_symbols(items: &[SymbolItem]) -> Option<u32>
    ensures { IsFirst (Among (λ (item : Item). Among IsOutAt item.body) items.now) result }
{
    let mut least = None;
    for item in items {
        least = earlier(least, out_in_item(item));
    }
    least
}

fn out_below_root(sets: &NameSets, rule: &RuleItem) -> Option<u32>
    ensures { IsFirst (λ at. IsTrue (has sets.now.right_sides (left_of rule.now)) × Among IsOutAt rule.now.body at) result }
{
    if !sets.right_sides.has(rule.left.id) {
        return None;
    }
    least_out(rule.body.as_slice())
}

fn bad_out_in_rule(sets: &NameSets, rule: &RuleItem) -> Option<u32>
    ensures { IsFirst (λ at. (IsTrue (has sets.now.right_sides (left_of rule.now)) × Among IsOutAt rule.now.body at)
        ⊎ IsSecondOut rule.now.body at) result }
{
    earlier(out_below_root(sets, rule), second_out(rule.body.as_slice()))
}

fn bad_out_in_rules(sets: &NameSets, rules: &[RuleItem]) -> Option<u32>
    ensures { IsFirst (Among (λ (r : Rule) at. (IsTrue (has sets.now.right_sides (left_of r)) × Among IsOutAt r.body at)
        ⊎ IsSecondOut r.body at) rules.now) result }
{
    let mut least = None;
    for rule in rules {
        least = earlier(least, bad_out_in_rule(sets, rule));
    }
    least
}

/// The least place of an output in a symbol's body, in a rule whose left side isn't the root, or behind another one of its rule.
pub fn least_bad_out(spec: &Spec, sets: &NameSets) -> Option<u32>
    requires { AreNameSets spec.now sets.now }
    ensures { (env : Environment) → IsFirst (IsBadOut spec.now env) result }
{
    earlier(
        out_in_symbols(spec.symbols.as_slice()),
        bad_out_in_rules(sets, spec.rules.as_slice()),
    )
}
