//! Names that mean nothing where they stand.
ghost use Rattle.std.specs.Prelude.{◌≡◌, map, IfOk, IsTrue, not};
ghost use Rattle.lido_base.specs.Environment.{Environment};
ghost use Rattle.lido_syntax.specs.declared.spec.RuleItem.{RuleItem as Rule};
ghost use Rattle.lido_syntax.specs.declared.spec.SymbolItem.{SymbolItem as Item};
ghost use Rattle.lido_syntax.specs.Production.{name_of};
ghost use Rattle.lido_symbols.specs.Occurrences.{IsProductionOf};
ghost use Rattle.kind_clashes.specs.Least.{IsFirst, Among};
ghost use Rattle.kind_clashes.specs.Sets.{AreNameSets};
ghost use Rattle.table_faults.specs.Faults.{IsUnknown};
ghost use Rattle.table_faults.specs.Unknown.{is_known_in, IsUnknownName, IsStrange, IsForeignPlace, IsForeignTarget};
ghost use Rattle.table_faults.specs.Unknown.{IsNamedPlace, IsNamedTarget, IsForeignBare};
ghost use Rattle.table_faults.specs.Unknown.{IsForeignLeaf, IsForeignComp, IsNamedLeaf, IsNamedComp};

use kind_clashes::{NameSets, earlier};
use lido_base::{Memory, StrId, Strings};
use lido_symbols::{Production, is_coordinate_in_symbol, leaves, symbol_names};
use lido_syntax::{Comp, Expr, Name, Place, RuleItem, Spec, SymbolItem, Target};
use std::alloc::Global;

fn is_known(sets: &NameSets, id: StrId) -> bool
    ensures { result ≡ is_known_in sets.now id.0 }
{
    (sets.classes.has(id) || sets.declared.has(id))
        || (sets.nonterminals.has(id) || sets.right_sides.has(id))
}

fn if_unknown(sets: &NameSets, name: Name) -> Option<u32>
    ensures { IsFirst (IsUnknownName sets.now name) result }
{
    if is_known(sets, name.id) {
        None
    } else {
        Some(name.at)
    }
}

fn least_unknown_name(sets: &NameSets, names: &[Name]) -> Option<u32>
    ensures { IsFirst (Among (IsUnknownName sets.now) names.now) result }
{
    let mut least = None;
    for name in names {
        least = earlier(least, if_unknown(sets, *name));
    }
    least
}

fn if_strange(production: &Production, rule: &RuleItem, name: Name) -> Option<u32>
    requires { IsProductionOf rule.now production.now }
    ensures { IsFirst (IsStrange rule.now name) result }
{
    if production.has(name.id) {
        None
    } else {
        Some(name.at)
    }
}

fn foreign_place(production: &Production, rule: &RuleItem, first: u32, place: Place) -> Option<u32>
    requires { IsProductionOf rule.now production.now }
    ensures { IsFirst (IsForeignPlace rule.now first place) result }
{
    match place {
        Place::Named(name, _) => if_strange(production, rule, name),
        Place::Tail => None,
        Place::Synt | Place::Inh | Place::This => Some(first),
    }
}

fn foreign_target(
    production: &Production,
    rule: &RuleItem,
    first: u32,
    target: &Target,
) -> Option<u32>
    requires { IsProductionOf rule.now production.now }
    ensures { IsFirst (IsForeignTarget rule.now first target.now) result }
{
    match target {
        Target::Attr(place, _) => foreign_place(production, rule, first, *place),
        _ => None,
    }
}

fn foreign_bare(
    production: &Production,
    strings: &Strings,
    rule: &RuleItem,
    name: Name,
    index: Option<i64>,
) -> Option<u32>
    requires { IsProductionOf rule.now production.now }
    ensures { IsFirst (IsForeignBare strings.now rule.now name index) result }
{
    if production.is_coordinate(strings, name, index) {
        return None;
    }
    if_strange(production, rule, name)
}

fn foreign_leaf(
    production: &Production,
    strings: &Strings,
    rule: &RuleItem,
    leaf: &Expr,
) -> Option<u32>
    requires { IsProductionOf rule.now production.now }
    ensures { IsFirst (IsForeignLeaf strings.now rule.now leaf.now) result }
{
    match leaf {
        Expr::Terminal(name, index) => foreign_bare(production, strings, rule, *name, *index),
        Expr::Read(first, place, _) => foreign_place(production, rule, *first, *place),
        _ => None,
    }
}

fn least_foreign_leaf(
    production: &Production,
    strings: &Strings,
    rule: &RuleItem,
    leaves: &[&Expr],
) -> Option<u32>
    requires { IsProductionOf rule.now production.now }
    ensures { IsFirst (Among (IsForeignLeaf strings.now rule.now) (map (λ e. e.now) leaves.now)) result }
{
    let mut least = None;
    for leaf in leaves {
        least = earlier(least, foreign_leaf(production, strings, rule, *leaf));
    }
    least
}

fn foreign_comp(
    alloc: Global,
    production: &Production,
    strings: &Strings,
    rule: &RuleItem,
    comp: &Comp,
) -> Result<Option<u32>, Memory>
    requires { IsProductionOf rule.now production.now }
    ensures { IfOk result (IsFirst (IsForeignComp strings.now rule.now comp.now)) }
{
    let all = leaves(alloc, comp)?;
    Ok(earlier(
        foreign_target(production, rule, comp.at, &comp.target),
        least_foreign_leaf(production, strings, rule, all.as_slice()),
    ))
}

fn foreign_in_body(
    alloc: Global,
    production: &Production,
    strings: &Strings,
    rule: &RuleItem,
    body: &[Comp],
) -> Result<Option<u32>, Memory>
    requires { IsProductionOf rule.now production.now }
    ensures { IfOk result (IsFirst (Among (IsForeignComp strings.now rule.now) body.now)) }
{
    let mut least = None;
    for comp in body {
        least = earlier(least, foreign_comp(alloc, production, strings, rule, comp)?);
    }
    Ok(least)
}

fn foreign_in_rule(alloc: Global, strings: &Strings, rule: &RuleItem) -> Result<Option<u32>, Memory>
    ensures { IfOk result (IsFirst (Among (IsForeignComp strings.now rule.now) rule.now.body)) }
{
    let production = Production::of(alloc, rule)?;
    foreign_in_body(alloc, &production, strings, rule, rule.body.as_slice())
}

fn foreign_in_rules(
    alloc: Global,
    strings: &Strings,
    rules: &[RuleItem],
) -> Result<Option<u32>, Memory>
    ensures { IfOk result (IsFirst (Among (λ (r : Rule). Among (IsForeignComp strings.now r) r.body) rules.now)) }
{
    let mut least = None;
    for rule in rules {
        least = earlier(least, foreign_in_rule(alloc, strings, rule)?);
    }
    Ok(least)
}

fn named_place(place: Place) -> Option<u32>
    ensures { IsFirst (IsNamedPlace place) result }
{
    match place {
        Place::Named(name, _) => Some(name.at),
        _ => None,
    }
}

fn named_target(target: &Target) -> Option<u32>
    ensures { IsFirst (IsNamedTarget target.now) result }
{
    match target {
        Target::Attr(place, _) => named_place(*place),
        _ => None,
    }
}

fn named_leaf(strings: &Strings, leaf: &Expr) -> Option<u32>
    ensures { IsFirst (IsNamedLeaf strings.now leaf.now) result }
{
    match leaf {
        Expr::Terminal(name, index) => {
            if is_coordinate_in_symbol(strings, *name, *index) {
                None
            } else {
                Some(name.at)
            }
        }
        Expr::Read(_, place, _) => named_place(*place),
        _ => None,
    }
}

fn least_named_leaf(strings: &Strings, leaves: &[&Expr]) -> Option<u32>
    ensures { IsFirst (Among (IsNamedLeaf strings.now) (map (λ e. e.now) leaves.now)) result }
{
    let mut least = None;
    for leaf in leaves {
        least = earlier(least, named_leaf(strings, *leaf));
    }
    least
}

fn named_comp(alloc: Global, strings: &Strings, comp: &Comp) -> Result<Option<u32>, Memory>
    ensures { IfOk result (IsFirst (IsNamedComp strings.now comp.now)) }
{
    let all = leaves(alloc, comp)?;
    Ok(earlier(
        named_target(&comp.target),
        least_named_leaf(strings, all.as_slice()),
    ))
}

fn named_in_body(alloc: Global, strings: &Strings, body: &[Comp]) -> Result<Option<u32>, Memory>
    ensures { IfOk result (IsFirst (Among (IsNamedComp strings.now) body.now)) }
{
    let mut least = None;
    for comp in body {
        least = earlier(least, named_comp(alloc, strings, comp)?);
    }
    Ok(least)
}

fn named_in_symbols(
    alloc: Global,
    strings: &Strings,
    items: &[SymbolItem],
) -> Result<Option<u32>, Memory>
    ensures { IfOk result (IsFirst (Among (λ (item : Item). Among (IsNamedComp strings.now) item.body) items.now)) }
{
    let mut least = None;
    for item in items {
        least = earlier(least, named_in_body(alloc, strings, item.body.as_slice())?);
    }
    Ok(least)
}

/// The least place of a name at a symbol's place that means none there.
pub fn least_unknown(
    alloc: Global,
    spec: &Spec,
    sets: &NameSets,
    strings: &Strings,
) -> Result<Option<u32>, Memory>
    requires { AreNameSets spec.now sets.now }
    ensures { IfOk result (λ found. (env : Environment) → env.texts ≡ strings.now → IsFirst (IsUnknown spec.now env) found) }
{
    let names = symbol_names(alloc, spec, strings)?;
    let of_names = least_unknown_name(sets, names.as_slice());
    let of_rules = foreign_in_rules(alloc, strings, spec.rules.as_slice())?;
    let of_symbols = named_in_symbols(alloc, strings, spec.symbols.as_slice())?;
    let of_comps = earlier(of_rules, of_symbols);
    Ok(earlier(of_names, of_comps))
}
