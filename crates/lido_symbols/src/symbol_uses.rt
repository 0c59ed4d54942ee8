//! The names that stand in a specification as symbols.
ghost use Rattle.std.specs.Prelude.{◌≡◌, ◌++◌, ◌∷◌, [], map, flat_map, filter_map, IfOk, OnOk, option_to_list};
ghost use Rattle.lido_base.specs.Environment.{Environment};
ghost use Rattle.lido_syntax.specs.declared.spec.Spec.{Spec as Specification};
ghost use Rattle.lido_syntax.specs.declared.spec.Name.{Name as Named};
ghost use Rattle.lido_syntax.specs.declared.spec.Comp.{Comp as Computation};
ghost use Rattle.lido_syntax.specs.declared.spec.Pair.{Pair as OnePair};
ghost use Rattle.lido_syntax.specs.declared.spec.Typed1.{Typed1 as Typed};
ghost use Rattle.lido_syntax.specs.declared.spec.RuleItem.{RuleItem as Rule};
ghost use Rattle.lido_symbols.specs.Occurrences.{symbols_of_place, IsProductionOf};
ghost use Rattle.lido_symbols.specs.Uses.{element_name, is_coordinate_of_rule, is_coordinate_of_symbol, production_names, symbols_in, symbols_of_computation, symbols_of_item, symbols_of_rule, symbols_of_target, symbol_uses, with_place};

use crate::{Production, is_coordinate_in_symbol, leaves};
use lido_base::{Memory, Strings};
use lido_syntax::{
    Comp, Element, Expr, Name, Pair, Place, RuleItem, Spec, SymbolItem, Target, Typed1,
};
use std::alloc::Global;

/// Adds the symbols of the pairs.
fn push_pairs(names: &mut Vec<Name>, pairs: &[Pair]) -> Result<(), Memory>
    ensures { OnOk result (names.new.items ≡ names.old.items ++ map (λ (p : OnePair). p.sym) pairs.now) }
{
    for pair in pairs {
        names.push(pair.sym)?;
    }
    Ok(())
}

/// Adds the name before the dot, if the place has one.
fn push_place(names: &mut Vec<Name>, place: &Place) -> Result<(), Memory>
    ensures { OnOk result (names.new.items ≡ names.old.items ++ symbols_of_place place.now) }
{
    match place {
        Place::Named(name, _) => names.push(*name)?,
        Place::Synt | Place::Inh | Place::This | Place::Tail => {}
    }
    Ok(())
}

/// Adds the names that stand as symbols in a leaf. A bare name is among them unless it is a coordinate.
fn push_leaf(names: &mut Vec<Name>, leaf: &Expr, is_coordinate: bool) -> Result<(), Memory>
    ensures { OnOk result (names.new.items ≡ names.old.items ++ symbols_in (λ x i. is_coordinate) leaf.now) }
{
    match leaf {
        Expr::Terminal(name, _) => {
            if !is_coordinate {
                names.push(*name)?;
            }
            Ok(())
        }
        Expr::Read(_, place, _) => push_place(names, place),
        Expr::Including(_, pairs) => push_pairs(names, pairs.as_slice()),
        Expr::Constituents(cons) => {
            let cons = cons.get();
            push_pairs(names, cons.pairs.as_slice())?;
            names.extend_from_slice(cons.shield.as_slice())?;
            Ok(())
        }
        Expr::Int(..) | Expr::Str(..) | Expr::Bool(..) | Expr::Call(..) => Ok(()),
    }
}

/// Whether the leaf of a rule's computation is a coordinate.
fn is_rule_coordinate(production: &Production, strings: &Strings, leaf: &Expr) -> bool
    ensures { (r : Rule) (env : Environment) → IsProductionOf r production.now → env.texts ≡ strings.now
        → symbols_in (is_coordinate_of_rule env r) leaf.now ≡ symbols_in (λ x i. result) leaf.now }
{
    match leaf {
        Expr::Terminal(name, index) => production.is_coordinate(strings, *name, *index),
        Expr::Int(..)
        | Expr::Str(..)
        | Expr::Bool(..)
        | Expr::Read(..)
        | Expr::Including(..)
        | Expr::Constituents(_)
        | Expr::Call(..) => false,
    }
}

/// Whether the leaf of a symbol's computation is a coordinate.
fn is_symbol_coordinate(strings: &Strings, leaf: &Expr) -> bool
    ensures { (env : Environment) → env.texts ≡ strings.now
        → symbols_in (is_coordinate_of_symbol env) leaf.now ≡ symbols_in (λ x i. result) leaf.now }
{
    match leaf {
        Expr::Terminal(name, index) => is_coordinate_in_symbol(strings, *name, *index),
        Expr::Int(..)
        | Expr::Str(..)
        | Expr::Bool(..)
        | Expr::Read(..)
        | Expr::Including(..)
        | Expr::Constituents(_)
        | Expr::Call(..) => false,
    }
}

/// Adds the name before the dot of a target, if it has one.
fn push_target(names: &mut Vec<Name>, target: &Target) -> Result<(), Memory>
    ensures { OnOk result (names.new.items ≡ names.old.items ++ symbols_of_target target.now) }
{
    match target {
        Target::Attr(place, _) => push_place(names, place),
        Target::Start(_) | Target::Out | Target::Message(..) => Ok(()),
    }
}

/// Adds the names that stand as symbols in a computation of the production's rule.
fn push_rule_comp(
    alloc: Global,
    names: &mut Vec<Name>,
    production: &Production,
    strings: &Strings,
    comp: &Comp,
) -> Result<(), Memory>
    ensures { OnOk result ((r : Rule) (env : Environment) → IsProductionOf r production.now → env.texts ≡ strings.now
        → names.new.items ≡ names.old.items ++ symbols_of_computation (is_coordinate_of_rule env r) comp.now) }
{
    push_target(names, &comp.target)?;
    let found = leaves(alloc, comp)?;
    for leaf in &found {
        push_leaf(names, leaf, is_rule_coordinate(production, strings, leaf))?;
    }
    Ok(())
}

/// Adds the names that stand as symbols in a computation of a symbol.
fn push_symbol_comp(
    alloc: Global,
    names: &mut Vec<Name>,
    strings: &Strings,
    comp: &Comp,
) -> Result<(), Memory>
    ensures { OnOk result ((env : Environment) → env.texts ≡ strings.now
        → names.new.items ≡ names.old.items ++ symbols_of_computation (is_coordinate_of_symbol env) comp.now) }
{
    push_target(names, &comp.target)?;
    let found = leaves(alloc, comp)?;
    for leaf in &found {
        push_leaf(names, leaf, is_symbol_coordinate(strings, leaf))?;
    }
    Ok(())
}

/// Adds the symbol that the element names, unless it is a literal.
fn push_element(names: &mut Vec<Name>, element: &Element) -> Result<(), Memory>
    ensures { OnOk result (names.new.items ≡ names.old.items ++ option_to_list (element_name element.now)) }
{
    if let Element::Symbol(name) = element {
        names.push(*name)?;
    }
    Ok(())
}

/// Adds the names of a production, the left side first.
fn push_production(names: &mut Vec<Name>, rule: &RuleItem) -> Result<(), Memory>
    ensures { OnOk result (names.new.items ≡ names.old.items ++ production_names rule.now) }
{
    names.push(rule.left)?;
    for element in rule.right.as_slice() {
        push_element(names, element)?;
    }
    Ok(())
}

/// Adds the names that stand as symbols in a rule.
fn push_rule(
    alloc: Global,
    names: &mut Vec<Name>,
    strings: &Strings,
    rule: &RuleItem,
) -> Result<(), Memory>
    ensures { OnOk result ((env : Environment) (spec : Specification) → env.texts ≡ strings.now
        → names.new.items ≡ names.old.items ++ symbols_of_rule spec env rule.now) }
{
    let production = Production::of(alloc, rule)?;
    push_production(names, rule)?;
    for comp in rule.body.as_slice() {
        push_rule_comp(alloc, names, &production, strings, comp)?;
    }
    Ok(())
}

/// Adds the names that stand as symbols in a SYMBOL item.
fn push_item(
    alloc: Global,
    names: &mut Vec<Name>,
    strings: &Strings,
    item: &SymbolItem,
) -> Result<(), Memory>
    ensures { OnOk result ((env : Environment) (spec : Specification) → env.texts ≡ strings.now
        → names.new.items ≡ names.old.items ++ symbols_of_item spec env item.now) }
{
    names.extend_from_slice(item.names.as_slice())?;
    names.extend_from_slice(item.inherits.as_slice())?;
    for comp in item.body.as_slice() {
        push_symbol_comp(alloc, names, strings, comp)?;
    }
    Ok(())
}

/// Adds the names that stand as symbols in the rules.
fn push_rules(
    alloc: Global,
    names: &mut Vec<Name>,
    strings: &Strings,
    rules: &[RuleItem],
) -> Result<(), Memory>
    ensures { OnOk result ((env : Environment) (spec : Specification) → env.texts ≡ strings.now
        → names.new.items ≡ names.old.items ++ flat_map (symbols_of_rule spec env) rules.now) }
{
    for rule in rules {
        push_rule(alloc, names, strings, rule)?;
    }
    Ok(())
}

/// Adds the names that stand as symbols in the SYMBOL items.
fn push_items(
    alloc: Global,
    names: &mut Vec<Name>,
    strings: &Strings,
    items: &[SymbolItem],
) -> Result<(), Memory>
    ensures { OnOk result ((env : Environment) (spec : Specification) → env.texts ≡ strings.now
        → names.new.items ≡ names.old.items ++ flat_map (symbols_of_item spec env) items.now) }
{
    for item in items {
        push_item(alloc, names, strings, item)?;
    }
    Ok(())
}

/// Adds the names that TERM declares.
fn push_terms(names: &mut Vec<Name>, terms: &[Typed1]) -> Result<(), Memory>
    ensures { OnOk result (names.new.items ≡ names.old.items ++ map (λ (x : Typed). x.name) terms.now) }
{
    for term in terms {
        names.push(term.name)?;
    }
    Ok(())
}

/// The names that stand as symbols in a specification: those of the rules, of the SYMBOL items, and of TERM, each list in
/// the order of the text.
pub fn symbol_names(alloc: Global, spec: &Spec, strings: &Strings) -> Result<Vec<Name>, Memory>
    ensures { IfOk result (λ names. (env : Environment) → env.texts ≡ strings.now
        → map with_place names.items ≡ symbol_uses spec.now env) }
{
    let mut names = Vec::new(alloc);
    push_rules(alloc, &mut names, strings, spec.rules.as_slice())?;
    push_items(alloc, &mut names, strings, spec.symbols.as_slice())?;
    push_terms(&mut names, spec.terms.as_slice())?;
    Ok(names)
}
