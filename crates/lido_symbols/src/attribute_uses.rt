//! The names that stand in a specification as attributes or chains.
ghost use Rattle.std.specs.Prelude.{◌≡◌, ◌++◌, ◌∷◌, [], map, flat_map, IfOk, OnOk};
ghost use Rattle.lido_syntax.specs.declared.spec.Comp.{Comp as Computation};
ghost use Rattle.lido_syntax.specs.declared.spec.Decl.{Decl as Declared};
ghost use Rattle.lido_syntax.specs.declared.spec.Pair.{Pair as OnePair};
ghost use Rattle.lido_syntax.specs.declared.spec.RuleItem.{RuleItem as Rule};
ghost use Rattle.lido_syntax.specs.declared.spec.SymbolItem.{SymbolItem as Item};
ghost use Rattle.lido_symbols.specs.Uses.{attribute_uses, attributes_in, attributes_of_target, declared_names, with_place};
ghost use Rattle.lido_symbols.specs.Occurrences.{attributes_of};

use crate::leaves;
use lido_base::Memory;
use lido_syntax::{Comp, Decl, Expr, Name, Pair, RuleItem, Spec, SymbolItem, Target};
use std::alloc::Global;

/// Adds the attributes of the pairs.
fn push_pairs(names: &mut Vec<Name>, pairs: &[Pair]) -> Result<(), Memory>
    ensures { OnOk result (names.new.items ≡ names.old.items ++ map (λ (p : OnePair). p.attr) pairs.now) }
{
    for pair in pairs {
        names.push(pair.attr)?;
    }
    Ok(())
}

/// Adds the names that stand as attributes in a leaf.
fn push_leaf(names: &mut Vec<Name>, leaf: &Expr) -> Result<(), Memory>
    ensures { OnOk result (names.new.items ≡ names.old.items ++ attributes_in leaf.now) }
{
    match leaf {
        Expr::Read(_, _, name) => Ok(names.push(*name)?),
        Expr::Including(_, pairs) => push_pairs(names, pairs.as_slice()),
        Expr::Constituents(cons) => push_pairs(names, cons.get().pairs.as_slice()),
        Expr::Int(..) | Expr::Str(..) | Expr::Bool(..) | Expr::Terminal(..) | Expr::Call(..) => Ok(
            (),
        ),
    }
}

/// Adds the attribute that the target names.
fn push_target(names: &mut Vec<Name>, target: &Target) -> Result<(), Memory>
    ensures { OnOk result (names.new.items ≡ names.old.items ++ attributes_of_target target.now) }
{
    match target {
        Target::Attr(_, name) => Ok(names.push(*name)?),
        Target::Start(_) | Target::Out | Target::Message(..) => Ok(()),
    }
}

/// Adds the names that stand as attributes in a computation.
fn push_comp(alloc: Global, names: &mut Vec<Name>, comp: &Comp) -> Result<(), Memory>
    ensures { OnOk result (names.new.items ≡ names.old.items ++ attributes_of comp.now) }
{
    push_target(names, &comp.target)?;
    let found = leaves(alloc, comp)?;
    for leaf in &found {
        push_leaf(names, leaf)?;
    }
    Ok(())
}

/// Adds the names that stand as attributes in the computations.
fn push_comps(alloc: Global, names: &mut Vec<Name>, comps: &[Comp]) -> Result<(), Memory>
    ensures { OnOk result (names.new.items ≡ names.old.items ++ flat_map attributes_of comps.now) }
{
    for comp in comps {
        push_comp(alloc, names, comp)?;
    }
    Ok(())
}

/// Adds the attributes that are declared.
fn push_decls(names: &mut Vec<Name>, decls: &[Decl]) -> Result<(), Memory>
    ensures { OnOk result (names.new.items ≡ names.old.items ++ map (λ (d : Declared). d.attr) decls.now) }
{
    for decl in decls {
        names.push(decl.attr)?;
    }
    Ok(())
}

/// Adds the attributes that SYMBOL items declare.
fn push_item_decls(names: &mut Vec<Name>, items: &[SymbolItem]) -> Result<(), Memory>
    ensures { OnOk result (names.new.items ≡ names.old.items ++ flat_map (λ (item : Item). map (λ (d : Declared). d.attr) item.decls) items.now) }
{
    for item in items {
        push_decls(names, item.decls.as_slice())?;
    }
    Ok(())
}

/// Adds the names that stand as attributes in the computations of rules.
fn push_rules(alloc: Global, names: &mut Vec<Name>, rules: &[RuleItem]) -> Result<(), Memory>
    ensures { OnOk result (names.new.items ≡ names.old.items ++ flat_map (λ (r : Rule). flat_map attributes_of r.body) rules.now) }
{
    for rule in rules {
        push_comps(alloc, names, rule.body.as_slice())?;
    }
    Ok(())
}

/// Adds the names that stand as attributes in the computations of symbols.
fn push_items(alloc: Global, names: &mut Vec<Name>, items: &[SymbolItem]) -> Result<(), Memory>
    ensures { OnOk result (names.new.items ≡ names.old.items ++ flat_map (λ (item : Item). flat_map attributes_of item.body) items.now) }
{
    for item in items {
        push_comps(alloc, names, item.body.as_slice())?;
    }
    Ok(())
}

/// The names that stand as attributes or chains in a specification: those that are declared, and those of the computations
/// of rules and of symbols.
pub fn attribute_names(alloc: Global, spec: &Spec) -> Result<Vec<Name>, Memory>
    ensures { IfOk result (λ names. map with_place names.items ≡ attribute_uses spec.now) }
{
    let mut names = Vec::new(alloc);
    push_decls(&mut names, spec.attrs.as_slice())?;
    push_item_decls(&mut names, spec.symbols.as_slice())?;
    push_rules(alloc, &mut names, spec.rules.as_slice())?;
    push_items(alloc, &mut names, spec.symbols.as_slice())?;
    Ok(names)
}
