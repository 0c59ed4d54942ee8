//! What a specification says of attributes.
ghost use Rattle.std.specs.Prelude.{◌≡◌, ◌++◌, [], map, flat_map, IfOk, OnOk};
ghost use Rattle.lido_syntax.specs.Production.{symbols_of, places_from};
ghost use Rattle.lido_syntax.specs.Attributes.{possible};
ghost use Rattle.lido_syntax.specs.declared.spec.Comp.{Comp as Computation};
ghost use Rattle.lido_symbols.specs.Occurrences.{IsProductionOf};
ghost use Rattle.kind_clashes.specs.Sets.{AreNameSets};
ghost use Rattle.symbol_attributes.specs.Named.{AreNamed};
ghost use Rattle.symbol_attributes.specs.Facts.{declared_facts};
ghost use Rattle.symbol_attributes.specs.Said.{told_facts, said_on, said_of_named, said_by_decl, said_by_decls, kind_at, told_of, told_at, told_by_leaf, told_by_target};
ghost use Rattle.symbol_attributes.specs.Said.{told_by_comp, told_by_item, side_of, one_side, told_by_side, told_by_rule_target, told_by_rule, AreSaid};

use crate::facts::{Facts, Said, facts_of};
use crate::named::SymbolAttribute;
use kind_clashes::{NameSets, Names};
use lido_base::{Kind, Memory, StrId};
use lido_symbols::{Production, leaves};
use lido_syntax::{Comp, Decl, Expr, Name, Place, RuleItem, Spec, SymbolItem, Target};
use std::alloc::Global;

/// Adds what is said of the attribute on each of these symbols.
fn push_on(
    list: &mut Vec<Said>,
    attribute: Name,
    facts: Facts,
    symbols: &[Name],
) -> Result<(), Memory>
    ensures { OnOk result (list.new.items ≡ list.old.items ++ map (said_on attribute facts) symbols.now) }
{
    for symbol in symbols {
        list.push(Said {
            symbol: symbol.id,
            attribute: attribute.id,
            facts,
        })?;
    }
    Ok(())
}

/// Adds that there are these attributes.
fn push_named(list: &mut Vec<Said>, named: &[SymbolAttribute]) -> Result<(), Memory>
    ensures { OnOk result (list.new.items ≡ list.old.items ++ map said_of_named named.now) }
{
    for one in named {
        list.push(Said {
            symbol: one.symbol,
            attribute: one.attribute,
            facts: Facts {
                ty: None,
                kind: None,
                told: None,
            },
        })?;
    }
    Ok(())
}

/// Adds what declarations of these symbols say.
fn push_decls(list: &mut Vec<Said>, own: &[Name], decls: &[Decl]) -> Result<(), Memory>
    ensures { OnOk result (list.new.items ≡ list.old.items ++ flat_map (said_by_decl own.now) decls.now) }
{
    for decl in decls {
        push_on(list, decl.attr, facts_of(*decl), own)?;
    }
    Ok(())
}

/// Adds what the declarations of SYMBOL items say.
fn push_declared(list: &mut Vec<Said>, items: &[SymbolItem]) -> Result<(), Memory>
    ensures { OnOk result (list.new.items ≡ list.old.items ++ flat_map said_by_decls items.now) }
{
    for item in items {
        push_decls(list, item.names.as_slice(), item.decls.as_slice())?;
    }
    Ok(())
}

/// Adds the kind, if there is one, that a computation tells of the attribute on each of these symbols.
fn push_told(
    list: &mut Vec<Said>,
    attribute: Name,
    symbols: &[Name],
    kind: Option<Kind>,
) -> Result<(), Memory>
    ensures { OnOk result (list.new.items ≡ list.old.items ++ told_of attribute symbols.now kind) }
{
    if kind.is_none() {
        return Ok(());
    }
    let facts = Facts {
        ty: None,
        kind: None,
        told: kind,
    };
    push_on(list, attribute, facts, symbols)
}

/// The kind that a place in a symbol's body tells.
fn kind_of(place: Place) -> Option<Kind>
    ensures { result ≡ kind_at place }
{
    match place {
        Place::Synt => Some(Kind::Synthesized),
        Place::Inh => Some(Kind::Inherited),
        Place::Named(..) | Place::This | Place::Tail => None,
    }
}

/// Adds what is told at a place in the body of these symbols.
fn push_at(
    list: &mut Vec<Said>,
    chains: &Names,
    own: &[Name],
    place: Place,
    attribute: Name,
) -> Result<(), Memory>
    ensures { OnOk result (list.new.items ≡ list.old.items ++ told_at chains.now own.now place attribute) }
{
    if chains.has(attribute.id) {
        return Ok(());
    }
    push_told(list, attribute, own, kind_of(place))
}

/// Adds what a leaf in the body of these symbols tells.
fn push_leaf(list: &mut Vec<Said>, chains: &Names, own: &[Name], leaf: &Expr) -> Result<(), Memory>
    ensures { OnOk result (list.new.items ≡ list.old.items ++ told_by_leaf chains.now own.now leaf.now) }
{
    match leaf {
        Expr::Read(_, place, name) => push_at(list, chains, own, *place, *name),
        Expr::Int(..)
        | Expr::Str(..)
        | Expr::Bool(..)
        | Expr::Terminal(..)
        | Expr::Including(..)
        | Expr::Constituents(_)
        | Expr::Call(..) => Ok(()),
    }
}

/// Adds what a target in the body of these symbols tells.
fn push_target(
    list: &mut Vec<Said>,
    chains: &Names,
    own: &[Name],
    target: &Target,
) -> Result<(), Memory>
    ensures { OnOk result (list.new.items ≡ list.old.items ++ told_by_target chains.now own.now target.now) }
{
    match target {
        Target::Attr(place, name) => push_at(list, chains, own, *place, *name),
        Target::Start(_) | Target::Out | Target::Message(..) => Ok(()),
    }
}

/// Adds what a computation in the body of these symbols tells.
fn push_comp(
    alloc: Global,
    list: &mut Vec<Said>,
    chains: &Names,
    own: &[Name],
    comp: &Comp,
) -> Result<(), Memory>
    ensures { OnOk result (list.new.items ≡ list.old.items ++ told_by_comp chains.now own.now comp.now) }
{
    push_target(list, chains, own, &comp.target)?;
    let parts = leaves(alloc, comp)?;
    for leaf in &parts {
        push_leaf(list, chains, own, leaf)?;
    }
    Ok(())
}

/// Adds what computations in the body of these symbols tell.
fn push_comps(
    alloc: Global,
    list: &mut Vec<Said>,
    chains: &Names,
    own: &[Name],
    comps: &[Comp],
) -> Result<(), Memory>
    ensures { OnOk result (list.new.items ≡ list.old.items ++ flat_map (told_by_comp chains.now own.now) comps.now) }
{
    for comp in comps {
        push_comp(alloc, list, chains, own, comp)?;
    }
    Ok(())
}

/// Adds what the computations of SYMBOL items tell.
fn push_items(
    alloc: Global,
    list: &mut Vec<Said>,
    chains: &Names,
    items: &[SymbolItem],
) -> Result<(), Memory>
    ensures { OnOk result (list.new.items ≡ list.old.items ++ flat_map (told_by_item chains.now) items.now) }
{
    for item in items {
        push_comps(
            alloc,
            list,
            chains,
            item.names.as_slice(),
            item.body.as_slice(),
        )?;
    }
    Ok(())
}

/// The side of what stands on the left, or on the right, or on both.
fn side_by(is_on_left: bool, is_on_right: bool) -> Option<Kind>
    ensures { result ≡ one_side is_on_left is_on_right }
{
    match (is_on_left, is_on_right) {
        (true, false) => Some(Kind::Synthesized),
        (false, true) => Some(Kind::Inherited),
        _ => None,
    }
}

/// The side of the rule on which the symbol stands, if it is one side.
fn side_of_symbol(production: &Production, rule: &RuleItem, symbol: StrId) -> Option<Kind>
    requires { IsProductionOf rule.now production.now }
    ensures { result ≡ side_of (places_from 0 symbol.0 (symbols_of rule.now)) }
{
    side_by(symbol.0 == rule.left.id.0, production.is_right(symbol))
}

/// The side of the rule on which all occurrences are that the name can mean, if it is one side.
fn side(production: &Production, rule: &RuleItem, name: Name, index: Option<i64>) -> Option<Kind>
    requires { IsProductionOf rule.now production.now }
    ensures { result ≡ side_of (possible rule.now name index) }
{
    match production.occurrence(name, index) {
        Some(0) => Some(Kind::Synthesized),
        Some(_) => Some(Kind::Inherited),
        None => side_of_symbol(production, rule, name.id),
    }
}

/// Adds what a target of the rule at this place tells.
fn push_side(
    list: &mut Vec<Said>,
    chains: &Names,
    production: &Production,
    rule: &RuleItem,
    place: Place,
    attribute: Name,
) -> Result<(), Memory>
    requires { IsProductionOf rule.now production.now }
    ensures { OnOk result (list.new.items ≡ list.old.items ++ told_by_side chains.now rule.now place attribute) }
{
    match place {
        Place::Named(name, index) => {
            if chains.has(attribute.id) {
                return Ok(());
            }
            push_told(
                list,
                attribute,
                &[name],
                side(production, rule, name, index),
            )
        }
        Place::Synt | Place::Inh | Place::This | Place::Tail => Ok(()),
    }
}

/// Adds what a target of the rule tells.
fn push_rule_target(
    list: &mut Vec<Said>,
    chains: &Names,
    production: &Production,
    rule: &RuleItem,
    target: &Target,
) -> Result<(), Memory>
    requires { IsProductionOf rule.now production.now }
    ensures { OnOk result (list.new.items ≡ list.old.items ++ told_by_rule_target chains.now rule.now target.now) }
{
    match target {
        Target::Attr(place, name) => push_side(list, chains, production, rule, *place, *name),
        Target::Start(_) | Target::Out | Target::Message(..) => Ok(()),
    }
}

/// Adds what the targets of the rule's computations tell.
fn push_targets(
    list: &mut Vec<Said>,
    chains: &Names,
    production: &Production,
    rule: &RuleItem,
    comps: &[Comp],
) -> Result<(), Memory>
    requires { IsProductionOf rule.now production.now }
    ensures { OnOk result (list.new.items
        ≡ list.old.items ++ flat_map (λ (c : Computation). told_by_rule_target chains.now rule.now c.target) comps.now) }
{
    for comp in comps {
        push_rule_target(list, chains, production, rule, &comp.target)?;
    }
    Ok(())
}

/// Adds what the targets of a rule tell.
fn push_rule(
    alloc: Global,
    list: &mut Vec<Said>,
    chains: &Names,
    rule: &RuleItem,
) -> Result<(), Memory>
    ensures { OnOk result (list.new.items ≡ list.old.items ++ told_by_rule chains.now rule.now) }
{
    let production = Production::of(alloc, rule)?;
    push_targets(list, chains, &production, rule, rule.body.as_slice())
}

/// Adds what the targets of rules tell.
fn push_rules(
    alloc: Global,
    list: &mut Vec<Said>,
    chains: &Names,
    rules: &[RuleItem],
) -> Result<(), Memory>
    ensures { OnOk result (list.new.items ≡ list.old.items ++ flat_map (told_by_rule chains.now) rules.now) }
{
    for rule in rules {
        push_rule(alloc, list, chains, rule)?;
    }
    Ok(())
}

/// What a specification says of attributes. (`named` are those that it names, and `sets` are its sets of names.) It takes time
/// linear in the text and the list. An `Err` is want of memory.
pub fn all_said(
    alloc: Global,
    spec: &Spec,
    sets: &NameSets,
    named: &[SymbolAttribute],
) -> Result<Vec<Said>, Memory>
    requires sets { AreNameSets spec.now sets.now }
    requires named { AreNamed spec.now named.now }
    ensures { IfOk result (λ list. AreSaid spec.now list.items) }
{
    let mut list = Vec::new(alloc);
    push_named(&mut list, named)?;
    push_declared(&mut list, spec.symbols.as_slice())?;
    push_items(alloc, &mut list, &sets.chains, spec.symbols.as_slice())?;
    push_rules(alloc, &mut list, &sets.chains, spec.rules.as_slice())?;
    Ok(list)
}
