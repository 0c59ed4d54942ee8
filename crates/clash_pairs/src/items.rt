//! Which kinds and types SYMBOL items say of attributes.
ghost use Rattle.std.specs.Prelude.{◌≡◌, ◌++◌, [], map, flat_map, IfOk, OnOk};
ghost use Rattle.symbol_attributes.specs.Said.{kind_at};
ghost use Rattle.clash_pairs.specs.Facts.{kind_on, kind_if_any, declared_kinds, declared_types, type_on, types_of_items};
ghost use Rattle.clash_pairs.specs.Facts.{kind_unless_chain, kinds_in_leaf, kinds_in_target, kinds_in_comp, kinds_of_item};

use crate::kinds::SaidKind;
use kind_clashes::Names as Set;
use lido_base::{Kind, Memory};
use lido_symbols::{Names, leaves};
use lido_syntax::{Comp, Decl, Expr, Name, Place, SymbolItem, Target, Typed1};
use std::alloc::Global;

/// That an attribute has a kind on the symbol with this number.
#[derive(Clone, Copy, Debug, PartialEq, Eq)]
pub struct KindFact {
    pub symbol: usize,
    pub said: SaidKind,
}

/// That an attribute has a type on the symbol with this number.
#[derive(Clone, Copy, Debug, PartialEq, Eq)]
pub struct TypeFact {
    pub symbol: usize,
    pub typed: Typed1,
}

/// Adds the kind on each of these symbols.
fn push_kind(
    facts: &mut Vec<KindFact>,
    numbers: &Names,
    own: &[Name],
    attr: Name,
    kind: Kind,
) -> Result<(), Memory>
    ensures { OnOk result (facts.new.items ≡ facts.old.items ++ map (kind_on numbers.now attr kind) own.now) }
{
    for symbol in own {
        facts.push(KindFact {
            symbol: numbers.number(symbol.id),
            said: SaidKind { attr, kind },
        })?;
    }
    Ok(())
}

/// Adds the kind, if there is one, on each of these symbols.
fn push_if_any(
    facts: &mut Vec<KindFact>,
    numbers: &Names,
    own: &[Name],
    attr: Name,
    kind: Option<Kind>,
) -> Result<(), Memory>
    ensures { OnOk result (facts.new.items ≡ facts.old.items ++ kind_if_any numbers.now attr kind own.now) }
{
    match kind {
        Some(kind) => push_kind(facts, numbers, own, attr, kind),
        None => Ok(()),
    }
}

/// Adds the kind of what is no chain.
pub fn push_unless_chain(
    facts: &mut Vec<KindFact>,
    numbers: &Names,
    chains: &Set,
    own: &[Name],
    attr: Name,
    kind: Option<Kind>,
) -> Result<(), Memory>
    ensures { OnOk result (facts.new.items ≡ facts.old.items ++ kind_unless_chain numbers.now chains.now attr kind own.now) }
{
    if chains.has(attr.id) {
        return Ok(());
    }
    push_if_any(facts, numbers, own, attr, kind)
}

/// The kind that a place in a symbol's body says.
fn own_kind_of(place: Place) -> Option<Kind>
    ensures { result ≡ kind_at place }
{
    match place {
        Place::Synt => Some(Kind::Synthesized),
        Place::Inh => Some(Kind::Inherited),
        Place::Named(..) | Place::This | Place::Tail => None,
    }
}

fn push_leaf(
    facts: &mut Vec<KindFact>,
    numbers: &Names,
    chains: &Set,
    own: &[Name],
    leaf: &Expr,
) -> Result<(), Memory>
    ensures { OnOk result (facts.new.items ≡ facts.old.items ++ kinds_in_leaf numbers.now chains.now own.now leaf.now) }
{
    match leaf {
        Expr::Read(_, place, attr) => {
            push_unless_chain(facts, numbers, chains, own, *attr, own_kind_of(*place))
        }
        Expr::Int(..)
        | Expr::Str(..)
        | Expr::Bool(..)
        | Expr::Terminal(..)
        | Expr::Including(..)
        | Expr::Constituents(..)
        | Expr::Call(..) => Ok(()),
    }
}

fn push_target(
    facts: &mut Vec<KindFact>,
    numbers: &Names,
    chains: &Set,
    own: &[Name],
    target: &Target,
) -> Result<(), Memory>
    ensures { OnOk result (facts.new.items ≡ facts.old.items ++ kinds_in_target numbers.now chains.now own.now target.now) }
{
    match target {
        Target::Attr(place, attr) => {
            push_unless_chain(facts, numbers, chains, own, *attr, own_kind_of(*place))
        }
        Target::Start(_) | Target::Out | Target::Message(..) => Ok(()),
    }
}

fn push_comp(
    alloc: Global,
    facts: &mut Vec<KindFact>,
    numbers: &Names,
    chains: &Set,
    own: &[Name],
    comp: &Comp,
) -> Result<(), Memory>
    ensures { OnOk result (facts.new.items ≡ facts.old.items ++ kinds_in_comp numbers.now chains.now own.now comp.now) }
{
    push_target(facts, numbers, chains, own, &comp.target)?;
    let parts = leaves(alloc, comp)?;
    for leaf in &parts {
        push_leaf(facts, numbers, chains, own, leaf)?;
    }
    Ok(())
}

fn push_comps(
    alloc: Global,
    facts: &mut Vec<KindFact>,
    numbers: &Names,
    chains: &Set,
    own: &[Name],
    comps: &[Comp],
) -> Result<(), Memory>
    ensures { OnOk result (facts.new.items ≡ facts.old.items ++ flat_map (kinds_in_comp numbers.now chains.now own.now) comps.now) }
{
    for comp in comps {
        push_comp(alloc, facts, numbers, chains, own, comp)?;
    }
    Ok(())
}

fn push_decls(
    facts: &mut Vec<KindFact>,
    numbers: &Names,
    own: &[Name],
    decls: &[Decl],
) -> Result<(), Memory>
    ensures { OnOk result (facts.new.items ≡ facts.old.items ++ declared_kinds numbers.now own.now decls.now) }
{
    for decl in decls {
        push_if_any(facts, numbers, own, decl.attr, decl.kind)?;
    }
    Ok(())
}

fn push_item(
    alloc: Global,
    facts: &mut Vec<KindFact>,
    numbers: &Names,
    chains: &Set,
    item: &SymbolItem,
) -> Result<(), Memory>
    ensures { OnOk result (facts.new.items ≡ facts.old.items ++ kinds_of_item numbers.now chains.now item.now) }
{
    let own = item.names.as_slice();
    push_decls(facts, numbers, own, item.decls.as_slice())?;
    push_comps(alloc, facts, numbers, chains, own, item.body.as_slice())
}

/// Adds the kinds that SYMBOL items declare and tell.
pub fn push_items(
    alloc: Global,
    facts: &mut Vec<KindFact>,
    numbers: &Names,
    chains: &Set,
    items: &[SymbolItem],
) -> Result<(), Memory>
    ensures { OnOk result (facts.new.items ≡ facts.old.items ++ flat_map (kinds_of_item numbers.now chains.now) items.now) }
{
    for item in items {
        push_item(alloc, facts, numbers, chains, item)?;
    }
    Ok(())
}

/// Adds the type on each of these symbols.
fn push_type(
    facts: &mut Vec<TypeFact>,
    numbers: &Names,
    own: &[Name],
    decl: Decl,
) -> Result<(), Memory>
    ensures { OnOk result (facts.new.items ≡ facts.old.items ++ map (type_on numbers.now decl) own.now) }
{
    for symbol in own {
        facts.push(TypeFact {
            symbol: numbers.number(symbol.id),
            typed: Typed1 {
                name: decl.attr,
                ty: decl.ty,
            },
        })?;
    }
    Ok(())
}

fn push_types(
    facts: &mut Vec<TypeFact>,
    numbers: &Names,
    own: &[Name],
    decls: &[Decl],
) -> Result<(), Memory>
    ensures { OnOk result (facts.new.items ≡ facts.old.items ++ declared_types numbers.now own.now decls.now) }
{
    for decl in decls {
        push_type(facts, numbers, own, *decl)?;
    }
    Ok(())
}

/// The types that SYMBOL items declare, each on its symbols.
pub fn type_facts(
    alloc: Global,
    numbers: &Names,
    items: &[SymbolItem],
) -> Result<Vec<TypeFact>, Memory>
    ensures { IfOk result (λ facts. facts.items ≡ types_of_items numbers.now items.now) }
{
    let mut facts = Vec::new(alloc);
    for item in items {
        push_types(
            &mut facts,
            numbers,
            item.names.as_slice(),
            item.decls.as_slice(),
        )?;
    }
    Ok(facts)
}
