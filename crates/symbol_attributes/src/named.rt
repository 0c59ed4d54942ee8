//! The attributes that a specification names on symbols.
ghost use Rattle.std.specs.Prelude.{◌≡◌, ◌<◌, ◌++◌, [], map, flat_map, length, All, IfOk, OnOk};
ghost use Rattle.lido_syntax.specs.declared.spec.SymbolItem.{SymbolItem as Item};
ghost use Rattle.kind_clashes.specs.Sets.{AreNameSets};
ghost use Rattle.symbol_attributes.specs.Named.{on_symbol, named_at, named_by_pair, named_by_leaf, named_by_target, named_by};
ghost use Rattle.symbol_attributes.specs.Named.{declared_by, named_by_rules, named_by_item, AreNamed};

use kind_clashes::{NameSets, Names};
use lido_base::{Memory, StrId};
use lido_symbols::leaves;
use lido_syntax::{Comp, Decl, Expr, Name, Pair, Place, RuleItem, Spec, SymbolItem, Target};
use std::alloc::Global;

/// An attribute of a symbol or class.
#[derive(Clone, Copy, Debug, PartialEq, Eq)]
pub struct SymbolAttribute {
    pub symbol: StrId,
    pub attribute: StrId,
}

/// Adds the attribute on each of these symbols.
fn push_on(
    found: &mut Vec<SymbolAttribute>,
    attribute: Name,
    symbols: &[Name],
) -> Result<(), Memory>
    ensures { OnOk result (found.new.items ≡ found.old.items ++ map (on_symbol attribute) symbols.now) }
{
    for symbol in symbols {
        found.push(SymbolAttribute {
            symbol: symbol.id,
            attribute: attribute.id,
        })?;
    }
    Ok(())
}

/// Adds the attribute that is named at the place, unless it is a chain. (`own` are the symbols of the body.)
fn push_at(
    found: &mut Vec<SymbolAttribute>,
    chains: &Names,
    own: &[Name],
    place: Place,
    attribute: Name,
) -> Result<(), Memory>
    ensures { OnOk result (found.new.items ≡ found.old.items ++ named_at chains.now own.now place attribute) }
{
    if chains.has(attribute.id) {
        return Ok(());
    }
    match place {
        Place::Named(symbol, _) => push_on(found, attribute, &[symbol]),
        Place::Synt | Place::Inh | Place::This => push_on(found, attribute, own),
        Place::Tail => Ok(()),
    }
}

/// Adds the attributes of pairs.
fn push_pairs(
    found: &mut Vec<SymbolAttribute>,
    chains: &Names,
    own: &[Name],
    pairs: &[Pair],
) -> Result<(), Memory>
    ensures { OnOk result (found.new.items ≡ found.old.items ++ flat_map (named_by_pair chains.now own.now) pairs.now) }
{
    for pair in pairs {
        push_at(found, chains, own, Place::Named(pair.sym, None), pair.attr)?;
    }
    Ok(())
}

/// Adds the attributes that a leaf names.
fn push_leaf(
    found: &mut Vec<SymbolAttribute>,
    chains: &Names,
    own: &[Name],
    leaf: &Expr,
) -> Result<(), Memory>
    ensures { OnOk result (found.new.items ≡ found.old.items ++ named_by_leaf chains.now own.now leaf.now) }
{
    match leaf {
        Expr::Read(_, place, name) => push_at(found, chains, own, *place, *name),
        Expr::Including(_, pairs) => push_pairs(found, chains, own, pairs.as_slice()),
        Expr::Constituents(cons) => push_pairs(found, chains, own, cons.get().pairs.as_slice()),
        Expr::Int(..) | Expr::Str(..) | Expr::Bool(..) | Expr::Terminal(..) | Expr::Call(..) => Ok(
            (),
        ),
    }
}

/// Adds the attribute that a target names.
fn push_target(
    found: &mut Vec<SymbolAttribute>,
    chains: &Names,
    own: &[Name],
    target: &Target,
) -> Result<(), Memory>
    ensures { OnOk result (found.new.items ≡ found.old.items ++ named_by_target chains.now own.now target.now) }
{
    match target {
        Target::Attr(place, name) => push_at(found, chains, own, *place, *name),
        Target::Start(_) | Target::Out | Target::Message(..) => Ok(()),
    }
}

/// Adds the attributes that a computation names.
fn push_comp(
    alloc: Global,
    found: &mut Vec<SymbolAttribute>,
    chains: &Names,
    own: &[Name],
    comp: &Comp,
) -> Result<(), Memory>
    ensures { OnOk result (found.new.items ≡ found.old.items ++ named_by chains.now own.now comp.now) }
{
    push_target(found, chains, own, &comp.target)?;
    let parts = leaves(alloc, comp)?;
    for leaf in &parts {
        push_leaf(found, chains, own, leaf)?;
    }
    Ok(())
}

/// Adds the attributes that computations name.
fn push_comps(
    alloc: Global,
    found: &mut Vec<SymbolAttribute>,
    chains: &Names,
    own: &[Name],
    comps: &[Comp],
) -> Result<(), Memory>
    ensures { OnOk result (found.new.items ≡ found.old.items ++ flat_map (named_by chains.now own.now) comps.now) }
{
    for comp in comps {
        push_comp(alloc, found, chains, own, comp)?;
    }
    Ok(())
}

/// Adds the attributes that are declared, on each of these symbols.
fn push_decls(found: &mut Vec<SymbolAttribute>, own: &[Name], decls: &[Decl]) -> Result<(), Memory>
    ensures { OnOk result (found.new.items ≡ found.old.items ++ declared_by own.now decls.now) }
{
    for decl in decls {
        push_on(found, decl.attr, own)?;
    }
    Ok(())
}

/// Adds the attributes that the computations of rules name.
fn push_rules(
    alloc: Global,
    found: &mut Vec<SymbolAttribute>,
    chains: &Names,
    rules: &[RuleItem],
) -> Result<(), Memory>
    ensures { OnOk result (found.new.items ≡ found.old.items ++ named_by_rules chains.now rules.now) }
{
    for rule in rules {
        push_comps(alloc, found, chains, &[], rule.body.as_slice())?;
    }
    Ok(())
}

/// Adds the attributes that a SYMBOL item declares and names.
fn push_item(
    alloc: Global,
    found: &mut Vec<SymbolAttribute>,
    chains: &Names,
    item: &SymbolItem,
) -> Result<(), Memory>
    ensures { OnOk result (found.new.items ≡ found.old.items ++ named_by_item chains.now item.now) }
{
    let own = item.names.as_slice();
    push_decls(found, own, item.decls.as_slice())?;
    push_comps(alloc, found, chains, own, item.body.as_slice())
}

/// Adds the attributes that SYMBOL items declare and name.
fn push_items(
    alloc: Global,
    found: &mut Vec<SymbolAttribute>,
    chains: &Names,
    items: &[SymbolItem],
) -> Result<(), Memory>
    ensures { OnOk result (found.new.items ≡ found.old.items ++ flat_map (named_by_item chains.now) items.now) }
{
    for item in items {
        push_item(alloc, found, chains, item)?;
    }
    Ok(())
}

/// The attributes that a specification names, each on its symbol: what SYMBOL items declare, and what computations name. One may
/// stand there more than once. (`sets` are those of the specification, and each SYMBOL item is about a symbol at least.) It
/// takes time linear in the text and the list. An `Err` is want of memory.
pub fn named_attributes(
    alloc: Global,
    spec: &Spec,
    sets: &NameSets,
) -> Result<Vec<SymbolAttribute>, Memory>
    requires sets { AreNameSets spec.now sets.now }
    requires about { All (λ (item : Item). 0 < length item.names) spec.now.symbols }
    ensures { IfOk result (λ list. AreNamed spec.now list.items) }
{
    let mut found = Vec::new(alloc);
    push_rules(alloc, &mut found, &sets.chains, spec.rules.as_slice())?;
    push_items(alloc, &mut found, &sets.chains, spec.symbols.as_slice())?;
    Ok(found)
}
