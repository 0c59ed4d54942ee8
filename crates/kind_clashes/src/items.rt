//! Attributes that SYMBOL items bring to terminals.
ghost use Rattle.std.specs.Prelude.{◌≡◌, IfOk, map};
ghost use Rattle.lido_syntax.specs.declared.spec.Decl.{Decl as Declared};
ghost use Rattle.lido_syntax.specs.declared.spec.SymbolItem.{SymbolItem as Item};
ghost use Rattle.kind_clashes.specs.Least.{IsFirst, Among};
ghost use Rattle.kind_clashes.specs.Items.{IsOwnUse, IsOwnLeaf, IsOwnTarget, IsOwnIn, IsBrought, IsTerminalOfItem};

use crate::comps::least_terminal_name;
use crate::least::earlier;
use crate::names::{Names, least_in};
use crate::sets::NameSets;
use lido_base::Memory;
use lido_symbols::leaves;
use lido_syntax::{Comp, Decl, Expr, Name, Place, SymbolItem, Target};
use std::alloc::Global;

/// The place of an attribute that is named on the symbol itself.
fn own_use(sets: &NameSets, place: Place, attr: Name) -> Option<u32>
    ensures { IsFirst (IsOwnUse sets.now place attr) result }
{
    match place {
        Place::Synt | Place::Inh | Place::This if !sets.chains.has(attr.id) => Some(attr.at),
        _ => None,
    }
}

fn own_leaf(sets: &NameSets, leaf: &Expr) -> Option<u32>
    ensures { IsFirst (IsOwnLeaf sets.now leaf.now) result }
{
    match leaf {
        Expr::Read(_, place, attr) => own_use(sets, *place, *attr),
        _ => None,
    }
}

fn least_own_leaf(sets: &NameSets, leaves: &[&Expr]) -> Option<u32>
    ensures { IsFirst (Among (IsOwnLeaf sets.now) (map (λ e. e.now) leaves.now)) result }
{
    let mut least = None;
    for leaf in leaves {
        least = earlier(least, own_leaf(sets, *leaf));
    }
    least
}

fn own_target(sets: &NameSets, target: &Target) -> Option<u32>
    ensures { IsFirst (IsOwnTarget sets.now target.now) result }
{
    match target {
        Target::Attr(place, attr) => own_use(sets, *place, *attr),
        _ => None,
    }
}

fn own_in_comp(alloc: Global, sets: &NameSets, comp: &Comp) -> Result<Option<u32>, Memory>
    ensures { IfOk result (IsFirst (IsOwnIn sets.now comp.now)) }
{
    let all = leaves(alloc, comp)?;
    Ok(earlier(
        own_target(sets, &comp.target),
        least_own_leaf(sets, all.as_slice()),
    ))
}

/// The least place of an attribute that a body names on its symbols.
fn own_in_body(alloc: Global, sets: &NameSets, body: &[Comp]) -> Result<Option<u32>, Memory>
    ensures { IfOk result (IsFirst (Among (IsOwnIn sets.now) body.now)) }
{
    let mut least = None;
    for comp in body {
        least = earlier(least, own_in_comp(alloc, sets, comp)?);
    }
    Ok(least)
}

fn least_declared(decls: &[Decl]) -> Option<u32>
    ensures { IsFirst (Among (λ (d : Declared) at. at ≡ d.attr.at) decls.now) result }
{
    let mut least = None;
    for decl in decls {
        least = earlier(least, Some(decl.attr.at));
    }
    least
}

/// The least place of what the item brings. (`bearers` are the names that have an attribute.)
fn brought(
    alloc: Global,
    sets: &NameSets,
    bearers: &Names,
    item: &SymbolItem,
) -> Result<Option<u32>, Memory>
    ensures { IfOk result (IsFirst (IsBrought sets.now bearers.now item.now)) }
{
    let of_body = own_in_body(alloc, sets, item.body.as_slice())?;
    let of_classes = least_in(bearers, item.inherits.as_slice());
    Ok(earlier(
        least_declared(item.decls.as_slice()),
        earlier(of_body, of_classes),
    ))
}

fn terminal_of_item(
    alloc: Global,
    sets: &NameSets,
    bearers: &Names,
    item: &SymbolItem,
) -> Result<Option<u32>, Memory>
    ensures { IfOk result (IsFirst (IsTerminalOfItem sets.now bearers.now item.now)) }
{
    match brought(alloc, sets, bearers, item)? {
        Some(_) => Ok(least_terminal_name(sets, item.names.as_slice())),
        None => Ok(None),
    }
}

/// The least place of a terminal that a SYMBOL item is about and brings an attribute to. (`bearers` are the names that have an
/// attribute.)
pub fn terminal_of_items(
    alloc: Global,
    sets: &NameSets,
    bearers: &Names,
    items: &[SymbolItem],
) -> Result<Option<u32>, Memory>
    ensures { IfOk result (IsFirst (Among (IsTerminalOfItem sets.now bearers.now) items.now)) }
{
    let mut least = None;
    for item in items {
        least = earlier(least, terminal_of_item(alloc, sets, bearers, item)?);
    }
    Ok(least)
}
