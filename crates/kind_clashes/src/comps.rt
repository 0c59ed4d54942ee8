//! Clashes in computations, whatever rule or symbol they stand in.
ghost use Rattle.std.specs.Prelude.{◌≡◌, IsTrue, IfOk, map};
ghost use Rattle.lido_syntax.specs.Parts.{leaves_of};
ghost use Rattle.kind_clashes.specs.Least.{IsFirst, Among};
ghost use Rattle.kind_clashes.specs.Comps.{IsUseClash, IsTerminalName, IsPairClash, IsLeafClash};
ghost use Rattle.kind_clashes.specs.Comps.{IsThisClash, IsTargetClash, IsTail, IsFromBelow};
ghost use Rattle.kind_clashes.specs.Comps.{IsBarredByStart, IsBarredAt, IsBarredByInh, IsCompClash, IsBodyClash};

use crate::least::earlier;
use crate::names::if_in;
use crate::sets::NameSets;
use lido_base::Memory;
use lido_symbols::leaves;
use lido_syntax::{Comp, Expr, Name, Pair, Place, Target};
use std::alloc::Global;

/// The place of a clash of the attribute or chain that is named at this place.
fn use_clash(sets: &NameSets, place: Place, attr: Name) -> Option<u32>
    ensures { IsFirst (IsUseClash sets.now place attr) result }
{
    let is_chain = sets.chains.has(attr.id);
    match place {
        Place::Named(name, _) if !is_chain && sets.is_plain_terminal(name.id) => Some(name.at),
        Place::Synt | Place::Inh if is_chain => Some(attr.at),
        Place::Tail if !is_chain => Some(attr.at),
        _ => None,
    }
}

fn terminal_name(sets: &NameSets, name: Name) -> Option<u32>
    ensures { IsFirst (IsTerminalName sets.now name) result }
{
    if sets.is_plain_terminal(name.id) {
        Some(name.at)
    } else {
        None
    }
}

/// The least place of a terminal among the names.
pub fn least_terminal_name(sets: &NameSets, names: &[Name]) -> Option<u32>
    ensures { IsFirst (Among (IsTerminalName sets.now) names.now) result }
{
    let mut least = None;
    for name in names {
        least = earlier(least, terminal_name(sets, *name));
    }
    least
}

fn pair_clash(sets: &NameSets, pair: Pair) -> Option<u32>
    ensures { IsFirst (IsPairClash sets.now pair) result }
{
    earlier(
        terminal_name(sets, pair.sym),
        if_in(&sets.chains, pair.attr),
    )
}

fn least_pair_clash(sets: &NameSets, pairs: &[Pair]) -> Option<u32>
    ensures { IsFirst (Among (IsPairClash sets.now) pairs.now) result }
{
    let mut least = None;
    for pair in pairs {
        least = earlier(least, pair_clash(sets, *pair));
    }
    least
}

fn leaf_clash(sets: &NameSets, leaf: &Expr) -> Option<u32>
    ensures { IsFirst (IsLeafClash sets.now leaf.now) result }
{
    match leaf {
        Expr::Read(_, place, attr) => use_clash(sets, *place, *attr),
        Expr::Including(_, pairs) => least_pair_clash(sets, pairs.as_slice()),
        Expr::Constituents(list) => {
            let list = list.get();
            earlier(
                least_pair_clash(sets, list.pairs.as_slice()),
                least_terminal_name(sets, list.shield.as_slice()),
            )
        }
        _ => None,
    }
}

fn least_leaf_clash(sets: &NameSets, leaves: &[&Expr]) -> Option<u32>
    ensures { IsFirst (Among (IsLeafClash sets.now) (map (λ e. e.now) leaves.now)) result }
{
    let mut least = None;
    for leaf in leaves {
        least = earlier(least, leaf_clash(sets, *leaf));
    }
    least
}

fn this_clash(sets: &NameSets, at: u32, place: Place, attr: Name) -> Option<u32>
    ensures { IsFirst (IsThisClash sets.now at place attr) result }
{
    match place {
        Place::This if !sets.chains.has(attr.id) => Some(at),
        _ => None,
    }
}

fn target_clash(sets: &NameSets, at: u32, target: &Target) -> Option<u32>
    ensures { IsFirst (IsTargetClash sets.now at target.now) result }
{
    match target {
        Target::Attr(place, attr) => earlier(
            use_clash(sets, *place, *attr),
            this_clash(sets, at, *place, *attr),
        ),
        Target::Start(chain) if !sets.chains.has(chain.id) => Some(chain.at),
        _ => None,
    }
}

fn tail(leaf: &Expr) -> Option<u32>
    ensures { IsFirst (IsTail leaf.now) result }
{
    match leaf {
        Expr::Read(at, Place::Tail, _) => Some(*at),
        _ => None,
    }
}

fn least_tail(leaves: &[&Expr]) -> Option<u32>
    ensures { IsFirst (Among IsTail (map (λ e. e.now) leaves.now)) result }
{
    let mut least = None;
    for leaf in leaves {
        least = earlier(least, tail(*leaf));
    }
    least
}

fn from_below(leaf: &Expr) -> Option<u32>
    ensures { IsFirst (IsFromBelow leaf.now) result }
{
    match leaf {
        Expr::Read(at, Place::Tail, _) => Some(*at),
        Expr::Constituents(list) => Some(list.get().at),
        _ => None,
    }
}

fn least_from_below(leaves: &[&Expr]) -> Option<u32>
    ensures { IsFirst (Among IsFromBelow (map (λ e. e.now) leaves.now)) result }
{
    let mut least = None;
    for leaf in leaves {
        least = earlier(least, from_below(*leaf));
    }
    least
}

fn barred_by_start(target: &Target, leaves: &[&Expr]) -> Option<u32>
    ensures { IsFirst (Among (IsBarredByStart target.now) (map (λ e. e.now) leaves.now)) result }
{
    match target {
        Target::Start(_) => least_tail(leaves),
        _ => None,
    }
}

fn barred_at(place: Place, leaves: &[&Expr]) -> Option<u32>
    ensures { IsFirst (Among (IsBarredAt place) (map (λ e. e.now) leaves.now)) result }
{
    match place {
        Place::Inh => least_from_below(leaves),
        _ => None,
    }
}

fn barred_by_inh(target: &Target, leaves: &[&Expr]) -> Option<u32>
    ensures { IsFirst (Among (IsBarredByInh target.now) (map (λ e. e.now) leaves.now)) result }
{
    match target {
        Target::Attr(place, _) => barred_at(*place, leaves),
        _ => None,
    }
}

/// The least place of a clash in a computation, in a rule or in a symbol's body.
pub fn comp_clash(sets: &NameSets, comp: &Comp, leaves: &[&Expr]) -> Option<u32>
    requires { map (λ e. e.now) leaves.now ≡ leaves_of comp.now }
    ensures { IsFirst (IsCompClash sets.now comp.now) result }
{
    let of_leaves = earlier(
        least_leaf_clash(sets, leaves),
        barred_by_start(&comp.target, leaves),
    );
    earlier(target_clash(sets, comp.at, &comp.target), of_leaves)
}

/// The least place of a clash in a computation of a symbol's body.
pub fn body_clash(alloc: Global, sets: &NameSets, comp: &Comp) -> Result<Option<u32>, Memory>
    ensures { IfOk result (IsFirst (IsBodyClash sets.now comp.now)) }
{
    let all = leaves(alloc, comp)?;
    Ok(earlier(
        comp_clash(sets, comp, all.as_slice()),
        barred_by_inh(&comp.target, all.as_slice()),
    ))
}
