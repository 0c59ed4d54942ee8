//! What computations depend on in a plain rule.
ghost use Rattle.std.specs.Prelude.{◌≡◌, ◌++◌, ◌≤◌, ℕ, [], Some, map, option_to_list, Contains, OnOk, IfOk};
ghost use Rattle.lido_syntax.specs.declared.spec.Expr.{Expr as Written};
ghost use Rattle.rule_tables.specs.Slots.{Con};
ghost use Rattle.flat_terms.specs.Names.{holder_as, tail_in};
ghost use Rattle.flat_terms.specs.Scene.{Scene, occ as occ_at, needed_read, needed_by, needed_below, dependencies_in, tail_term, tail_needs, computed_needs as needs_at};
ghost use Rattle.flat_terms.specs.Sites.{IsSiteOf, IsGathered, IsNamed, IsNamedTail, IsNamedTerm, IsNamedStart, IsNamedComp};
ghost use Rattle.flat_terms.specs.Folds.{places_by};

use crate::folds::givers;
use crate::leaves::{Here, chain_of};
use crate::site::{Role, Site, narrow};
use crate::tails::{Tail, Tails};
use flat_grammar::Occ;
use flat_slots::Slot;
use lido_base::{Memory, StrId};
use lido_symbols::leaves;
use lido_syntax::{Comp, Cons, Expr, Place};
use std::alloc::Global;

/// What an attribute or a chain at a place depends on. TAIL depends on nothing here.
fn read_occ(site: &Site, context: u16, place: &Place, name: StrId) -> Option<Occ>
    ensures { (scene : Scene) → IsSiteOf scene site.now → option_to_list result ≡ needed_read scene (λ chain. []) context place.now name.0 }
{
    match place {
        Place::Named(x, index) => match site.occurrence(*x, *index) {
            Some(k) => Some(site.occ(narrow(k), site.seen(name))),
            None => None,
        },
        Place::Tail => None,
        Place::Synt | Place::Inh | Place::This => Some(site.occ(context, site.seen(name))),
    }
}

/// The children of these that a CONSTITUENTS joins. `all` tells that it joins all of them.
fn joined(role: Role, all: bool, places: &[usize]) -> &[usize]
    ensures { result.now ≡ places_by role all places.now }
{
    match role {
        Role::Whole => places,
        _ if all => places,
        Role::Listing => &places[..places.len().min(1)],
        Role::Link => &places[..places.len().min(2)],
        Role::End => &[],
    }
}

/// Adds children's attributes of the CONSTITUENTS of that number.
fn push_cons(found: &mut Vec<Occ>, site: &Site, number: u32, places: &[usize]) -> Result<(), Memory>
    ensures { OnOk result ((scene : Scene) → IsSiteOf scene site.now → ((j : ℕ) → Contains places.now j → j ≤ 65535)
        → found.new.items ≡ found.old.items ++ map (λ j. occ_at scene j (Con number)) places.now) }
{
    for j in places {
        found.push(site.occ(narrow(*j), Slot::Con(number)))?;
    }
    Ok(())
}

/// Adds what a CONSTITUENTS depends on.
fn push_below(alloc: Global, found: &mut Vec<Occ>, site: &Site, cons: &Cons) -> Result<(), Memory>
    ensures { OnOk result ((scene : Scene) → IsSiteOf scene site.now → IsGathered scene site.now cons.now
        → found.new.items ≡ found.old.items ++ needed_below scene cons.now) }
{
    let places = givers(alloc, site, cons.number)?;
    let joined = joined(site.role, cons.with.is_none(), places.as_slice());
    push_cons(found, site, cons.number, joined)
}

/// Adds what is there.
fn push_some(found: &mut Vec<Occ>, occ: Option<Occ>) -> Result<(), Memory>
    ensures { OnOk result (found.new.items ≡ found.old.items ++ option_to_list occ) }
{
    if let Some(occ) = occ {
        found.push(occ)?;
    }
    Ok(())
}

/// Adds what a leaf depends on. TAIL depends on nothing here.
fn push_leaf(
    alloc: Global,
    found: &mut Vec<Occ>,
    site: &Site,
    context: u16,
    part: &Expr,
) -> Result<(), Memory>
    ensures { OnOk result ((scene : Scene) → IsSiteOf scene site.now → IsNamed scene site.now part.now
        → found.new.items ≡ found.old.items ++ needed_by scene (λ chain. []) context part.now) }
{
    match part {
        Expr::Read(_, place, name) => push_some(found, read_occ(site, context, place, name.id)),
        Expr::Including(at, _) => {
            let slot = Slot::Inc(site.sets.number(*at));
            push_some(found, Some(site.occ(context, slot)))
        }
        Expr::Constituents(cons) => push_below(alloc, found, site, cons.get()),
        Expr::Int(..) | Expr::Str(..) | Expr::Bool(..) | Expr::Terminal(..) | Expr::Call(..) => {
            Ok(())
        }
    }
}

/// Adds what a computation depends on that starts a chain, where it is copied for TAIL.
fn push_start(alloc: Global, found: &mut Vec<Occ>, site: &Site, comp: &Comp) -> Result<(), Memory>
    ensures { OnOk result ((scene : Scene) → IsSiteOf scene site.now → IsNamedStart scene site.now comp.now
        → found.new.items ≡ found.old.items ++ dependencies_in scene (λ chain. []) 0 comp.now) }
{
    let parts = leaves(alloc, comp)?;
    for part in &parts {
        push_leaf(alloc, found, site, 0, part)?;
    }
    Ok(())
}

/// Adds what TAIL of the chain depends on.
fn push_tail(
    alloc: Global,
    found: &mut Vec<Occ>,
    site: &Site,
    tails: &Tails,
    chain: StrId,
) -> Result<(), Memory>
    ensures { OnOk result ((scene : Scene) → IsSiteOf scene site.now → tail_in tails.now chain.0 ≡ Some (tail_term scene chain.0)
        → IsNamedTerm scene site.now (tail_term scene chain.0) → found.new.items ≡ found.old.items ++ tail_needs scene chain.0) }
{
    match tails.at(chain) {
        None => Ok(()),
        Some(Tail::Child(j)) => push_some(found, Some(site.occ(j, Slot::Behind(chain)))),
        Some(Tail::Front) => push_some(found, Some(site.occ(0, Slot::Front(chain)))),
        Some(Tail::Start(held)) => push_start(alloc, found, site, held.comp),
    }
}

/// Adds what a leaf depends on.
fn push_part(
    alloc: Global,
    found: &mut Vec<Occ>,
    here: &Here,
    tails: &Tails,
    part: &Expr,
) -> Result<(), Memory>
    ensures { OnOk result ((scene : Scene) → IsSiteOf scene here.now.site.now → IsNamed scene here.now.site.now part.now
        → IsNamedTail scene here.now.site.now tails.now part.now
        → found.new.items ≡ found.old.items ++ needed_by scene (tail_needs scene) here.now.context part.now) }
{
    match chain_of(part) {
        Some(chain) => push_tail(alloc, found, here.site, tails, chain),
        None => push_leaf(alloc, found, here.site, here.context, part),
    }
}

/// What a computation depends on, in the flat grammar: what its expressions read and what stands behind `<-`. It takes time linear
/// in the computation and what stands for its leaves.
pub fn computed_needs(
    alloc: Global,
    here: &Here,
    tails: &Tails,
    comp: &Comp,
) -> Result<Vec<Occ>, Memory>
    ensures { IfOk result (λ found. (scene : Scene) → IsSiteOf scene here.now.site.now → IsNamedComp scene here.now.site.now tails.now comp.now
        → found.items ≡ needs_at scene here.now.context comp.now) }
{
    let parts = leaves(alloc, comp)?;
    let mut found = Vec::new(alloc);
    for part in &parts {
        push_part(alloc, &mut found, here, tails, part)?;
    }
    Ok(found)
}
