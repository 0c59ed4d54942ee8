//! What added attributes depend on in a plain rule.
ghost use Rattle.std.specs.Prelude.{◌≡◌, ℕ, Some, List, map, IfOk};
ghost use Rattle.std.specs.List.{AllZip};
ghost use Rattle.lido_syntax.specs.declared.spec.Comp.{Comp as Written};
ghost use Rattle.numbered_computations.specs.declared.table.Holder.{Holder as Body};
ghost use Rattle.numbered_computations.specs.Held.{held_at};
ghost use Rattle.rule_tables.specs.Slots.{Slot as Named};
ghost use Rattle.rule_tables.specs.Shares.{Term as Share};
ghost use Rattle.rule_tables.specs.ExtraOf.{IsSlotOf, IsTermAs};
ghost use Rattle.flat_terms.specs.Scene.{Scene, occ as occ_at, computed_needs as needs_at, given_needs as given_needs_at};
ghost use Rattle.flat_terms.specs.Sites.{IsSiteOf, IsNamedComp};
ghost use Rattle.flat_terms.specs.Terms.{IsNamedAs, slots_of_pieces};

use crate::leaves::Here;
use crate::needs::computed_needs;
use crate::places::added_occ;
use crate::site::Site;
use crate::tails::Tails;
use crate::terms::Added;
use flat_grammar::Occ;
use lido_base::Memory;
use numbered_computations::Computations;
use rule_tables::{Piece, SlotAt, Tables, Term};
use std::alloc::Global;

/// The attributes that are joined.
fn piece_slots(alloc: Global, pieces: &[Piece]) -> Result<Vec<SlotAt>, Memory>
    ensures { IfOk result (λ found. found.items ≡ slots_of_pieces pieces.now) }
{
    let mut found = Vec::new(alloc);
    for piece in pieces {
        match *piece {
            Piece::Read(at) | Piece::Single(at) => found.push(at)?,
            Piece::Null => {}
        }
    }
    Ok(found)
}

/// The attributes of occurrences that an expansion names, in order.
fn added_occs(
    alloc: Global,
    site: &Site,
    tables: &Tables,
    slots: &[SlotAt],
) -> Result<Vec<Occ>, Memory>
    ensures { IfOk result (λ found. (scene : Scene) → IsSiteOf scene site.now → (named : List (ℕ × Named))
        → AllZip (IsSlotOf tables.now scene.plain) slots.now named → found.items ≡ map (λ (o : ℕ × Named). occ_at scene o.0 o.1) named) }
{
    let mut found = Vec::new(alloc);
    for at in slots {
        found.push(added_occ(site, tables, *at))?;
    }
    Ok(found)
}

/// What the written computation of that number depends on in that context.
pub fn held_needs(
    alloc: Global,
    site: &Site,
    tails: &Tails,
    computations: &Computations,
    number: u32,
    context: u16,
) -> Result<Vec<Occ>, Memory>
    ensures { IfOk result (λ found. (scene : Scene) → IsSiteOf scene site.now → (body : Body) (c : Written)
        → held_at computations.now number ≡ Some (body, c) → IsNamedComp scene site.now tails.now c
        → found.items ≡ needs_at scene context c) }
{
    match computations.at(number) {
        None => Ok(Vec::new(alloc)),
        Some(held) => {
            let here = Here {
                site,
                holder: held.holder,
                context,
            };
            computed_needs(alloc, &here, tails, held.comp)
        }
    }
}

/// What an added attribute depends on, in the flat grammar. It takes time linear in the term, the computation that is copied and
/// what stands for its leaves.
pub fn given_needs(
    alloc: Global,
    site: &Site,
    tails: &Tails,
    added: &Added,
    term: &Term,
) -> Result<Vec<Occ>, Memory>
    ensures { IfOk result (λ found. (scene : Scene) → IsSiteOf scene site.now → (e : Share) → IsTermAs added.now.tables.now scene.plain term.now e
        → IsNamedAs scene site.now tails.now added.now term.now e → found.items ≡ given_needs_at scene e) }
{
    match term {
        Term::Read(at) => added_occs(alloc, site, added.tables, &[*at]),
        Term::Copied(number) => held_needs(alloc, site, tails, added.computations, *number, 0),
        Term::Void(slots) => added_occs(alloc, site, added.tables, slots.as_slice()),
        Term::Joined(_, pieces) => {
            let slots = piece_slots(alloc, pieces.as_slice())?;
            added_occs(alloc, site, added.tables, slots.as_slice())
        }
    }
}
