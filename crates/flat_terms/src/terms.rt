//! What added attributes are given in a plain rule.
ghost use Rattle.std.specs.Prelude.{◌≡◌, ◌≤◌, Some, IfOk};
ghost use Rattle.rule_tables.specs.Shares.{Term as Share};
ghost use Rattle.rule_tables.specs.ExtraOf.{IsPieceAs, AreJoined, IsTermAs};
ghost use Rattle.lido_syntax.specs.declared.spec.Comp.{Comp as Written};
ghost use Rattle.numbered_computations.specs.declared.table.Holder.{Holder as Body};
ghost use Rattle.numbered_computations.specs.Held.{held_at};
ghost use Rattle.flat_terms.specs.Names.{holder_as};
ghost use Rattle.flat_terms.specs.Scene.{Scene, value_of, computed as computed_at, given as given_at};
ghost use Rattle.flat_terms.specs.Sites.{IsSiteOf, IsKnownWith, IsNamedComp};
ghost use Rattle.flat_terms.specs.Terms.{lone_read as read_alone, HasWith, IsJoinedWith, IsNamedAs};

use crate::folds::{comb, null, single};
use crate::leaves::{Here, computed};
use crate::places::added_occ;
use crate::site::Site;
use crate::tails::Tails;
use crate::withs::Withs;
use flat_grammar::FlatExpr;
use lido_base::{Memory, Value};
use lido_syntax::With;
use numbered_computations::Computations;
use rule_tables::{Piece, SlotAt, Tables, Term};
use std::alloc::Global;

/// What the terms of added attributes name: the tables, the written computations and the WITHs by their numbers.
#[derive(Clone, Copy)]
pub struct Added<'a> {
    pub tables: &'a Tables,
    pub computations: &'a Computations<'a>,
    pub withs: &'a Withs,
}

/// What a CONSTITUENTS of that number joins.
fn piece(
    alloc: Global,
    site: &Site,
    tables: &Tables,
    number: u32,
    with: With,
    part: Piece,
) -> Result<FlatExpr, Memory>
    ensures { IfOk result (λ made. (scene : Scene) → IsSiteOf scene site.now → IsKnownWith scene site.now with → number ≤ 65535
        → (e : Share) → IsPieceAs tables.now scene.plain number part e → HasWith with e → made ≡ value_of scene e) }
{
    match part {
        Piece::Read(at) => Ok(FlatExpr::Read(added_occ(site, tables, at))),
        Piece::Single(at) => {
            let value = FlatExpr::Read(added_occ(site, tables, at));
            single(alloc, site, number, with, value)
        }
        Piece::Null => Ok(null(alloc, site, number, with)),
    }
}

/// The pieces that a CONSTITUENTS of that number joins, from the right. There is at least one.
fn joined(
    alloc: Global,
    site: &Site,
    tables: &Tables,
    number: u32,
    with: With,
    pieces: &[Piece],
) -> Result<FlatExpr, Memory>
    ensures { IfOk result (λ made. (scene : Scene) → IsSiteOf scene site.now → IsKnownWith scene site.now with → number ≤ 65535
        → (e : Share) → AreJoined tables.now scene.plain number pieces.now e → HasWith with e → made ≡ value_of scene e) }
{
    if pieces.is_empty() {
        return Ok(null(alloc, site, number, with));
    }
    let mut k = pieces.len() - 1;
    let mut made = piece(alloc, site, tables, number, with, pieces[k])?;
    while k > 0 {
        k -= 1;
        let one = piece(alloc, site, tables, number, with, pieces[k])?;
        made = comb(alloc, site, number, with, one, made)?;
    }
    Ok(made)
}

/// The attribute, where nothing but this is read.
fn lone_read(pieces: &[Piece]) -> Option<SlotAt>
    ensures { result ≡ read_alone pieces.now }
{
    match pieces {
        [Piece::Read(at)] => Some(*at),
        _ => None,
    }
}

/// What a CONSTITUENTS of that number joins of these pieces: with its WITH, but for a read alone.
fn joined_with(
    alloc: Global,
    site: &Site,
    added: &Added,
    number: u32,
    pieces: &[Piece],
) -> Result<FlatExpr, Memory>
    ensures { IfOk result (λ made. (scene : Scene) → IsSiteOf scene site.now → (e : Share) → AreJoined added.now.tables.now scene.plain number pieces.now e
        → IsJoinedWith scene site.now added.now number e → made ≡ value_of scene e) }
{
    if let Some(at) = lone_read(pieces) {
        return Ok(FlatExpr::Read(added_occ(site, added.tables, at)));
    }
    match added.withs.at(number) {
        None => Ok(FlatExpr::Value(Value::Void)),
        Some(with) => joined(alloc, site, added.tables, number, with, pieces),
    }
}

/// What the written computation of that number gives in that context.
pub fn held_value(
    alloc: Global,
    site: &Site,
    tails: &Tails,
    computations: &Computations,
    number: u32,
    context: u16,
) -> Result<FlatExpr, Memory>
    ensures { IfOk result (λ made. (scene : Scene) → IsSiteOf scene site.now → (body : Body) (c : Written)
        → held_at computations.now number ≡ Some (body, c) → IsNamedComp scene site.now tails.now c
        → made ≡ computed_at scene (holder_as body) context c) }
{
    match computations.at(number) {
        None => Ok(FlatExpr::Value(Value::Void)),
        Some(held) => {
            let here = Here {
                site,
                holder: held.holder,
                context,
            };
            computed(alloc, &here, tails, held.comp)
        }
    }
}

/// What an added attribute is given. It takes time linear in the term, the expression that is copied and what stands for its
/// leaves.
pub fn given(
    alloc: Global,
    site: &Site,
    tails: &Tails,
    added: &Added,
    term: &Term,
) -> Result<FlatExpr, Memory>
    ensures { IfOk result (λ made. (scene : Scene) → IsSiteOf scene site.now → (e : Share) → IsTermAs added.now.tables.now scene.plain term.now e
        → IsNamedAs scene site.now tails.now added.now term.now e → made ≡ given_at scene e) }
{
    match term {
        Term::Read(at) => Ok(FlatExpr::Read(added_occ(site, added.tables, *at))),
        Term::Copied(number) => { held_value(alloc, site, tails, added.computations, *number, 0) }
        Term::Void(_) => Ok(FlatExpr::Value(Value::Void)),
        Term::Joined(number, pieces) => joined_with(alloc, site, added, *number, pieces.as_slice()),
    }
}
