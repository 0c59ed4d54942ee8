//! Copies of written expressions in a plain rule.
ghost use Rattle.std.specs.Prelude.{◌≡◌, ◌≤◌, ℕ, Some, option_map, Contains, IfOk};
ghost use Rattle.lido_base.specs.declared.ids.StrId.{StrId as Id};
ghost use Rattle.lido_syntax.specs.declared.spec.Expr.{Expr as Written};
ghost use Rattle.lido_syntax.specs.Parts.{leaves};
ghost use Rattle.lido_base.specs.Environment.{Environment};
ghost use Rattle.lido_syntax.specs.Coordinates.{coordinate_named, part_named};
ghost use Rattle.lido_syntax.specs.Functions.{text_of};
ghost use Rattle.flat_grammar.specs.declared.flat.FlatExpr.{FlatExpr as Flat};
ghost use Rattle.flat_copies.specs.Copied.{AreKnown};
ghost use Rattle.rule_tables.specs.Copies.{nothing};
ghost use Rattle.flat_terms.specs.Names.{holder_as, tail_in};
ghost use Rattle.flat_terms.specs.Scene.{Scene, bare as bare_at, read as read_at, copy_of, tail_of, tail_term, computed as computed_at};
ghost use Rattle.flat_terms.specs.Sites.{tail_chain, IsSiteOf, IsNamed, IsNamedTail, IsNamedTerm, IsNamedComp};
ghost use Rattle.flat_terms.specs.Given.{IsLeaf, IsTailedLeaf, IsEntered};

use crate::folds::below;
use crate::site::{Site, narrow};
use crate::tails::{Tail, Tails};
use flat_copies::{Leaves, copy};
use flat_grammar::FlatExpr;
use flat_slots::Slot;
use lido_base::{CoordPart, Memory, StrId, Strings, Value};
use lido_syntax::{Comp, Expr, Name, Place};
use numbered_computations::{Held, Holder};
use std::alloc::Global;

/// Where a computation is in force: the plain rule, whose body it stands in, and the occurrence whose node is its context.
#[derive(Clone, Copy)]
pub struct Here<'a> {
    pub site: &'a Site<'a>,
    pub holder: Holder,
    pub context: u16,
}

/// Where a computation is in force that may have a TAIL.
#[derive(Clone, Copy)]
struct Tailed<'a> {
    here: Here<'a>,
    tails: &'a Tails<'a>,
}

/// The coordinate of that name.
fn part(strings: &Strings, id: StrId) -> Option<CoordPart>
    ensures { (env : Environment) → env.texts ≡ strings.now → result ≡ part_named (text_of env id.0) }
{
    if id.0 as usize >= strings.len() {
        return None;
    }
    let text = strings.bytes(id);
    if text == b"LINE".as_slice() {
        Some(CoordPart::Line)
    } else if text == b"COL".as_slice() {
        Some(CoordPart::Col)
    } else {
        None
    }
}

/// The coordinate that a bare name means, if it means one.
fn coordinate(here: &Here, name: Name, index: Option<i64>) -> Option<CoordPart>
    ensures { (env : Environment) → env.texts ≡ here.now.site.now.strings.now
        → result ≡ coordinate_named env (holder_as here.now.holder) here.now.site.now.rule.now name index }
{
    if index.is_some() {
        return None;
    }
    match here.holder {
        Holder::Rule if here.site.has(name.id) => None,
        Holder::Rule | Holder::Symbol => part(here.site.strings, name.id),
    }
}

/// What a bare name gives.
fn bare(here: &Here, name: Name, index: Option<i64>) -> FlatExpr
    ensures { (scene : Scene) → IsSiteOf scene here.now.site.now
        → (tail : ℕ → Flat) → result ≡ bare_at scene tail (holder_as here.now.holder) here.now.context name index }
{
    if let Some(part) = coordinate(here, name, index) {
        return FlatExpr::Coord(part);
    }
    match here.site.occurrence(name, index) {
        Some(k) => FlatExpr::Terminal(narrow(k)),
        None => FlatExpr::Value(Value::Void),
    }
}

/// What an attribute or a chain gives at a place. TAIL gives nothing here.
fn read(here: &Here, place: &Place, name: StrId) -> FlatExpr
    ensures { (scene : Scene) → IsSiteOf scene here.now.site.now
        → result ≡ read_at scene (λ chain. nothing) (holder_as here.now.holder) here.now.context place.now name.0 }
{
    let site = here.site;
    match place {
        Place::Named(x, index) => match site.occurrence(*x, *index) {
            Some(k) => site.get(narrow(k), site.seen(name)),
            None => FlatExpr::Value(Value::Void),
        },
        Place::Tail => FlatExpr::Value(Value::Void),
        Place::Synt | Place::Inh | Place::This => site.get(here.context, site.seen(name)),
    }
}

impl Leaves for Here<'_> {
    ghost Gives = { IsLeaf };

    fn leaf(&self, alloc: Global, part: &Expr) -> Result<FlatExpr, Memory> {
        match part {
            Expr::Int(_, number) => Ok(FlatExpr::Value(Value::Int(*number))),
            Expr::Str(_, text) => Ok(FlatExpr::Value(Value::Str(*text))),
            Expr::Bool(_, truth) => Ok(FlatExpr::Value(Value::Bool(*truth))),
            Expr::Terminal(name, index) => Ok(bare(self, *name, *index)),
            Expr::Read(_, place, name) => Ok(read(self, place, name.id)),
            Expr::Including(at, _) => Ok(
                self.site
                    .get(self.context, Slot::Inc(self.site.sets.number(*at))),
            ),
            Expr::Constituents(cons) => below(alloc, self.site, cons.get()),
            Expr::Call(..) => Ok(FlatExpr::Value(Value::Void)),
        }
    }
}

/// The expression of a computation that starts a chain, where it is copied for TAIL.
fn entered(alloc: Global, site: &Site, held: Held) -> Result<FlatExpr, Memory>
    ensures { IfOk result (IsEntered site.now (holder_as held.entry.holder) held.entry.comp.now) }
{
    let here = Here {
        site,
        holder: held.holder,
        context: 0,
    };
    let comp = narrow(held.comp.number as usize);
    copy(alloc, site.strings, site.ops, &here, comp, &held.comp.value)
}

/// What TAIL of the chain gives.
fn tail(alloc: Global, site: &Site, tails: &Tails, chain: StrId) -> Result<FlatExpr, Memory>
    ensures { IfOk result (λ made. (scene : Scene) → IsSiteOf scene site.now → tail_in tails.now chain.0 ≡ Some (tail_term scene chain.0)
        → IsNamedTerm scene site.now (tail_term scene chain.0) → made ≡ tail_of scene chain.0) }
{
    match tails.at(chain) {
        None => Ok(FlatExpr::Value(Value::Void)),
        Some(Tail::Child(j)) => Ok(site.get(j, Slot::Behind(chain))),
        Some(Tail::Front) => Ok(site.get(0, Slot::Front(chain))),
        Some(Tail::Start(held)) => entered(alloc, site, held),
    }
}

/// The chain of a TAIL.
pub fn chain_of(part: &Expr) -> Option<StrId>
    ensures { option_map (λ (id : Id). id.0) result ≡ tail_chain part.now }
{
    match part {
        Expr::Read(_, Place::Tail, name) => Some(name.id),
        Expr::Read(_, Place::Named(..) | Place::Synt | Place::Inh | Place::This, _)
        | Expr::Int(..)
        | Expr::Str(..)
        | Expr::Bool(..)
        | Expr::Terminal(..)
        | Expr::Including(..)
        | Expr::Constituents(_)
        | Expr::Call(..) => None,
    }
}

impl Leaves for Tailed<'_> {
    ghost Gives = { IsTailedLeaf };

    fn leaf(&self, alloc: Global, part: &Expr) -> Result<FlatExpr, Memory> {
        match chain_of(part) {
            Some(chain) => tail(alloc, self.here.site, self.tails, chain),
            None => self.here.leaf(alloc, part),
        }
    }
}

/// An expression of the computation of that number, in the flat grammar.
pub fn copied(
    alloc: Global,
    here: &Here,
    tails: &Tails,
    number: u32,
    value: &Expr,
) -> Result<FlatExpr, Memory>
    ensures { IfOk result (λ made. (scene : Scene) → IsSiteOf scene here.now.site.now → number ≤ 65535
        → AreKnown scene.env here.now.site.now.ops.now value.now
        → ((leaf : Written) → Contains (leaves value.now) leaf → IsNamed scene here.now.site.now leaf × IsNamedTail scene here.now.site.now tails.now leaf)
        → made ≡ copy_of scene (tail_of scene) (holder_as here.now.holder) here.now.context number value.now) }
{
    let tailed = Tailed { here: *here, tails };
    let site = here.site;
    copy(
        alloc,
        site.strings,
        site.ops,
        &tailed,
        narrow(number as usize),
        value,
    )
}

/// What a computation gives, in the flat grammar. It takes time linear in its expression and what stands for its leaves.
pub fn computed(alloc: Global, here: &Here, tails: &Tails, comp: &Comp) -> Result<FlatExpr, Memory>
    ensures { IfOk result (λ made. (scene : Scene) → IsSiteOf scene here.now.site.now → IsNamedComp scene here.now.site.now tails.now comp.now
        → made ≡ computed_at scene (holder_as here.now.holder) here.now.context comp.now) }
{
    copied(alloc, here, tails, comp.number, &comp.value)
}
