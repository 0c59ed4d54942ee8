//! Attributes that are said to have two kinds.
ghost use Rattle.std.specs.Prelude.{◌≡◌, OnOk, IfOk};
ghost use Rattle.kind_clashes.specs.Firsts.{AreFirsts, HasNoted};
ghost use Rattle.kind_clashes.specs.Least.{IsFirst, Among};
ghost use Rattle.clash_pairs.specs.declared.kinds.SaidKind.{SaidKind as Said};
ghost use Rattle.clash_pairs.specs.Kinds.{IsOtherKind, IsReached, IsKindReached, IsSecondKind, IsSecondOfKind};

use kind_clashes::{Firsts, earlier};
use lido_base::{Kind, Memory};
use lido_syntax::Name;
use std::alloc::Global;

/// An attribute at its place, and the kind that it is said to have there.
#[derive(Clone, Copy, Debug, PartialEq, Eq)]
pub struct SaidKind {
    pub attr: Name,
    pub kind: Kind,
}

fn note_other(firsts: &mut Firsts, said: SaidKind, kind: Kind) -> Result<(), Memory>
    ensures { OnOk result (HasNoted (IsOtherKind kind said) firsts.old firsts.new) }
{
    if said.kind == kind {
        return Ok(());
    }
    firsts.note(said.attr)
}

/// The first places of those with another kind.
fn firsts_of_others(alloc: Global, said: &[SaidKind], kind: Kind) -> Result<Firsts, Memory>
    ensures { IfOk result (AreFirsts (λ id. Among (λ (x : Said). IsOtherKind kind x id) said.now)) }
{
    let mut firsts = Firsts::new(alloc);
    for one in said {
        note_other(&mut firsts, *one, kind)?;
    }
    Ok(firsts)
}

/// The name's place, if the name was noted there or at an earlier one.
fn if_reached(firsts: &Firsts, name: Name) -> Option<u32>
    ensures { IsFirst (λ at. IsReached firsts.now name × (at ≡ name.at)) result }
{
    match firsts.first(name.id) {
        Some(first) if first <= name.at => Some(name.at),
        _ => None,
    }
}

fn if_kind_reached(firsts: &Firsts, said: SaidKind, kind: Kind) -> Option<u32>
    ensures { IsFirst (IsKindReached kind firsts.now said) result }
{
    if said.kind == kind {
        if_reached(firsts, said.attr)
    } else {
        None
    }
}

fn least_kind_reached(firsts: &Firsts, said: &[SaidKind], kind: Kind) -> Option<u32>
    ensures { IsFirst (Among (IsKindReached kind firsts.now) said.now) result }
{
    let mut least = None;
    for one in said {
        least = earlier(least, if_kind_reached(firsts, *one, kind));
    }
    least
}

/// The least place where this kind is said and another one there or before.
fn second_of_kind(alloc: Global, said: &[SaidKind], kind: Kind) -> Result<Option<u32>, Memory>
    ensures { IfOk result (IsFirst (IsSecondOfKind said.now kind)) }
{
    let firsts = firsts_of_others(alloc, said, kind)?;
    Ok(least_kind_reached(&firsts, said, kind))
}

/// The least place where a kind of an attribute is said, and another one there or before. The time is linear in the list.
pub fn second_kind(alloc: Global, said: &[SaidKind]) -> Result<Option<u32>, Memory>
    ensures { IfOk result (IsFirst (IsSecondKind said.now)) }
{
    let synthesized = second_of_kind(alloc, said, Kind::Synthesized)?;
    Ok(earlier(synthesized, second_of_kind(alloc, said, Kind::Inherited)?))
}
