//! Names that are declared with two types, and terminals that are classes or nonterminals.
ghost use Rattle.std.specs.Prelude.{◌≡◌, OnOk, IfOk};
ghost use Rattle.lido_syntax.specs.declared.spec.Typed1.{Typed1 as Typed};
ghost use Rattle.kind_clashes.specs.Firsts.{AreFirsts, HasNoted};
ghost use Rattle.kind_clashes.specs.Least.{IsFirst, Among};
ghost use Rattle.kind_clashes.specs.Types.{IsOther, IsTypedBehind, IsSecondType, IsSecondOfType, IsMisnamed, IsFaultyTerm};
ghost use Rattle.kind_clashes.specs.Sets.{AreNameSets};

use crate::firsts::{Firsts, if_behind};
use crate::least::earlier;
use crate::sets::NameSets;
use lido_base::{Memory, ValueType};
use lido_syntax::{Spec, Typed1};
use std::alloc::Global;

const TYPES: [ValueType; 5] = [
    ValueType::Int,
    ValueType::Str,
    ValueType::Bool,
    ValueType::Text,
    ValueType::Void,
];

fn note_other(firsts: &mut Firsts, typed: Typed1, ty: ValueType) -> Result<(), Memory>
    ensures { OnOk result (HasNoted (IsOther ty typed) firsts.old firsts.new) }
{
    if typed.ty == ty {
        return Ok(());
    }
    firsts.note(typed.name)
}

/// The first places of those with another type.
fn firsts_of_others(alloc: Global, typed: &[Typed1], ty: ValueType) -> Result<Firsts, Memory>
    ensures { IfOk result (AreFirsts (λ id. Among (λ (x : Typed). IsOther ty x id) typed.now)) }
{
    let mut firsts = Firsts::new(alloc);
    for one in typed {
        note_other(&mut firsts, *one, ty)?;
    }
    Ok(firsts)
}

fn if_typed_behind(firsts: &Firsts, typed: Typed1, ty: ValueType) -> Option<u32>
    ensures { IsFirst (IsTypedBehind ty firsts.now typed) result }
{
    if typed.ty == ty {
        if_behind(firsts, typed.name)
    } else {
        None
    }
}

fn least_typed_behind(firsts: &Firsts, typed: &[Typed1], ty: ValueType) -> Option<u32>
    ensures { IsFirst (Among (IsTypedBehind ty firsts.now) typed.now) result }
{
    let mut least = None;
    for one in typed {
        least = earlier(least, if_typed_behind(firsts, *one, ty));
    }
    least
}

/// The least place of a declaration of this type behind one of another type.
fn second_of_type(alloc: Global, typed: &[Typed1], ty: ValueType) -> Result<Option<u32>, Memory>
    ensures { IfOk result (IsFirst (IsSecondOfType typed.now ty)) }
{
    let firsts = firsts_of_others(alloc, typed, ty)?;
    Ok(least_typed_behind(&firsts, typed, ty))
}

/// The least place of a declaration of a name behind one with another type. The time is linear in the list.
pub fn second_type(alloc: Global, typed: &[Typed1]) -> Result<Option<u32>, Memory>
    ensures { IfOk result (IsFirst (IsSecondType typed.now)) }
{
    let mut least = None;
    for ty in &TYPES {
        least = earlier(least, second_of_type(alloc, typed, *ty)?);
    }
    Ok(least)
}

fn misnamed(sets: &NameSets, term: Typed1) -> Option<u32>
    ensures { IsFirst (IsMisnamed sets.now term) result }
{
    if sets.classes.has(term.name.id) || sets.nonterminals.has(term.name.id) {
        Some(term.name.at)
    } else {
        None
    }
}

fn least_misnamed(sets: &NameSets, terms: &[Typed1]) -> Option<u32>
    ensures { IsFirst (Among (IsMisnamed sets.now) terms.now) result }
{
    let mut least = None;
    for term in terms {
        least = earlier(least, misnamed(sets, *term));
    }
    least
}

/// The least place of a terminal's declaration whose name is a class or stands on a left side, or had another type before.
pub fn faulty_term(alloc: Global, spec: &Spec, sets: &NameSets) -> Result<Option<u32>, Memory>
    requires { AreNameSets spec.now sets.now }
    ensures { IfOk result (IsFirst (IsFaultyTerm spec.now)) }
{
    let terms = spec.terms.as_slice();
    Ok(earlier(least_misnamed(sets, terms), second_type(alloc, terms)?))
}
