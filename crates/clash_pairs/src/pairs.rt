//! Attributes with two kinds or two types.
ghost use Rattle.std.specs.Prelude.{◌≡◌, ◌++◌, flat_map, IfOk, OnOk};
ghost use Rattle.lido_base.specs.Environment.{Environment};
ghost use Rattle.lido_symbols.specs.Numbers.{AreNumbered};
ghost use Rattle.kind_clashes.specs.Least.{IsFirst};
ghost use Rattle.kind_clashes.specs.KindClash.{IsTwofold};
ghost use Rattle.kind_clashes.specs.Sets.{AreNameSets};
ghost use Rattle.symbol_attributes.specs.Inheritance.{IsInheritance};
ghost use Rattle.clash_pairs.specs.Facts.{kinds_of_text, types_of_items};
ghost use Rattle.clash_pairs.specs.Numbered.{AreAllNumbered};
ghost use Rattle.clash_pairs.specs.Twofold.{said_if_any, attr_kinds, attr_types, passes, kind_if_passed, type_if_passed};
ghost use Rattle.clash_pairs.specs.Twofold.{kinds_on, types_on, IsTwofoldOn, IsTwofoldOnAny};

use crate::items::{KindFact, TypeFact, type_facts};
use crate::kinds::{SaidKind, second_kind};
use crate::sides::kind_facts;
use kind_clashes::{NameSets, earlier, second_type};
use lido_base::{Memory, StrId};
use lido_symbols::Names;
use lido_syntax::{Decl, Spec, Typed1};
use std::alloc::Global;
use symbol_attributes::Inheritance;

/// What a text says of the kinds and types of attributes: on symbols, and by ATTR on all.
#[derive(Drop)]
pub struct Facts {
    pub kinds: Vec<KindFact>,
    pub types: Vec<TypeFact>,
    pub attrs: Vec<SaidKind>,
}

fn push_said(said: &mut Vec<SaidKind>, decl: Decl) -> Result<(), Memory>
    ensures { OnOk result (said.new.items ≡ said.old.items ++ said_if_any decl.attr decl.kind) }
{
    if let Some(kind) = decl.kind {
        said.push(SaidKind {
            attr: decl.attr,
            kind,
        })?;
    }
    Ok(())
}

/// The kinds that declarations say.
fn kinds_of(alloc: Global, decls: &[Decl]) -> Result<Vec<SaidKind>, Memory>
    ensures { IfOk result (λ said. said.items ≡ attr_kinds decls.now) }
{
    let mut said = Vec::new(alloc);
    for decl in decls {
        push_said(&mut said, *decl)?;
    }
    Ok(said)
}

/// The types that declarations say.
fn types_of(alloc: Global, decls: &[Decl]) -> Result<Vec<Typed1>, Memory>
    ensures { IfOk result (λ typed. typed.items ≡ attr_types decls.now) }
{
    let mut typed = Vec::new(alloc);
    for decl in decls {
        typed.push(Typed1 {
            name: decl.attr,
            ty: decl.ty,
        })?;
    }
    Ok(typed)
}

/// Whether symbol `u` has what is said on symbol `y`.
fn is_passed(inheritance: &Inheritance, u: usize, y: usize) -> bool
    ensures { result ≡ passes inheritance.now u y }
{
    u == y || inheritance.inherits(u, y)
}

fn push_kind(
    said: &mut Vec<SaidKind>,
    inheritance: &Inheritance,
    u: usize,
    fact: KindFact,
) -> Result<(), Memory>
    ensures { OnOk result (said.new.items ≡ said.old.items ++ kind_if_passed inheritance.now u fact) }
{
    if is_passed(inheritance, u, fact.symbol) {
        said.push(fact.said)?;
    }
    Ok(())
}

fn push_kinds(
    said: &mut Vec<SaidKind>,
    inheritance: &Inheritance,
    u: usize,
    facts: &[KindFact],
) -> Result<(), Memory>
    ensures { OnOk result (said.new.items ≡ said.old.items ++ flat_map (kind_if_passed inheritance.now u) facts.now) }
{
    for fact in facts {
        push_kind(said, inheritance, u, *fact)?;
    }
    Ok(())
}

fn push_type(
    typed: &mut Vec<Typed1>,
    inheritance: &Inheritance,
    u: usize,
    fact: TypeFact,
) -> Result<(), Memory>
    ensures { OnOk result (typed.new.items ≡ typed.old.items ++ type_if_passed inheritance.now u fact) }
{
    if is_passed(inheritance, u, fact.symbol) {
        typed.push(fact.typed)?;
    }
    Ok(())
}

fn push_types(
    typed: &mut Vec<Typed1>,
    inheritance: &Inheritance,
    u: usize,
    facts: &[TypeFact],
) -> Result<(), Memory>
    ensures { OnOk result (typed.new.items ≡ typed.old.items ++ flat_map (type_if_passed inheritance.now u) facts.now) }
{
    for fact in facts {
        push_type(typed, inheritance, u, *fact)?;
    }
    Ok(())
}

impl Facts {
    /// What a specification says.
    fn of(alloc: Global, spec: &Spec, numbers: &Names, sets: &NameSets) -> Result<Facts, Memory>
        ensures kinds { IfOk result (λ facts. facts.kinds.items ≡ kinds_of_text numbers.now sets.now.chains spec.now) }
        ensures types { IfOk result (λ facts. facts.types.items ≡ types_of_items numbers.now spec.now.symbols) }
        ensures attrs { IfOk result (λ facts. facts.attrs.items ≡ attr_kinds spec.now.attrs) }
    {
        let kinds = kind_facts(alloc, spec, numbers, &sets.chains)?;
        let types = type_facts(alloc, numbers, spec.symbols.as_slice())?;
        let attrs = kinds_of(alloc, spec.attrs.as_slice())?;
        Ok(Facts {
            kinds,
            types,
            attrs,
        })
    }

    /// The kinds of the attributes of symbol `u`.
    fn kinds_on(
        &self,
        alloc: Global,
        inheritance: &Inheritance,
        u: usize,
    ) -> Result<Vec<SaidKind>, Memory>
        ensures { IfOk result (λ said. said.items ≡ kinds_on inheritance.now self.now u) }
    {
        let mut said = Vec::new(alloc);
        said.extend_from_slice(&self.attrs)?;
        push_kinds(&mut said, inheritance, u, &self.kinds)?;
        Ok(said)
    }

    /// The types of the attributes of symbol `u` that SYMBOL items declare.
    fn types_on(
        &self,
        alloc: Global,
        inheritance: &Inheritance,
        u: usize,
    ) -> Result<Vec<Typed1>, Memory>
        ensures { IfOk result (λ typed. typed.items ≡ types_on inheritance.now self.now u) }
    {
        let mut typed = Vec::new(alloc);
        push_types(&mut typed, inheritance, u, &self.types)?;
        Ok(typed)
    }

    /// The least place where an attribute of symbol `u` gets a second kind or type.
    fn twofold_on(
        &self,
        alloc: Global,
        inheritance: &Inheritance,
        u: usize,
    ) -> Result<Option<u32>, Memory>
        ensures { IfOk result (IsFirst (IsTwofoldOn inheritance.now self.now u)) }
    {
        let kinds = self.kinds_on(alloc, inheritance, u)?;
        let types = self.types_on(alloc, inheritance, u)?;
        let of_kinds = second_kind(alloc, &kinds)?;
        Ok(earlier(of_kinds, second_type(alloc, &types)?))
    }

    /// The least place where an attribute of a symbol gets a second kind or type.
    fn twofold_on_any(
        &self,
        alloc: Global,
        inheritance: &Inheritance,
        numbers: &Names,
    ) -> Result<Option<u32>, Memory>
        ensures { IfOk result (IsFirst (IsTwofoldOnAny numbers.now inheritance.now self.now)) }
    {
        let mut least = None;
        for symbol in numbers.as_slice() {
            let u = numbers.number(StrId(*symbol));
            least = earlier(least, self.twofold_on(alloc, inheritance, u)?);
        }
        Ok(least)
    }
}

/// The least place where an attribute gets a second kind or type.
pub fn twofold(
    alloc: Global,
    spec: &Spec,
    sets: &NameSets,
    numbers: &Names,
    inheritance: &Inheritance,
) -> Result<Option<u32>, Memory>
    requires sets { AreNameSets spec.now sets.now }
    requires numbered { AreAllNumbered spec.now numbers.now }
    requires inheritance { IsInheritance spec.now numbers.now inheritance.now }
    ensures { IfOk result (IsFirst (IsTwofold spec.now)) }
{
    let facts = Facts::of(alloc, spec, numbers, sets)?;
    let types = types_of(alloc, spec.attrs.as_slice())?;
    let by_attr = earlier(
        second_kind(alloc, &facts.attrs)?,
        second_type(alloc, &types)?,
    );
    let on_symbols = facts.twofold_on_any(alloc, inheritance, numbers)?;
    Ok(earlier(by_attr, on_symbols))
}
