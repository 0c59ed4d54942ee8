//! Whether each symbol's row of visits is right.
ghost use Rattle.std.specs.Prelude.{◌≡◌, ◌≤◌, ◌↔◌, All, IsTrue, IfOk, flat_map, length};
ghost use Rattle.std.specs.List.{AllZip};
ghost use Rattle.lido_base.specs.declared.ids.AttrId.{AttrId as Attribute};
ghost use Rattle.flat_grammar.specs.SoundPlan.{IsAttribute, IsRow, of_kind};
ghost use Rattle.sequence_checker.specs.Rows.{AreNumbered, HasMembers, class_part, has_attribute};

use crate::set::Occurrences;
use flat_grammar::{FlatSymbol, Occ, VisitClass};
use lido_base::{AttrId, Kind, List, Memory};
use std::alloc::{AllocError, Global};

/// What the class has of one kind.
fn part(kind: Kind, class: &VisitClass) -> &[AttrId]
    ensures { result.now ≡ class_part kind class.now }
{
    match kind {
        Kind::Inherited => class.inherited.as_slice(),
        Kind::Synthesized => class.synthesized.as_slice(),
    }
}

/// The attributes of one kind in a row, class by class.
fn attributes_of_kind(
    alloc: Global,
    kind: Kind,
    row: &[VisitClass],
) -> Result<Vec<AttrId>, AllocError>
    ensures { IfOk result (λ attrs. attrs.items ≡ flat_map (class_part kind) row.now) }
{
    let mut attrs = Vec::new(alloc);
    for class in row {
        attrs.extend_from_slice(part(kind, class))?;
    }
    Ok(attrs)
}

/// The attribute as an occurrence at place 0.
fn at_left(attr: AttrId) -> Occ
    ensures { result ≡ record { occ = 0; attr = attr } }
{
    Occ { occ: 0, attr }
}

/// Whether the number is that of an attribute of this kind.
fn is_of_kind(symbol: &FlatSymbol, kind: Kind, attr: AttrId) -> bool
    ensures { IsTrue result ↔ IsAttribute symbol.now kind attr }
{
    match symbol.attrs.as_slice().get(attr.0 as usize) {
        Some(found) => found.kind == kind,
        None => false,
    }
}

/// The set of these numbers, if each is that of an attribute of this kind and none comes twice.
fn members(
    alloc: Global,
    symbol: &FlatSymbol,
    kind: Kind,
    attrs: &[AttrId],
) -> Result<Option<Occurrences>, Memory>
    ensures { IfOk result (HasMembers symbol.now kind attrs.now) }
{
    let mut set = Occurrences::new(alloc);
    for attr in attrs {
        if !is_of_kind(symbol, kind, *attr) {
            return Ok(None);
        }
        if set.has(at_left(*attr)) {
            return Ok(None);
        }
        set.add(at_left(*attr))?;
    }
    Ok(Some(set))
}

/// Whether the set has all attributes of this kind.
fn has_all_of_kind(symbol: &FlatSymbol, kind: Kind, set: &Occurrences) -> bool
    requires { length symbol.now.attrs ≤ 256 }
    ensures { IsTrue result ↔ ((attr : Attribute) → IsAttribute symbol.now kind attr → IsTrue (has_attribute set.now attr)) }
{
    for k in 0..symbol.attrs.len() {
        let attr = AttrId(k as u16);
        if is_of_kind(symbol, kind, attr) && !set.has(at_left(attr)) {
            return false;
        }
    }
    true
}

/// Whether the row has each of the symbol's attributes of this kind once, and nothing else of this kind.
fn numbers_kind(
    alloc: Global,
    symbol: &FlatSymbol,
    kind: Kind,
    row: &[VisitClass],
) -> Result<bool, Memory>
    requires { length symbol.now.attrs ≤ 256 }
    ensures { IfOk result (λ right. IsTrue right ↔ AreNumbered symbol.now kind (of_kind kind row.now)) }
{
    let attrs = attributes_of_kind(alloc, kind, row)?;
    match members(alloc, symbol, kind, &attrs)? {
        Some(set) => Ok(has_all_of_kind(symbol, kind, &set)),
        None => Ok(false),
    }
}

/// Whether it is a right row of visits for the symbol.
fn is_row(alloc: Global, symbol: &FlatSymbol, row: &[VisitClass]) -> Result<bool, Memory>
    requires { length symbol.now.attrs ≤ 256 }
    ensures { IfOk result (λ right. IsTrue right ↔ IsRow symbol.now row.now) }
{
    if symbol.terminal.is_some() != row.is_empty() {
        return Ok(false);
    }
    if !numbers_kind(alloc, symbol, Kind::Inherited, row)? {
        return Ok(false);
    }
    numbers_kind(alloc, symbol, Kind::Synthesized, row)
}

/// Whether each symbol has its row of visits.
pub fn are_rows(
    alloc: Global,
    symbols: &[FlatSymbol],
    visits: &[List<VisitClass>],
) -> Result<bool, Memory>
    requires { All (λ symbol. length symbol.attrs ≤ 256) symbols.now }
    ensures { IfOk result (λ right. IsTrue right ↔ AllZip IsRow symbols.now visits.now) }
{
    if symbols.len() != visits.len() {
        return Ok(false);
    }
    for (k, symbol) in symbols.iter().enumerate() {
        if !is_row(alloc, symbol, visits[k].as_slice())? {
            return Ok(false);
        }
    }
    Ok(true)
}
