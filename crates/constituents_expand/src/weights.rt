//! What a CONSTITUENTS is given at the left sides of plain rules.
ghost use Rattle.std.specs.Prelude.{◌≡◌, ◌<◌, ◌≤◌, ◌^◌, ◌++◌, map, length, option_to_list, IfOk, OnOk};
ghost use Rattle.least_paths.specs.Graph.{is_in};
ghost use Rattle.constituents_expand.specs.Weights.{source_in, is_closed as is_closed_at, own_at, child_slot as slot_of, child_slots as slots_of, below_at, ends as ends_at, null_if, single_of, read_of, weight as weight_of};

use flat_grammar::FlatRule;
use lido_base::{AttrId, List, Memory, SymId, ValueType};
use rule_tables::{Piece, Slot, SlotAt, Term};
use std::alloc::Global;

/// A CONSTITUENTS with the symbols that have its attribute. Symbols and cells are named by their numbers.
#[derive(Drop)]
pub struct Gathering {
    /// Its number in the text.
    pub number: u32,
    /// The type of its WITH, if it has one.
    pub with: Option<ValueType>,
    /// For each symbol the attribute that it lists.
    pub sources: List<Option<AttrId>>,
    /// Which symbols are its shields.
    pub shields: List<bool>,
    /// Which symbols have its attribute.
    pub bearers: List<bool>,
}

/// Whether the symbol is in the set.
pub fn is_set(set: &[bool], symbol: SymId) -> bool
    ensures { result ≡ is_in set.now symbol.0 }
{
    match set.get(symbol.0 as usize) {
        Some(found) => *found,
        None => false,
    }
}

/// The attribute that it lists for the symbol.
fn source(gathering: &Gathering, symbol: SymId) -> Option<AttrId>
    ensures { result ≡ source_in gathering.now symbol.0 }
{
    match gathering.sources.as_slice().get(symbol.0 as usize) {
        Some(found) => *found,
        None => None,
    }
}

/// Whether the symbol is a source that is a shield: nothing below it is reached.
fn is_closed(gathering: &Gathering, symbol: SymId) -> bool
    ensures { result ≡ is_closed_at gathering.now symbol.0 }
{
    source(gathering, symbol).is_some() && is_set(gathering.shields.as_slice(), symbol)
}

/// The source at the left side, if it is one.
fn own(gathering: &Gathering, left: SymId) -> Option<SlotAt>
    ensures { result ≡ own_at gathering.now left.0 }
{
    match source(gathering, left) {
        Some(attribute) => Some(SlotAt {
            occ: 0,
            slot: Slot::Written(attribute),
        }),
        None => None,
    }
}

/// The attribute of a child, if it has it. Here children count from 0.
fn child_slot(gathering: &Gathering, j: usize, symbol: SymId) -> Option<SlotAt>
    requires { j < 1024 }
    ensures { result ≡ slot_of gathering.now (j, symbol) }
{
    if is_set(gathering.bearers.as_slice(), symbol) {
        Some(SlotAt {
            occ: (j + 1) as u16,
            slot: Slot::Con(gathering.number),
        })
    } else {
        None
    }
}

/// The attributes of the children that have it.
fn child_slots(alloc: Global, gathering: &Gathering, right: &[SymId]) -> Result<Vec<SlotAt>, Memory>
    requires { length right.now ≤ 1024 }
    ensures { IfOk result (λ slots. slots.items ≡ slots_of gathering.now right.now) }
{
    let mut slots = Vec::new(alloc);
    for (j, symbol) in right.iter().enumerate() {
        if let Some(slot) = child_slot(gathering, j, *symbol) {
            slots.push(slot)?;
        }
    }
    Ok(slots)
}

/// What is reached below the left side.
fn below(alloc: Global, gathering: &Gathering, rule: &FlatRule) -> Result<Vec<SlotAt>, Memory>
    requires { length rule.now.right ≤ 1024 }
    ensures { IfOk result (λ slots. slots.items ≡ below_at gathering.now rule.now) }
{
    if is_closed(gathering, rule.left) {
        return Ok(Vec::new(alloc));
    }
    child_slots(alloc, gathering, rule.right.as_slice())
}

/// The source, if there is one.
fn first_slot(alloc: Global, own: Option<SlotAt>) -> Result<Vec<SlotAt>, Memory>
    ensures { IfOk result (λ slots. slots.items ≡ option_to_list own) }
{
    let mut slots = Vec::new(alloc);
    if let Some(slot) = own {
        slots.push(slot)?;
    }
    Ok(slots)
}

/// What a CONSTITUENTS without WITH depends on.
fn needed(alloc: Global, own: Option<SlotAt>, below: &[SlotAt]) -> Result<Vec<SlotAt>, Memory>
    ensures { IfOk result (λ slots. slots.items ≡ option_to_list own ++ below.now) }
{
    let mut slots = first_slot(alloc, own)?;
    for slot in below {
        slots.push(*slot)?;
    }
    Ok(slots)
}

/// What the WITH makes of the source, if there is one.
fn first_piece(alloc: Global, own: Option<SlotAt>) -> Result<Vec<Piece>, Memory>
    ensures { IfOk result (λ pieces. pieces.items ≡ map single_of (option_to_list own)) }
{
    let mut pieces = Vec::new(alloc);
    if let Some(slot) = own {
        pieces.push(Piece::Single(slot))?;
    }
    Ok(pieces)
}

/// Adds null, if there is an end.
fn push_end(pieces: &mut Vec<Piece>, end: bool) -> Result<(), Memory>
    ensures { OnOk result (pieces.new.items ≡ pieces.old.items ++ null_if end) }
{
    if end {
        pieces.push(Piece::Null)?;
    }
    Ok(())
}

/// The pieces that a WITH joins: the source at the left side, what is below it, and at the end null, if there is an end.
fn pieces(
    alloc: Global,
    own: Option<SlotAt>,
    below: &[SlotAt],
    end: bool,
) -> Result<Vec<Piece>, Memory>
    ensures { IfOk result (λ pieces. pieces.items ≡ (map single_of (option_to_list own) ++ map read_of below.now) ++ null_if end) }
{
    let mut pieces = first_piece(alloc, own)?;
    for slot in below {
        pieces.push(Piece::Read(*slot))?;
    }
    push_end(&mut pieces, end)?;
    Ok(pieces)
}

/// Whether null stands at the end: behind the children of a node that is no list, and where there is nothing else below. Nothing
/// stands behind a source that is a shield.
fn ends(closed: bool, whole: bool, below: &[SlotAt]) -> bool
    ensures { result ≡ ends_at closed whole below.now }
{
    !closed && (whole || below.is_empty())
}

/// What its attribute is given at the left side of the rule. `whole` tells whether that is a node's that is no list.
pub fn weight(
    alloc: Global,
    gathering: &Gathering,
    whole: bool,
    rule: &FlatRule,
) -> Result<Term, Memory>
    requires { length rule.now.right ≤ 1024 }
    ensures { IfOk result (λ value. value ≡ weight_of gathering.now whole rule.now) }
{
    let own = own(gathering, rule.left);
    let below = below(alloc, gathering, rule)?;
    if gathering.with.is_none() {
        return Ok(Term::Void(List::from_vec(needed(alloc, own, &below)?)));
    }
    let end = ends(is_closed(gathering, rule.left), whole, &below);
    Ok(Term::Joined(
        gathering.number,
        List::from_vec(pieces(alloc, own, &below, end)?),
    ))
}
