//! What a flat grammar asks of written trees.
ghost use Rattle.std.specs.Prelude.{◌≡◌, ◌||◌, nat_le, length, false, slice_get, Some, None};
ghost use Rattle.flat_grammar.specs.WellFormed.{is_same_symbol};
ghost use Rattle.tree_reader.specs.Asking.{is_same_type, left_of, may_be, type_of, may_be_value, may_be_node, may_be_root};
ghost use Rattle.tree_reader.specs.Elements.{AreMarked};

use crate::elements::is_element;
use flat_grammar::{Flat, Shape};
use lido_base::{SymId, ValueType};

/// The types are the same.
fn is_same_type(ty: ValueType, other: ValueType) -> bool
    ensures { result ≡ is_same_type ty other }
{
    match (ty, other) {
        (ValueType::Int, ValueType::Int)
        | (ValueType::Str, ValueType::Str)
        | (ValueType::Bool, ValueType::Bool)
        | (ValueType::Text, ValueType::Text)
        | (ValueType::Void, ValueType::Void) => true,
        _ => false,
    }
}

/// The symbol on the left side of a shape's rule.
fn left_of(flat: &Flat, shape: &Shape) -> Option<SymId>
    ensures { result ≡ left_of flat.now.symbols flat.now.rules flat.now.shapes flat.now.root shape.now }
{
    flat.rules
        .as_slice()
        .get(shape.rule.0 as usize)
        .map(|rule| rule.left)
}

/// The symbol stands at this place.
fn stands_at(symbols: &[SymId], k: usize, symbol: SymId) -> bool
    ensures { result ≡ elim (slice_get symbols.now k) [ None ↦ false | Some q ↦ is_same_symbol symbol q ] }
{
    match symbols.get(k) {
        Some(q) => symbol.0 == q.0,
        None => false,
    }
}

/// Child k of a node of the shape, counted from 0, may be of the symbol. The row marks the elements of the shape's list.
fn may_be(shape: &Shape, row: &[bool], k: usize, symbol: SymId) -> bool
    requires { AreMarked shape.now.right row.now }
    ensures { result ≡ may_be shape.now k symbol }
{
    if shape.list {
        is_element(row, shape.right.as_slice(), symbol)
    } else {
        stands_at(shape.right.as_slice(), k, symbol)
    }
}

/// The type of a terminal.
fn type_of(flat: &Flat, symbol: SymId) -> Option<ValueType>
    ensures { result ≡ type_of flat.now.symbols flat.now.rules flat.now.shapes flat.now.root symbol }
{
    match flat.symbols.as_slice().get(symbol.0 as usize) {
        Some(x) => x.terminal,
        None => None,
    }
}

/// Child k of a node of the shape may be a terminal of the type.
pub fn may_be_value(flat: &Flat, shape: &Shape, k: usize, ty: ValueType) -> bool
    ensures { result ≡ may_be_value flat.now.symbols flat.now.rules flat.now.shapes flat.now.root shape.now k ty }
{
    if shape.list {
        return false;
    }
    let Some(q) = shape.right.as_slice().get(k) else {
        return false;
    };
    match type_of(flat, *q) {
        Some(other) => is_same_type(ty, other),
        None => false,
    }
}

/// Child k of a node of the shape may be a node of the other shape. The row marks the elements of the shape's list.
pub fn may_be_node(flat: &Flat, shape: &Shape, row: &[bool], k: usize, other: &Shape) -> bool
    requires { AreMarked shape.now.right row.now }
    ensures { result ≡ may_be_node flat.now.symbols flat.now.rules flat.now.shapes flat.now.root shape.now k other.now }
{
    match left_of(flat, other) {
        Some(symbol) => may_be(shape, row, k, symbol),
        None => false,
    }
}

/// Node 0 may be of the shape.
pub fn may_be_root(flat: &Flat, shape: &Shape) -> bool
    ensures { result ≡ may_be_root flat.now.symbols flat.now.rules flat.now.shapes flat.now.root shape.now }
{
    match left_of(flat, shape) {
        Some(symbol) => symbol.0 == flat.root.0,
        None => false,
    }
}

/// So many children are enough for a node of the shape.
pub fn is_enough(shape: &Shape, k: usize) -> bool
    ensures { result ≡ (shape.now.list || nat_le (length shape.now.right) k) }
{
    shape.list || shape.right.len() <= k
}
