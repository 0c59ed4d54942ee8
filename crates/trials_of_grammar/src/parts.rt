//! The parts of a flat grammar.
ghost use Rattle.std.specs.Prelude.{◌≡◌, true, false, [], ◌∷◌, IfOk};

use flat_grammar::{FlatAttr, FlatComp, FlatExpr, FlatRule, FlatSymbol, Occ, Shape};
use lido_base::{AttrId, Kind, List, Memory, RuleId, StrId, SymId, ValueType};
use std::alloc::Global;

/// An attribute that is written.
pub fn attribute(name: u32, kind: Kind, ty: ValueType) -> FlatAttr
    ensures { result ≡ record { name = record { 0 = name }; kind = kind; ty = ty; written = true; message = false } }
{
    FlatAttr {
        name: StrId(name),
        kind,
        ty,
        written: true,
        message: false,
    }
}

/// A symbol.
pub fn symbol(name: u32, terminal: Option<ValueType>, attrs: List<FlatAttr>) -> FlatSymbol
    ensures { result ≡ record { name = record { 0 = name }; terminal = terminal; attrs = attrs } }
{
    FlatSymbol {
        name: StrId(name),
        terminal,
        attrs,
    }
}

/// An attribute occurrence.
pub fn occurrence(occ: u16, attr: u16) -> Occ
    ensures { result ≡ record { occ = occ; attr = record { 0 = attr } } }
{
    Occ {
        occ,
        attr: AttrId(attr),
    }
}

/// A computation that depends on nothing but its reads.
pub fn computation(alloc: Global, goal: Occ, value: FlatExpr) -> FlatComp
    ensures { result ≡ record { goal = goal; origin = 0; value = value; after = [] } }
{
    FlatComp {
        goal,
        origin: 0,
        value,
        after: List::new(alloc),
    }
}

/// A rule.
pub fn rule(name: u32, left: u16, right: List<SymId>, comps: List<FlatComp>) -> FlatRule
    ensures { result ≡ record { name = record { 0 = name }; left = record { 0 = left }; right = right; comps = comps } }
{
    FlatRule {
        name: StrId(name),
        left: SymId(left),
        right,
        comps,
    }
}

/// The shape of a rule that is no list.
pub fn plain_shape(rule: u16, right: List<SymId>) -> Shape
    ensures { result ≡ record { rule = record { 0 = rule }; list = false; right = right } }
{
    Shape {
        rule: RuleId(rule),
        list: false,
        right,
    }
}

/// A list of one item.
pub fn one<T: Drop>(alloc: Global, item: T) -> Result<List<T>, Memory>
    ensures { IfOk result (λ list. list ≡ item ∷ []) }
{
    let mut list = List::new(alloc);
    list.push(item)?;
    Ok(list)
}

/// A list of two items.
pub fn two<T: Drop>(alloc: Global, first: T, second: T) -> Result<List<T>, Memory>
    ensures { IfOk result (λ list. list ≡ first ∷ second ∷ []) }
{
    let mut list = one(alloc, first)?;
    list.push(second)?;
    Ok(list)
}

/// A list of three items.
pub fn three<T: Drop>(alloc: Global, first: T, second: T, third: T) -> Result<List<T>, Memory>
    ensures { IfOk result (λ list. list ≡ first ∷ second ∷ third ∷ []) }
{
    let mut list = two(alloc, first, second)?;
    list.push(third)?;
    Ok(list)
}
