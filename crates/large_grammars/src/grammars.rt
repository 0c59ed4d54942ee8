//! Grammars of any size.
ghost use Rattle.std.specs.Prelude.{◌≡◌, ◌<◌, ◌≤◌, replicate, IfOk};
ghost use Rattle.large_grammars.specs.Sizes.{IsWithin, AreAttributes, AreSymbols, child_of as child_at, IsRuleAt, AreRules, AreShapes};

use crate::computations::{computations, kind_of};
use crate::{Flow, Size};
use flat_grammar::{Flat, FlatAttr, FlatRule, FlatSymbol, Shape};
use lido_base::{List, RuleId, StrId, SymId, ValueType};
use std::alloc::{AllocError, Global};

/// The attributes of a symbol.
fn attributes(alloc: Global, count: usize) -> Result<List<FlatAttr>, AllocError>
    requires { count ≤ 256 }
    ensures { IfOk result (λ attrs. AreAttributes count attrs) }
{
    let mut attrs = List::new(alloc);
    for a in 0..count {
        attrs.push(FlatAttr {
            name: StrId(a as u32),
            kind: kind_of(a),
            ty: ValueType::Int,
            written: true,
            message: false,
        })?;
    }
    Ok(attrs)
}

/// The symbols.
fn symbols(alloc: Global, size: Size) -> Result<List<FlatSymbol>, AllocError>
    requires { IsWithin size }
    ensures { IfOk result (λ list. AreSymbols size list) }
{
    let mut list = List::new(alloc);
    for k in 0..size.symbols {
        let attrs = attributes(alloc, size.attributes)?;
        list.push(FlatSymbol {
            name: StrId(k as u32),
            terminal: None,
            attrs,
        })?;
    }
    Ok(list)
}

/// A right side: all children are of one symbol.
fn children(alloc: Global, count: usize, child: SymId) -> Result<List<SymId>, AllocError>
    ensures { IfOk result (λ right. right ≡ replicate count child) }
{
    let mut right = List::new(alloc);
    for _ in 0..count {
        right.push(child)?;
    }
    Ok(right)
}

/// The symbol of the children of a rule: that next to the left side, or the last symbol itself.
fn child_of(size: Size, left: usize) -> SymId
    requires size { IsWithin size }
    requires left { left < size.symbols }
    ensures { result ≡ child_at size left }
{
    if size.bottom_up {
        return SymId(left.saturating_sub(1) as u16);
    }
    if left + 1 < size.symbols {
        SymId((left + 1) as u16)
    } else {
        SymId(left as u16)
    }
}

/// A rule.
fn rule(alloc: Global, size: Size, flow: Flow, j: usize) -> Result<FlatRule, AllocError>
    requires size { IsWithin size }
    requires rule { j < size.rules }
    ensures { IfOk result (λ r. IsRuleAt size j r) }
{
    let left = j % size.symbols;
    let child = child_of(size, left);
    let right = children(alloc, size.children, child)?;
    let is_last = child.0 as usize == left && (flow != Flow::Rotated || size.symbols <= j);
    let comps = computations(alloc, size, flow, is_last)?;
    Ok(FlatRule {
        name: StrId(j as u32),
        left: SymId(left as u16),
        right,
        comps,
    })
}

/// The rules.
fn rules(alloc: Global, size: Size, flow: Flow) -> Result<List<FlatRule>, AllocError>
    requires { IsWithin size }
    ensures { IfOk result (λ list. AreRules size list) }
{
    let mut list = List::new(alloc);
    for j in 0..size.rules {
        let rule = rule(alloc, size, flow, j)?;
        list.push(rule)?;
    }
    Ok(list)
}

/// The shapes of the rules.
fn shapes(alloc: Global, size: Size) -> Result<List<Shape>, AllocError>
    requires { IsWithin size }
    ensures { IfOk result (λ list. AreShapes size list) }
{
    let mut list = List::new(alloc);
    for j in 0..size.rules {
        let right = children(alloc, size.children, child_of(size, j % size.symbols))?;
        list.push(Shape {
            rule: RuleId(j as u16),
            list: false,
            right,
        })?;
    }
    Ok(list)
}

/// The symbol that no other rule has on its right side.
fn root_of(size: Size) -> SymId
    requires { IsWithin size }
    ensures { result.0 < size.symbols }
{
    if size.bottom_up {
        SymId((size.symbols - 1) as u16)
    } else {
        SymId(0)
    }
}

/// A grammar of this size. The symbols are a chain: the children of each are of the next one, those of the last one of itself.
/// Odd attributes are synthesized.
pub fn grammar(alloc: Global, size: Size, flow: Flow) -> Result<Flat, AllocError>
    requires { IsWithin size }
    ensures symbols { IfOk result (λ flat. AreSymbols size flat.symbols) }
    ensures rules { IfOk result (λ flat. AreRules size flat.rules) }
    ensures shapes { IfOk result (λ flat. AreShapes size flat.shapes) }
{
    let symbols = symbols(alloc, size)?;
    let rules = rules(alloc, size, flow)?;
    let shapes = shapes(alloc, size)?;
    Ok(Flat {
        symbols,
        rules,
        shapes,
        root: root_of(size),
    })
}
