//! The shapes of the written rules.
ghost use Rattle.std.specs.Prelude.{◌≡◌, ◌≤◌, ◌<◌, ◌^◌, ℕ, nat_eq, map, length, IfOk};
ghost use Rattle.std.specs.List.{AllZip};
ghost use Rattle.lido_base.specs.declared.ids.SymId.{SymId as SymbolId};
ghost use Rattle.lido_base.specs.declared.ids.StrId.{StrId as TextId};
ghost use Rattle.lido_syntax.specs.declared.spec.Spec.{Spec as Specification};
ghost use Rattle.lido_syntax.specs.Production.{right_of};
ghost use Rattle.lido_symbols.specs.Numbers.{place_in, enumerated};
ghost use Rattle.lido_symbols.specs.Occurrences.{numbers};
ghost use Rattle.rule_tables.specs.PlainRules.{number, IsShapeOf};

use flat_grammar::Shape;
use lido_base::{List, Memory, RuleId, StrId, SymId};
use lido_symbols::{Names, right_symbols};
use lido_syntax::RuleItem;
use std::alloc::Global;

/// The number of a symbol, as an id.
pub fn symbol_id(symbols: &Names, name: StrId) -> SymId
    requires { length symbols.now ≤ 512 }
    ensures { result.0 ≡ place_in (nat_eq name.0) symbols.now }
{
    SymId(symbols.number(name) as u16)
}

/// The numbers of symbols, as ids.
fn symbol_ids(alloc: Global, symbols: &Names, names: &[StrId]) -> Result<Vec<SymId>, Memory>
    requires { length symbols.now ≤ 512 }
    ensures { IfOk result (λ ids. map (λ (s : SymbolId). s.0) ids.items ≡ map (λ (name : TextId). place_in (nat_eq name.0) symbols.now) names.now) }
{
    let mut ids = Vec::new(alloc);
    for name in names {
        ids.push(symbol_id(symbols, *name))?;
    }
    Ok(ids)
}

/// The numbers of the symbols of a right side, as ids.
pub fn right_ids(alloc: Global, symbols: &Names, rule: &RuleItem) -> Result<List<SymId>, Memory>
    requires { length symbols.now ≤ 512 }
    ensures { IfOk result (λ ids. (spec : Specification) → map (λ (s : SymbolId). s.0) ids ≡ map (number spec symbols.now) (right_of rule.now)) }
{
    let right = right_symbols(alloc, rule)?;
    let ids = symbol_ids(alloc, symbols, &right)?;
    Ok(List::from_vec(ids))
}

/// The shape of the written rule of that number.
fn shape(alloc: Global, symbols: &Names, k: usize, rule: &RuleItem) -> Result<Shape, Memory>
    requires few { length symbols.now ≤ 512 }
    requires number { k < 2 ^ 16 }
    ensures { IfOk result (λ shape. (spec : Specification) → IsShapeOf spec symbols.now (k, rule.now) shape) }
{
    Ok(Shape {
        rule: RuleId(k as u16),
        list: rule.list,
        right: right_ids(alloc, symbols, rule)?,
    })
}

/// The shapes of the written rules, in order.
pub fn shapes(alloc: Global, symbols: &Names, rules: &[RuleItem]) -> Result<List<Shape>, Memory>
    requires few { length symbols.now ≤ 512 }
    requires numbers { length rules.now ≤ 2 ^ 16 }
    ensures { IfOk result (λ shapes. (spec : Specification) → AllZip (IsShapeOf spec symbols.now) (enumerated 0 rules.now) shapes) }
{
    let mut shapes = Vec::new(alloc);
    for (k, rule) in rules.iter().enumerate() {
        shapes.push(shape(alloc, symbols, k, rule)?)?;
    }
    Ok(List::from_vec(shapes))
}
