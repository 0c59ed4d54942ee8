//! The grammar with a child that is visited twice.
ghost use Rattle.std.specs.Prelude.{◌≡◌, IfOk};
ghost use Rattle.trials_of_orders.specs.TwoVisits.{symbols as three_symbols, rules as two_rules, shapes as two_shapes, S_rule, X_rule};

use flat_grammar::{Flat, FlatExpr, FlatRule, FlatSymbol, Shape};
use lido_base::{Kind, List, Memory, SymId, Value, ValueType};
use std::alloc::Global;
use trials_of_grammar::parts::{
    attribute, computation, occurrence, one, plain_shape, rule, symbol, three, two,
};

/// S with r; X with i, s, j and t; the terminal Num.
fn symbols(alloc: Global) -> Result<List<FlatSymbol>, Memory>
    ensures { IfOk result (λ list. list ≡ three_symbols) }
{
    let r = attribute(20, Kind::Synthesized, ValueType::Int);
    let i = attribute(21, Kind::Inherited, ValueType::Int);
    let s = attribute(22, Kind::Synthesized, ValueType::Int);
    let j = attribute(23, Kind::Inherited, ValueType::Int);
    let t = attribute(24, Kind::Synthesized, ValueType::Int);
    let mut attrs = three(alloc, i, s, j)?;
    attrs.push(t)?;
    let left = symbol(0, None, one(alloc, r)?);
    let number = symbol(2, Some(ValueType::Int), List::new(alloc));
    three(alloc, left, symbol(1, None, attrs), number)
}

/// The rule rS: X.i is 1, X.j is X.s, S.r is X.t.
fn rule_of_s(alloc: Global) -> Result<FlatRule, Memory>
    ensures { IfOk result (λ r. r ≡ S_rule) }
{
    let i = computation(alloc, occurrence(1, 0), FlatExpr::Value(Value::Int(1)));
    let j = computation(alloc, occurrence(1, 2), FlatExpr::Read(occurrence(1, 1)));
    let r = computation(alloc, occurrence(0, 0), FlatExpr::Read(occurrence(1, 3)));
    Ok(rule(10, 0, one(alloc, SymId(1))?, three(alloc, i, j, r)?))
}

/// The rule rX: X.s is X.i, X.t is X.j.
fn rule_of_x(alloc: Global) -> Result<FlatRule, Memory>
    ensures { IfOk result (λ r. r ≡ X_rule) }
{
    let s = computation(alloc, occurrence(0, 1), FlatExpr::Read(occurrence(0, 0)));
    let t = computation(alloc, occurrence(0, 3), FlatExpr::Read(occurrence(0, 2)));
    Ok(rule(11, 1, one(alloc, SymId(2))?, two(alloc, s, t)?))
}

/// The two rules.
fn rules(alloc: Global) -> Result<List<FlatRule>, Memory>
    ensures { IfOk result (λ list. list ≡ two_rules) }
{
    two(alloc, rule_of_s(alloc)?, rule_of_x(alloc)?)
}

/// The shapes of the two rules.
fn shapes(alloc: Global) -> Result<List<Shape>, Memory>
    ensures { IfOk result (λ list. list ≡ two_shapes) }
{
    let s = plain_shape(0, one(alloc, SymId(1))?);
    two(alloc, s, plain_shape(1, one(alloc, SymId(2))?))
}

/// The grammar.
pub fn grammar(alloc: Global) -> Result<Flat, Memory> {
    Ok(Flat {
        symbols: symbols(alloc)?,
        rules: rules(alloc)?,
        shapes: shapes(alloc)?,
        root: SymId(0),
    })
}
