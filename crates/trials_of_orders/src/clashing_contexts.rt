//! The grammar with a child that two rules use in opposite orders.
ghost use Rattle.std.specs.Prelude.{◌≡◌, IfOk};
ghost use Rattle.trials_of_orders.specs.ClashingContexts.{symbols as two_symbols, rules as three_rules, shapes as three_shapes, X_rule, A_rule, B_rule};

use flat_grammar::{Flat, FlatExpr, FlatRule, FlatSymbol, Shape};
use lido_base::{Kind, List, Memory, SymId, Value, ValueType};
use std::alloc::Global;
use trials_of_grammar::parts::{
    attribute, computation, occurrence, one, plain_shape, rule, symbol, three, two,
};

/// X with s1, i1, s2 and i2, S with $out.
fn symbols(alloc: Global) -> Result<List<FlatSymbol>, Memory>
    ensures { IfOk result (λ list. list ≡ two_symbols) }
{
    let first_gives = attribute(20, Kind::Synthesized, ValueType::Int);
    let first_takes = attribute(21, Kind::Inherited, ValueType::Int);
    let second_gives = attribute(22, Kind::Synthesized, ValueType::Int);
    let second_takes = attribute(23, Kind::Inherited, ValueType::Int);
    let out = attribute(24, Kind::Synthesized, ValueType::Text);
    let mut attrs = three(alloc, first_gives, first_takes, second_gives)?;
    attrs.push(second_takes)?;
    let child = symbol(0, None, attrs);
    two(alloc, child, symbol(1, None, one(alloc, out)?))
}

/// The rule rX: X.s1 is X.i1, X.s2 is X.i2.
fn rule_of_x(alloc: Global) -> Result<FlatRule, Memory>
    ensures { IfOk result (λ r. r ≡ X_rule) }
{
    let first = computation(alloc, occurrence(0, 0), FlatExpr::Read(occurrence(0, 1)));
    let second = computation(alloc, occurrence(0, 2), FlatExpr::Read(occurrence(0, 3)));
    Ok(rule(10, 0, List::new(alloc), two(alloc, first, second)?))
}

/// The rule rA: X.i1 is X.s2, X.i2 is 0.
fn rule_of_a(alloc: Global) -> Result<FlatRule, Memory>
    ensures { IfOk result (λ r. r ≡ A_rule) }
{
    let first = computation(alloc, occurrence(1, 1), FlatExpr::Read(occurrence(1, 2)));
    let second = computation(alloc, occurrence(1, 3), FlatExpr::Value(Value::Int(0)));
    let out = computation(alloc, occurrence(0, 0), FlatExpr::Value(Value::Void));
    let right = one(alloc, SymId(0))?;
    Ok(rule(11, 1, right, three(alloc, first, second, out)?))
}

/// The rule rB: X.i2 is X.s1, X.i1 is 0.
fn rule_of_b(alloc: Global) -> Result<FlatRule, Memory>
    ensures { IfOk result (λ r. r ≡ B_rule) }
{
    let second = computation(alloc, occurrence(1, 3), FlatExpr::Read(occurrence(1, 0)));
    let first = computation(alloc, occurrence(1, 1), FlatExpr::Value(Value::Int(0)));
    let out = computation(alloc, occurrence(0, 0), FlatExpr::Value(Value::Void));
    let right = one(alloc, SymId(0))?;
    Ok(rule(12, 1, right, three(alloc, second, first, out)?))
}

/// The three rules.
fn rules(alloc: Global) -> Result<List<FlatRule>, Memory>
    ensures { IfOk result (λ list. list ≡ three_rules) }
{
    let of_x = rule_of_x(alloc)?;
    three(alloc, of_x, rule_of_a(alloc)?, rule_of_b(alloc)?)
}

/// The shapes of the three rules.
fn shapes(alloc: Global) -> Result<List<Shape>, Memory>
    ensures { IfOk result (λ list. list ≡ three_shapes) }
{
    let x = plain_shape(0, List::new(alloc));
    let a = plain_shape(1, one(alloc, SymId(0))?);
    three(alloc, x, a, plain_shape(2, one(alloc, SymId(0))?))
}

/// The grammar.
pub fn grammar(alloc: Global) -> Result<Flat, Memory> {
    Ok(Flat {
        symbols: symbols(alloc)?,
        rules: rules(alloc)?,
        shapes: shapes(alloc)?,
        root: SymId(1),
    })
}
