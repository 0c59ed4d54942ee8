//! The smallest grammar with two rules.
ghost use Rattle.std.specs.Prelude.{◌≡◌, IfOk};
ghost use Rattle.trials_of_orders.specs.BareLeaf.{symbols as two_symbols, rules as two_rules, shapes as two_shapes};

use flat_grammar::{Flat, FlatExpr, FlatRule, FlatSymbol, Shape};
use lido_base::{Kind, List, Memory, SymId, Value, ValueType};
use std::alloc::Global;
use trials_of_grammar::parts::{
    attribute, computation, occurrence, one, plain_shape, rule, symbol, two,
};

/// Top with $out, and Leaf.
fn symbols(alloc: Global) -> Result<List<FlatSymbol>, Memory>
    ensures { IfOk result (λ list. list ≡ two_symbols) }
{
    let out = attribute(20, Kind::Synthesized, ValueType::Text);
    let top = symbol(0, None, one(alloc, out)?);
    two(alloc, top, symbol(1, None, List::new(alloc)))
}

/// The rules rTop, whose $out is nothing, and rLeaf.
fn rules(alloc: Global) -> Result<List<FlatRule>, Memory>
    ensures { IfOk result (λ list. list ≡ two_rules) }
{
    let out = computation(alloc, occurrence(0, 0), FlatExpr::Value(Value::Void));
    let top = rule(10, 0, one(alloc, SymId(1))?, one(alloc, out)?);
    two(alloc, top, rule(11, 1, List::new(alloc), List::new(alloc)))
}

/// The shapes of the two rules.
fn shapes(alloc: Global) -> Result<List<Shape>, Memory>
    ensures { IfOk result (λ list. list ≡ two_shapes) }
{
    let top = plain_shape(0, one(alloc, SymId(1))?);
    two(alloc, top, plain_shape(1, List::new(alloc)))
}

/// The grammar.
pub fn grammar(alloc: Global) -> Result<Flat, Memory> {
    Ok(Flat {
        symbols: symbols(alloc)?,
        rules: rules(alloc)?,
        shapes: shapes(alloc)?,
        root: SymId(0),
    })
}
