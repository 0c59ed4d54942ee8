//! The grammar with two children each of which wants what the other gives.
ghost use Rattle.std.specs.Prelude.{◌≡◌, IfOk};
ghost use Rattle.lido_base.specs.declared.operation.Op.TheVariants.{Null};
ghost use Rattle.trials_of_grammar.specs.ListOfItems.{call0};
ghost use Rattle.trials_of_grammar.specs.CrossedUses.{symbols as two_symbols, rules as two_rules, shapes as two_shapes, S_rule, X_rule};

use flat_grammar::{Flat, FlatExpr, FlatRule, FlatSymbol, Shape};
use lido_base::{Kind, List, Memory, Op, SymId, Value, ValueType};
use std::alloc::Global;
use trials_of_grammar::parts::{
    attribute, computation, occurrence, one, plain_shape, rule, symbol, three, two,
};

/// S with $out, X with i and s.
fn symbols(alloc: Global) -> Result<List<FlatSymbol>, Memory>
    ensures { IfOk result (λ list. list ≡ two_symbols) }
{
    let i = attribute(20, Kind::Inherited, ValueType::Int);
    let s = attribute(21, Kind::Synthesized, ValueType::Int);
    let out = attribute(22, Kind::Synthesized, ValueType::Text);
    let left = symbol(0, None, one(alloc, out)?);
    let right = symbol(1, None, two(alloc, i, s)?);
    two(alloc, left, right)
}

/// The empty text.
fn empty_text(alloc: Global) -> FlatExpr
    ensures { result ≡ call0 0 Null }
{
    FlatExpr::Apply {
        comp: 0,
        op: Op::Null,
        args: List::new(alloc),
    }
}

/// The rule rS: X[1].i is X[2].s, X[2].i is X[1].s, S.$out is the empty text.
fn rule_of_s(alloc: Global) -> Result<FlatRule, Memory>
    ensures { IfOk result (λ r. r ≡ S_rule) }
{
    let first = computation(alloc, occurrence(1, 0), FlatExpr::Read(occurrence(2, 1)));
    let second = computation(alloc, occurrence(2, 0), FlatExpr::Read(occurrence(1, 1)));
    let out = computation(alloc, occurrence(0, 0), empty_text(alloc));
    let right = two(alloc, SymId(1), SymId(1))?;
    Ok(rule(10, 0, right, three(alloc, first, second, out)?))
}

/// The rule rX: X.s is 1.
fn rule_of_x(alloc: Global) -> Result<FlatRule, Memory>
    ensures { IfOk result (λ r. r ≡ X_rule) }
{
    let s = computation(alloc, occurrence(0, 1), FlatExpr::Value(Value::Int(1)));
    Ok(rule(11, 1, List::new(alloc), one(alloc, s)?))
}

/// The two rules.
fn rules(alloc: Global) -> Result<List<FlatRule>, Memory>
    ensures { IfOk result (λ list. list ≡ two_rules) }
{
    two(alloc, rule_of_s(alloc)?, rule_of_x(alloc)?)
}

/// The shapes of the two rules.
fn shapes(alloc: Global) -> Result<List<Shape>, Memory>
    ensures { IfOk result (λ list. list ≡ two_shapes) }
{
    let s = plain_shape(0, two(alloc, SymId(1), SymId(1))?);
    two(alloc, s, plain_shape(1, List::new(alloc)))
}

/// The grammar.
pub fn grammar(alloc: Global) -> Result<Flat, Memory> {
    Ok(Flat {
        symbols: symbols(alloc)?,
        rules: rules(alloc)?,
        shapes: shapes(alloc)?,
        root: SymId(0),
    })
}
