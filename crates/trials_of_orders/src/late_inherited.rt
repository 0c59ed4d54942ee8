//! The grammar with an inherited attribute that nothing uses, in which S.$out is the text of S.v.
ghost use Rattle.std.specs.Prelude.{◌≡◌, IfOk};
ghost use Rattle.lido_base.specs.declared.operation.Op.TheVariants.{Numb};
ghost use Rattle.flat_grammar.specs.declared.flat.FlatExpr.{Read};
ghost use Rattle.trials_of_grammar.specs.ListOfItems.{call1};
ghost use Rattle.trials_of_grammar.specs.LateInherited.{symbols as three_symbols, rules as three_rules, shapes as three_shapes, S_rule, A_rule, B_rule, S_v};

use flat_grammar::{Flat, FlatExpr, FlatRule, FlatSymbol, Shape};
use lido_base::{Kind, List, Memory, Op, SymId, Value, ValueType};
use std::alloc::Global;
use trials_of_grammar::parts::{
    attribute, computation, occurrence, one, plain_shape, rule, symbol, three, two,
};

/// S with v and $out, A with i, B with v.
fn symbols(alloc: Global) -> Result<List<FlatSymbol>, Memory>
    ensures { IfOk result (λ list. list ≡ three_symbols) }
{
    let v = attribute(20, Kind::Synthesized, ValueType::Int);
    let i = attribute(21, Kind::Inherited, ValueType::Int);
    let out = attribute(22, Kind::Synthesized, ValueType::Text);
    let s = symbol(0, None, two(alloc, v, out)?);
    let a = symbol(1, None, one(alloc, i)?);
    let b = symbol(2, None, one(alloc, v)?);
    three(alloc, s, a, b)
}

/// `PTGNumb` of S.v.
fn text_of_v(alloc: Global) -> Result<FlatExpr, Memory>
    ensures { IfOk result (λ value. value ≡ call1 2 Numb (Read S_v)) }
{
    Ok(FlatExpr::Apply {
        comp: 2,
        op: Op::Numb,
        args: one(alloc, FlatExpr::Read(occurrence(0, 0)))?,
    })
}

/// The rule rS: A.i is 1, S.v is B.v, and S.$out is the text of S.v.
fn rule_of_s(alloc: Global) -> Result<FlatRule, Memory>
    ensures { IfOk result (λ r. r ≡ S_rule) }
{
    let i = computation(alloc, occurrence(1, 0), FlatExpr::Value(Value::Int(1)));
    let v = computation(alloc, occurrence(0, 0), FlatExpr::Read(occurrence(2, 0)));
    let out = computation(alloc, occurrence(0, 1), text_of_v(alloc)?);
    let right = two(alloc, SymId(1), SymId(2))?;
    Ok(rule(10, 0, right, three(alloc, i, v, out)?))
}

/// The rule rA, which computes nothing.
fn rule_of_a(alloc: Global) -> FlatRule
    ensures { result ≡ A_rule }
{
    rule(11, 1, List::new(alloc), List::new(alloc))
}

/// The rule rB: B.v is 2.
fn rule_of_b(alloc: Global) -> Result<FlatRule, Memory>
    ensures { IfOk result (λ r. r ≡ B_rule) }
{
    let v = computation(alloc, occurrence(0, 0), FlatExpr::Value(Value::Int(2)));
    Ok(rule(12, 2, List::new(alloc), one(alloc, v)?))
}

/// The three rules.
fn rules(alloc: Global) -> Result<List<FlatRule>, Memory>
    ensures { IfOk result (λ list. list ≡ three_rules) }
{
    let of_s = rule_of_s(alloc)?;
    three(alloc, of_s, rule_of_a(alloc), rule_of_b(alloc)?)
}

/// The shapes of the three rules.
fn shapes(alloc: Global) -> Result<List<Shape>, Memory>
    ensures { IfOk result (λ list. list ≡ three_shapes) }
{
    let s = plain_shape(0, two(alloc, SymId(1), SymId(2))?);
    let a = plain_shape(1, List::new(alloc));
    let b = plain_shape(2, List::new(alloc));
    three(alloc, s, a, b)
}

/// The grammar.
pub fn grammar(alloc: Global) -> Result<Flat, Memory> {
    Ok(Flat {
        symbols: symbols(alloc)?,
        rules: rules(alloc)?,
        shapes: shapes(alloc)?,
        root: SymId(0),
    })
}
