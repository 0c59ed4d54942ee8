//! The grammar of expressions.
ghost use Rattle.std.specs.Prelude.{◌≡◌, None, [], ◌∷◌, IfOk};
ghost use Rattle.trials_of_trees.specs.Expressions.{symbols as seven_symbols, rules as thirteen_rules, shapes as eight_shapes, list_shape, gives, nothing, numb, twice, eight_times, named, both, attribute, named_rule, rule_of_one, rule_of_both, top_rule, add_rule, num_rule, sum_rule, block_rule, pair_rule, rich_rule, round_rule};

use flat_grammar::{Flat, FlatAttr, FlatComp, FlatExpr, FlatRule, FlatSymbol, Shape};
use lido_base::{Kind, List, Memory, Op, RuleId, SymId, Value, ValueType};
use std::alloc::Global;
use trials_of_grammar::parts::{
    computation, occurrence, one, plain_shape, rule, symbol, three, two,
};

/// The names of the symbols, the attributes and the rules, in the order of their ids.
pub const NAMES: [&str; 24] = [
    "Top",
    "Expr",
    "Num",
    "Item",
    "Word",
    "$rSum",
    "$rBlock",
    "of_top",
    "of_expr",
    "first",
    "second",
    "rTop",
    "rAdd",
    "rNum",
    "rSum",
    "rBlock",
    "rP",
    "rRich",
    "rR",
    "rSum$Expr",
    "rSum$",
    "rBlock$Expr",
    "rBlock$Item",
    "rBlock$",
];

/// A synthesized attribute.
fn made(name: u32) -> FlatAttr
    ensures { result ≡ attribute name }
{
    trials_of_grammar::parts::attribute(name, Kind::Synthesized, ValueType::Text)
}

/// A nonterminal with this attribute.
fn with_one(alloc: Global, name: u32, first: u32) -> Result<FlatSymbol, Memory>
    ensures { IfOk result (λ s. s ≡ named name None (attribute first ∷ [])) }
{
    Ok(symbol(name, None, one(alloc, made(first))?))
}

/// A nonterminal with the attributes `first` and `second`.
fn with_both(alloc: Global, name: u32) -> Result<FlatSymbol, Memory>
    ensures { IfOk result (λ s. s ≡ named name None both) }
{
    Ok(symbol(name, None, two(alloc, made(9), made(10))?))
}

/// A symbol without attributes.
fn bare(alloc: Global, name: u32, terminal: Option<ValueType>) -> FlatSymbol
    ensures { result ≡ named name terminal [] }
{
    symbol(name, terminal, List::new(alloc))
}

/// Top, Expr, Num, Item, Word and the cells of rSum and rBlock.
fn symbols(alloc: Global) -> Result<List<FlatSymbol>, Memory>
    ensures { IfOk result (λ list. list ≡ seven_symbols) }
{
    let mut list = two(alloc, with_one(alloc, 0, 7)?, with_one(alloc, 1, 8)?)?;
    list.push(bare(alloc, 2, Some(ValueType::Int)))?;
    list.push(with_both(alloc, 3)?)?;
    list.push(bare(alloc, 4, Some(ValueType::Str)))?;
    list.push(bare(alloc, 5, None))?;
    list.push(with_both(alloc, 6)?)?;
    Ok(list)
}

/// The left side's attribute of this number has this value.
fn given(alloc: Global, a: u16, value: FlatExpr) -> FlatComp
    ensures { result ≡ gives a value }
{
    computation(alloc, occurrence(0, a), value)
}

/// The left side's attribute of this number is nothing.
fn empty(alloc: Global, a: u16) -> FlatComp
    ensures { result ≡ gives a nothing }
{
    given(alloc, a, FlatExpr::Value(Value::Void))
}

/// The call of `PTGNumb`.
fn call(alloc: Global, argument: FlatExpr) -> Result<FlatExpr, Memory>
    ensures { IfOk result (λ value. value ≡ numb argument) }
{
    Ok(FlatExpr::Apply {
        comp: 0,
        op: Op::Numb,
        args: one(alloc, argument)?,
    })
}

/// Twice the call.
fn called_twice(alloc: Global, argument: FlatExpr) -> Result<FlatExpr, Memory>
    ensures { IfOk result (λ value. value ≡ twice argument) }
{
    call(alloc, call(alloc, argument)?)
}

/// Eight calls within one another.
fn rich(alloc: Global) -> Result<FlatExpr, Memory>
    ensures { IfOk result (λ value. value ≡ eight_times nothing) }
{
    let two_calls = called_twice(alloc, FlatExpr::Value(Value::Void))?;
    let four_calls = called_twice(alloc, two_calls)?;
    let six_calls = called_twice(alloc, four_calls)?;
    called_twice(alloc, six_calls)
}

/// A rule whose left side's one attribute is nothing.
fn empty_one(alloc: Global, name: u32, left: u16, right: List<SymId>) -> Result<FlatRule, Memory>
    ensures { IfOk result (λ r. r ≡ rule_of_one name left right) }
{
    Ok(rule(name, left, right, one(alloc, empty(alloc, 0))?))
}

/// A rule whose left side's two attributes are nothing.
fn empty_both(alloc: Global, name: u32, left: u16, right: List<SymId>) -> Result<FlatRule, Memory>
    ensures { IfOk result (λ r. r ≡ rule_of_both name left right) }
{
    let comps = two(alloc, empty(alloc, 0), empty(alloc, 1))?;
    Ok(rule(name, left, right, comps))
}

/// The rule rRich.
fn rule_of_rich(alloc: Global) -> Result<FlatRule, Memory>
    ensures { IfOk result (λ r. r ≡ rich_rule) }
{
    let first = given(alloc, 0, rich(alloc)?);
    let comps = two(alloc, first, given(alloc, 1, rich(alloc)?))?;
    Ok(rule(17, 3, List::new(alloc), comps))
}

/// The rules rTop, rAdd, rNum, rSum and rBlock.
fn first_rules(alloc: Global) -> Result<List<FlatRule>, Memory>
    ensures { IfOk result (λ list. list ≡ top_rule ∷ add_rule ∷ num_rule ∷ sum_rule ∷ block_rule ∷ []) }
{
    let mut list = one(alloc, empty_one(alloc, 11, 0, one(alloc, SymId(1))?)?)?;
    list.push(empty_one(alloc, 12, 1, two(alloc, SymId(1), SymId(1))?)?)?;
    list.push(empty_one(alloc, 13, 1, one(alloc, SymId(2))?)?)?;
    list.push(empty_one(alloc, 14, 1, one(alloc, SymId(5))?)?)?;
    list.push(empty_one(alloc, 15, 1, one(alloc, SymId(6))?)?)?;
    Ok(list)
}

/// The eight written rules.
fn written_rules(alloc: Global) -> Result<List<FlatRule>, Memory>
    ensures { IfOk result (λ list. list ≡ top_rule ∷ add_rule ∷ num_rule ∷ sum_rule ∷ block_rule ∷ pair_rule ∷ rich_rule ∷ round_rule ∷ []) }
{
    let mut list = first_rules(alloc)?;
    list.push(empty_both(alloc, 16, 3, two(alloc, SymId(2), SymId(4))?)?)?;
    list.push(rule_of_rich(alloc)?)?;
    list.push(empty_both(alloc, 18, 3, one(alloc, SymId(3))?)?)?;
    Ok(list)
}

/// The written rules, and those of the cells.
fn rules(alloc: Global) -> Result<List<FlatRule>, Memory>
    ensures { IfOk result (λ list. list ≡ thirteen_rules) }
{
    let mut list = written_rules(alloc)?;
    list.push(rule(19, 5, two(alloc, SymId(1), SymId(5))?, List::new(alloc)))?;
    list.push(rule(20, 5, List::new(alloc), List::new(alloc)))?;
    list.push(empty_both(alloc, 21, 6, two(alloc, SymId(1), SymId(6))?)?)?;
    list.push(empty_both(alloc, 22, 6, two(alloc, SymId(3), SymId(6))?)?)?;
    list.push(empty_both(alloc, 23, 6, List::new(alloc))?)?;
    Ok(list)
}

/// The shape of a list.
fn shape_of_list(rule: u16, right: List<SymId>) -> Shape
    ensures { result ≡ list_shape rule right }
{
    Shape {
        rule: RuleId(rule),
        list: true,
        right,
    }
}

/// The shapes of the written rules.
fn shapes(alloc: Global) -> Result<List<Shape>, Memory>
    ensures { IfOk result (λ list. list ≡ eight_shapes) }
{
    let mut list = one(alloc, plain_shape(0, one(alloc, SymId(1))?))?;
    list.push(plain_shape(1, two(alloc, SymId(1), SymId(1))?))?;
    list.push(plain_shape(2, one(alloc, SymId(2))?))?;
    list.push(shape_of_list(3, one(alloc, SymId(1))?))?;
    list.push(shape_of_list(4, two(alloc, SymId(1), SymId(3))?))?;
    list.push(plain_shape(5, two(alloc, SymId(2), SymId(4))?))?;
    list.push(plain_shape(6, List::new(alloc)))?;
    list.push(plain_shape(7, one(alloc, SymId(3))?))?;
    Ok(list)
}

/// The grammar.
pub fn grammar(alloc: Global) -> Result<Flat, Memory> {
    Ok(Flat {
        symbols: symbols(alloc)?,
        rules: rules(alloc)?,
        shapes: shapes(alloc)?,
        root: SymId(0),
    })
}
