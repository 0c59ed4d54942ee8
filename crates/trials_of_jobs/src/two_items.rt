//! The grammar and the plan of the job of two items, as values.
ghost use Rattle.std.specs.Prelude.{◌≡◌, ◌∷◌, [], None, IfOk};
ghost use Rattle.trials_of_grammar.specs.ListOfItems.{call1, call2};
ghost use Rattle.trials_of_jobs.specs.SplitList.{symbols as four_symbols, i_attribute, s_attribute, shapes as two_shapes};
ghost use Rattle.trials_of_jobs.specs.SplitList.{rules as four_rules, list_rule, item_rule, cell_rule, end_rule};
ghost use Rattle.trials_of_jobs.specs.SplitList.{visits as four_rows, i_then_s};
ghost use Rattle.trials_of_jobs.specs.SplitList.{sequences as four_sequences, list_sequence, s_sequence, cell_sequence};

use flat_grammar::{Flat, FlatExpr, FlatRule, FlatSymbol, Plan, PlanItem, Shape, VisitClass};
use lido_base::{AttrId, Kind, List, Memory, Op, RuleId, SymId, Value, ValueType};
use std::alloc::Global;
use trials_of_grammar::parts::{
    attribute, computation, occurrence, one, plain_shape, rule, symbol, three, two,
};

/// A nonterminal with the attributes i and s.
fn with_i_and_s(alloc: Global, name: u32) -> Result<FlatSymbol, Memory>
    ensures { let attrs = i_attribute ∷ s_attribute ∷ [] in
        IfOk result (λ made. made ≡ record { name = record { 0 = name }; terminal = None; attrs = attrs }) }
{
    let i = attribute(21, Kind::Inherited, ValueType::Int);
    let s = attribute(22, Kind::Synthesized, ValueType::Int);
    Ok(symbol(name, None, two(alloc, i, s)?))
}

/// Top with $out, Item with i and s, the terminal Num, the list's cell with i and s.
fn symbols(alloc: Global) -> Result<List<FlatSymbol>, Memory>
    ensures { IfOk result (λ list. list ≡ four_symbols) }
{
    let out = attribute(20, Kind::Synthesized, ValueType::Text);
    let top = symbol(0, None, one(alloc, out)?);
    let number = symbol(2, Some(ValueType::Int), List::new(alloc));
    let mut list = three(alloc, top, with_i_and_s(alloc, 1)?, number)?;
    list.push(with_i_and_s(alloc, 3)?)?;
    Ok(list)
}

/// A call of an operation with one argument.
fn call_of_one(alloc: Global, comp: u16, op: Op, arg: FlatExpr) -> Result<FlatExpr, Memory>
    ensures { IfOk result (λ made. made ≡ call1 comp op arg) }
{
    Ok(FlatExpr::Apply {
        comp,
        op,
        args: one(alloc, arg)?,
    })
}

/// A sum.
fn sum(alloc: Global, comp: u16, first: FlatExpr, second: FlatExpr) -> Result<FlatExpr, Memory>
    ensures { IfOk result (λ made. made ≡ call2 comp Op.Add first second) }
{
    Ok(FlatExpr::Apply {
        comp,
        op: Op::Add,
        args: two(alloc, first, second)?,
    })
}

/// The rule of the list: the cells' i is 1; $out is the cells' s in digits.
fn rule_of_list(alloc: Global) -> Result<FlatRule, Memory>
    ensures { IfOk result (λ made. made ≡ list_rule) }
{
    let i = computation(alloc, occurrence(1, 0), FlatExpr::Value(Value::Int(1)));
    let digits = call_of_one(alloc, 0, Op::Numb, FlatExpr::Read(occurrence(1, 1)))?;
    let out = computation(alloc, occurrence(0, 0), digits);
    Ok(rule(10, 0, one(alloc, SymId(3))?, two(alloc, i, out)?))
}

/// The rule of an item: s is i and the number.
fn rule_of_item(alloc: Global) -> Result<FlatRule, Memory>
    ensures { IfOk result (λ made. made ≡ item_rule) }
{
    let added = sum(
        alloc,
        1,
        FlatExpr::Read(occurrence(0, 0)),
        FlatExpr::Terminal(1),
    )?;
    let s = computation(alloc, occurrence(0, 1), added);
    Ok(rule(11, 1, one(alloc, SymId(2))?, one(alloc, s)?))
}

/// The rule of a cell: i is handed on, s is the sum.
fn rule_of_cell(alloc: Global) -> Result<FlatRule, Memory>
    ensures { IfOk result (λ made. made ≡ cell_rule) }
{
    let element = computation(alloc, occurrence(1, 0), FlatExpr::Read(occurrence(0, 0)));
    let next = computation(alloc, occurrence(2, 0), FlatExpr::Read(occurrence(0, 0)));
    let added = sum(
        alloc,
        2,
        FlatExpr::Read(occurrence(1, 1)),
        FlatExpr::Read(occurrence(2, 1)),
    )?;
    let s = computation(alloc, occurrence(0, 1), added);
    let comps = three(alloc, element, next, s)?;
    Ok(rule(12, 3, two(alloc, SymId(1), SymId(3))?, comps))
}

/// The rule of the last cell: s is 0.
fn rule_of_end(alloc: Global) -> Result<FlatRule, Memory>
    ensures { IfOk result (λ made. made ≡ end_rule) }
{
    let s = computation(alloc, occurrence(0, 1), FlatExpr::Value(Value::Int(0)));
    Ok(rule(13, 3, List::new(alloc), one(alloc, s)?))
}

/// The four rules.
fn rules(alloc: Global) -> Result<List<FlatRule>, Memory>
    ensures { IfOk result (λ made. made ≡ four_rules) }
{
    let mut list = three(
        alloc,
        rule_of_list(alloc)?,
        rule_of_item(alloc)?,
        rule_of_cell(alloc)?,
    )?;
    list.push(rule_of_end(alloc)?)?;
    Ok(list)
}

/// The shapes of the two written rules.
fn shapes(alloc: Global) -> Result<List<Shape>, Memory>
    ensures { IfOk result (λ made. made ≡ two_shapes) }
{
    let list = Shape {
        rule: RuleId(0),
        list: true,
        right: one(alloc, SymId(1))?,
    };
    two(alloc, list, plain_shape(1, one(alloc, SymId(2))?))
}

/// The grammar.
pub fn grammar(alloc: Global) -> Result<Flat, Memory>
    ensures symbols { IfOk result (λ flat. flat.symbols ≡ four_symbols) }
    ensures rules { IfOk result (λ flat. flat.rules ≡ four_rules) }
    ensures shapes { IfOk result (λ flat. flat.shapes ≡ two_shapes) }
    ensures root { IfOk result (λ flat. flat.root ≡ record { 0 = 0 }) }
{
    Ok(Flat {
        symbols: symbols(alloc)?,
        rules: rules(alloc)?,
        shapes: shapes(alloc)?,
        root: SymId(0),
    })
}

/// One visit, in which i is handed down and s up.
fn i_and_s(alloc: Global) -> Result<List<VisitClass>, Memory>
    ensures { IfOk result (λ made. made ≡ i_then_s) }
{
    one(
        alloc,
        VisitClass {
            inherited: one(alloc, AttrId(0))?,
            synthesized: one(alloc, AttrId(1))?,
        },
    )
}

/// The visits of each symbol.
fn rows(alloc: Global) -> Result<List<List<VisitClass>>, Memory>
    ensures { IfOk result (λ made. made ≡ four_rows) }
{
    let top = one(
        alloc,
        VisitClass {
            inherited: List::new(alloc),
            synthesized: one(alloc, AttrId(0))?,
        },
    )?;
    let mut list = three(alloc, top, i_and_s(alloc)?, List::new(alloc))?;
    list.push(i_and_s(alloc)?)?;
    Ok(list)
}

/// The sequence of a node that has s alone.
fn sequence_of_s(alloc: Global) -> Result<List<PlanItem>, Memory>
    ensures { IfOk result (λ made. made ≡ s_sequence) }
{
    two(
        alloc,
        PlanItem::Eval(occurrence(0, 1)),
        PlanItem::Leave { visit: 1 },
    )
}

/// The sequence of the list.
fn sequence_of_list(alloc: Global) -> Result<List<PlanItem>, Memory>
    ensures { IfOk result (λ made. made ≡ list_sequence) }
{
    let mut list = three(
        alloc,
        PlanItem::Eval(occurrence(1, 0)),
        PlanItem::Visit { occ: 1, visit: 1 },
        PlanItem::Eval(occurrence(0, 0)),
    )?;
    list.push(PlanItem::Leave { visit: 1 })?;
    Ok(list)
}

/// The sequence of a cell.
fn sequence_of_cell(alloc: Global) -> Result<List<PlanItem>, Memory>
    ensures { IfOk result (λ made. made ≡ cell_sequence) }
{
    let mut list = three(
        alloc,
        PlanItem::Eval(occurrence(1, 0)),
        PlanItem::Visit { occ: 1, visit: 1 },
        PlanItem::Eval(occurrence(2, 0)),
    )?;
    list.push(PlanItem::Visit { occ: 2, visit: 1 })?;
    list.push(PlanItem::Eval(occurrence(0, 1)))?;
    list.push(PlanItem::Leave { visit: 1 })?;
    Ok(list)
}

/// The plan.
pub fn plan(alloc: Global) -> Result<Plan, Memory>
    ensures rows { IfOk result (λ plan. plan.visits ≡ four_rows) }
    ensures sequences { IfOk result (λ plan. plan.seqs ≡ four_sequences) }
{
    let mut seqs = three(
        alloc,
        sequence_of_list(alloc)?,
        sequence_of_s(alloc)?,
        sequence_of_cell(alloc)?,
    )?;
    seqs.push(sequence_of_s(alloc)?)?;
    Ok(Plan {
        visits: rows(alloc)?,
        seqs,
    })
}
