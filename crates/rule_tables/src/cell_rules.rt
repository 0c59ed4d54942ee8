//! The plain rules of lists' cells.
ghost use Rattle.std.specs.Prelude.{◌≡◌, ◌≤◌, ◌<◌, ◌+◌, ℕ, List as Sequence, true, map, flat_map, filter, length, Contains, IfOk, OnOk};
ghost use Rattle.std.specs.List.{AllZip};
ghost use Rattle.lido_base.specs.Environment.{Environment};
ghost use Rattle.lido_base.specs.Texts.{Gains};
ghost use Rattle.lido_syntax.specs.declared.spec.Spec.{Spec as Specification};
ghost use Rattle.lido_syntax.specs.declared.spec.RuleItem.{RuleItem as Rule};
ghost use Rattle.lido_syntax.specs.Production.{right_of};
ghost use Rattle.lido_symbols.specs.Numbers.{different, enumerated};
ghost use Rattle.rule_tables.specs.CellRules.{link_rule, end_rule, IsListAt, AddsPlain};
ghost use Rattle.rule_tables.specs.PlainRules.{cell_rules as rules_of_cell};
ghost use Rattle.rule_tables.specs.RuleNames.{HasNames};
ghost use Rattle.rule_tables.specs.TablesOf.{IsPlainOf};

use crate::cell_names::{end_name, link_name};
use crate::rule_shapes::symbol_id;
use crate::written::next_cell;
use flat_grammar::FlatRule;
use lido_base::{List, Memory, StrId, Strings, SymId};
use lido_symbols::{Names, different_symbols};
use lido_syntax::RuleItem;
use std::alloc::Global;

/// The plain rule for an element: the element, and the next cell.
fn link(
    alloc: Global,
    strings: &mut Strings,
    symbols: &Names,
    rule: &RuleItem,
    cell: SymId,
    element: StrId,
) -> Result<FlatRule, Memory>
    requires few { length symbols.now ≤ 512 }
    requires rule { rule.now.name.0 < length strings.old }
    requires element { element.0 < length strings.old }
    ensures plain { IfOk result (λ flat. (spec : Specification) (env : Environment) (k : ℕ) → Gains strings.new env.texts
        → IsListAt spec symbols.now k rule.now cell → IsPlainOf spec env symbols.now (link_rule spec symbols.now k element.0) flat) }
    ensures kept { Gains strings.old strings.new }
{
    let name = link_name(alloc, strings, rule.name, element)?;
    let right = vec![in alloc; symbol_id(symbols, element), cell]?;
    Ok(FlatRule {
        name,
        left: cell,
        right: List::from_vec(right),
        comps: List::new(alloc),
    })
}

/// The plain rule for the end.
fn end(
    alloc: Global,
    strings: &mut Strings,
    rule: &RuleItem,
    cell: SymId,
) -> Result<FlatRule, Memory>
    requires { rule.now.name.0 < length strings.old }
    ensures plain { IfOk result (λ flat. (spec : Specification) (env : Environment) (symbols : Sequence ℕ) (k : ℕ) → Gains strings.new env.texts
        → IsListAt spec symbols k rule.now cell → IsPlainOf spec env symbols (end_rule spec symbols k) flat) }
    ensures kept { Gains strings.old strings.new }
{
    Ok(FlatRule {
        name: end_name(alloc, strings, rule.name)?,
        left: cell,
        right: List::new(alloc),
        comps: List::new(alloc),
    })
}

/// Adds the plain rules for these elements.
fn push_links(
    alloc: Global,
    strings: &mut Strings,
    symbols: &Names,
    plain: &mut Vec<FlatRule>,
    rule: &RuleItem,
    cell: SymId,
    elements: &[u32],
) -> Result<(), Memory>
    requires few { length symbols.now ≤ 512 }
    requires rule { rule.now.name.0 < length strings.old }
    requires elements { (s : ℕ) → Contains elements.now s → s < length strings.old }
    ensures plain { OnOk result ((spec : Specification) (env : Environment) (k : ℕ) → Gains strings.new env.texts
        → IsListAt spec symbols.now k rule.now cell
        → AddsPlain spec env symbols.now (map (link_rule spec symbols.now k) elements.now) plain.old.items plain.new.items) }
    ensures kept { Gains strings.old strings.new }
{
    for element in elements {
        plain.push(link(alloc, strings, symbols, rule, cell, StrId(*element))?)?;
    }
    Ok(())
}

/// Adds the plain rules of a rule's cell, if the rule is a list.
fn push_cell_rules(
    alloc: Global,
    strings: &mut Strings,
    symbols: &Names,
    plain: &mut Vec<FlatRule>,
    rule: &RuleItem,
    cell: SymId,
) -> Result<(), Memory>
    requires few { length symbols.now ≤ 512 }
    requires rule { rule.now.name.0 < length strings.old }
    requires right { (s : ℕ) → Contains (right_of rule.now) s → s < length strings.old }
    ensures plain { OnOk result ((spec : Specification) (env : Environment) (k : ℕ) → Gains strings.new env.texts
        → (rule.now.list ≡ true → IsListAt spec symbols.now k rule.now cell)
        → AddsPlain spec env symbols.now (rules_of_cell spec symbols.now (k, rule.now)) plain.old.items plain.new.items) }
    ensures kept { Gains strings.old strings.new }
{
    if !rule.list {
        return Ok(());
    }
    let elements = different_symbols(alloc, rule)?;
    push_links(
        alloc,
        strings,
        symbols,
        plain,
        rule,
        cell,
        elements.as_slice(),
    )?;
    plain.push(end(alloc, strings, rule, cell)?)?;
    Ok(())
}

/// Adds the plain rules of the lists' cells, in the order of the lists. The cells are numbered behind the symbols.
pub fn push_rules_of_cells(
    alloc: Global,
    strings: &mut Strings,
    symbols: &Names,
    plain: &mut Vec<FlatRule>,
    rules: &[RuleItem],
) -> Result<(), Memory>
    requires few { length symbols.now + length (filter (λ (r : Rule). r.list) rules.now) ≤ 512 }
    requires names { HasNames strings.old rules.now }
    ensures plain { OnOk result ((spec : Specification) (env : Environment) → Gains strings.new env.texts → spec.rules ≡ rules.now
        → AddsPlain spec env symbols.now (flat_map (rules_of_cell spec symbols.now) (enumerated 0 rules.now)) plain.old.items plain.new.items) }
    ensures kept { Gains strings.old strings.new }
{
    let mut cell = symbols.len();
    for rule in rules {
        push_cell_rules(alloc, strings, symbols, plain, rule, SymId(cell as u16))?;
        cell = next_cell(rule, cell);
    }
    Ok(())
}
