//! The plain rules of the written rules.
ghost use Rattle.std.specs.Prelude.{◌≡◌, ◌≤◌, ◌<◌, ◌+◌, ◌^◌, ℕ, Some, true, map, length, filter, slice_get, IfOk, if◌then◌else◌};
ghost use Rattle.std.specs.List.{AllZip};
ghost use Rattle.lido_base.specs.Environment.{Environment};
ghost use Rattle.lido_base.specs.declared.ids.SymId.{SymId as SymbolId};
ghost use Rattle.lido_syntax.specs.declared.spec.Spec.{Spec as Specification};
ghost use Rattle.lido_syntax.specs.declared.spec.RuleItem.{RuleItem as Rule};
ghost use Rattle.lido_symbols.specs.Numbers.{enumerated};
ghost use Rattle.rule_tables.specs.PlainRules.{cell as cell_of, written_rule};
ghost use Rattle.rule_tables.specs.TablesOf.{IsPlainOf};

use crate::rule_shapes::{right_ids, symbol_id};
use flat_grammar::FlatRule;
use lido_base::{List, Memory, SymId};
use lido_symbols::Names;
use lido_syntax::RuleItem;
use std::alloc::Global;

/// The right side of a written rule: a list leads to its cell alone.
fn right_side(
    alloc: Global,
    symbols: &Names,
    rule: &RuleItem,
    cell: SymId,
) -> Result<List<SymId>, Memory>
    requires { length symbols.now ≤ 512 }
    ensures { IfOk result (λ right. (spec : Specification) (k : ℕ) → (rule.now.list ≡ true → cell.0 ≡ cell_of spec symbols.now k)
        → map (λ (s : SymbolId). s.0) right ≡ (written_rule spec symbols.now (k, rule.now)).right) }
{
    if rule.list {
        let cells = vec![in alloc; cell]?;
        return Ok(List::from_vec(cells));
    }
    right_ids(alloc, symbols, rule)
}

/// The plain rule of a written rule.
fn written(alloc: Global, symbols: &Names, rule: &RuleItem, cell: SymId) -> Result<FlatRule, Memory>
    requires { length symbols.now ≤ 512 }
    ensures { IfOk result (λ flat. (spec : Specification) (env : Environment) (k : ℕ) → slice_get spec.rules k ≡ Some rule.now
        → (rule.now.list ≡ true → cell.0 ≡ cell_of spec symbols.now k)
        → IsPlainOf spec env symbols.now (written_rule spec symbols.now (k, rule.now)) flat) }
{
    Ok(FlatRule {
        name: rule.name,
        left: symbol_id(symbols, rule.left.id),
        right: right_side(alloc, symbols, rule, cell)?,
        comps: List::new(alloc),
    })
}

/// The number of the next list's cell.
pub fn next_cell(rule: &RuleItem, cell: usize) -> usize
    requires { cell ≤ 512 }
    ensures { result ≡ cell + (if rule.now.list then 1 else 0) }
{
    if rule.list { cell + 1 } else { cell }
}

/// The plain rules of the written rules, in order. The cells are numbered behind the symbols.
pub fn written_rules(
    alloc: Global,
    symbols: &Names,
    rules: &[RuleItem],
) -> Result<Vec<FlatRule>, Memory>
    requires { length symbols.now + length (filter (λ (r : Rule). r.list) rules.now) ≤ 512 }
    ensures { IfOk result (λ plain. (spec : Specification) (env : Environment) → spec.rules ≡ rules.now
        → AllZip (IsPlainOf spec env symbols.now) (map (written_rule spec symbols.now) (enumerated 0 rules.now)) plain.items) }
{
    let mut plain = Vec::new(alloc);
    let mut cell = symbols.len();
    for rule in rules {
        let flat = written(alloc, symbols, rule, SymId(cell as u16))?;
        plain.push(flat)?;
        cell = next_cell(rule, cell);
    }
    Ok(plain)
}
