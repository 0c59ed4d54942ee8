//! The symbols of lists' cells.
ghost use Rattle.std.specs.Prelude.{◌<◌, ◌++◌, ◌∷◌, [], ℕ, List as Sequence, filter, length, IfOk, OnOk};
ghost use Rattle.std.specs.List.{AllZip};
ghost use Rattle.lido_base.specs.Environment.{Environment};
ghost use Rattle.lido_base.specs.Texts.{Gains};
ghost use Rattle.lido_syntax.specs.declared.spec.Spec.{Spec as Specification};
ghost use Rattle.lido_syntax.specs.declared.spec.RuleItem.{RuleItem as Rule};
ghost use Rattle.rule_tables.specs.RuleNames.{HasNames};
ghost use Rattle.rule_tables.specs.TablesOf.{IsCellOf};

use crate::cell_names::cell_name;
use crate::table::{SymbolClass, SymbolRow};
use lido_base::{List, Memory, Strings};
use lido_syntax::RuleItem;
use std::alloc::Global;

/// The symbol of a list's cell.
fn cell(alloc: Global, strings: &mut Strings, rule: &RuleItem) -> Result<SymbolRow, Memory>
    requires { rule.now.name.0 < length strings.old }
    ensures cell { IfOk result (λ row. (spec : Specification) (env : Environment) (symbols : Sequence ℕ) → Gains strings.new env.texts
        → IsCellOf spec env symbols rule.now row) }
    ensures kept { Gains strings.old strings.new }
{
    Ok(SymbolRow {
        name: cell_name(alloc, strings, rule.name)?,
        class: SymbolClass::Cell,
        attrs: List::new(alloc),
        classes: List::new(alloc),
    })
}

/// Adds the symbol of a rule's cell, if the rule is a list.
fn push_cell(
    alloc: Global,
    strings: &mut Strings,
    rows: &mut Vec<SymbolRow>,
    rule: &RuleItem,
) -> Result<(), Memory>
    requires { rule.now.name.0 < length strings.old }
    ensures cells { OnOk result ((spec : Specification) (env : Environment) (symbols : Sequence ℕ) → Gains strings.new env.texts
        → (before : Sequence Rule) → AllZip (IsCellOf spec env symbols) before rows.old.items
        → AllZip (IsCellOf spec env symbols) (before ++ filter (λ (r : Rule). r.list) (rule.now ∷ [])) rows.new.items) }
    ensures kept { Gains strings.old strings.new }
{
    if !rule.list {
        return Ok(());
    }
    let row = cell(alloc, strings, rule)?;
    rows.push(row)?;
    Ok(())
}

/// The symbols of the lists' cells, in the order of their rules.
pub fn cells(
    alloc: Global,
    strings: &mut Strings,
    rules: &[RuleItem],
) -> Result<Vec<SymbolRow>, Memory>
    requires { HasNames strings.old rules.now }
    ensures cells { IfOk result (λ rows. (spec : Specification) (env : Environment) (symbols : Sequence ℕ) → Gains strings.new env.texts
        → AllZip (IsCellOf spec env symbols) (filter (λ (r : Rule). r.list) rules.now) rows.items) }
    ensures kept { Gains strings.old strings.new }
{
    let mut rows = Vec::new(alloc);
    for rule in rules {
        push_cell(alloc, strings, &mut rows, rule)?;
    }
    Ok(rows)
}
