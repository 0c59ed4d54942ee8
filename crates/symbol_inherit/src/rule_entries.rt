//! What is in force in the plain rules.
ghost use Rattle.std.specs.Prelude.{◌≡◌, Some, slice_get, IfOk, [], if◌then◌else◌};
ghost use Rattle.std.specs.List.{AllZip};
ghost use Rattle.lido_base.specs.Environment.{Environment};
ghost use Rattle.computation_aims.specs.Aims.{AreChains};
ghost use Rattle.rule_tables.specs.PlainRules.{PlainRule, plain_rules};
ghost use Rattle.rule_tables.specs.TablesOf.{named_symbols};
ghost use Rattle.rule_tables.specs.ForcedOf.{AreEntriesOf};
ghost use Rattle.symbol_inherit.specs.Entries.{AreKnown, IsRuleWith};
ghost use Rattle.symbol_inherit.specs.CellRules.{IsLink, IsCellRule};

use crate::entries::{
    attributes, output, push_attributes, push_chains, push_held, push_messages, push_right_side,
};
use crate::index::Index;
use crate::rule_notes::rule_index;
use crate::symbols::Symbols;
use flat_grammar::FlatRule;
use lido_base::{List, Memory, SymId};
use lido_symbols::Names;
use lido_syntax::RuleItem;
use rule_tables::{Force, Goal, Tables};
use std::alloc::Global;

/// What is in force in the plain rule of a written rule, whose goals are those of these symbols.
fn rule_entries(
    alloc: Global,
    tables: &Tables,
    symbols: &Symbols,
    chains: &Names,
    rule: &RuleItem,
    left: SymId,
    right: &[SymId],
) -> Result<List<Force>, Memory>
    ensures { IfOk result (λ entries. (env : Environment) (p : PlainRule) → AreKnown env tables.now symbols.now
        → AreChains tables.now.spec chains.now → IsRuleWith tables.now p rule.now left right.now → AreEntriesOf tables.now p entries) }
{
    let rows = tables.symbols.as_slice();
    let declared = tables.spec.chains.as_slice();
    let body = rule.body.as_slice();
    let index = rule_index(alloc, chains, rule)?;
    let attrs = attributes(rows, left.0);
    let mut entries = Vec::new(alloc);
    push_attributes(&mut entries, &index, symbols, left.0, 0, attrs)?;
    push_right_side(&mut entries, &index, symbols, rows, right)?;
    push_chains(&mut entries, &index, symbols, left.0, false, declared)?;
    push_chains(&mut entries, &index, symbols, left.0, true, declared)?;
    let out = output(body);
    push_held(&mut entries, 0, Goal::Out, out)?;
    push_messages(&mut entries, body)?;
    Ok(List::from_vec(entries))
}

/// What is in force in a rule of a list's cell with this element.
fn link_entries(
    alloc: Global,
    tables: &Tables,
    symbols: &Symbols,
    element: SymId,
) -> Result<List<Force>, Memory>
    ensures { IfOk result (λ entries. (env : Environment) (p : PlainRule) → AreKnown env tables.now symbols.now
        → IsLink tables.now p element → AreEntriesOf tables.now p entries) }
{
    let rows = tables.symbols.as_slice();
    let nothing = Index::new(alloc);
    let attrs = attributes(rows, element.0);
    let mut entries = Vec::new(alloc);
    push_attributes(&mut entries, &nothing, symbols, element.0, 1, attrs)?;
    Ok(List::from_vec(entries))
}

/// What is in force in a rule of a list's cell with this right side.
fn cell_entries(
    alloc: Global,
    tables: &Tables,
    symbols: &Symbols,
    right: &[SymId],
) -> Result<List<Force>, Memory>
    ensures { IfOk result (λ entries. (env : Environment) (p : PlainRule) → AreKnown env tables.now symbols.now
        → IsCellRule tables.now p right.now → AreEntriesOf tables.now p entries) }
{
    match right.first() {
        Some(element) => {
            let entries = link_entries(alloc, tables, symbols, *element)?;
            Ok(entries)
        }
        None => Ok(List::new(alloc)),
    }
}

/// The symbols of a right side at which there are goals: those of a list's rule have none.
fn goal_side<'a>(rule: &RuleItem, flat: &'a FlatRule) -> &'a [SymId]
    ensures { result.now ≡ (if rule.now.list then [] else flat.now.right) }
{
    if rule.list {
        return &[];
    }
    flat.right.as_slice()
}

/// What is in force in the plain rule of that number.
fn plain_entries(
    alloc: Global,
    tables: &Tables,
    symbols: &Symbols,
    chains: &Names,
    k: usize,
    flat: &FlatRule,
) -> Result<List<Force>, Memory>
    ensures { IfOk result (λ entries. (env : Environment) (p : PlainRule) → AreKnown env tables.now symbols.now
        → AreChains tables.now.spec chains.now → slice_get (plain_rules tables.now.spec (named_symbols tables.now)) k ≡ Some p
        → slice_get tables.now.plain k ≡ Some flat.now → AreEntriesOf tables.now p entries) }
{
    match tables.spec.rules.as_slice().get(k) {
        Some(rule) => {
            let right = goal_side(rule, flat);
            let entries = rule_entries(alloc, tables, symbols, chains, rule, flat.left, right)?;
            Ok(entries)
        }
        None => {
            let entries = cell_entries(alloc, tables, symbols, flat.right.as_slice())?;
            Ok(entries)
        }
    }
}

/// What is in force in each plain rule.
pub fn all_entries(
    alloc: Global,
    tables: &Tables,
    symbols: &Symbols,
    chains: &Names,
) -> Result<List<List<Force>>, Memory>
    ensures { IfOk result (λ all. (env : Environment) → AreKnown env tables.now symbols.now → AreChains tables.now.spec chains.now
        → AllZip (AreEntriesOf tables.now) (plain_rules tables.now.spec (named_symbols tables.now)) all) }
{
    let plain = tables.plain.as_slice();
    let mut all = Vec::new(alloc);
    for (k, flat) in plain.iter().enumerate() {
        let entries = plain_entries(alloc, tables, symbols, chains, k, flat)?;
        all.push(entries)?;
    }
    Ok(List::from_vec(all))
}
