//! The tables of a specification in which there is no fault of the tables.
ghost use Rattle.std.specs.Prelude.{◌≡◌, ◌≤◌, ◌+◌, ◌⊎◌, ℕ, filter, length, Contains, IfOk, IfErr};
ghost use Rattle.std.specs.List.{AllZip};
ghost use Rattle.lido_base.specs.Environment.{Environment};
ghost use Rattle.lido_base.specs.Faults.{HasNone, First};
ghost use Rattle.lido_base.specs.Texts.{Gains};
ghost use Rattle.lido_syntax.specs.declared.spec.RuleItem.{RuleItem as Rule};
ghost use Rattle.lido_syntax.specs.declared.fault.SpecFault.TheVariants as fault;
ghost use Rattle.lido_syntax.specs.Symbols.{IsRoot};
ghost use Rattle.lido_symbols.specs.FromText.{IsFromText};
ghost use Rattle.kind_clashes.specs.Sets.{AreNameSets};
ghost use Rattle.symbol_attributes.specs.Inheritance.{AreNumberedIn};
ghost use Rattle.table_faults.specs.Faults.{IsKnown, table_faults};
ghost use Rattle.rule_tables.specs.PlainRules.{number, plain_rules as rules_of};
ghost use Rattle.rule_tables.specs.RuleNames.{HasNames, HasIds};
ghost use Rattle.rule_tables.specs.TablesOf.{IsRowOf, IsPlainOf, AreTablesOf};

use crate::cell_rules::push_rules_of_cells;
use crate::cells::cells;
use crate::root::root_of;
use crate::rows::rows;
use crate::rule_shapes::shapes;
use crate::symbol_kinds::TermTypes;
use crate::table::{SymbolRow, Tables};
use crate::written::written_rules;
use flat_grammar::FlatRule;
use kind_clashes::NameSets;
use lido_base::{List, Memory, Strings, SymId};
use lido_symbols::{Names, symbol_numbers};
use lido_syntax::{Spec, SpecFault};
use std::alloc::Global;
use symbol_attributes::written_attributes;
use table_faults::check;

/// The root of a specification that has one.
fn only_root(symbols: &Names, sets: &NameSets, spec: &Spec) -> SymId
    requires few { length symbols.now ≤ 512 }
    requires sets { AreNameSets spec.now sets.now }
    requires some { ((s : ℕ) → ¬ IsRoot spec.now s) → ⊥ }
    ensures { (s : ℕ) × IsRoot spec.now s × (result.0 ≡ number spec.now symbols.now s) }
{
    match root_of(symbols, sets, spec.rules.as_slice()) {
        Some(root) => root,
        None => unreachable!(),
    }
}

/// The rows of the symbols of a specification, each of which is something.
fn symbol_rows(
    alloc: Global,
    spec: &Spec,
    symbols: &Names,
    sets: &NameSets,
) -> Result<Vec<SymbolRow>, Memory>
    requires few { length symbols.now ≤ 512 }
    requires from_text { IsFromText spec.now }
    requires sets { AreNameSets spec.now sets.now }
    requires numbered { AreNumberedIn symbols.now spec.now.symbols }
    ensures { IfOk result (λ rows. (env : Environment) → ((s : ℕ) → Contains symbols.now s → ¬ ¬ IsKnown spec.now env s)
        → AllZip (IsRowOf spec.now env symbols.now) symbols.now rows.items) }
{
    let types = TermTypes::of(alloc, spec.terms.as_slice())?;
    let attributes = written_attributes(alloc, spec, sets, symbols)?;
    let rows = rows(alloc, spec, symbols, sets, &types, attributes)?;
    Ok(rows)
}

/// The plain rules of a specification: the written ones, then those of the cells.
fn plain_rules(
    alloc: Global,
    strings: &mut Strings,
    spec: &Spec,
    symbols: &Names,
) -> Result<Vec<FlatRule>, Memory>
    requires few { length symbols.now + length (filter (λ (r : Rule). r.list) spec.now.rules) ≤ 512 }
    requires names { HasNames strings.old spec.now.rules }
    ensures plain { IfOk result (λ plain. (env : Environment) → Gains strings.new env.texts
        → AllZip (IsPlainOf spec.now env symbols.now) (rules_of spec.now symbols.now) plain.items) }
    ensures kept { Gains strings.old strings.new }
{
    let mut plain = written_rules(alloc, symbols, spec.rules.as_slice())?;
    push_rules_of_cells(alloc, strings, symbols, &mut plain, spec.rules.as_slice())?;
    Ok(plain)
}

/// The tables of a specification that was read from a text and has no fault of the tables. Its names are ids of `strings`, to
/// which the names of cells and of their rules are added. An `Err` is want of memory.
pub fn tables_of(alloc: Global, spec: Spec, strings: &mut Strings) -> Result<Tables, Memory>
    requires from_text { IsFromText spec }
    requires ids { HasIds strings.old spec }
    requires none { (env : Environment) → env.texts ≡ strings.old → HasNone (table_faults spec env) }
    ensures of_spec { IfOk result (λ tables. tables.spec ≡ spec) }
    ensures tables { IfOk result (λ tables. (env : Environment) → env.texts ≡ strings.new → AreTablesOf env tables) }
    ensures kept { Gains strings.old strings.new }
{
    let symbols = symbol_numbers(alloc, &spec, strings)?;
    let sets = NameSets::of(alloc, &spec)?;
    let root = only_root(&symbols, &sets, &spec);
    let shapes = shapes(alloc, &symbols, spec.rules.as_slice())?;
    let mut rows = symbol_rows(alloc, &spec, &symbols, &sets)?;
    let mut cells = cells(alloc, strings, spec.rules.as_slice())?;
    rows.append(&mut cells)?;
    let plain = plain_rules(alloc, strings, &spec, &symbols)?;
    Ok(Tables {
        spec,
        symbols: List::from_vec(rows),
        root,
        plain: List::from_vec(plain),
        shapes,
    })
}

/// The tables of a specification that was read from a text. Its names are ids of `strings`, to which the names of cells and of
/// their rules are added. An `Err` is the first fault of the tables, and then the texts are unchanged; or it is want of memory.
pub fn tables(alloc: Global, spec: Spec, strings: &mut Strings) -> Result<Tables, SpecFault>
    requires from_text { IsFromText spec }
    requires ids { HasIds strings.old spec }
    ensures of_spec { IfOk result (λ tables. tables.spec ≡ spec) }
    ensures tables { IfOk result (λ tables. (env : Environment) → env.texts ≡ strings.new → AreTablesOf env tables) }
    ensures few { IfOk result (λ tables. length tables.symbols ≤ 512) }
    ensures none { IfOk result (λ _. (env : Environment) → env.texts ≡ strings.old → HasNone (table_faults spec env)) }
    ensures err { IfErr result (λ f. (f ≡ fault.Memory) ⊎ ((env : Environment) → env.texts ≡ strings.old → First (table_faults spec env) f)) }
    ensures unchanged { IfErr result (λ f. (f ≡ fault.Memory) ⊎ (strings.new ≡ strings.old)) }
    ensures kept { Gains strings.old strings.new }
{
    check(alloc, &spec, strings)?;
    let tables = tables_of(alloc, spec, strings)?;
    Ok(tables)
}
