//! The rows of the symbols.
ghost use Rattle.std.specs.Prelude.{◌≡◌, ◌≤◌, ℕ, map, length, Contains, IfOk};
ghost use Rattle.std.specs.List.{AllZip};
ghost use Rattle.lido_base.specs.Environment.{Environment};
ghost use Rattle.lido_syntax.specs.declared.spec.Name.{Name as Named};
ghost use Rattle.lido_syntax.specs.declared.spec.SymbolItem.{SymbolItem as Item};
ghost use Rattle.lido_syntax.specs.Production.{name_of};
ghost use Rattle.kind_clashes.specs.Sets.{AreNameSets};
ghost use Rattle.table_faults.specs.Faults.{IsKnown};
ghost use Rattle.symbol_attributes.specs.Written.{AreAttributesOf};
ghost use Rattle.rule_tables.specs.DirectClasses.{inherited_by};
ghost use Rattle.rule_tables.specs.SymbolKinds.{AreTermTypes};
ghost use Rattle.rule_tables.specs.TablesOf.{IsRowOf};

use crate::direct_classes::{direct_classes, inherited_names};
use crate::symbol_kinds::{TermTypes, class_of};
use crate::table::SymbolRow;
use flat_grammar::FlatAttr;
use kind_clashes::NameSets;
use lido_base::{List, Memory, StrId};
use lido_symbols::Names;
use lido_syntax::Spec;
use std::alloc::Global;

/// The row of a symbol that is something. (`symbols` are all of the specification, `sets` and `types` are its sets and types.)
fn row(
    alloc: Global,
    spec: &Spec,
    symbols: &Names,
    sets: &NameSets,
    types: &TermTypes,
    inherited: &[Names],
    symbol: StrId,
    attrs: List<FlatAttr>,
) -> Result<SymbolRow, Memory>
    requires few { length symbols.now ≤ 512 }
    requires sets { AreNameSets spec.now sets.now }
    requires types { AreTermTypes spec.now.terms types.now }
    requires numbered { (item : Item) (x : Named) → Contains spec.now.symbols item → Contains item.inherits x → Contains symbols.now (name_of x) }
    requires inherited { inherited.now ≡ map inherited_by spec.now.symbols }
    requires attributes { AreAttributesOf spec.now symbol.0 attrs }
    ensures { IfOk result (λ row. (env : Environment) → ¬ ¬ IsKnown spec.now env symbol.0 → IsRowOf spec.now env symbols.now symbol.0 row) }
{
    Ok(SymbolRow {
        name: symbol,
        class: class_of(sets, types, symbol),
        attrs,
        classes: direct_classes(alloc, symbols, spec.symbols.as_slice(), inherited, symbol)?,
    })
}

/// The rows of the symbols, in order, each with its list of attributes. (`symbols` are all of the specification, `sets` and
/// `types` are its sets and types.)
pub fn rows(
    alloc: Global,
    spec: &Spec,
    symbols: &Names,
    sets: &NameSets,
    types: &TermTypes,
    attributes: Vec<List<FlatAttr>>,
) -> Result<Vec<SymbolRow>, Memory>
    requires few { length symbols.now ≤ 512 }
    requires sets { AreNameSets spec.now sets.now }
    requires types { AreTermTypes spec.now.terms types.now }
    requires numbered { (item : Item) (x : Named) → Contains spec.now.symbols item → Contains item.inherits x → Contains symbols.now (name_of x) }
    requires attributes { AllZip (AreAttributesOf spec.now) symbols.now attributes.items }
    ensures { IfOk result (λ rows. (env : Environment) → ((s : ℕ) → Contains symbols.now s → ¬ ¬ IsKnown spec.now env s)
        → AllZip (IsRowOf spec.now env symbols.now) symbols.now rows.items) }
{
    let inherited = inherited_names(alloc, spec.symbols.as_slice())?;
    let mut rows = Vec::new(alloc);
    for attrs in attributes {
        let symbol = StrId(symbols.as_slice()[rows.len()]);
        rows.push(row(alloc, spec, symbols, sets, types, &inherited, symbol, attrs)?)?;
    }
    Ok(rows)
}
