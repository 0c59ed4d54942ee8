//! What the symbols of tables compute in their bodies, and which classes they inherit.
ghost use Rattle.std.specs.Prelude.{◌≡◌, ◌≤◌, filter_map, length, option_to_list, IfOk};
ghost use Rattle.lido_base.specs.Environment.{Environment};
ghost use Rattle.rule_tables.specs.TablesOf.{AreTablesOf, symbol_named};
ghost use Rattle.symbol_inherit.specs.BySymbols.{AreSymbols};
ghost use Rattle.symbol_inherit.specs.Symbols.{HasOwn};

use crate::classes::Classes;
use crate::index::Index;
use crate::notes::symbol_notes;
use lido_base::Memory;
use rule_tables::{SymbolClass, SymbolRow, Tables};
use std::alloc::Global;

/// The symbols of tables: what they inherit, and what they compute themselves.
#[derive(Drop)]
pub struct Symbols {
    pub classes: Classes,
    pub index: Index,
    /// How many there are, without the cells.
    pub count: u16,
}

/// 1 for the row of a symbol with a name, 0 for that of a cell.
fn weight(row: &SymbolRow) -> u16
    ensures weight { result ≡ length (option_to_list (symbol_named row.now)) }
    ensures small { result ≤ 1 }
{
    match row.class {
        SymbolClass::Cell => 0,
        _ => 1,
    }
}

/// How many symbols have names.
fn named_count(rows: &[SymbolRow]) -> u16
    requires { length rows.now ≤ 512 }
    ensures { result ≡ length (filter_map symbol_named rows.now) }
{
    let mut count = 0;
    for row in rows {
        count += weight(row);
    }
    count
}

/// The computations of the bodies of symbols.
fn body_index(alloc: Global, tables: &Tables) -> Result<Index, Memory>
    requires few { length tables.now.symbols ≤ 512 }
    requires tables { (env : Environment) × AreTablesOf env tables.now }
    ensures { IfOk result (HasOwn tables.now) }
{
    let rows = tables.symbols.as_slice();
    let items = tables.spec.symbols.as_slice();
    let notes = symbol_notes(alloc, rows, items)?;
    let index = Index::of(alloc, &notes)?;
    Ok(index)
}

impl Symbols {
    /// The symbols of tables.
    pub fn of(alloc: Global, tables: &Tables) -> Result<Symbols, Memory>
        requires few { length tables.now.symbols ≤ 512 }
        requires tables { (env : Environment) × AreTablesOf env tables.now }
        ensures { IfOk result (AreSymbols tables.now) }
    {
        let rows = tables.symbols.as_slice();
        let classes = Classes::of(alloc, rows)?;
        let index = body_index(alloc, tables)?;
        let count = named_count(rows);
        Ok(Symbols {
            classes,
            index,
            count,
        })
    }
}
