//! The symbols of tables, by name, and which of them inherit which classes.
ghost use Rattle.std.specs.Prelude.{◌≡◌, filter_map, IfOk, OnOk};
ghost use Rattle.lido_base.specs.Environment.{Environment};
ghost use Rattle.lido_symbols.specs.Numbers.{different};
ghost use Rattle.rule_tables.specs.TablesOf.{AreTablesOf, symbol_named};
ghost use Rattle.remote_lists.specs.Listings.{AreSymbols, is_nonterminal_class, is_cell_class, stands_in, with_name};

use lido_base::{Memory, StrId};
use lido_symbols::Names;
use rule_tables::{SymbolClass, SymbolRow, Tables};
use std::alloc::Global;
use symbol_attributes::Inheritance;

/// The symbols of tables, and which of them inherit which classes.
#[derive(Drop)]
pub struct Symbols {
    pub names: Names,
    pub inheritance: Inheritance,
}

/// Whether a symbol of this class is a nonterminal.
pub fn is_nonterminal(class: SymbolClass) -> bool
    ensures { result ≡ is_nonterminal_class class }
{
    match class {
        SymbolClass::Nonterminal => true,
        SymbolClass::Terminal(_) | SymbolClass::Class | SymbolClass::Cell => false,
    }
}

/// Whether a symbol of this class is that of a list's cells.
pub fn is_cell(class: SymbolClass) -> bool
    ensures { result ≡ is_cell_class class }
{
    match class {
        SymbolClass::Cell => true,
        SymbolClass::Nonterminal | SymbolClass::Terminal(_) | SymbolClass::Class => false,
    }
}

/// Adds the name of a row, unless the row is that of a cell.
fn add_name(names: &mut Names, row: &SymbolRow) -> Result<(), Memory>
    ensures { OnOk result (names.new ≡ with_name names.old (symbol_named row.now)) }
{
    if is_cell(row.class) {
        return Ok(());
    }
    names.add(row.name)?;
    Ok(())
}

/// The names of the symbols, each once.
fn names_of(alloc: Global, rows: &[SymbolRow]) -> Result<Names, Memory>
    ensures { IfOk result (λ names. names ≡ different (filter_map symbol_named rows.now)) }
{
    let mut names = Names::new(alloc);
    for row in rows {
        add_name(&mut names, row)?;
    }
    Ok(names)
}

impl Symbols {
    /// The symbols of tables.
    pub fn of(alloc: Global, tables: &Tables) -> Result<Symbols, Memory>
        requires { (env : Environment) × AreTablesOf env tables.now }
        ensures { IfOk result (AreSymbols tables.now.spec) }
    {
        let names = names_of(alloc, tables.symbols.as_slice())?;
        let inheritance = Inheritance::of(alloc, &tables.spec, &names)?;
        Ok(Symbols { names, inheritance })
    }

    /// Whether a name in a remote list stands for the symbol of the row: it is its own, or, of a nonterminal, that of a class that
    /// it inherits.
    pub fn stands_for(&self, row: &SymbolRow, name: StrId) -> bool
        ensures { result ≡ stands_in self.now row.now name.0 }
    {
        name == row.name
            || (is_nonterminal(row.class)
                && self
                    .inheritance
                    .inherits(self.names.number(row.name), self.names.number(name)))
    }
}
