//! The symbols of the flat grammar, one after another.
ghost use Rattle.std.specs.Prelude.{◌≡◌, length, IfOk};
ghost use Rattle.std.specs.List.{AllZip};
ghost use Rattle.lido_base.specs.Environment.{Environment};
ghost use Rattle.lido_base.specs.Texts.{Gains};
ghost use Rattle.lido_symbols.specs.Numbers.{enumerated};
ghost use Rattle.flat_slots.specs.Slots.{row_at};
ghost use Rattle.flat_symbols.specs.Rows.{terminal_of as type_of, IsSymbolOf};

use crate::attributes::{Added, attributes_of};
use flat_grammar::FlatSymbol;
use flat_slots::{Slot, SlotTable};
use lido_base::{List, Memory, Strings, ValueType};
use rule_tables::{SymbolClass, SymbolRow};
use std::alloc::Global;

/// The type of a terminal or a class, and `None` for a nonterminal or a cell.
fn terminal_of(class: SymbolClass) -> Option<ValueType>
    ensures { result ≡ type_of class }
{
    match class {
        SymbolClass::Nonterminal | SymbolClass::Cell => None,
        SymbolClass::Terminal(ty) => Some(ty),
        SymbolClass::Class => Some(ValueType::Void),
    }
}

/// The attributes of the symbol of that number, by what they are.
fn slots_at(table: &SlotTable, x: usize) -> &[Slot]
    ensures { result.now ≡ row_at table.now.rows x }
{
    match table.rows.as_slice().get(x) {
        Some(row) => row.as_slice(),
        None => &[],
    }
}

/// The symbol of a row, with these attributes.
fn symbol(
    alloc: Global,
    strings: &mut Strings,
    added: &Added,
    row: &SymbolRow,
    slots: &[Slot],
) -> Result<FlatSymbol, Memory>
    ensures symbol { IfOk result (λ symbol. (env : Environment) → Gains strings.new env.texts
        → IsSymbolOf env (length strings.old) added.now row.now slots.now symbol) }
    ensures kept { Gains strings.old strings.new }
{
    let attrs = attributes_of(alloc, strings, added, row.attrs.as_slice(), slots)?;
    Ok(FlatSymbol {
        name: row.name,
        terminal: terminal_of(row.class),
        attrs: List::from_vec(attrs),
    })
}

/// The symbols of these rows, in order.
pub fn symbols_of(
    alloc: Global,
    strings: &mut Strings,
    added: &Added,
    rows: &[SymbolRow],
    table: &SlotTable,
) -> Result<Vec<FlatSymbol>, Memory>
    ensures symbols { IfOk result (λ symbols. (env : Environment) → Gains strings.new env.texts
        → AllZip (λ x y. IsSymbolOf env (length strings.old) added.now x.1 (row_at table.now.rows x.0) y)
        (enumerated 0 rows.now) symbols.items) }
    ensures count { IfOk result (λ symbols. length symbols.items ≡ length rows.now) }
    ensures kept { Gains strings.old strings.new }
{
    let mut symbols = Vec::new(alloc);
    for (x, row) in rows.iter().enumerate() {
        symbols.push(symbol(alloc, strings, added, row, slots_at(table, x))?)?;
    }
    Ok(symbols)
}
