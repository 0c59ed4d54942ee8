//! The types of the attributes that pairs list.
ghost use Rattle.std.specs.Prelude.{◌≡◌, find, MatchOption};
ghost use Rattle.std.specs.Option.{option_copied};
ghost use Rattle.including_sets.specs.Types.{type_in, type_of, type_by, is_called as is_called_by};
ghost use Rattle.including_sets.specs.Types.{class_type as type_of_class, first_type as type_of_first, HasNoType, IsTypeFound, IsSetType};

use lido_base::{StrId, ValueType};
use lido_syntax::Pair;
use remote_lists::{Symbols, is_cell, is_nonterminal, listed};
use rule_tables::SymbolRow;

/// The type of the attribute of that name, if the row has it.
fn type_named(row: &SymbolRow, name: StrId) -> Option<ValueType>
    ensures { result ≡ type_in row.now name.0 }
{
    row.attrs
        .as_slice()
        .iter()
        .find(|attr| attr.name == name)
        .map(|attr| attr.ty)
}

/// The type of the attribute of that name, if there is one.
fn type_if(row: &SymbolRow, name: Option<StrId>) -> Option<ValueType>
    ensures { result ≡ type_of row.now name }
{
    match name {
        Some(name) => type_named(row, name),
        None => None,
    }
}

/// The type of the attribute that the pairs list for the symbol of the row, if it is a nonterminal.
fn type_at(symbols: &Symbols, pairs: &[Pair], row: &SymbolRow) -> Option<ValueType>
    ensures { result ≡ type_by symbols.now pairs.now row.now }
{
    if is_nonterminal(row.class) {
        return type_if(row, listed(symbols, pairs, row));
    }
    None
}

/// The type of the first attribute that the pairs list for a nonterminal.
fn listed_type(symbols: &Symbols, pairs: &[Pair], rows: &[SymbolRow]) -> Option<ValueType>
    ensures { MatchOption result (HasNoType symbols.now pairs.now rows.now) (IsTypeFound symbols.now pairs.now rows.now) }
{
    for row in rows {
        if let Some(ty) = type_at(symbols, pairs, row) {
            return Some(ty);
        }
    }
    None
}

/// Whether the row is that of the symbol of this name. A cell has no name in the text.
fn is_called(row: &SymbolRow, name: StrId) -> bool
    ensures { result ≡ is_called_by name.0 row.now }
{
    !is_cell(row.class) && row.name == name
}

/// The row of the symbol of this name, if there is one.
fn row_called(rows: &[SymbolRow], name: StrId) -> Option<&SymbolRow>
    ensures { option_copied result ≡ find (is_called_by name.0) rows.now }
{
    rows.iter().find(|row| is_called(row, name))
}

/// The type of the pair's attribute on the symbol or class that it names.
fn class_type(rows: &[SymbolRow], pair: &Pair) -> Option<ValueType>
    ensures { result ≡ type_of_class rows.now pair.now }
{
    match row_called(rows, pair.sym.id) {
        Some(row) => type_named(row, pair.attr.id),
        None => None,
    }
}

/// The type of the first pair's attribute on the symbol or class that it names.
fn first_type(rows: &[SymbolRow], pairs: &[Pair]) -> ValueType
    ensures { result ≡ type_of_first rows.now pairs.now }
{
    match pairs.first() {
        Some(pair) => class_type(rows, pair).unwrap_or(ValueType::Void),
        None => ValueType::Void,
    }
}

/// The type of the first attribute that the pairs list for a nonterminal; where they list none, that of the first pair.
pub fn set_type(symbols: &Symbols, pairs: &[Pair], rows: &[SymbolRow]) -> ValueType
    ensures { IsSetType symbols.now pairs.now rows.now result }
{
    match listed_type(symbols, pairs, rows) {
        Some(ty) => ty,
        None => first_type(rows, pairs),
    }
}
