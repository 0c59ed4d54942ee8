//! What a CONSTITUENTS lists for a symbol, and which symbols are its shields.
ghost use Rattle.std.specs.Prelude.{◌≡◌};
ghost use Rattle.constituents_expand.specs.Listings.{first_by, listed_by, named_by, shielded_by, holds_value, gives_value as gives};

use crate::symbols::{Symbols, is_cell, is_nonterminal};
use lido_base::{StrId, ValueType};
use lido_syntax::{Name, Pair};
use rule_tables::SymbolRow;

/// The attribute that the first pair that stands for the symbol of the row gives it.
fn first_listed(symbols: &Symbols, pairs: &[Pair], row: &SymbolRow) -> Option<StrId>
    ensures { result ≡ first_by symbols.now pairs.now row.now }
{
    pairs
        .iter()
        .find(|pair| symbols.stands_for(row, pair.sym.id))
        .map(|pair| pair.attr.id)
}

/// The attribute that the pairs list for the symbol of the row. A cell has none.
pub fn listed(symbols: &Symbols, pairs: &[Pair], row: &SymbolRow) -> Option<StrId>
    ensures { result ≡ listed_by symbols.now pairs.now row.now }
{
    if is_cell(row.class) {
        return None;
    }
    first_listed(symbols, pairs, row)
}

/// Whether one of the names stands for the symbol of the row.
fn is_named(symbols: &Symbols, names: &[Name], row: &SymbolRow) -> bool
    ensures { result ≡ named_by symbols.now names.now row.now }
{
    names.iter().any(|name| symbols.stands_for(row, name.id))
}

/// Whether one of the names behind SHIELD stands for the symbol of the row. A cell is no shield.
pub fn is_shielded(symbols: &Symbols, shield: &[Name], row: &SymbolRow) -> bool
    ensures { result ≡ shielded_by symbols.now shield.now row.now }
{
    if is_cell(row.class) {
        return false;
    }
    is_named(symbols, shield, row)
}

/// Whether the row has the attribute of that name, and it isn't VOID.
fn has_value(row: &SymbolRow, attribute: StrId) -> bool
    ensures { result ≡ holds_value row.now attribute }
{
    row.attrs.as_slice().iter().any(|attr| attr.name == attribute && attr.ty != ValueType::Void)
}

/// Whether the attribute of that name is one of the nonterminal of the row, and isn't VOID.
pub fn gives_value(row: &SymbolRow, listed: Option<StrId>) -> bool
    ensures { result ≡ gives row.now listed }
{
    match listed {
        None => false,
        Some(attribute) => is_nonterminal(row.class) && has_value(row, attribute),
    }
}
