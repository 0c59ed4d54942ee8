//! Which attribute a remote list gives a symbol.
ghost use Rattle.std.specs.Prelude.{◌≡◌, map, IfOk};
ghost use Rattle.remote_lists.specs.Listings.{first_by, listed_by, is_listed_by};

use crate::symbols::{Symbols, is_cell};
use lido_base::{Memory, StrId};
use lido_syntax::Pair;
use rule_tables::SymbolRow;
use std::alloc::Global;

/// The attribute that the first pair that stands for the symbol of the row gives it.
fn first_listed(symbols: &Symbols, pairs: &[Pair], row: &SymbolRow) -> Option<StrId>
    ensures { result ≡ first_by symbols.now pairs.now row.now }
{
    pairs
        .iter()
        .find(|pair| symbols.stands_for(row, pair.sym.id))
        .map(|pair| pair.attr.id)
}

/// The attribute that the pairs list for the symbol of the row. A cell has none.
pub fn listed(symbols: &Symbols, pairs: &[Pair], row: &SymbolRow) -> Option<StrId>
    ensures { result ≡ listed_by symbols.now pairs.now row.now }
{
    if is_cell(row.class) {
        return None;
    }
    first_listed(symbols, pairs, row)
}

/// For each symbol and cell whether the pairs list an attribute for it. It takes time linear in the symbols for each pair. An `Err`
/// is want of memory.
pub fn listed_rows(
    alloc: Global,
    symbols: &Symbols,
    rows: &[SymbolRow],
    pairs: &[Pair],
) -> Result<Vec<bool>, Memory>
    ensures { IfOk result (λ set. set.items ≡ map (is_listed_by symbols.now pairs.now) rows.now) }
{
    let mut set = Vec::new(alloc);
    for row in rows {
        set.push(listed(symbols, pairs, row).is_some())?;
    }
    Ok(set)
}
