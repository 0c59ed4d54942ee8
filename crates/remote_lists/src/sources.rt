//! The attributes that a remote list lists, by symbol number.
ghost use Rattle.std.specs.Prelude.{◌≡◌, map, IfOk};
ghost use Rattle.remote_lists.specs.Sources.{place_of, id_in, id_of, source_by, is_source, source_of};

use crate::listings::listed;
use crate::symbols::Symbols;
use lido_base::{AttrId, Memory, StrId, SymId};
use lido_syntax::Pair;
use rule_tables::SymbolRow;
use std::alloc::Global;

/// The place of the attribute of that name in the row, if the row has it.
fn attribute_place(row: &SymbolRow, name: StrId) -> Option<usize>
    ensures { result ≡ place_of row.now name.0 }
{
    row.attrs
        .as_slice()
        .iter()
        .position(|attr| attr.name == name)
}

/// The number at that place, if u16 numbers it.
fn numbered(place: usize) -> Option<AttrId>
    ensures { result ≡ id_in place }
{
    if place < 65536 {
        Some(AttrId(place as u16))
    } else {
        None
    }
}

/// The number of the attribute of that name in the row, if the row has it and u16 numbers it.
fn attribute_id(row: &SymbolRow, name: StrId) -> Option<AttrId>
    ensures { result ≡ id_of row.now name.0 }
{
    match attribute_place(row, name) {
        Some(place) => numbered(place),
        None => None,
    }
}

/// The attribute that the pairs list for the symbol of the row, by its number in the row.
pub fn source(symbols: &Symbols, pairs: &[Pair], row: &SymbolRow) -> Option<AttrId>
    ensures { result ≡ source_by symbols.now pairs.now row.now }
{
    match listed(symbols, pairs, row) {
        Some(name) => attribute_id(row, name),
        None => None,
    }
}

/// For each symbol and cell the attribute that the pairs list. It takes time linear in the symbols for each pair. An `Err` is want
/// of memory.
pub fn source_rows(
    alloc: Global,
    symbols: &Symbols,
    rows: &[SymbolRow],
    pairs: &[Pair],
) -> Result<Vec<Option<AttrId>>, Memory>
    ensures { IfOk result (λ sources. sources.items ≡ map (source_by symbols.now pairs.now) rows.now) }
{
    let mut sources = Vec::new(alloc);
    for row in rows {
        sources.push(source(symbols, pairs, row))?;
    }
    Ok(sources)
}

/// For each symbol and cell whether an attribute is listed for it. An `Err` is want of memory.
pub fn with_source(alloc: Global, sources: &[Option<AttrId>]) -> Result<Vec<bool>, Memory>
    ensures { IfOk result (λ set. set.items ≡ map is_source sources.now) }
{
    let mut set = Vec::new(alloc);
    for source in sources {
        set.push(source.is_some())?;
    }
    Ok(set)
}

/// The attribute that is listed for the symbol of that number.
pub fn source_at(sources: &[Option<AttrId>], symbol: SymId) -> Option<AttrId>
    ensures { result ≡ source_of sources.now symbol.0 }
{
    match sources.get(symbol.0 as usize) {
        Some(found) => *found,
        None => None,
    }
}
