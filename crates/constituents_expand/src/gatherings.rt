//! Which symbols have the attributes of the CONSTITUENTS.
ghost use Rattle.std.specs.Prelude.{◌≡◌, map, length, IfOk};
ghost use Rattle.lido_base.specs.Environment.{Environment};
ghost use Rattle.rule_tables.specs.ForcedOf.{AreForcedOf};
ghost use Rattle.constituents_expand.specs.Uses.{told};
ghost use Rattle.constituents_expand.specs.Listings.{shielded_by};
ghost use Rattle.constituents_expand.specs.Gatherings.{place_of, id_in, id_of, source_by, is_source, IsChildGraph, AreBearers, IsGatheringOf, AreGatherings};

use crate::listings::{is_shielded, listed};
use crate::reach::{both, children_of, reached, wanted};
use crate::symbols::Symbols;
use crate::uses::Use;
use crate::weights::Gathering;
use lido_base::{AttrId, List, Memory, StrId};
use lido_syntax::{Name, Pair};
use need_graphs::context_symbols;
use rule_tables::{Forced, SymbolRow};
use std::alloc::Global;

/// The place of the attribute of that name in the row, if the row has it.
fn attribute_place(row: &SymbolRow, name: StrId) -> Option<usize>
    ensures { result ≡ place_of row.now name.0 }
{
    row.attrs
        .as_slice()
        .iter()
        .position(|attr| attr.name == name)
}

/// The number at that place, if u16 numbers it.
fn numbered(place: usize) -> Option<AttrId>
    ensures { result ≡ id_in place }
{
    if place < 65536 {
        Some(AttrId(place as u16))
    } else {
        None
    }
}

/// The number of the attribute of that name in the row, if the row has it and u16 numbers it.
fn attribute_id(row: &SymbolRow, name: StrId) -> Option<AttrId>
    ensures { result ≡ id_of row.now name.0 }
{
    match attribute_place(row, name) {
        Some(place) => numbered(place),
        None => None,
    }
}

/// The attribute that the pairs list for the symbol of the row.
fn source(symbols: &Symbols, pairs: &[Pair], row: &SymbolRow) -> Option<AttrId>
    ensures { result ≡ source_by symbols.now pairs.now row.now }
{
    match listed(symbols, pairs, row) {
        Some(name) => attribute_id(row, name),
        None => None,
    }
}

/// For each symbol and cell the attribute that the pairs list.
fn sources(
    alloc: Global,
    symbols: &Symbols,
    rows: &[SymbolRow],
    pairs: &[Pair],
) -> Result<Vec<Option<AttrId>>, Memory>
    ensures { IfOk result (λ sources. sources.items ≡ map (source_by symbols.now pairs.now) rows.now) }
{
    let mut sources = Vec::new(alloc);
    for row in rows {
        sources.push(source(symbols, pairs, row))?;
    }
    Ok(sources)
}

/// For each symbol and cell whether one of the names behind SHIELD stands for it.
fn shields(
    alloc: Global,
    symbols: &Symbols,
    rows: &[SymbolRow],
    shield: &[Name],
) -> Result<Vec<bool>, Memory>
    ensures { IfOk result (λ shields. shields.items ≡ map (shielded_by symbols.now shield.now) rows.now) }
{
    let mut shields = Vec::new(alloc);
    for row in rows {
        shields.push(is_shielded(symbols, shield, row))?;
    }
    Ok(shields)
}

/// For each symbol and cell whether it is a source.
fn with_source(alloc: Global, sources: &[Option<AttrId>]) -> Result<Vec<bool>, Memory>
    ensures { IfOk result (λ set. set.items ≡ map is_source sources.now) }
{
    let mut set = Vec::new(alloc);
    for source in sources {
        set.push(source.is_some())?;
    }
    Ok(set)
}

/// The symbols and cells that have the attribute of the CONSTITUENTS in the computation of that number: it is wanted there, and a
/// source can be reached from there. It takes time linear in the rules and in the computations in force.
fn bearers(
    alloc: Global,
    forced: &Forced,
    graph: &[List<usize>],
    comp: u32,
    sources: &[Option<AttrId>],
    shields: &[bool],
) -> Result<Vec<bool>, Memory>
    requires forced { (env : Environment) × AreForcedOf env forced.now }
    requires graph { IsChildGraph forced.now.tables graph.now }
    requires sources { length sources.now ≡ length forced.now.tables.symbols }
    requires shields { length shields.now ≡ length forced.now.tables.symbols }
    ensures { IfOk result (λ set. AreBearers forced.now comp sources.now shields.now set.items) }
{
    let users = context_symbols(alloc, forced, &[comp])?;
    let starts = children_of(alloc, graph, &users)?;
    let wants = wanted(alloc, graph, &starts, shields)?;
    let ends = with_source(alloc, sources)?;
    let reach = reached(alloc, graph, &ends, shields)?;
    Ok(both(alloc, &wants, &reach)?)
}

/// The CONSTITUENTS with the symbols and cells that have its attribute.
fn gathering(
    alloc: Global,
    forced: &Forced,
    symbols: &Symbols,
    graph: &[List<usize>],
    one: &Use,
) -> Result<Gathering, Memory>
    requires forced { (env : Environment) × AreForcedOf env forced.now }
    requires graph { IsChildGraph forced.now.tables graph.now }
    ensures { IfOk result (IsGatheringOf forced.now symbols.now (told one.now)) }
{
    let rows = forced.tables.symbols.as_slice();
    let constituents = one.constituents;
    let sources = sources(alloc, symbols, rows, constituents.pairs.as_slice())?;
    let shields = shields(alloc, symbols, rows, constituents.shield.as_slice())?;
    let bearers = bearers(alloc, forced, graph, one.comp, &sources, &shields)?;
    Ok(Gathering {
        number: constituents.number,
        with: constituents.with.map(|with| with.ty),
        sources: List::from_vec(sources),
        shields: List::from_vec(shields),
        bearers: List::from_vec(bearers),
    })
}

/// The CONSTITUENTS with the symbols and cells that have their attributes. It takes time linear in the symbols for each name of a
/// list, and in the rules and the computations in force for each CONSTITUENTS.
pub fn gatherings(
    alloc: Global,
    forced: &Forced,
    symbols: &Symbols,
    graph: &[List<usize>],
    uses: &[Use],
) -> Result<Vec<Gathering>, Memory>
    requires forced { (env : Environment) × AreForcedOf env forced.now }
    requires graph { IsChildGraph forced.now.tables graph.now }
    ensures { IfOk result (λ all. AreGatherings forced.now symbols.now uses.now all.items) }
{
    let mut all = Vec::new(alloc);
    for one in uses {
        all.push(gathering(alloc, forced, symbols, graph, one)?)?;
    }
    Ok(all)
}
