//! The attributes of all symbols, in one list.
ghost use Rattle.std.specs.Prelude.{◌≡◌, ◌++◌, OnOk, IfOk};
ghost use Rattle.flat_slots.specs.Entries.{attrs_in, written_entries, all_written, slot_named, all_extra, messages, message_count, all_messages, entries_of};

use crate::counts::Counts;
use crate::slot::Slot;
use flat_grammar::FlatAttr;
use lido_base::Memory;
use lido_syntax::Typed1;
use rule_tables::{Extra, ExtraAttr, Slot as Named, SymbolClass, SymbolRow, Tables};
use std::alloc::Global;

/// An attribute of a symbol.
#[derive(Clone, Copy, Debug)]
pub struct Entry {
    /// The symbol's number.
    pub sym: usize,
    pub slot: Slot,
}

/// The written attributes of a nonterminal.
fn written(row: &SymbolRow) -> &[FlatAttr]
    ensures { result.now ≡ attrs_in row.now }
{
    match row.class {
        SymbolClass::Nonterminal => row.attrs.as_slice(),
        _ => &[],
    }
}

/// Adds written attributes of a symbol.
fn push_written(entries: &mut Vec<Entry>, sym: usize, attrs: &[FlatAttr]) -> Result<(), Memory>
    ensures { OnOk result (entries.new.items ≡ entries.old.items ++ written_entries sym attrs.now) }
{
    for attr in attrs {
        entries.push(Entry {
            sym,
            slot: Slot::Written(attr.name),
        })?;
    }
    Ok(())
}

/// Adds the written attributes of all symbols.
fn push_all_written(entries: &mut Vec<Entry>, rows: &[SymbolRow]) -> Result<(), Memory>
    ensures { OnOk result (entries.new.items ≡ entries.old.items ++ all_written rows.now) }
{
    for (x, row) in rows.iter().enumerate() {
        push_written(entries, x, written(row))?;
    }
    Ok(())
}

/// What an expansion adds; it adds no written attribute.
fn named(chains: &[Typed1], slot: Named) -> Option<Slot>
    ensures { result ≡ slot_named chains.now slot }
{
    match slot {
        Named::Written(_) => None,
        Named::Inc(set) => Some(Slot::Inc(set)),
        Named::Con(number) => Some(Slot::Con(number)),
        Named::Front(place) => match chains.get(place as usize) {
            Some(chain) => Some(Slot::Front(chain.name.id)),
            None => None,
        },
        Named::Behind(place) => match chains.get(place as usize) {
            Some(chain) => Some(Slot::Behind(chain.name.id)),
            None => None,
        },
    }
}

/// Adds what an expansion adds.
fn push_extra(
    entries: &mut Vec<Entry>,
    chains: &[Typed1],
    attrs: &[ExtraAttr],
) -> Result<(), Memory>
    ensures { OnOk result (entries.new.items ≡ entries.old.items ++ all_extra chains.now attrs.now) }
{
    for attr in attrs {
        if let Some(slot) = named(chains, attr.slot) {
            entries.push(Entry {
                sym: attr.sym.0 as usize,
                slot,
            })?;
        }
    }
    Ok(())
}

/// Adds the messages of a symbol, of which there are that many.
fn push_messages(entries: &mut Vec<Entry>, sym: usize, count: usize) -> Result<(), Memory>
    ensures { OnOk result (entries.new.items ≡ entries.old.items ++ messages sym count) }
{
    for j in 0..count {
        entries.push(Entry {
            sym,
            slot: Slot::Msg(j + 1),
        })?;
    }
    Ok(())
}

/// How many messages the symbol has.
fn count_of(counts: &Counts, row: &SymbolRow) -> usize
    ensures { result ≡ message_count counts.now row.now }
{
    match row.class {
        SymbolClass::Cell => 0,
        _ => counts.get(row.name),
    }
}

/// Adds the messages of all symbols.
fn push_all_messages(
    entries: &mut Vec<Entry>,
    counts: &Counts,
    rows: &[SymbolRow],
) -> Result<(), Memory>
    ensures { OnOk result (entries.new.items ≡ entries.old.items ++ all_messages counts.now rows.now) }
{
    for (x, row) in rows.iter().enumerate() {
        push_messages(entries, x, count_of(counts, row))?;
    }
    Ok(())
}

/// The attributes of all symbols: those of one symbol in order.
pub fn all_entries(
    alloc: Global,
    tables: &Tables,
    counts: &Counts,
    including: &Extra,
    constituents: &Extra,
    chains: &Extra,
) -> Result<Vec<Entry>, Memory>
    ensures { IfOk result (λ entries. entries.items ≡ entries_of tables.now counts.now including.now constituents.now chains.now) }
{
    let names = tables.spec.chains.as_slice();
    let rows = tables.symbols.as_slice();
    let mut entries = Vec::new(alloc);
    push_all_written(&mut entries, rows)?;
    push_extra(&mut entries, names, including.attrs.as_slice())?;
    push_extra(&mut entries, names, constituents.attrs.as_slice())?;
    push_extra(&mut entries, names, chains.attrs.as_slice())?;
    push_all_messages(&mut entries, counts, rows)?;
    entries.push(Entry {
        sym: tables.root.0 as usize,
        slot: Slot::Out,
    })?;
    Ok(entries)
}
