//! The attributes of all symbols of the flat grammar, by number.
ghost use Rattle.std.specs.Prelude.{◌≡◌, ◌<◌, [], ℕ, length, IfOk, OnOk};
ghost use Rattle.indexmap.specs.IndexSet.{insert_key};
ghost use Rattle.lido_symbols.specs.Numbers.{place_in};
ghost use Rattle.rule_tables.specs.Slots.{is_same_slot};
ghost use Rattle.flat_slots.specs.Named.{slot_of, same};
ghost use Rattle.flat_slots.specs.Slots.{row_at, row_of, slots_in, AreSlotsOf};

use crate::counts::Counts;
use crate::entries::{Entry, all_entries};
use crate::row::SlotRow;
use crate::slot::Slot;
use lido_base::{List, Memory, SymId};
use rule_tables::{Extra, Forced};
use std::alloc::Global;

/// For each symbol and cell its attributes, by its number.
#[derive(Drop)]
pub struct SlotTable {
    pub rows: List<SlotRow>,
}

impl SlotTable {
    /// The number of a symbol's attribute: its place, or how many attributes the symbol has where it isn't among them. It takes
    /// constant time.
    pub fn number(&self, symbol: SymId, slot: Slot) -> usize
        ensures { result ≡ place_in (is_same_slot (slot_of slot)) (slots_in self.now symbol.0) }
    {
        match self.rows.as_slice().get(symbol.0 as usize) {
            Some(row) => row.number(slot),
            None => 0,
        }
    }
}

/// That many rows without attributes.
fn empty_rows(alloc: Global, count: usize) -> Result<Vec<SlotRow>, Memory>
    ensures count { IfOk result (λ rows. length rows.items ≡ count) }
    ensures empty { IfOk result (λ rows. (x : ℕ) → row_at rows.items x ≡ []) }
{
    let mut rows = Vec::new(alloc);
    for _ in 0..count {
        rows.push(SlotRow::new(alloc))?;
    }
    Ok(rows)
}

/// The rows of that many symbols with these attributes.
fn rows_of(alloc: Global, count: usize, entries: &[Entry]) -> Result<Vec<SlotRow>, Memory>
    ensures rows { IfOk result (λ rows. (x : ℕ) → x < count → row_at rows.items x ≡ row_of x entries.now) }
    ensures count { IfOk result (λ rows. length rows.items ≡ count) }
{
    let mut rows = empty_rows(alloc, count)?;
    for entry in entries {
        if entry.sym < rows.len() {
            let row = &mut rows[entry.sym];
            row.add(entry.slot)?;
        }
    }
    Ok(rows)
}

/// The attributes of the symbols and cells of a specification: the written ones, those that the expansions add, messages and
/// the root's output. It takes time linear in what is made.
pub fn slot_table(
    alloc: Global,
    forced: &Forced,
    including: &Extra,
    constituents: &Extra,
    chains: &Extra,
) -> Result<SlotTable, Memory>
    ensures { IfOk result (AreSlotsOf forced.now including.now constituents.now chains.now) }
{
    let tables = &forced.tables;
    let counts = Counts::of(alloc, tables.spec.rules.as_slice())?;
    let entries = all_entries(alloc, tables, &counts, including, constituents, chains)?;
    let rows = rows_of(alloc, tables.symbols.len(), &entries)?;
    Ok(SlotTable {
        rows: List::from_vec(rows),
    })
}
