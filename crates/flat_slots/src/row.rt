//! The attributes of a symbol.
ghost use Rattle.std.specs.Prelude.{◌≡◌, ◌≤◌, [], length, map, position, OnOk, OnErr};
ghost use Rattle.indexmap.specs.IndexSet.{insert_key};
ghost use Rattle.lido_symbols.specs.Numbers.{place_in};
ghost use Rattle.rule_tables.specs.Slots.{is_same_slot};
ghost use Rattle.flat_slots.specs.Named.{slot_of, same};

use crate::slot::Slot;
use indexmap::IndexSet;
use lido_base::Memory;
use std::alloc::Global;
use std::marker::Model;

/// Different attributes of a symbol, in order. Contracts see their list.
#[derive(Drop)]
pub struct SlotRow {
    set: IndexSet<Slot>,
}

impl Model for SlotRow {
    ghost use Rattle.std.specs.Prelude.{List};
    ghost use Rattle.flat_slots.specs.declared.slot.Slot.{Slot as One};
    ghost use Rattle.indexmap.specs.IndexSet.{IsUnique};
    ghost use Rattle.flat_slots.specs.Named.{same as same_one};

    ghost Value = { List One };

    ghost view = { λ row. row.set.keys };

    ghost invariant = { λ row. IsUnique same_one row.set };
}

impl SlotRow {
    /// No attributes. It takes no memory.
    pub(crate) fn new(alloc: Global) -> SlotRow
        ensures { result ≡ [] }
    {
        SlotRow {
            set: IndexSet::new(alloc),
        }
    }

    /// Adds an attribute behind the others, unless it is among them. After an `Err` they are as before.
    pub(crate) fn add(&mut self, slot: Slot) -> Result<(), Memory>
        ensures added { OnOk result (self.new ≡ insert_key same self.old slot) }
        ensures refused { OnErr result (self.new ≡ self.old) }
    {
        self.set.insert(slot)?;
        Ok(())
    }

    /// The attributes, in their order.
    pub fn as_slice(&self) -> &[Slot]
        ensures { result.now ≡ self.now }
    {
        self.set.as_slice()
    }

    /// How many there are.
    pub fn len(&self) -> usize
        ensures { result ≡ length self.now }
    {
        self.set.len()
    }

    /// The place of the attribute, from 0, if it is among them.
    fn place(&self, slot: Slot) -> Option<usize>
        ensures { result ≡ position (same slot) self.now }
    {
        self.set.get_index_of(&slot)
    }

    /// The number of the attribute: its place, or how many there are where it isn't among them.
    pub fn number(&self, slot: Slot) -> usize
        ensures number { result ≡ place_in (is_same_slot (slot_of slot)) (map slot_of self.now) }
        ensures within { result ≤ length self.now }
    {
        match self.place(slot) {
            Some(place) => place,
            None => self.len(),
        }
    }
}
