//! Different names in the order of first sight.
ghost use Rattle.std.specs.Prelude.{◌≡◌, [], nat_eq, position, OnOk, OnErr, length, ◌≤◌};
ghost use Rattle.lido_base.specs.Tree.{contains};
ghost use Rattle.indexmap.specs.IndexSet.{insert_key};
ghost use Rattle.lido_symbols.specs.Numbers.{place_in};

use indexmap::IndexSet;
use lido_base::{Memory, StrId};
use std::alloc::Global;
use std::marker::Model;

/// Different names, in the order in which they were added. Contracts see the list of their numbers.
#[derive(Drop)]
pub struct Names {
    set: IndexSet<u32>,
}

impl Model for Names {
    ghost use Rattle.std.specs.Prelude.{List, ℕ, nat_eq};
    ghost use Rattle.indexmap.specs.IndexSet.{IsUnique};

    ghost Value = { List ℕ };

    ghost view = { λ names. names.set.keys };

    ghost invariant = { λ names. IsUnique nat_eq names.set };
}

impl Names {
    /// No names. It takes no memory.
    pub fn new(alloc: Global) -> Names
        ensures { result ≡ [] }
    {
        Names {
            set: IndexSet::new(alloc),
        }
    }

    /// Adds a name behind the others, unless it is among them. After an `Err` the names are as before.
    pub fn add(&mut self, name: StrId) -> Result<(), Memory>
        ensures added { OnOk result (self.new ≡ insert_key nat_eq self.old name.0) }
        ensures refused { OnErr result (self.new ≡ self.old) }
    {
        self.set.insert(name.0)?;
        Ok(())
    }

    /// Whether the name is among them.
    pub fn has(&self, name: StrId) -> bool
        ensures { result ≡ contains name.0 self.now }
    {
        self.set.contains(&name.0)
    }

    /// The place of the name, from 0, if it is among them.
    pub fn place(&self, name: StrId) -> Option<usize>
        ensures { result ≡ position (nat_eq name.0) self.now }
    {
        self.set.get_index_of(&name.0)
    }

    /// The names, in their order.
    pub fn as_slice(&self) -> &[u32]
        ensures { result.now ≡ self.now }
    {
        self.set.as_slice()
    }

    /// How many names there are.
    pub fn len(&self) -> usize
        ensures { result ≡ length self.now }
    {
        self.set.len()
    }

    /// The number of the name: its place, or how many names there are where it isn't among them.
    pub fn number(&self, name: StrId) -> usize
        ensures number { result ≡ place_in (nat_eq name.0) self.now }
        ensures within { result ≤ length self.now }
    {
        match self.place(name) {
            Some(place) => place,
            None => self.len(),
        }
    }
}
