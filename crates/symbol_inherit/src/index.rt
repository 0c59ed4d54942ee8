//! Computations by what they give values to.
ghost use Rattle.std.specs.Prelude.{◌≡◌, ℕ, None, Some, OnOk, IfOk, if◌then◌else◌};
ghost use Rattle.computation_aims.specs.declared.aims.Aim.{Aim as AnyAim};
ghost use Rattle.computation_aims.specs.Keys.{is_same_aim};
ghost use Rattle.symbol_inherit.specs.Index.{noted, Holds};

use crate::notes::{Note, Own};
use computation_aims::Aim;
use lido_base::Memory;
use std::alloc::Global;
use std::collections::HashMap;

/// Computations by symbol or occurrence and by what they give values to. Of several of one aim it has the last.
#[derive(Drop)]
pub struct Index {
    owns: HashMap<(usize, u8, u32), Own>,
}

impl Index {
    /// The index without entries. It takes no memory.
    #[tactic(auto, unfolding(crate::specs::Index::noted))]
    pub fn new(alloc: Global) -> Index
        ensures { (place : ℕ) (aim : AnyAim) → noted result place aim ≡ None }
    {
        Index {
            owns: HashMap::new(alloc),
        }
    }

    /// Adds a computation.
    #[tactic(auto, unfolding(crate::specs::Index::noted))]
    fn note(&mut self, note: Note) -> Result<(), Memory>
        ensures { OnOk result ((place : ℕ) (aim : AnyAim)
            → noted self.new place aim ≡ (if is_same_aim note.place note.aim place aim then Some note.own else noted self.old place aim)) }
    {
        self.owns.insert(
            (note.place, note.aim.way.number(), note.aim.name.0),
            note.own,
        )?;
        Ok(())
    }

    /// The index of computations.
    pub fn of(alloc: Global, notes: &[Note]) -> Result<Index, Memory>
        ensures { IfOk result (Holds notes.now) }
    {
        let mut index = Index::new(alloc);
        for note in notes {
            index.note(*note)?;
        }
        Ok(index)
    }

    /// A computation of the symbol or at the occurrence that gives a value to this.
    #[tactic(auto, unfolding(crate::specs::Index::noted))]
    pub fn find(&self, place: usize, aim: Aim) -> Option<Own>
        ensures { result ≡ noted self.now place aim }
    {
        self.owns
            .get(&(place, aim.way.number(), aim.name.0))
            .copied()
    }
}
