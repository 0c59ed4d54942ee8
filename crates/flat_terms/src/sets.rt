//! The numbers of the sets of INCLUDINGs.
ghost use Rattle.std.specs.Prelude.{◌≡◌, ℕ, nat_eq, if◌then◌else◌, OnOk};
ghost use Rattle.flat_terms.specs.Names.{set_in};

use lido_base::Memory;
use std::alloc::Global;
use std::collections::HashMap;

/// The number of each INCLUDING's set of pairs, by the place of the INCLUDING; 0 where none was noted.
#[derive(Drop)]
pub struct Sets {
    pub numbers: HashMap<u32, u32>,
}

impl Sets {
    /// No numbers. It takes no memory.
    #[tactic(auto, unfolding(crate::specs::Names::set_in))]
    pub fn new(alloc: Global) -> Sets
        ensures { (at : ℕ) → set_in result at ≡ 0 }
    {
        Sets {
            numbers: HashMap::new(alloc),
        }
    }

    /// Notes the number of the set of the INCLUDING at that place.
    #[tactic(auto, unfolding(crate::specs::Names::set_in))]
    pub fn note(&mut self, at: u32, number: u32) -> Result<(), Memory>
        ensures { OnOk result ((place : ℕ) → set_in self.new place ≡ (if nat_eq at place then number else set_in self.old place)) }
    {
        self.numbers.insert(at, number)?;
        Ok(())
    }

    /// The number of the set of the INCLUDING at that place. It takes constant time.
    #[tactic(auto, unfolding(crate::specs::Names::set_in))]
    pub fn number(&self, at: u32) -> u32
        ensures { result ≡ set_in self.now at }
    {
        self.numbers.get(&at).copied().unwrap_or(0)
    }
}
