//! The WITHs of CONSTITUENTS.
ghost use Rattle.std.specs.Prelude.{◌≡◌, ℕ, nat_eq, None, Some, if◌then◌else◌, OnOk};
ghost use Rattle.flat_terms.specs.Terms.{with_in};

use lido_base::Memory;
use lido_syntax::With;
use std::alloc::Global;
use std::collections::HashMap;

/// The WITHs of CONSTITUENTS, by the numbers of these.
#[derive(Drop)]
pub struct Withs {
    pub withs: HashMap<u32, With>,
}

impl Withs {
    /// No WITHs. It takes no memory.
    #[tactic(auto, unfolding(crate::specs::Terms::with_in))]
    pub fn new(alloc: Global) -> Withs
        ensures { (n : ℕ) → with_in result n ≡ None }
    {
        Withs {
            withs: HashMap::new(alloc),
        }
    }

    /// Notes the WITH of the CONSTITUENTS of that number.
    #[tactic(auto, unfolding(crate::specs::Terms::with_in))]
    pub fn note(&mut self, number: u32, with: With) -> Result<(), Memory>
        ensures { OnOk result ((n : ℕ) → with_in self.new n ≡ (if nat_eq number n then Some with else with_in self.old n)) }
    {
        self.withs.insert(number, with)?;
        Ok(())
    }

    /// The WITH of the CONSTITUENTS of that number, if it was noted. It takes constant time.
    #[tactic(auto, unfolding(crate::specs::Terms::with_in))]
    pub fn at(&self, number: u32) -> Option<With>
        ensures { result ≡ with_in self.now number }
    {
        self.withs.get(&number).copied()
    }
}
