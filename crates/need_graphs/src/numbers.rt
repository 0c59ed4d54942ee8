//! Sets of numbers of computations.
ghost use Rattle.std.specs.Prelude.{◌≡◌, ◌||◌, ◌↔◌, ℕ, nat_eq, false, IsTrue, Contains, OnOk, IfOk};
ghost use Rattle.need_graphs.specs.Users.{has};

use lido_base::Memory;
use std::alloc::Global;
use std::collections::HashSet;

/// A set of numbers.
#[derive(Drop)]
pub struct Numbers {
    pub ids: HashSet<u32>,
}

impl Numbers {
    /// The set without numbers. It takes no memory.
    #[tactic(auto, unfolding(crate::specs::Users::has))]
    fn new(alloc: Global) -> Numbers
        ensures { (n : ℕ) → has result n ≡ false }
    {
        Numbers {
            ids: HashSet::new(alloc),
        }
    }

    /// Adds a number.
    #[tactic(auto, unfolding(crate::specs::Users::has))]
    fn add(&mut self, number: u32) -> Result<(), Memory>
        ensures { OnOk result ((n : ℕ) → has self.new n ≡ (nat_eq number n || has self.old n)) }
    {
        self.ids.insert(number)?;
        Ok(())
    }

    /// The set of these numbers.
    pub fn of(alloc: Global, numbers: &[u32]) -> Result<Numbers, Memory>
        ensures { IfOk result (λ set. (n : ℕ) → IsTrue (has set n) ↔ Contains numbers.now n) }
    {
        let mut set = Numbers::new(alloc);
        for number in numbers {
            set.add(*number)?;
        }
        Ok(set)
    }

    /// Whether the number is in the set.
    #[tactic(auto, unfolding(crate::specs::Users::has))]
    pub fn has(&self, number: u32) -> bool
        ensures { result ≡ has self.now number }
    {
        self.ids.contains(&number)
    }
}
