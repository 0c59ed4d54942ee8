//! Occurrences of a rule that are to be looked at.
ghost use Rattle.std.specs.Prelude.{◌≡◌, ℕ, ◌<◌, ◌≤◌, ◌⊎◌, OnOk, MatchOption, length};
ghost use Rattle.visit_sequences.specs.Steps.{IsListed};

use lido_base::Memory;
use std::collections::BTreeSet;

/// Occurrences of a rule, the least first.
#[derive(Drop)]
pub struct Listed {
    pub occurrences: BTreeSet<u16>,
}

impl Listed {
    /// Adds this occurrence.
    pub fn list(&mut self, occ: u16) -> Result<(), Memory>
        ensures { OnOk result ((k : ℕ) → IsListed self.old k ⊎ (k ≡ occ) → IsListed self.new k) }
    {
        self.occurrences.insert(occ)?;
        Ok(())
    }

    /// Takes this occurrence off.
    pub fn unlist(&mut self, occ: u16)
        requires { IsListed self.old occ }
        ensures others { (k : ℕ) → IsListed self.old k → ¬ (k ≡ occ) → IsListed self.new k }
        ensures fewer { length self.new.occurrences.keys < length self.old.occurrences.keys }
    {
        self.occurrences.remove(&occ);
    }

    /// The least one.
    pub fn first(&self) -> Option<u16>
        ensures { MatchOption result ((k : ℕ) → ¬ IsListed self.now k) (λ k. IsListed self.now k × ((j : ℕ) → IsListed self.now j
            → k ≤ j)) }
    {
        self.occurrences.first().copied()
    }
}
