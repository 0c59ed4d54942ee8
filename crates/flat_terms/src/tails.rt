//! What TAIL stands for in a plain rule.
ghost use Rattle.std.specs.Prelude.{◌≡◌, ℕ, nat_eq, None, Some, if◌then◌else◌, option_map, OnOk};
ghost use Rattle.flat_terms.specs.Names.{tail_as, tail_in};

use lido_base::{Memory, StrId};
use numbered_computations::Held;
use std::alloc::Global;
use std::collections::HashMap;

/// From where comes what a chain has behind the last child.
#[derive(Clone, Copy)]
pub enum Tail<'a> {
    /// From what it has behind this child, which count from 1.
    Child(u16),
    /// From what it has in front of the left side.
    Front,
    /// From the computation that starts it at the left side.
    Start(Held<'a>),
}

/// For each chain, by the id of its name, from where comes what it has behind the last child.
#[derive(Drop)]
pub struct Tails<'a> {
    tails: HashMap<u32, Tail<'a>>,
}

impl<'a> Tails<'a> {
    /// No chains. It takes no memory.
    #[tactic(auto, unfolding(crate::specs::Names::tail_in))]
    pub fn new(alloc: Global) -> Tails<'a>
        ensures { (c : ℕ) → tail_in result c ≡ None }
    {
        Tails {
            tails: HashMap::new(alloc),
        }
    }

    /// Notes a chain.
    #[tactic(auto, unfolding(crate::specs::Names::tail_in))]
    pub fn note(&mut self, chain: StrId, tail: Tail<'a>) -> Result<(), Memory>
        ensures { OnOk result ((c : ℕ) → tail_in self.new c ≡ (if nat_eq chain.0 c then Some (tail_as c tail.entry) else tail_in self.old c)) }
    {
        self.tails.insert(chain.0, tail)?;
        Ok(())
    }

    /// From where comes what the chain has behind the last child, if it was noted. It takes constant time.
    #[tactic(auto, unfolding(crate::specs::Names::tail_in))]
    pub fn at(&self, chain: StrId) -> Option<Tail<'a>>
        ensures { option_map (tail_as chain.0) result ≡ tail_in self.now chain.0 }
    {
        self.tails.get(&chain.0).copied()
    }
}
