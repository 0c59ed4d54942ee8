//! How many plain computations the rules of a nonterminal have at most.
ghost use Rattle.std.specs.Prelude.{◌≡◌, ℕ, nat_eq, if◌then◌else◌, OnOk, IfOk};
ghost use Rattle.flat_slots.specs.Entries.{is_plain, plain_count, count_in, most_of};

use lido_base::{Memory, StrId};
use lido_syntax::{Comp, RuleItem, Target};
use std::alloc::Global;
use std::collections::HashMap;

/// Of each nonterminal, by the id of its name, a number; 0 where none was set.
#[derive(Drop)]
pub struct Counts {
    pub numbers: HashMap<u32, usize>,
}

/// Whether the computation is a plain one.
#[tactic(auto, unfolding(crate::specs::Entries::is_plain))]
fn is_plain_one(comp: &Comp) -> bool
    ensures { result ≡ is_plain comp.now }
{
    matches!(comp.target, Target::Message(..))
}

/// How many of these computations are plain ones.
fn count_plain(comps: &[Comp]) -> usize
    ensures { result ≡ plain_count comps.now }
{
    let mut count = 0;
    for comp in comps {
        if is_plain_one(comp) {
            count += 1;
        }
    }
    count
}

impl Counts {
    /// No numbers. It takes no memory.
    #[tactic(auto, unfolding(crate::specs::Entries::count_in))]
    fn new(alloc: Global) -> Counts
        ensures { (s : ℕ) → count_in result s ≡ 0 }
    {
        Counts {
            numbers: HashMap::new(alloc),
        }
    }

    /// Sets the number of a nonterminal.
    #[tactic(auto, unfolding(crate::specs::Entries::count_in))]
    fn set(&mut self, name: StrId, count: usize) -> Result<(), Memory>
        ensures { OnOk result ((s : ℕ) → count_in self.new s ≡ (if nat_eq name.0 s then count else count_in self.old s)) }
    {
        self.numbers.insert(name.0, count)?;
        Ok(())
    }

    /// The number of the nonterminal.
    #[tactic(auto, unfolding(crate::specs::Entries::count_in))]
    pub fn get(&self, name: StrId) -> usize
        ensures { result ≡ count_in self.now name.0 }
    {
        self.numbers.get(&name.0).copied().unwrap_or(0)
    }

    /// How many plain computations the rules of each nonterminal have at most.
    pub fn of(alloc: Global, rules: &[RuleItem]) -> Result<Counts, Memory>
        ensures { IfOk result (λ counts. (s : ℕ) → count_in counts s ≡ most_of s rules.now) }
    {
        let mut counts = Counts::new(alloc);
        for rule in rules {
            let count = count_plain(rule.body.as_slice());
            let most = counts.get(rule.left.id).max(count);
            counts.set(rule.left.id, most)?;
        }
        Ok(counts)
    }
}
