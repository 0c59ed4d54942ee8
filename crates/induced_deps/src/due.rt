//! Which rules are still to be visited.
ghost use Rattle.std.specs.Prelude.{◌≡◌, ◌<◌, ◌≤◌, ◌↔◌, ◌⊎◌, ℕ, IsTrue, IfOk, OnOk, All, Contains, false, length, slice_set};
ghost use Rattle.induced_deps.specs.declared.graph.Place.{Place as Occurrence};
ghost use Rattle.induced_deps.specs.Due.{IsDue, IsUser};

use crate::graph::Place;
use lido_base::{List, Memory, SymId};
use std::alloc::Global;

/// Which rules are to be visited, and which are to be visited again once a row of a symbol grows.
#[derive(Drop)]
pub struct Due {
    /// For each symbol the rules that have it.
    pub users: Vec<List<usize>>,
    /// For each rule whether it is to be visited.
    pub flags: Vec<bool>,
}

/// Puts the rules among those that are to be visited.
fn mark(rules: &[usize], flags: &mut [bool])
    requires { (k : ℕ) → Contains rules.now k → k < length flags.old }
    ensures size { length flags.new ≡ length flags.old }
    ensures kept { (k : ℕ) → IsDue flags.old k → IsDue flags.new k }
    ensures marked { (k : ℕ) → Contains rules.now k → IsDue flags.new k }
{
    for rule in rules {
        flags[*rule] = true;
    }
}

/// Puts a rule among the users of each of its symbols.
pub fn add_user(rule: usize, places: &[Place], users: &mut [List<usize>]) -> Result<(), Memory>
    requires { All (λ p. p.symbol.0 < length users.old) places.now }
    ensures size { length users.new ≡ length users.old }
    ensures kept { (x k : ℕ) → IsUser users.old x k → IsUser users.new x k }
    ensures only { (x k : ℕ) → IsUser users.new x k → IsUser users.old x k ⊎ (k ≡ rule) }
    ensures added { OnOk result ((p : Occurrence) → Contains places.now p → IsUser users.new p.symbol.0 rule) }
{
    for place in places {
        users[place.symbol.0 as usize].push(rule)?;
    }
    Ok(())
}

impl Due {
    /// All rules, so many, are to be visited.
    pub fn all(alloc: Global, users: Vec<List<usize>>, rules: usize) -> Result<Due, Memory>
        ensures users { IfOk result (λ due. due.users ≡ users) }
        ensures size { IfOk result (λ due. length due.flags.items ≡ rules) }
        ensures all { IfOk result (λ due. (k : ℕ) → k < rules → IsDue due.flags.items k) }
    {
        let mut flags = Vec::new(alloc);
        flags.resize(rules, true)?;
        Ok(Due { users, flags })
    }

    /// Whether the rule is to be visited.
    pub fn has(&self, rule: usize) -> bool
        requires { rule < length self.now.flags.items }
        ensures { IsTrue result ↔ IsDue self.now.flags.items rule }
    {
        self.flags[rule]
    }

    /// The rule isn't to be visited.
    pub fn clear(&mut self, rule: usize)
        requires { rule < length self.old.flags.items }
        ensures users { self.new.users ≡ self.old.users }
        ensures flags { self.new.flags.items ≡ slice_set self.old.flags.items rule false }
    {
        self.flags[rule] = false;
    }

    /// A row of the symbol grew: all rules that have it are to be visited.
    pub fn grown(&mut self, symbol: SymId)
        requires symbol { symbol.0 < length self.old.users.items }
        requires within { (k : ℕ) → IsUser self.old.users.items symbol.0 k → k < length self.old.flags.items }
        ensures users { self.new.users ≡ self.old.users }
        ensures size { length self.new.flags.items ≡ length self.old.flags.items }
        ensures kept { (k : ℕ) → IsDue self.old.flags.items k → IsDue self.new.flags.items k }
        ensures marked { (k : ℕ) → IsUser self.old.users.items symbol.0 k → IsDue self.new.flags.items k }
    {
        mark(self.users[symbol.0 as usize].as_slice(), &mut self.flags);
    }
}
