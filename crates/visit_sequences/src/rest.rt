//! What is left of a rule behind the items so far.
ghost use Rattle.std.specs.Prelude.{◌≡◌, ◌+◌, ◌^◌, ◌<◌, ◌≤◌, ◌↔◌, ℕ, length, Some, slice_get, IfOk, IsTrue};
ghost use Rattle.visit_sequences.specs.declared.goals.Goal.{Goal as Waiting};
ghost use Rattle.visit_sequences.specs.Steps.{AreEvaluated, AreOver, HasBit, IsListed, IsNextAt, IsRest, Stops};

use crate::goals::Goal;
use crate::listed::Listed;
use crate::progress::Progress;
use crate::rows::visits_at;
use flat_grammar::{FlatRule, VisitClass};
use lido_base::{List, Memory};
use std::alloc::Global;
use std::collections::BTreeSet;

/// Up to where goals and children have nothing left, and which children may be ready.
#[derive(Drop)]
pub struct Rest {
    /// How many goals, from the first on, are evaluated.
    pub goals: usize,
    /// How many children, from the first on, have no visit left.
    pub children: usize,
    /// The children whose next visit may be ready.
    pub ready: Listed,
}

/// All children of the rule.
fn all_children(alloc: Global, rule: &FlatRule) -> Result<Listed, Memory>
    requires { length rule.now.right < 2 ^ 16 }
    ensures { IfOk result (λ listed. (k : ℕ) → 0 < k → k ≤ length rule.now.right → IsListed listed k) }
{
    let mut listed = Listed {
        occurrences: BTreeSet::new(alloc),
    };
    for k in 0..rule.right.len() {
        listed.list(k as u16 + 1)?;
    }
    Ok(listed)
}

impl Progress {
    /// The place of the first goal that is not evaluated, where those before this place are.
    fn evaluated_from(&self, goals: &[Goal], done: usize) -> usize
        requires { AreEvaluated self.now goals.now done }
        ensures all { AreEvaluated self.now goals.now result }
        ensures stops { (g : Waiting) → slice_get goals.now result ≡ Some g → ¬ HasBit self.now.evaluated.items g.goal }
    {
        for k in done..goals.len() {
            if !self.is_evaluated(goals[k].goal) {
                return k;
            }
        }
        goals.len()
    }

    /// Whether the child has a visit left.
    fn has_next(&self, visits: &[List<VisitClass>], rule: &FlatRule, occ: u16) -> bool
        ensures { IsTrue result ↔ IsNextAt visits.now rule.now self.now occ }
    {
        self.visits_made(occ) < visits_at(visits, rule, occ).len()
    }

    /// How many children from the first on have no visit left, where so many have none.
    fn over_from(&self, visits: &[List<VisitClass>], rule: &FlatRule, over: usize) -> usize
        requires few { length rule.now.right < 2 ^ 16 }
        requires over { AreOver visits.now rule.now self.now over }
        ensures over { AreOver visits.now rule.now self.now result }
        ensures stops { result < length rule.now.right → IsNextAt visits.now rule.now self.now (result + 1) }
    {
        for k in over..rule.right.len() {
            let occ = k as u16 + 1;
            if self.has_next(visits, rule, occ) {
                return k;
            }
        }
        rule.right.len()
    }
}

impl Rest {
    /// All is left before the first item.
    pub fn start(alloc: Global, rule: &FlatRule) -> Result<Rest, Memory>
        requires { length rule.now.right < 2 ^ 16 }
        ensures none { IfOk result (λ rest. (rest.goals ≡ 0) × (rest.children ≡ 0)) }
        ensures ready { IfOk result (λ rest. (k : ℕ) → 0 < k → k ≤ length rule.now.right → IsListed rest.ready k) }
    {
        Ok(Rest {
            goals: 0,
            children: 0,
            ready: all_children(alloc, rule)?,
        })
    }

    /// Passes over the goals and the children that have nothing left.
    pub fn pass(
        &mut self,
        progress: &Progress,
        visits: &[List<VisitClass>],
        rule: &FlatRule,
        goals: &[Goal],
    )
        requires few { length rule.now.right < 2 ^ 16 }
        requires rest { IsRest visits.now rule.now progress.now goals.now self.old }
        ensures rest { IsRest visits.now rule.now progress.now goals.now self.new }
        ensures stops { Stops visits.now rule.now progress.now goals.now self.new }
    {
        self.goals = progress.evaluated_from(goals, self.goals);
        self.children = progress.over_from(visits, rule, self.children);
    }
}
