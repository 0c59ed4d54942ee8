//! The goals of a rule that have all that they wait for, and where the others wait.
ghost use Rattle.std.specs.Prelude.{◌≡◌, ℕ, ◌<◌, ◌≤◌, ◌^◌, ◌↔◌, ◌⊎◌, All, Contains, IsTrue, IsBitSet, OnOk, IfOk, MatchOption, Some, length, slice_get, slice_index, slice_set, take};
ghost use Rattle.flat_grammar.specs.declared.flat.Occ.{Occ as Occurrence};
ghost use Rattle.flat_grammar.specs.Cycles.{IsAtMost};
ghost use Rattle.visit_sequences.specs.declared.goals.Goal.{Goal as Waiter};
ghost use Rattle.visit_sequences.specs.declared.progress.Progress.{Progress as Before};
ghost use Rattle.visit_sequences.specs.Steps.{AreFree, AreListed, AreSeen, AreWithin, Grows, HasBit, HasSeen, IsFree, IsListed, IsMissing, KeepsWaiting, Sorts, StandsIn, Waits, Wakes};

use crate::bits::least_new;
use crate::goals::Goal;
use crate::listed::Listed;
use crate::progress::{Progress, empty_sets, zeros};
use flat_grammar::{Bits, Occ};
use lido_base::Memory;
use std::alloc::Global;
use std::collections::{BTreeMap, BTreeSet};

/// The goals that wait for one attribute occurrence, by their places in the list of goals.
#[derive(Drop)]
pub struct Waiting {
    pub goals: Vec<usize>,
}

/// How the goals of a rule stand.
#[derive(Drop)]
pub struct Queue {
    /// For each occurrence the goals that have all that they wait for, by their numbers. The evaluated ones stay.
    pub free: Vec<Bits>,
    /// What is missing, and the goals that wait for it.
    pub waiting: BTreeMap<Occ, Waiting>,
    /// For each goal of the list how many of its computation's dependencies, from the first on, were found at hand.
    pub seen: Vec<usize>,
    /// The occurrences at which a free goal may be left to evaluate.
    pub left: Listed,
}

impl Queue {
    /// The goals that waited for this. None waits for it any more.
    fn woken(&mut self, alloc: Global, missing: Occ) -> Vec<usize>
        ensures free { self.new.free ≡ self.old.free }
        ensures seen { self.new.seen ≡ self.old.seen }
        ensures left { self.new.left ≡ self.old.left }
        ensures others { (u : Occurrence) (i : ℕ) → Waits self.old u i → ¬ (missing ≡ u) → Waits self.new u i }
        ensures here { (i : ℕ) → Waits self.old missing i → Contains result.items i }
    {
        match self.waiting.remove(&missing) {
            Some(Waiting { goals }) => goals,
            None => Vec::new(alloc),
        }
    }

    /// The goal waits for this.
    fn wait(&mut self, alloc: Global, missing: Occ, goal: usize) -> Result<(), Memory>
        ensures keeps { OnOk result (KeepsWaiting self.old self.new) }
        ensures free { OnOk result (self.new.free ≡ self.old.free) }
        ensures seen { OnOk result (self.new.seen ≡ self.old.seen) }
        ensures left { OnOk result (self.new.left ≡ self.old.left) }
        ensures waits { OnOk result (Waits self.new missing goal) }
    {
        let mut goals = self.woken(alloc, missing);
        goals.push(goal)?;
        self.waiting.insert(missing, Waiting { goals })?;
        Ok(())
    }

    /// The goal has all that it waits for.
    fn set_free(&mut self, goal: Occ) -> Result<(), Memory>
        requires occurrence { goal.occ < length self.old.free.items }
        requires attribute { goal.attr.0 < 256 }
        ensures waiting { OnOk result (self.new.waiting ≡ self.old.waiting) }
        ensures seen { OnOk result (self.new.seen ≡ self.old.seen) }
        ensures free { OnOk result ((o : Occurrence) → HasBit self.new.free.items o ↔ (HasBit self.old.free.items o ⊎ (o ≡ goal))) }
        ensures left { OnOk result ((k : ℕ) → IsListed self.old.left k ⊎ (k ≡ goal.occ) → IsListed self.new.left k) }
        ensures count { OnOk result (length self.new.free.items ≡ length self.old.free.items) }
    {
        self.left.list(goal.occ)?;
        if let Some(set) = self.free.get_mut(goal.occ as usize) {
            *set = set.with(goal.attr.0 as usize);
        }
        Ok(())
    }

    /// How many of the goal's dependencies were found at hand.
    fn seen_of(&self, at: usize) -> usize
        ensures { result ≡ slice_index self.now.seen.items at }
    {
        self.seen.get(at).copied().unwrap_or(0)
    }

    /// Notes how many of the goal's dependencies were found at hand.
    fn note(&mut self, at: usize, count: usize)
        ensures same { (self.new.free ≡ self.old.free) × (self.new.waiting ≡ self.old.waiting) }
        ensures left { self.new.left ≡ self.old.left }
        ensures seen { self.new.seen.items ≡ slice_set self.old.seen.items at count }
    {
        if let Some(seen) = self.seen.get_mut(at) {
            *seen = count;
        }
    }

    /// Something that the goal still waits for. It goes on behind the dependencies that were found at hand.
    fn blocked(&mut self, progress: &Progress, goal: &Goal, at: usize) -> Option<Occ>
        requires { AreSeen progress.now goal.now (slice_index self.old.seen.items at) }
        ensures blocked { MatchOption result (IsFree progress.now goal.now) (IsMissing progress.now goal.now) }
        ensures same { (self.new.free ≡ self.old.free) × (self.new.waiting ≡ self.old.waiting) }
        ensures left { self.new.left ≡ self.old.left }
        ensures others { (j : ℕ) → ¬ (at ≡ j) → slice_index self.new.seen.items j ≡ slice_index self.old.seen.items j }
        ensures seen { AreSeen progress.now goal.now (slice_index self.new.seen.items at) }
    {
        let count = progress.seen_from(goal.direct.as_slice(), self.seen_of(at));
        self.note(at, count);
        let occ = goal.goal.occ;
        if let Some(attr) = least_new(goal.same, progress.at_hand_at(occ)) {
            return Some(Occ { occ, attr: attr });
        }
        goal.dependency(count)
    }

    /// Looks how a goal stands.
    fn look(
        &mut self,
        alloc: Global,
        progress: &Progress,
        goals: &[Goal],
        at: usize,
    ) -> Result<(), Memory>
        requires free { AreFree progress.now goals.now self.old }
        requires seen { HasSeen progress.now goals.now self.old }
        requires listed { AreListed progress.now self.old }
        requires within { AreWithin goals.now (length self.old.free.items) }
        ensures free { OnOk result (AreFree progress.now goals.now self.new) }
        ensures seen { OnOk result (HasSeen progress.now goals.now self.new) }
        ensures listed { OnOk result (AreListed progress.now self.new) }
        ensures count { OnOk result (length self.new.free.items ≡ length self.old.free.items) }
        ensures keeps { OnOk result (KeepsWaiting self.old self.new) }
        ensures stands { OnOk result ((g : Waiter) → slice_get goals.now at ≡ Some g → StandsIn progress.now self.new at g) }
    {
        let Some(goal) = goals.get(at) else {
            return Ok(());
        };
        match self.blocked(progress, goal, at) {
            Some(missing) => self.wait(alloc, missing, at),
            None => self.set_free(goal.goal),
        }
    }

    /// How the goals stand before the first item.
    pub fn start(alloc: Global, progress: &Progress, goals: &[Goal]) -> Result<Queue, Memory>
        requires { AreWithin goals.now (length progress.now.evaluated.items) }
        ensures { IfOk result (Sorts progress.now goals.now) }
    {
        let count = progress.evaluated.len();
        let mut queue = Queue {
            free: empty_sets(alloc, count)?,
            waiting: BTreeMap::new(alloc),
            seen: zeros(alloc, goals.len())?,
            left: Listed {
                occurrences: BTreeSet::new(alloc),
            },
        };
        for at in 0..goals.len() {
            queue.look(alloc, progress, goals, at)?;
        }
        Ok(queue)
    }

    /// Looks again at the goals that wait for this.
    fn wake_one(
        &mut self,
        alloc: Global,
        progress: &Progress,
        goals: &[Goal],
        missing: Occ,
    ) -> Result<(), Memory>
        requires free { AreFree progress.now goals.now self.old }
        requires seen { HasSeen progress.now goals.now self.old }
        requires listed { AreListed progress.now self.old }
        requires within { AreWithin goals.now (length self.old.free.items) }
        ensures free { OnOk result (AreFree progress.now goals.now self.new) }
        ensures seen { OnOk result (HasSeen progress.now goals.now self.new) }
        ensures listed { OnOk result (AreListed progress.now self.new) }
        ensures count { OnOk result (length self.new.free.items ≡ length self.old.free.items) }
        ensures wakes { OnOk result (Wakes progress.now goals.now self.old self.new missing) }
    {
        let woken = self.woken(alloc, missing);
        for at in &woken {
            self.look(alloc, progress, goals, *at)?;
        }
        Ok(())
    }

    /// Looks again at the goals that wait for what is given: it is at hand now.
    pub fn wake(
        &mut self,
        alloc: Global,
        progress: &Progress,
        goals: &[Goal],
        given: &[Occ],
    ) -> Result<(), Memory>
        requires { (before : Before) × Sorts before goals.now self.old × Grows before progress.now (Contains given.now) }
        ensures { OnOk result (Sorts progress.now goals.now self.new) }
    {
        for missing in given {
            self.wake_one(alloc, progress, goals, *missing)?;
        }
        Ok(())
    }
}

impl Progress {
    /// How many of these are at hand up to the first that is not, where so many are.
    fn seen_from(&self, direct: &[Occ], count: usize) -> usize
        requires { (u : Occurrence) → Contains (take count direct.now) u → HasBit self.now.at_hand.items u }
        ensures seen { (u : Occurrence) → Contains (take result direct.now) u → HasBit self.now.at_hand.items u }
        ensures stops { (u : Occurrence) → slice_get direct.now result ≡ Some u → ¬ HasBit self.now.at_hand.items u }
    {
        for k in count..direct.len() {
            if !self.is_at_hand(direct[k]) {
                return k;
            }
        }
        direct.len()
    }
}
