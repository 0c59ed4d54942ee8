//! The item that the construction chooses next.
ghost use Rattle.std.specs.Prelude.{◌≡◌, ◌↔◌, ◌⊎◌, ◌+◌, ◌^◌, ◌<◌, ◌≤◌, suc, ℕ, All, Contains, length, IsBitSet, IsTrue, MatchOption, Some, slice_get, slice_index};
ghost use Rattle.flat_grammar.specs.declared.flat.Occ.{Occ as Occurrence};
ghost use Rattle.flat_grammar.specs.Construction.{IsChosen};
ghost use Rattle.flat_grammar.specs.Cycles.{IsAtMost};
ghost use Rattle.flat_grammar.specs.Partition.{AreAllVisits};
ghost use Rattle.flat_grammar.specs.declared.plan.PlanItem.TheVariants.{Leave, Visit};
ghost use Rattle.visit_sequences.specs.declared.goals.Goal.{Goal as Waiting};
ghost use Rattle.visit_sequences.specs.Steps.{AreEvaluated, AreGoals, AreListed, AreListedChildren, AreOver, Follows, HasBit, HasLeft, IsLeastChild, IsLeastOpen, IsLeft, IsNextAt, IsNoChild, IsOfUseFrom, IsReadyAt, IsRest, Owes, OwesClass, Sorts, Stops, visits_there};

use crate::bits::least_new;
use crate::goals::Goal;
use crate::listed::Listed;
use crate::progress::Progress;
use crate::queue::Queue;
use crate::rest::Rest;
use crate::rows::visits_at;
use flat_grammar::{Bits, Flat, FlatRule, Occ, Parts, PlanItem, VisitClass};
use lido_base::List;

/// Whether a visit from this one on, counted from 0, synthesizes something.
fn is_of_use(row: &[VisitClass], from: usize) -> bool
    ensures { IsTrue result ↔ IsOfUseFrom row.now from }
{
    for v in from..row.len() {
        if row[v].synthesized.len() > 0 {
            return true;
        }
    }
    false
}

impl Progress {
    /// The least free goal of the occurrence that is not evaluated.
    fn least_at(&self, queue: &Queue, occ: u16) -> Option<Occ>
        ensures { MatchOption result ((o : Occurrence) → o.occ ≡ occ → ¬ IsLeft self.now queue.now o)
            (λ o. (o.occ ≡ occ) × IsLeft self.now queue.now o × ((p : Occurrence) → p.occ ≡ occ → IsLeft self.now queue.now p
            → IsAtMost o p)) }
    {
        let free = queue
            .free
            .get(occ as usize)
            .copied()
            .unwrap_or(Bits::empty());
        let evaluated = self
            .evaluated
            .get(occ as usize)
            .copied()
            .unwrap_or(Bits::empty());
        let attr = least_new(free, evaluated)?;
        Some(Occ { occ, attr })
    }

    /// The least goal that is free and not evaluated. An occurrence at which none is left is taken off the queue's set.
    fn least_left(&self, queue: &mut Queue) -> Option<Occ>
        requires { AreListed self.now queue.old }
        ensures same { (queue.new.free ≡ queue.old.free) × (queue.new.waiting ≡ queue.old.waiting) × (queue.new.seen ≡ queue.old.seen) }
        ensures listed { AreListed self.now queue.new }
        ensures least { MatchOption result ((o : Occurrence) → ¬ IsLeft self.now queue.old o)
            (λ o. IsLeft self.now queue.old o × ((p : Occurrence) → IsLeft self.now queue.old p → IsAtMost o p)) }
    {
        while let Some(occ) = queue.left.first() {
            if let Some(goal) = self.least_at(queue, occ) {
                return Some(goal);
            }
            queue.left.unlist(occ);
        }
        None
    }

    /// The least evaluation that is ready.
    pub fn least_ready(&self, goals: &[Goal], queue: &mut Queue) -> Option<Occ>
        requires { Sorts self.now goals.now queue.old }
        ensures sorts { Sorts self.now goals.now queue.new }
        ensures least { IsLeastOpen self.now goals.now result }
    {
        self.least_left(queue)
    }

    /// Whether the present visit's synthesized attributes are not all evaluated.
    fn owes_class(&self, row: &[VisitClass]) -> bool
        ensures { IsTrue result ↔ OwesClass row.now self.now }
    {
        if self.segment == 0 {
            return false;
        }
        match row.get(self.segment - 1) {
            Some(class) => !self.has_all(0, class.synthesized.as_slice()),
            None => false,
        }
    }

    /// Whether a goal is not evaluated, by the place of the first one.
    fn has_left(&self, goals: &[Goal], done: usize) -> bool
        requires all { AreEvaluated self.now goals.now done }
        requires stops { (g : Waiting) → slice_get goals.now done ≡ Some g → ¬ HasBit self.now.evaluated.items g.goal }
        ensures { IsTrue result ↔ HasLeft goals.now self.now }
    {
        done < goals.len()
    }

    /// Whether the present visit owes something: its synthesized attributes, or in the last one any goal.
    fn owes(
        &self,
        visits: &[List<VisitClass>],
        rule: &FlatRule,
        goals: &[Goal],
        done: usize,
    ) -> bool
        requires all { AreEvaluated self.now goals.now done }
        requires stops { (g : Waiting) → slice_get goals.now done ≡ Some g → ¬ HasBit self.now.evaluated.items g.goal }
        ensures { IsTrue result ↔ Owes visits.now rule.now self.now goals.now }
    {
        let row = visits_at(visits, rule, 0);
        self.owes_class(row) || self.segment == row.len() && self.has_left(goals, done)
    }

    /// Whether the child's next visit is ready and not idle.
    fn is_ready_visit(&self, visits: &[List<VisitClass>], rule: &FlatRule, occ: u16) -> bool
        ensures { IsTrue result ↔ IsReadyAt visits.now rule.now self.now occ }
    {
        let row = visits_at(visits, rule, occ);
        let made = self.visits_made(occ);
        match row.get(made) {
            Some(class) => self.has_all(occ, class.inherited.as_slice()) && is_of_use(row, made),
            None => false,
        }
    }

    /// The least child whose next visit is ready and not idle. One that isn't ready is taken off the list.
    fn ready_child(
        &self,
        visits: &[List<VisitClass>],
        rule: &FlatRule,
        ready: &mut Listed,
    ) -> Option<u16>
        requires { AreListedChildren visits.now rule.now self.now ready.old }
        ensures listed { AreListedChildren visits.now rule.now self.now ready.new }
        ensures least { MatchOption result (IsNoChild rule.now (IsReadyAt visits.now rule.now self.now)) (IsLeastChild rule.now (IsReadyAt visits.now rule.now self.now)) }
    {
        while let Some(occ) = ready.first() {
            if occ > 0 && self.is_ready_visit(visits, rule, occ) {
                return Some(occ);
            }
            ready.unlist(occ);
        }
        None
    }

    /// The least child that has a visit left, by how many before it have none.
    fn next_child(&self, visits: &[List<VisitClass>], rule: &FlatRule, over: usize) -> Option<u16>
        requires few { length rule.now.right < 2 ^ 16 }
        requires over { AreOver visits.now rule.now self.now over }
        requires stops { over < length rule.now.right → IsNextAt visits.now rule.now self.now (over + 1) }
        ensures { MatchOption result (IsNoChild rule.now (IsNextAt visits.now rule.now self.now)) (IsLeastChild rule.now (IsNextAt visits.now rule.now self.now)) }
    {
        if over < rule.right.len() {
            Some(over as u16 + 1)
        } else {
            None
        }
    }

    /// The child that is visited because the present visit owes something.
    fn owed_child(
        &self,
        visits: &[List<VisitClass>],
        rule: &FlatRule,
        goals: &[Goal],
        rest: &mut Rest,
    ) -> Option<u16>
        requires rest { IsRest visits.now rule.now self.now goals.now rest.old }
        requires stops { Stops visits.now rule.now self.now goals.now rest.old }
        ensures rest { IsRest visits.now rule.now self.now goals.now rest.new }
        ensures children { rest.new.children ≡ rest.old.children }
        ensures owed { MatchOption result (Owes visits.now rule.now self.now goals.now
            → IsNoChild rule.now (IsReadyAt visits.now rule.now self.now))
            (λ k. Owes visits.now rule.now self.now goals.now × IsLeastChild rule.now (IsReadyAt visits.now rule.now self.now) k) }
    {
        if !self.owes(visits, rule, goals, rest.goals) {
            return None;
        }
        self.ready_child(visits, rule, &mut rest.ready)
    }

    /// The child that is visited because the last visit goes on.
    fn last_child(&self, visits: &[List<VisitClass>], rule: &FlatRule, over: usize) -> Option<u16>
        requires few { length rule.now.right < 2 ^ 16 }
        requires over { AreOver visits.now rule.now self.now over }
        requires stops { over < length rule.now.right → IsNextAt visits.now rule.now self.now (over + 1) }
        ensures { MatchOption result (self.now.segment ≡ length (visits_there visits.now rule.now 0)
            → IsNoChild rule.now (IsNextAt visits.now rule.now self.now))
            (λ k. (self.now.segment ≡ length (visits_there visits.now rule.now 0))
            × IsLeastChild rule.now (IsNextAt visits.now rule.now self.now) k) }
    {
        if self.segment != visits_at(visits, rule, 0).len() {
            return None;
        }
        self.next_child(visits, rule, over)
    }

    /// The next visit of the child.
    fn next_visit(&self, occ: u16) -> PlanItem
        requires { slice_index self.now.made.items occ < 2 ^ 15 }
        ensures { result ≡ Visit occ (suc (slice_index self.now.made.items occ)) }
    {
        PlanItem::Visit {
            occ,
            visit: self.visits_made(occ) as u16 + 1,
        }
    }

    /// The end of the present visit.
    fn end_of_visit(&self) -> PlanItem
        requires { self.now.segment < 2 ^ 16 }
        ensures { result ≡ Leave self.now.segment }
    {
        PlanItem::Leave {
            visit: self.segment as u16,
        }
    }

    /// The item that the construction chooses, where this evaluation is the least that is ready.
    pub fn choose(
        &self,
        flat: &Flat,
        parts: &Parts,
        rule: &FlatRule,
        goals: &[Goal],
        ready: Option<Occ>,
        rest: &mut Rest,
    ) -> PlanItem
        requires visits { AreAllVisits flat.now.symbols flat.now.rules parts.now.visits }
        requires rule { Contains flat.now.rules rule.now }
        requires goals { AreGoals flat.now.symbols flat.now.rules rule.now goals.now }
        requires follows { Follows parts.now.visits rule.now self.now }
        requires ready { IsLeastOpen self.now goals.now ready }
        requires rest { IsRest parts.now.visits rule.now self.now goals.now rest.old }
        requires stops { Stops parts.now.visits rule.now self.now goals.now rest.old }
        requires within { self.now.segment ≤ length (visits_there parts.now.visits rule.now 0) }
        ensures chosen { IsChosen flat.now.symbols flat.now.rules parts.now.visits rule.now self.now.items.items result }
        ensures rest { IsRest parts.now.visits rule.now self.now goals.now rest.new }
    {
        let visits = parts.visits.as_slice();
        if let Some(goal) = ready {
            return PlanItem::Eval(goal);
        }
        if let Some(occ) = self.owed_child(visits, rule, goals, rest) {
            return self.next_visit(occ);
        }
        if let Some(occ) = self.last_child(visits, rule, rest.children) {
            return self.next_visit(occ);
        }
        self.end_of_visit()
    }
}
