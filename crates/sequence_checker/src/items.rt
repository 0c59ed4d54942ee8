//! Which clause an item breaks first, and which one the end of a sequence.
ghost use Rattle.std.specs.Prelude.{◌≡◌, ◌<◌, ◌^◌, ◌↔◌, ℕ, suc, Some, List, length, IfOk, IsTrue, slice_get, slice_index};
ghost use Rattle.std.specs.List.{list_all};
ghost use Rattle.flat_grammar.specs.WellFormed.{IsRule};
ghost use Rattle.flat_grammar.specs.SoundPlan.{AllowsEnd};
ghost use Rattle.flat_grammar.specs.declared.plan.PlanItem.TheVariants.{Eval, Visit, Leave};
ghost use Rattle.flat_grammar.specs.declared.plan.VisitClass.{VisitClass as Class};
ghost use Rattle.flat_grammar.specs.declared.flat.FlatSymbol.{FlatSymbol as Symbol};
ghost use Rattle.lido_base.specs.declared.ids.SymId.{SymId as SymbolId};
ghost use Rattle.sequence_checker.specs.Goals.{IsIndexOf};
ghost use Rattle.sequence_checker.specs.Sets.{has};
ghost use Rattle.sequence_checker.specs.Faults.{JudgesItem, JudgesEnd, is_visited as all_visited, last_ended};

use crate::goals::Goals;
use crate::progress::Progress;
use crate::visits::{class_at, is_attribute};
use flat_grammar::{FlatRule, FlatSymbol, Occ, PlanItem, VisitClass, row_at};
use lido_base::{List, Memory, SymId};
use std::alloc::Global;

/// The clause on numbers in range.
const IN_RANGE: u32 = 0;

/// The clause on evaluations: each goal once.
const GOAL_ONCE: u32 = 1;

/// The clause on visits of children: each one in turn.
const NEXT_VISIT: u32 = 2;

/// The clause on what a child inherits.
const INHERITED_FIRST: u32 = 3;

/// The clause on what an evaluation depends on.
const AT_HAND: u32 = 4;

/// The clause on the ends of visits.
const OWN_VISIT: u32 = 5;

impl Progress {
    /// The clause that the evaluation breaks first.
    fn eval_fault(
        &self,
        alloc: Global,
        symbols: &[FlatSymbol],
        rule: &FlatRule,
        goals: &Goals,
        goal: Occ,
    ) -> Result<Option<u32>, Memory>
        requires rule { IsRule symbols.now rule.now }
        requires goals { IsIndexOf rule.now.comps goals.now }
        ensures { IfOk result (λ fault. (visits : List (List Class))
            → JudgesItem symbols.now visits rule.now self.now (Eval goal) fault) }
    {
        if !is_attribute(symbols, rule, goal) {
            return Ok(Some(IN_RANGE));
        }
        let Some(comp) = goals.computation(rule, goal) else {
            return Ok(Some(GOAL_ONCE));
        };
        if self.evaluated.has(goal) {
            return Ok(Some(GOAL_ONCE));
        }
        if !self.has_dependencies(alloc, comp)? {
            return Ok(Some(AT_HAND));
        }
        Ok(None)
    }

    /// Whether this is the next visit of the symbol at an occurrence.
    fn is_next(&self, occ: u16, visit: u16) -> bool
        ensures { IsTrue result ↔ (visit ≡ suc (slice_index self.now.made.items occ)) }
    {
        u32::from(visit) == u32::from(self.ended(occ)) + 1
    }

    /// The clause that the visit of a child breaks first.
    fn visit_fault(
        &self,
        visits: &[List<VisitClass>],
        rule: &FlatRule,
        occ: u16,
        visit: u16,
    ) -> Option<u32>
        ensures { (symbols : List Symbol) → JudgesItem symbols visits.now rule.now self.now (Visit occ visit) result }
    {
        if occ == 0 {
            return Some(IN_RANGE);
        }
        let Some(class) = class_at(visits, rule, occ, visit as usize) else {
            return Some(IN_RANGE);
        };
        if !self.is_next(occ, visit) {
            return Some(NEXT_VISIT);
        }
        if !self.has_all(occ, class.inherited.as_slice()) {
            return Some(INHERITED_FIRST);
        }
        None
    }

    /// The clause that the end of a visit breaks first.
    fn leave_fault(&self, visits: &[List<VisitClass>], rule: &FlatRule, visit: u16) -> Option<u32>
        ensures { (symbols : List Symbol) → JudgesItem symbols visits.now rule.now self.now (Leave visit) result }
    {
        let Some(class) = class_at(visits, rule, 0, visit as usize) else {
            return Some(IN_RANGE);
        };
        if !self.is_next(0, visit) {
            return Some(OWN_VISIT);
        }
        if !self.has_all(0, class.synthesized.as_slice()) {
            return Some(OWN_VISIT);
        }
        None
    }

    /// The clause that the item breaks first.
    pub fn item_fault(
        &self,
        alloc: Global,
        symbols: &[FlatSymbol],
        visits: &[List<VisitClass>],
        rule: &FlatRule,
        goals: &Goals,
        item: PlanItem,
    ) -> Result<Option<u32>, Memory>
        requires rule { IsRule symbols.now rule.now }
        requires goals { IsIndexOf rule.now.comps goals.now }
        ensures { IfOk result (λ fault. JudgesItem symbols.now visits.now rule.now self.now item fault) }
    {
        match item {
            PlanItem::Eval(goal) => self.eval_fault(alloc, symbols, rule, goals, goal),
            PlanItem::Visit { occ, visit } => Ok(self.visit_fault(visits, rule, occ, visit)),
            PlanItem::Leave { visit } => Ok(self.leave_fault(visits, rule, visit)),
        }
    }

    /// Whether all goals of the rule are evaluated.
    fn has_goals(&self, rule: &FlatRule) -> bool
        ensures { result ≡ list_all (λ comp. has self.now.evaluated comp.goal) rule.now.comps }
    {
        rule.comps
            .as_slice()
            .iter()
            .all(|comp| self.evaluated.has(comp.goal))
    }

    /// Whether all visits of the symbol at an occurrence were made, if it is a nonterminal.
    fn is_visited(
        &self,
        symbols: &[FlatSymbol],
        visits: &[List<VisitClass>],
        occ: u16,
        symbol: SymId,
    ) -> bool
        ensures { result ≡ all_visited symbols.now visits.now self.now occ symbol }
    {
        let nonterminal = match symbols.get(symbol.0 as usize) {
            Some(found) => found.terminal.is_none(),
            None => false,
        };
        let all_made = match visits.get(symbol.0 as usize) {
            Some(row) => row.len() == self.ended(occ) as usize,
            None => true,
        };
        !nonterminal || all_made
    }

    /// Whether all visits of the nonterminal children were made.
    fn has_visits(
        &self,
        symbols: &[FlatSymbol],
        visits: &[List<VisitClass>],
        rule: &FlatRule,
    ) -> bool
        requires { length rule.now.right < 2 ^ 16 }
        ensures { IsTrue result ↔ ((k : ℕ) (s : SymbolId) → slice_get rule.now.right k ≡ Some s
            → IsTrue (all_visited symbols.now visits.now self.now (suc k) s)) }
    {
        for (k, symbol) in rule.right.as_slice().iter().enumerate() {
            if !self.is_visited(symbols, visits, k as u16 + 1, *symbol) {
                return false;
            }
        }
        true
    }

    /// The clause that the end of the sequence breaks first.
    pub fn end_fault(
        &self,
        symbols: &[FlatSymbol],
        visits: &[List<VisitClass>],
        rule: &FlatRule,
        seq: &[PlanItem],
    ) -> Option<u32>
        requires { length rule.now.right < 2 ^ 16 }
        ensures { JudgesEnd symbols.now visits.now rule.now self.now seq.now result }
    {
        if !self.has_goals(rule) {
            return Some(GOAL_ONCE);
        }
        if !self.has_visits(symbols, visits, rule) {
            return Some(NEXT_VISIT);
        }
        if !ends_last_visit(visits, rule, seq) {
            return Some(OWN_VISIT);
        }
        None
    }
}

/// The visit that the last item ends.
fn last_visit(seq: &[PlanItem]) -> Option<u16>
    ensures { result ≡ last_ended seq.now }
{
    match seq.last() {
        Some(PlanItem::Leave { visit }) => Some(*visit),
        _ => None,
    }
}

/// Whether the last item ends the last visit of the left side.
fn ends_last_visit(visits: &[List<VisitClass>], rule: &FlatRule, seq: &[PlanItem]) -> bool
    ensures { (symbols : List Symbol) → IsTrue result ↔ AllowsEnd symbols visits.now rule.now 5 seq.now }
{
    let Some(row) = row_at(visits, rule, 0) else {
        return false;
    };
    let Some(visit) = last_visit(seq) else {
        return false;
    };
    row.len() == visit as usize
}
