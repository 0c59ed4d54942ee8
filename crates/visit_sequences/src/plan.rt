//! The plan of a flat grammar.
ghost use Rattle.std.specs.Prelude.{◌≡◌, Contains, length, IfOk, IsTrue, ◌↔◌};
ghost use Rattle.flat_grammar.specs.Construction.{AreConstructed, IsConstructed};
ghost use Rattle.flat_grammar.specs.Cycles.{IsOrderedGrammar};
ghost use Rattle.flat_grammar.specs.Dependencies.{AreInducedRows};
ghost use Rattle.flat_grammar.specs.Partition.{AreAllVisits};
ghost use Rattle.flat_grammar.specs.SoundPlan.{IsSound};
ghost use Rattle.flat_grammar.specs.declared.plan.PlanItem.TheVariants.{Leave};
ghost use Rattle.visit_sequences.specs.Steps.{item_occurrence};

use crate::given::given;
use crate::goals::goals;
use crate::progress::Progress;
use crate::queue::Queue;
use crate::rest::Rest;
use crate::rows::visits_at;
use flat_grammar::{Deps, Flat, FlatRule, Parts, Plan, PlanItem, VisitClass};
use lido_base::{List, Memory};
use std::alloc::Global;

/// Whether the item ends this visit.
fn is_end(item: PlanItem, visit: usize) -> bool
    ensures { IsTrue result ↔ (item ≡ Leave visit) }
{
    match item {
        PlanItem::Leave { visit: v } => v as usize == visit,
        _ => false,
    }
}

/// The occurrence that the item is about.
fn place(item: PlanItem) -> u16
    ensures { result ≡ item_occurrence item }
{
    match item {
        PlanItem::Eval(goal) => goal.occ,
        PlanItem::Visit { occ, .. } => occ,
        PlanItem::Leave { .. } => 0,
    }
}

/// The sequence of a rule.
fn sequence(
    alloc: Global,
    flat: &Flat,
    deps: &Deps,
    parts: &Parts,
    rule: &FlatRule,
) -> Result<List<PlanItem>, Memory>
    requires rows { AreInducedRows flat.now.symbols flat.now.rules deps.now.ids }
    requires visits { AreAllVisits flat.now.symbols flat.now.rules parts.now.visits }
    requires rule { Contains flat.now.rules rule.now }
    ensures { IfOk result (IsConstructed flat.now.symbols flat.now.rules parts.now.visits rule.now) }
{
    let goals = goals(alloc, flat, deps, parts, rule)?;
    let last = visits_at(parts.visits.as_slice(), rule, 0).len();
    let mut progress = Progress::start(alloc, flat, parts, rule)?;
    let mut queue = Queue::start(alloc, &progress, &goals)?;
    let mut rest = Rest::start(alloc, rule)?;
    loop {
        rest.pass(&progress, parts.visits.as_slice(), rule, &goals);
        let ready = progress.least_ready(&goals, &mut queue);
        let item = progress.choose(flat, parts, rule, &goals, ready, &mut rest);
        progress.take(flat, parts, rule, item)?;
        if is_end(item, last) {
            return Ok(List::from_vec(progress.into_items()));
        }
        let given = given(alloc, parts.visits.as_slice(), rule, item)?;
        queue.wake(alloc, &progress, &goals, &given)?;
        rest.ready.list(place(item))?;
    }
}

/// The sequences of all rules, in their order.
fn all_sequences(
    alloc: Global,
    flat: &Flat,
    deps: &Deps,
    parts: &Parts,
) -> Result<List<List<PlanItem>>, Memory>
    requires rows { AreInducedRows flat.now.symbols flat.now.rules deps.now.ids }
    requires visits { AreAllVisits flat.now.symbols flat.now.rules parts.now.visits }
    ensures { IfOk result (AreConstructed flat.now.symbols flat.now.rules parts.now.visits) }
{
    let mut seqs = Vec::new(alloc);
    for rule in flat.rules.as_slice() {
        let seq = sequence(alloc, flat, deps, parts, rule)?;
        seqs.push(seq)?;
    }
    Ok(List::from_vec(seqs))
}

/// A copy of what passes in a visit.
fn class_copy(class: &VisitClass) -> Result<VisitClass, Memory>
    ensures { IfOk result (λ copy. copy ≡ class.now) }
{
    Ok(VisitClass {
        inherited: class.inherited.clone()?,
        synthesized: class.synthesized.clone()?,
    })
}

/// A copy of the visits of a symbol.
fn row_copy(alloc: Global, row: &[VisitClass]) -> Result<List<VisitClass>, Memory>
    ensures { IfOk result (λ copy. copy ≡ row.now) }
{
    let mut copy = Vec::new(alloc);
    for class in row {
        let copied = class_copy(class)?;
        copy.push(copied)?;
    }
    Ok(List::from_vec(copy))
}

/// A copy of the visits of all symbols.
fn visits_copy(alloc: Global, visits: &[List<VisitClass>]) -> Result<List<List<VisitClass>>, Memory>
    ensures { IfOk result (λ copy. copy ≡ visits.now) }
{
    let mut copy = Vec::new(alloc);
    for row in visits {
        let copied = row_copy(alloc, row.as_slice())?;
        copy.push(copied)?;
    }
    Ok(List::from_vec(copy))
}

/// The plan in which the item at each place of a rule's sequence is the one that the construction chooses after the items before
/// it: the least evaluation that is ready; else, where the left side's visit still owes something, the ready visit of the least
/// child; else, in the last visit, the next visit of the least child that has one left; else the end of the visit.
///
/// The induced dependencies and the visits have to be those of the grammar, and no rule's extended dependencies may have a cycle.
/// Then the plan is sound. After Kastens' visit sequences (1980); the order of choice is our own.
///
/// # Errors
///
/// `Memory` where memory runs out.
pub fn sequences(alloc: Global, flat: &Flat, deps: &Deps, parts: &Parts) -> Result<Plan, Memory>
    requires rows { AreInducedRows flat.now.symbols flat.now.rules deps.now.ids }
    requires visits { AreAllVisits flat.now.symbols flat.now.rules parts.now.visits }
    requires ordered { IsOrderedGrammar flat.now.symbols flat.now.rules }
    ensures visits { IfOk result (λ plan. plan.visits ≡ parts.now.visits) }
    ensures constructed { IfOk result (λ plan. AreConstructed flat.now.symbols flat.now.rules parts.now.visits plan.seqs) }
    ensures sound { IfOk result (λ plan. IsSound flat.now.symbols flat.now.rules plan.visits plan.seqs) }
{
    let seqs = all_sequences(alloc, flat, deps, parts)?;
    Ok(Plan {
        visits: visits_copy(alloc, parts.visits.as_slice())?,
        seqs,
    })
}
