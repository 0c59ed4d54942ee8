//! What the items of a sequence give.
ghost use Rattle.std.specs.Prelude.{◌≡◌, ◌+◌, Contains, IfOk};
ghost use Rattle.flat_grammar.specs.declared.flat.Occ.{Occ as Occurrence};
ghost use Rattle.visit_sequences.specs.Steps.{HandsOn};

use crate::progress::{inherited_in, synthesized_in};
use crate::rows::visits_at;
use flat_grammar::{FlatRule, Occ, PlanItem, VisitClass};
use lido_base::{AttrId, List, Memory};
use std::alloc::Global;

/// These attributes of the occurrence.
fn all_at(alloc: Global, occ: u16, attrs: &[AttrId]) -> Result<Vec<Occ>, Memory>
    ensures { IfOk result (λ given. (u : Occurrence) → u.occ ≡ occ → Contains attrs.now u.attr → Contains given.items u) }
{
    let mut given = Vec::new(alloc);
    for attr in attrs {
        given.push(Occ { occ, attr: *attr })?;
    }
    Ok(given)
}

/// What the item gives: the goal, what passes up from the child, or what passes down in the next visit of the left side.
pub fn given(
    alloc: Global,
    visits: &[List<VisitClass>],
    rule: &FlatRule,
    item: PlanItem,
) -> Result<Vec<Occ>, Memory>
    ensures { IfOk result (λ given. (u : Occurrence) → HandsOn visits.now rule.now item u → Contains given.items u) }
{
    match item {
        PlanItem::Eval(goal) => all_at(alloc, goal.occ, &[goal.attr]),
        PlanItem::Visit { occ, visit } => {
            let row = visits_at(visits, rule, occ);
            all_at(alloc, occ, synthesized_in(row, visit as usize))
        }
        PlanItem::Leave { visit } => {
            let row = visits_at(visits, rule, 0);
            all_at(alloc, 0, inherited_in(row, visit as usize + 1))
        }
    }
}
