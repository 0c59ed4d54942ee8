//! The first fault of a rule's sequence.
ghost use Rattle.std.specs.Prelude.{◌<◌, ◌≤◌, ◌^◌, length, sum_by, IfOk};
ghost use Rattle.flat_grammar.specs.WellFormed.{IsRule};
ghost use Rattle.flat_grammar.specs.Rules.{attrs_of, symbols_of};
ghost use Rattle.sequence_checker.specs.Verdicts.{HasFirstFault};

use crate::fault::SequenceFault;
use crate::goals::Goals;
use crate::progress::Progress;
use flat_grammar::{FlatRule, FlatSymbol, PlanItem, VisitClass};
use lido_base::{List, Memory};
use std::alloc::Global;

/// The first fault of a rule's sequence, by place and clause. `None` where it is sound.
pub fn sequence_fault(
    alloc: Global,
    symbols: &[FlatSymbol],
    visits: &[List<VisitClass>],
    rule: &FlatRule,
    seq: &[PlanItem],
) -> Result<Option<SequenceFault>, Memory>
    requires rule { IsRule symbols.now rule.now }
    requires occurrences { length rule.now.right < 2 ^ 16 }
    requires few { sum_by (λ s. length (attrs_of symbols.now s)) (symbols_of rule.now) ≤ 1024 }
    ensures { IfOk result (HasFirstFault symbols.now visits.now rule.now seq.now) }
{
    let goals = Goals::of(alloc, rule)?;
    let mut progress = Progress::start(alloc, visits, rule)?;
    for (place, item) in seq.iter().enumerate() {
        if let Some(clause) = progress.item_fault(alloc, symbols, visits, rule, &goals, *item)? {
            return Ok(Some(SequenceFault {
                place: place as u32,
                clause,
            }));
        }
        progress.take(visits, rule, *item)?;
    }
    match progress.end_fault(symbols, visits, rule, seq) {
        Some(clause) => Ok(Some(SequenceFault {
            place: seq.len() as u32,
            clause,
        })),
        None => Ok(None),
    }
}
