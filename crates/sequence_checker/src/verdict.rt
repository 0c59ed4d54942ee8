//! The check of a plan.
ghost use Rattle.std.specs.Prelude.{◌≡◌, ◌↔◌, IfOk, IsTrue};
ghost use Rattle.lido_base.specs.Phases.{Gives};
ghost use Rattle.flat_grammar.specs.SoundPlan.{HasRows};
ghost use Rattle.sequence_checker.specs.Verdicts.{Judges, Verdict};

use crate::fault::CheckFault;
use crate::rows::are_rows;
use crate::sequence::sequence_fault;
use flat_grammar::{Flat, Plan};
use lido_base::{Memory, RuleId};
use std::alloc::Global;

/// Whether each symbol has its row of visits, and each rule a sequence.
fn has_rows(alloc: Global, flat: &Flat, plan: &Plan) -> Result<bool, Memory>
    ensures { IfOk result (λ right. IsTrue right ↔ HasRows flat.now.symbols flat.now.rules plan.now.visits plan.now.seqs) }
{
    if plan.seqs.len() != flat.rules.len() {
        return Ok(false);
    }
    are_rows(alloc, flat.symbols.as_slice(), plan.visits.as_slice())
}

/// Whether each rule's sequence is sound for the rows of visits, which are right.
fn check_sequences(alloc: Global, flat: &Flat, plan: &Plan) -> Result<(), CheckFault>
    requires { HasRows flat.now.symbols flat.now.rules plan.now.visits plan.now.seqs }
    ensures { Judges flat.now.symbols flat.now.rules plan.now.visits plan.now.seqs result }
{
    let symbols = flat.symbols.as_slice();
    let visits = plan.visits.as_slice();
    for (k, rule) in flat.rules.as_slice().iter().enumerate() {
        let seq = plan.seqs.as_slice()[k].as_slice();
        if let Some(fault) = sequence_fault(alloc, symbols, visits, rule, seq)? {
            return Err(CheckFault::Unsound {
                rule: RuleId(k as u16),
                place: fault.place,
                clause: fault.clause,
            });
        }
    }
    Ok(())
}

/// Whether the plan is sound for the grammar, whoever made it: `Ok` exactly where it is, and otherwise its first fault by rule,
/// place and clause. `Memory` is want of memory, and says nothing of the plan.
///
/// The rules of soundness are those of Kastens' visit sequences (1980). By clauses: 0, each symbol has one row of visits, a
/// terminal an empty one, a nonterminal one visit at least; each attribute stands once, in a class of its kind, and nothing else
/// stands in a class; there is a sequence for each rule; and the numbers of an item are in range. 1, each goal of a rule is
/// evaluated once. 2, each child's visits are made, in turn. 3, what a child inherits in a visit is evaluated before. 4, what a
/// goal depends on is at hand: evaluated, synthesized by a visit that was made, or inherited up to the present visit. 5, a
/// visit's end stands in that visit, behind the evaluation of all that it synthesizes, and the last visit's end is the last item.
///
/// A fault of the rows or of the number of sequences is at rule 0, place 0, clause 0. What the end of a sequence lacks is at the
/// place that is the sequence's length. The time is linear in the sizes of the plan and of the grammar.
pub fn check(alloc: Global, flat: &Flat, plan: &Plan) -> Result<(), CheckFault>
    ensures { Gives (λ unit. unit) (Verdict flat.now.symbols flat.now.rules plan.now.visits plan.now.seqs) CheckFault.Memory result }
{
    if !has_rows(alloc, flat, plan)? {
        return Err(CheckFault::Unsound {
            rule: RuleId(0),
            place: 0,
            clause: 0,
        });
    }
    check_sequences(alloc, flat, plan)
}
