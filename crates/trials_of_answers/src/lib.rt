//! The form of a call's answer, tried on a toy program whose answers have what those of later commands and statuses have: several
//! right answers, statuses with names, messages, a command that reads no input, and one that has written when it refuses.
//!
//! Each function does nothing; what is proved is its contract. Nothing of the product stands on this crate.
#![tactic(auto)]

ghost use Rattle.std.specs.Prelude.{◌≡◌, ◌≢◌, ◌⊎◌, ◌<◌, ◌∷◌, ◌++◌, [], ℕ, List, Some, codes, length, take};
ghost use Rattle.lido_base.specs.Causes.{Rose};
ghost use Rattle.lido_syntax.specs.declared.fault.SpecFault.TheVariants.{TooMany};
ghost use Rattle.lido_base.specs.declared.kinds.Many.TheVariants.{Nodes};
ghost use Rattle.order_report.specs.declared.status.Status.{Status};
ghost use Rattle.order_report.specs.declared.status.Status.TheVariants.{Spec, ReadFault, InputTooLong, Done};
ghost use Rattle.order_report.specs.declared.status.Which.{Which};
ghost use Rattle.order_report.specs.Lines.{line_of};
ghost use Rattle.lido_top.specs.Answers.{Answer, Seen, Follows, refusal, seen, written};
ghost use Rattle.lido_top.specs.Endings.{ending, no_memory, plainly};
ghost use Rattle.trials_of_answers.specs.Rows.{DecidesMore, HasRow};
ghost use Rattle.trials_of_answers.specs.Toy.{Decides, IsAlike, cycle, names, with_notes, written_and_refused};

/// A specification with two cycles has two right answers, which are alike.
pub fn either_cycle_is_right()
    ensures first { Decides (codes "check" ∷ []) (seen (Some (codes "x")) 0) (seen (Some []) 0)
        (refusal (ending names (cycle (0 ∷ 1 ∷ 0 ∷ [])))) }
    ensures second { Decides (codes "check" ∷ []) (seen (Some (codes "x")) 0) (seen (Some []) 0)
        (refusal (ending names (cycle (1 ∷ 2 ∷ 1 ∷ [])))) }
    ensures differ { ending names (cycle (0 ∷ 1 ∷ 0 ∷ [])) ≢ ending names (cycle (1 ∷ 2 ∷ 1 ∷ [])) }
    ensures alike { IsAlike (refusal (ending names (cycle (0 ∷ 1 ∷ 0 ∷ []))))
        (refusal (ending names (cycle (1 ∷ 2 ∷ 1 ∷ [])))) }
    ensures empty { Decides (codes "check" ∷ []) (seen (Some []) 0) (seen (Some []) 0) (refusal (plainly Status.NoPtg)) }
{}

/// Names count by their texts: the same cycle over another table, in which the texts have other ids, ends a call alike; another cycle doesn't.
pub fn names_count_by_their_texts()
    ensures same { ending names (cycle (0 ∷ 1 ∷ 0 ∷ [])) ≡ ending (codes "B" ∷ codes "A" ∷ []) (cycle (1 ∷ 0 ∷ 1 ∷ [])) }
    ensures other { ending names (cycle (0 ∷ 1 ∷ 0 ∷ [])) ≢ ending (codes "B" ∷ codes "A" ∷ []) (cycle (0 ∷ 1 ∷ 0 ∷ [])) }
    ensures line { line_of names (cycle (0 ∷ 1 ∷ 0 ∷ [])) ≡ codes "lido: spec ClassCycle A B A\n" }
{}

/// Messages go to `err` behind the whole text; where `err` fails there, the text stands on `out`.
pub fn messages_stand_behind_the_text()
    ensures decided { Decides (codes "run" ∷ []) (seen (Some (codes "x")) 0) (seen (Some []) 0) with_notes }
    ensures whole { Follows with_notes (seen (Some []) 0) (seen (Some (codes "26")) 0)
        (seen (Some []) 0) (seen (Some (codes "2:1 WARNING: b\n")) 0) Status.Done }
    ensures cut { Follows with_notes (seen (Some []) 0) (seen (Some (codes "26")) 0)
        (seen (Some []) 0) (seen (Some (codes "2:1")) 1) (Status.WriteFault Which.Err 3) }
    // not where `out` has nothing, and not without a cause
    ensures text_first { (out err later : Seen) (n : ℕ) → out.bytes ≡ Some [] → ¬ Follows with_notes out out err later (Status.WriteFault Which.Err n) }
    ensures causes { (out later err : Seen) (n : ℕ) → Follows with_notes out later err err (Status.WriteFault Which.Err n) → Rose err.faults err.faults }
{}

/// A command that reads no input leaves the source alone, and neither a fault of the source nor a long input comes.
pub fn a_command_may_read_nothing()
    ensures decided { (src : Seen) → Decides (codes "big" ∷ []) src src (written (codes "nodes 12\n")) }
    ensures nothing_else { (src later : Seen) (decided : Answer) → Decides (codes "big" ∷ []) src later decided
        → (decided ≡ written (codes "nodes 12\n")) ⊎ (decided ≡ refusal no_memory) }
{}

/// An answer may have written when it refuses.
pub fn a_refusal_may_have_written()
    ensures decided { Decides (codes "edit" ∷ []) (seen (Some (codes "x")) 0) (seen (Some []) 0) written_and_refused }
    ensures whole { Follows written_and_refused (seen (Some []) 0) (seen (Some (codes "== 0 ==\n")) 0) (seen (Some []) 0)
        (seen (Some (codes "lido: spec TooMany Nodes\n")) 0) (Status.Spec (TooMany Nodes)) }
{}

/// Where `err` fails while the line of the source's fault is written, the source's count rose all the same.
pub fn causes_stand_in_the_row()
    ensures source { (src later : Seen) (decided : Answer) → Decides (codes "run" ∷ []) src later decided
        → decided.ending.status ≡ Status.ReadFault → Rose src.faults later.faults }
    ensures met { Decides (codes "run" ∷ []) (seen (Some []) 4) (seen (Some []) 5) (refusal (plainly Status.ReadFault)) }
    ensures cut { (out : Seen) → Follows (refusal (plainly Status.ReadFault)) out out (seen (Some []) 0)
        (seen (Some (codes "lido")) 1) (Status.WriteFault Which.Err 4) }
{}

/// Each status has its row, which says what was read and written, by the kind of the status. Where the toy gives one status more,
/// the same lemma says its row, and only the kinds of the toy's statuses have one case more.
pub fn a_status_has_its_row()
    ensures row { (words : List (List ℕ)) (src later out out_later err err_later : Seen) (decided : Answer) (s : Status)
        → Decides words src later decided → Follows decided out out_later err err_later s
        → HasRow decided src later out out_later err err_later s }
    ensures one_more { (words : List (List ℕ)) (src later out out_later err err_later : Seen) (decided : Answer) (s : Status)
        → DecidesMore words src later decided → Follows decided out out_later err err_later s
        → HasRow decided src later out out_later err err_later s }
    ensures decided { DecidesMore (codes "run" ∷ []) (seen (Some (codes "y")) 0) (seen (Some []) 0)
        (refusal (plainly Status.NoTree)) }
{}

#[cfg(test)]
mod report_tests;
#[cfg(test)]
mod tests;
#[cfg(test)]
mod text_tests;
