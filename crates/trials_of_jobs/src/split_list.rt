//! A list whose items inherit a number and give a sum, split at its second cell.
ghost use Rattle.std.specs.Prelude.{◌≡◌, ◌∷◌, [], Some};
ghost use Rattle.core_machine.specs.Core.{IsTask, AreNotes, items, machine};
ghost use Rattle.core_machine.specs.Machine.{eval_of, put_of, own, final};
ghost use Rattle.core_machine.specs.Walks.{walk};
ghost use Rattle.trials_of_jobs.specs.SplitList.{job, items_of_the_root, items_of_the_cell, all_items, the_output, the_deposit, noted_job, the_note};

/// The job meets all facts.
pub fn job_of_two_items()
    ensures { IsTask job }
{}

/// The items in the whole order, those of each region, which are those of its walk, and what they give: the output's text, and the
/// one deposit in the root's room.
pub fn items_of_two_regions()
    ensures whole { items job ≡ all_items }
    ensures of_the_root { own (machine job) 0 (items job) ≡ items_of_the_root }
    ensures of_the_cell { own (machine job) 1 (items job) ≡ items_of_the_cell }
    ensures walk_of_the_root { walk job 0 ≡ items_of_the_root }
    ensures walk_of_the_cell { walk job 1 ≡ items_of_the_cell }
    ensures output { (final (machine job)).values (0, 0) ≡ Some the_output }
    ensures deposit { (final (machine job)).rooms 0 ≡ the_deposit ∷ [] }
    ensures none { (final (machine job)).rooms 1 ≡ [] }
{}

/// A message has a note, and what is no message has none.
pub fn notes_of_a_message()
    ensures met { AreNotes noted_job (final (machine noted_job)) (the_note ∷ []) }
    ensures note_left_out { ¬ AreNotes noted_job (final (machine noted_job)) [] }
    ensures no_message { ¬ AreNotes job (final (machine job)) (the_note ∷ []) }
{}
