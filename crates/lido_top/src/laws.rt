//! Laws about the definitions.
ghost use Rattle.std.specs.Prelude.{◌≡◌, ◌≢◌, ◌⊎◌, ◌++◌, ◌∷◌, [], ℕ, ℤ, List, Some, codes};
ghost use Rattle.std.specs.Io.KnownBytes.{Keeps};
ghost use Rattle.lido_base.specs.Causes.{Rose};
ghost use Rattle.order_report.specs.declared.status.Status.{Status};
ghost use Rattle.order_report.specs.declared.status.Which.{Which};
ghost use Rattle.sum_trees.specs.declared.form.SumRule.{SumRule};
ghost use Rattle.sum_trees.specs.declared.form.TreeNode.{TreeNode};
ghost use Rattle.sum_trees.specs.Trees.{IsTree};
ghost use Rattle.lido_top.specs.declared.job.TheConstants.{SUM_JOB};
ghost use Rattle.lido_top.specs.Sums.{IsOnlyAttribution};
ghost use Rattle.lido_top.specs.Answers.{Answer, Seen, Follows, IsOutside, refusal, written};
ghost use Rattle.lido_top.specs.Endings.{nameless, plainly, no_memory};
ghost use Rattle.lido_top.specs.Verdict.{Decides, IsAlike, IsAnswer};

/// Each tree has exactly one assignment in which each node's attribute is its sum, also where a sum leaves 64 bits.
pub fn one_attribution()
    ensures { (rules : List SumRule) (tree_text : List ℕ) (nodes : List TreeNode) → IsTree rules tree_text nodes
        → (values : List ℤ) × IsOnlyAttribution rules nodes values }
{}

/// The words `run` and the job with the tree of 3 and 4 call for the text `7`.
pub fn three_and_four()
    ensures { IsAnswer (codes "run" ∷ []) (SUM_JOB.now ++ codes "(rTop (rAdd (rNum 3) (rNum 4)))\n") (written (codes "7")) }
{}

/// Words and bytes call for one answer: each two of them are alike.
pub fn one_answer()
    ensures { (words : List (List ℕ)) (bytes : List ℕ) (first second : Answer)
        → IsAnswer words bytes first → IsAnswer words bytes second → IsAlike first second }
{}

/// Where a source tells its bytes, what a call decides is alike to each answer that they and the words call for, or the source failed,
/// or memory ran out.
pub fn told_bytes_settle_the_answer()
    ensures { (words : List (List ℕ)) (src later : Seen) (decided : Answer) → Decides words src later decided
        → (bytes : List ℕ) → src.bytes ≡ Some bytes → (answer : Answer) → IsAnswer words bytes answer
        → IsAlike answer decided
        ⊎ (((decided ≡ refusal (plainly Status.ReadFault)) × Rose src.faults later.faults) ⊎ (decided ≡ refusal no_memory)) }
{}

/// Where a source tells its bytes, the status is the one of each answer that they and the words call for, or one of the outside.
pub fn told_bytes_settle_the_status()
    ensures { (words : List (List ℕ)) (src later out out_later err err_later : Seen) (decided : Answer) (s : Status)
        → Decides words src later decided → Follows decided out out_later err err_later s
        → (bytes : List ℕ) → src.bytes ≡ Some bytes → (answer : Answer) → IsAnswer words bytes answer
        → (nameless s ≡ answer.ending.status) ⊎ IsOutside s }
{}

/// Each status of a fault of the outside comes only where that object's count of faults rose.
pub fn faults_have_their_cause()
    ensures source { (words : List (List ℕ)) (src later out out_later err err_later : Seen) (decided : Answer) (s : Status)
        → Decides words src later decided → Follows decided out out_later err err_later s → s ≡ Status.ReadFault
        → Rose src.faults later.faults }
    ensures out { (words : List (List ℕ)) (src later out out_later err err_later : Seen) (decided : Answer) (s : Status)
        (n : ℕ)
        → Decides words src later decided → Follows decided out out_later err err_later s → s ≡ Status.WriteFault Which.Out n
        → Rose out.faults out_later.faults }
    ensures err { (words : List (List ℕ)) (src later out out_later err err_later : Seen) (decided : Answer) (s : Status)
        (n : ℕ)
        → Decides words src later decided → Follows decided out out_later err err_later s → s ≡ Status.WriteFault Which.Err n
        → Rose err.faults err_later.faults }
{}

/// Where the text was not written, `out` is as before.
pub fn refusals_leave_out_alone()
    ensures { (words : List (List ℕ)) (src later out out_later err err_later : Seen) (decided : Answer) (s : Status)
        → Decides words src later decided → Follows decided out out_later err err_later s
        → s ≢ Status.Done → ((n : ℕ) → s ≢ Status.WriteFault Which.Out n) → Keeps out.bytes out_later.bytes }
{}
