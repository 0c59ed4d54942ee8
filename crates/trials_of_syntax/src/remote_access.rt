//! INCLUDING and CONSTITUENTS.
ghost use Rattle.std.specs.Prelude.{◌≡◌, ℕ, pos, Some, None, [], ◌∷◌};
ghost use Rattle.lido_base.specs.Plain.{Int, Void};
ghost use Rattle.lido_syntax.specs.declared.spec.Cons.{Cons as Constituents};
ghost use Rattle.lido_syntax.specs.Assignment.{Assignment};
ghost use Rattle.lido_syntax.specs.Constituents.{constituents_at};
ghost use Rattle.lido_syntax.specs.Including.{listed, up};
ghost use Rattle.lido_syntax.specs.Sets.{Sets};
ghost use Rattle.trials_of_syntax.specs.NestedDepths as depths;
ghost use Rattle.trials_of_syntax.specs.HandedDown as handed;
ghost use Rattle.trials_of_syntax.specs.ShieldedSums as sums;
ghost use Rattle.trials_of_syntax.specs.TerminalHeir as heir;
ghost use Rattle.trials_of_syntax.specs.Writing.{env, pair};

/// Below a block of 1 that holds blocks of 20 and 300 a shielded sum takes the first block alone, and one without a shield
/// all three. A shield that is no source gives nothing.
pub fn shielded_sums()
    ensures shielded { sums.HasSum sums.shielded 0 (Int (pos 1)) }
    ensures unshielded { sums.HasSum sums.unshielded 0 (Int (pos 321)) }
    ensures inside { sums.HasSum sums.unshielded 1 (Int (pos 320)) }
    ensures empty { sums.HasSum sums.unshielded 3 (Int (pos 0)) }
    ensures stopped { sums.HasSum sums.shielded_by_the_list 0 (Int (pos 1)) }
{}

/// An INCLUDING begins strictly above its context: nested blocks have the depths 1, 2 and 3.
pub fn nested_depths()
    ensures outer { depths.IsDepth 1 (Int (pos 1)) }
    ensures middle { depths.IsDepth 2 (Int (pos 2)) }
    ensures inner { depths.IsDepth 3 (Int (pos 3)) }
    ensures found { (sets : Sets depths.spec) → up depths.spec sets depths.tree depths.pairs 3 ≡ Some (2, 30) }
    ensures above { (sets : Sets depths.spec) → up depths.spec sets depths.tree depths.pairs 1 ≡ Some (0, 30) }
    ensures nothing { (sets : Sets depths.spec) → up depths.spec sets depths.tree depths.pairs 0 ≡ None }
{}

/// Of several pairs that stand for a symbol the first counts, the class's or the symbol's own. A terminal that inherits a class
/// isn't what the class stands for. Without a WITH there is no value.
pub fn pairs_of_remote_lists()
    ensures symbol_first { (sets : Sets handed.spec)
        → listed handed.spec sets (pair handed.Right 40 ∷ pair handed.Five handed.i ∷ []) handed.Right ≡ Some 40 }
    ensures class_first { (sets : Sets handed.spec)
        → listed handed.spec sets (pair handed.Five handed.i ∷ pair handed.Right 40 ∷ []) handed.Right ≡ Some handed.i }
    ensures terminal_heir { (sets : Sets heir.spec) (A : Assignment)
        → constituents_at heir.spec sets env heir.tree A heir.k 0 heir.k.with ≡ Int (pos 0) }
    ensures without_a_with { (sets : Sets handed.spec) (A : Assignment) (k : Constituents) (n : ℕ)
        → constituents_at handed.spec sets env handed.tree A k n None ≡ Void }
{}
