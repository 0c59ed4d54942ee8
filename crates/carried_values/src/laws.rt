//! Laws of values in flat trees: functions that do nothing, whose contracts are the laws.
ghost use Rattle.std.specs.Prelude.{◌≡◌, ℕ, List, Contains};
ghost use Rattle.lido_base.specs.Plain.{Plain};
ghost use Rattle.lido_syntax.specs.declared.spec.RuleItem.{RuleItem};
ghost use Rattle.lido_syntax.specs.declared.spec.Expr.{Expr as Expression};
ghost use Rattle.lido_syntax.specs.Parts.{expressions_of};
ghost use Rattle.lido_syntax.specs.Assignment.{Assignment};
ghost use Rattle.rule_tables.specs.PlainRules.{PlainRule};
ghost use Rattle.rule_tables.specs.Forced.{Force};
ghost use Rattle.rule_tables.specs.Slots.{Slot};
ghost use Rattle.rule_tables.specs.Shares.{Term, ConstituentsShare};
ghost use Rattle.carried_trees.specs.Flattening.{Flattening, IsFlattening, Trees, AreTrees};
ghost use Rattle.carried_trees.specs.Carry.{carry};
ghost use Rattle.carried_trees.specs.Holds.{IsRuleAt, Holds};
ghost use Rattle.carried_values.specs.Values.{IsTailless, IsContext, copy_value, written_value};

/// What is carried gives an expression of a computation in force, copied into the flat grammar, the value that it has in the written
/// tree, if it has no TAIL.
pub fn expressions_keep_their_values()
    ensures { (f : Flattening) → IsFlattening f → (x : Trees) → AreTrees f x → (A : Assignment)
        → (n : ℕ) (r : RuleItem) (p : PlainRule) (fs : List Force) → IsRuleAt f x n r p fs
        → (c : Force) → Contains fs c → (e : Expression) → Contains (expressions_of c.comp) e → IsTailless e
        → (w : ℕ) (q : RuleItem) → IsContext f x n c w q → (tail : ℕ → Plain)
        → copy_value f x A n r p fs c e ≡ written_value f x A tail w q c e }
{}

/// What is carried meets the equations of CONSTITUENTS: a node gathers what its children give, a list what its cells give, and a cell
/// joins what its element gives to what follows.
pub fn constituents_are_gathered()
    ensures { (f : Flattening) → IsFlattening f → (x : Trees) → AreTrees f x → (A : Assignment)
        → (n : ℕ) (r : RuleItem) (p : PlainRule) (fs : List Force) → IsRuleAt f x n r p fs
        → (j : ℕ) (s : Slot) (e : Term) → ConstituentsShare f.spec f.tables f.needs p fs j s e
        → Holds f x (carry f x A) n r p fs j s e }
{}
