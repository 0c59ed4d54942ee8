//! What computations take.
ghost use Rattle.std.specs.Prelude.{◌≡◌, ℕ, None, Some, Contains};
ghost use Rattle.lido_base.specs.Environment.{Environment};
ghost use Rattle.lido_base.specs.declared.value.ValueType.TheVariants.{Str, Void};
ghost use Rattle.lido_base.specs.declared.value.ValueType.{ValueType};
ghost use Rattle.lido_syntax.specs.Computation.{Holder, InForce, Synthesized, Start, Behind, Message};
ghost use Rattle.lido_syntax.specs.Sets.{Sets};
ghost use Rattle.lido_syntax.specs.declared.spec.RuleItem.{RuleItem as Rule};
ghost use Rattle.lido_syntax.specs.declared.spec.Spec.{Spec as Specification};
ghost use Rattle.expr_types.specs.Computations.{GoalTakes, IsTyped, AreTyped};
ghost use Rattle.trials_of_types.specs.Writing.{declared, message, number, string};

/// A VOID chain takes VOID alone at its start and behind a node; a VOID attribute takes any type, and an int one no string.
pub fn goals_and_types()
    ensures start { (own : ℕ) (ty : ValueType) → GoalTakes declared own (Start 2) ty → ty ≡ Void }
    ensures behind { (own : ℕ) (ty : ValueType) → GoalTakes declared own (Behind 2) ty → ty ≡ Void }
    ensures void_chain { (own : ℕ) → GoalTakes declared own (Start 2) Void }
    ensures void_attribute { (own : ℕ) (ty : ValueType) → GoalTakes declared own (Synthesized 5) ty }
    ensures int_attribute { (own : ℕ) → ¬ GoalTakes declared own (Synthesized 0) Str }
{}

/// `message("s")` is typed; `message(1)` and `IF(1, message("s"))` are not.
pub fn plain_computations()
    ensures text { (spec : Specification) (sets : Sets spec) (env : Environment) (holder : Holder) (r : Rule) (own : ℕ)
        → IsTyped spec sets env holder r own (Message 1) (message None string) }
    ensures int_as_text { (spec : Specification) (sets : Sets spec) (env : Environment) (holder : Holder) (r : Rule) (own : ℕ)
        → ¬ IsTyped spec sets env holder r own (Message 1) (message None (number 1)) }
    ensures int_as_condition { (spec : Specification) (sets : Sets spec) (env : Environment) (holder : Holder) (r : Rule)
        (own : ℕ) → ¬ IsTyped spec sets env holder r own (Message 1) (message (Some (number 1)) string) }
{}

/// A specification without rules is typed, and one in which `message(1)` is in force is not.
pub fn typed_specifications()
    ensures without_rules { (sets : Sets declared) (env : Environment) → AreTyped declared sets env }
    ensures int_as_text { (spec : Specification) (sets : Sets spec) (env : Environment) (r : Rule) (k s j : ℕ) (holder : Holder)
        → Contains spec.rules r → InForce spec r k s (Message j) holder (message None (number 1)) → ¬ AreTyped spec sets env }
{}
