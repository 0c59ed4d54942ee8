//! Calls, their arguments and the types that they have.
ghost use Rattle.std.specs.Prelude.{ℕ, List, [], ◌∷◌, ◌++◌, true};
ghost use Rattle.lido_base.specs.Environment.{Environment};
ghost use Rattle.lido_base.specs.declared.value.ValueType.TheVariants.{Int, Str};
ghost use Rattle.lido_base.specs.declared.value.ValueType.{ValueType};
ghost use Rattle.lido_syntax.specs.Computation.{Holder};
ghost use Rattle.lido_syntax.specs.Sets.{Sets};
ghost use Rattle.lido_syntax.specs.declared.spec.Expr.{Expr as Expression};
ghost use Rattle.lido_syntax.specs.declared.spec.Expr.TheVariants as expression;
ghost use Rattle.lido_syntax.specs.declared.spec.Name.{Name};
ghost use Rattle.lido_syntax.specs.declared.spec.RuleItem.{RuleItem as Rule};
ghost use Rattle.lido_syntax.specs.declared.spec.Spec.{Spec as Specification};
ghost use Rattle.expr_types.specs.Typing.{HasExprType};
ghost use Rattle.trials_of_types.specs.Writing.{functions, number, string, truth, call};

/// `IF(true, 1, 2)` is an int, and `IF(true, 1, "s")` has no type.
pub fn branches_of_if()
    ensures of_one_type { (spec : Specification) (sets : Sets spec) (holder : Holder) (r : Rule) (own : ℕ)
        → HasExprType spec sets functions holder r own (call 0 (truth true ∷ number 1 ∷ number 2 ∷ [])) Int }
    ensures of_two_types { (spec : Specification) (sets : Sets spec) (holder : Holder) (r : Rule) (own : ℕ) (ty : ValueType)
        → ¬ HasExprType spec sets functions holder r own (call 0 (truth true ∷ number 1 ∷ string ∷ [])) ty }
{}

/// `ORDER("s", 1)` is an int and no string, and `ORDER()` has no type.
pub fn last_of_order()
    ensures last { (spec : Specification) (sets : Sets spec) (holder : Holder) (r : Rule) (own : ℕ)
        → HasExprType spec sets functions holder r own (call 1 (string ∷ number 1 ∷ [])) Int }
    ensures not_first { (spec : Specification) (sets : Sets spec) (holder : Holder) (r : Rule) (own : ℕ)
        → ¬ HasExprType spec sets functions holder r own (call 1 (string ∷ number 1 ∷ [])) Str }
    ensures empty { (spec : Specification) (sets : Sets spec) (holder : Holder) (r : Rule) (own : ℕ) (ty : ValueType)
        → ¬ HasExprType spec sets functions holder r own (call 1 []) ty }
{}

/// `1 + 2` is an int; an addition of one argument, of three, or of a string has no type.
pub fn arguments_of_add()
    ensures two { (spec : Specification) (sets : Sets spec) (holder : Holder) (r : Rule) (own : ℕ)
        → HasExprType spec sets functions holder r own (call 2 (number 1 ∷ number 2 ∷ [])) Int }
    ensures one { (spec : Specification) (sets : Sets spec) (holder : Holder) (r : Rule) (own : ℕ) (ty : ValueType)
        → ¬ HasExprType spec sets functions holder r own (call 2 (number 1 ∷ [])) ty }
    ensures three { (spec : Specification) (sets : Sets spec) (holder : Holder) (r : Rule) (own : ℕ) (ty : ValueType)
        → ¬ HasExprType spec sets functions holder r own (call 2 (number 1 ∷ number 2 ∷ number 3 ∷ [])) ty }
    ensures of_string { (spec : Specification) (sets : Sets spec) (holder : Holder) (r : Rule) (own : ℕ) (ty : ValueType)
        → ¬ HasExprType spec sets functions holder r own (call 2 (number 1 ∷ string ∷ [])) ty }
{}

/// A call has no type if one of its arguments has none, whatever the function and the other arguments are.
pub fn nested_faults()
    ensures { (spec : Specification) (sets : Sets spec) (env : Environment) (holder : Holder) (r : Rule) (own : ℕ)
        (f : Name) (before : List Expression) (e : Expression) (after : List Expression)
        → ((ty : ValueType) → ¬ HasExprType spec sets env holder r own e ty)
        → (ty : ValueType) → ¬ HasExprType spec sets env holder r own (expression.Call f (before ++ e ∷ after)) ty }
{}
