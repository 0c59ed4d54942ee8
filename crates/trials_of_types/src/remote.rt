//! Remote lists, WITH and coordinates.
ghost use Rattle.std.specs.Prelude.{◌≡◌, ℕ, List, [], ◌∷◌, None, Some, false};
ghost use Rattle.lido_base.specs.Environment.{Environment};
ghost use Rattle.lido_base.specs.Tree.{contains};
ghost use Rattle.lido_base.specs.declared.value.ValueType.TheVariants.{Int};
ghost use Rattle.lido_base.specs.declared.value.ValueType.{ValueType};
ghost use Rattle.lido_syntax.specs.Computation.{Holder, by_rule};
ghost use Rattle.lido_syntax.specs.Production.{symbols_of};
ghost use Rattle.lido_syntax.specs.Sets.{Sets};
ghost use Rattle.lido_syntax.specs.declared.spec.Expr.TheVariants as expression;
ghost use Rattle.lido_syntax.specs.declared.spec.Name.{Name};
ghost use Rattle.lido_syntax.specs.declared.spec.Pair.{Pair};
ghost use Rattle.lido_syntax.specs.declared.spec.RuleItem.{RuleItem as Rule};
ghost use Rattle.lido_syntax.specs.declared.spec.Spec.{Spec as Specification};
ghost use Rattle.expr_types.specs.Typing.{HasExprType, IsGathered};
ghost use Rattle.trials_of_types.specs.Writing.{declared, functions, named, pair};

/// `INCLUDING (S.a, S.b)` has no type where `a` is an int and `b` a string.
pub fn unequal_pairs()
    ensures { (sets : Sets declared) (env : Environment) (holder : Holder) (r : Rule) (own at : ℕ) (ty : ValueType)
        → ¬ HasExprType declared sets env holder r own (expression.Including at (pair 0 ∷ pair 1 ∷ [])) ty }
{}

/// `WITH (int, NEG, ..)` gives no type, whatever gives one and none: `NEG` takes one argument, and joining needs two.
pub fn comb_with_one_argument()
    ensures { (spec : Specification) (sets : Sets spec) (pairs : List Pair) (single null : Name) (ty : ValueType)
        → ¬ IsGathered spec sets functions pairs
        (Some (record { ty = Int; comb = named 3; single = single; null = null })) ty }
{}

/// In a rule's own computation `LINE` is an int if no symbol of the production has that name.
pub fn line_in_a_rule()
    ensures { (spec : Specification) (sets : Sets spec) (r : Rule) (own : ℕ) → contains 4 (symbols_of r) ≡ false
        → HasExprType spec sets functions by_rule r own (expression.Terminal (named 4) None) Int }
{}
