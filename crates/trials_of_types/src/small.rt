//! Expressions of a specification in which little is declared.
ghost use Rattle.std.specs.Prelude.{ℕ, List, [], ◌∷◌, None, codes};
ghost use Rattle.lido_base.specs.declared.value.ValueType.TheVariants.{Int};
ghost use Rattle.lido_base.specs.declared.value.ValueType.{ValueType};
ghost use Rattle.lido_syntax.specs.Computation.{Holder, by_symbol};
ghost use Rattle.lido_syntax.specs.Sets.{Sets};
ghost use Rattle.lido_syntax.specs.declared.spec.Expr.{Expr as Expression};
ghost use Rattle.lido_syntax.specs.declared.spec.Expr.TheVariants as expression;
ghost use Rattle.lido_syntax.specs.declared.spec.RuleItem.{RuleItem as Rule};
ghost use Rattle.lido_syntax.specs.declared.spec.Spec.{Spec as Specification};
ghost use Rattle.leaf_types.specs.Single.{AreSingleTypes};
ghost use Rattle.expr_types.specs.Typing.{HasExprType};

/// Where nothing is declared, attributes, terminals and chains have one type at most.
pub fn single_types()
    ensures { (rules : List Rule) → AreSingleTypes (record { rules = rules; symbols = []; attrs = []; terms = []; chains = [] }) }
{}

/// `LINE` in a symbol's computation is an int.
pub fn line_is_an_int()
    ensures { (spec : Specification) (sets : Sets spec) (r : Rule) (own at : ℕ)
        → HasExprType spec sets (record { texts = codes "LINE" ∷ []; patterns = [] }) by_symbol r own
        (expression.Terminal (record { at = at; id = record { 0 = 0 } }) None) Int }
{}

/// A call of an unknown name has no type, whatever its arguments are.
pub fn unknown_function()
    ensures { (spec : Specification) (sets : Sets spec) (holder : Holder) (r : Rule) (own at : ℕ)
        (args : List Expression) (ty : ValueType)
        → ¬ HasExprType spec sets (record { texts = codes "SUM" ∷ []; patterns = [] }) holder r own
        (expression.Call (record { at = at; id = record { 0 = 0 } }) args) ty }
{}
