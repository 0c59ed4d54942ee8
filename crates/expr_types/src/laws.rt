//! Laws of the definitions. Each function does nothing; what is proved is its contract.
ghost use Rattle.std.specs.Prelude.{◌≡◌, ◌↔◌, ℕ, List, Contains};
ghost use Rattle.lido_base.specs.declared.value.ValueType.{ValueType};
ghost use Rattle.lido_base.specs.Environment.{Environment};
ghost use Rattle.lido_syntax.specs.Computation.{Holder, Goal, InForce};
ghost use Rattle.lido_syntax.specs.Parts.{leaves_of};
ghost use Rattle.lido_base.specs.Faults.{HasNone};
ghost use Rattle.lido_symbols.specs.FromText.{IsFromText};
ghost use Rattle.table_faults.specs.Faults.{table_faults};
ghost use Rattle.expr_types.specs.Scopes.{IsThere};
ghost use Rattle.lido_syntax.specs.Sets.{Sets};
ghost use Rattle.lido_syntax.specs.declared.spec.Expr.{Expr as Expression};
ghost use Rattle.lido_syntax.specs.declared.spec.Name.{Name};
ghost use Rattle.lido_syntax.specs.declared.spec.RuleItem.{RuleItem as Rule};
ghost use Rattle.lido_syntax.specs.declared.spec.Spec.{Spec as Specification};
ghost use Rattle.lido_syntax.specs.declared.spec.Expr.TheVariants as expression;
ghost use Rattle.expr_types.specs.Calls.{HaveEach};
ghost use Rattle.leaf_types.specs.Single.{AreSingleTypes};
ghost use Rattle.expr_types.specs.Typing.{IsCall, HasExprType};
ghost use Rattle.expr_types.specs.Faults.{IsFirstFault, IsComputationFault};
ghost use Rattle.expr_types.specs.Computations.{IsTyped};
ghost use Rattle.lido_syntax.specs.declared.spec.Comp.{Comp as Computation};
ghost use Rattle.lido_syntax.specs.declared.fault.SpecFault.{SpecFault as Fault};

/// Where attributes, terminals and chains have one type at most, an expression has one type at most in its context; and what
/// a call gives for arguments of some types has one type.
pub fn expressions_have_one_type()
    ensures expression { (spec : Specification) → AreSingleTypes spec → (sets : Sets spec) (env : Environment)
        (holder : Holder) (r : Rule) (own : ℕ) (e : Expression) (ty other : ValueType)
        → HasExprType spec sets env holder r own e ty → HasExprType spec sets env holder r own e other → ty ≡ other }
    ensures call { (env : Environment) (f : Name) (args : List ValueType) (ty other : ValueType)
        → IsCall env f args ty → IsCall env f args other → ty ≡ other }
{}

/// A call has the type that its function gives for the types of its arguments, one for each, and no other.
pub fn calls_have_the_types_of_their_functions()
    ensures { (spec : Specification) (sets : Sets spec) (env : Environment) (holder : Holder) (r : Rule) (own : ℕ)
        (f : Name) (args : List Expression) (ty : ValueType)
        → HasExprType spec sets env holder r own (expression.Call f args) ty
        ↔ ((types : List ValueType) × HaveEach (HasExprType spec sets env holder r own) args types × IsCall env f types ty) }
{}

/// Where attributes, terminals and chains have one type at most, an expression that has a type in its context has no first
/// fault there.
pub fn typed_expressions_have_no_fault()
    ensures { (spec : Specification) → AreSingleTypes spec → (sets : Sets spec) (env : Environment)
        (holder : Holder) (r : Rule) (own : ℕ) (e : Expression) (ty : ValueType) (f : Fault)
        → HasExprType spec sets env holder r own e ty → IsFirstFault spec sets env holder r own e f → ⊥ }
{}

/// Where attributes, terminals and chains have one type at most, a typed computation has no first fault.
pub fn typed_computations_have_no_fault()
    ensures { (spec : Specification) → AreSingleTypes spec → (sets : Sets spec) (env : Environment)
        (holder : Holder) (r : Rule) (own : ℕ) (goal : Goal) (c : Computation) (f : Fault)
        → IsTyped spec sets env holder r own goal c → IsComputationFault spec sets env holder r own goal c f → ⊥ }
{}

/// In a specification that was read from a text, and whose tables have no faults, all that the leaves of a computation in force
/// name is there: bare names are coordinates or terminals, and what is read is a chain or an attribute of its symbol.
pub fn leaves_in_force_name_what_is_there()
    ensures { (spec : Specification) (env : Environment) → IsFromText spec → HasNone (table_faults spec env)
        → (r : Rule) (k s : ℕ) (goal : Goal) (h : Holder) (c : Computation) → Contains spec.rules r → InForce spec r k s goal h c
        → (leaf : Expression) → Contains (leaves_of c) leaf → IsThere spec env h r s leaf }
{}
