//! Whether a computation has types that its goal takes, or its first fault.
ghost use Rattle.std.specs.Prelude.{◌≡◌, ◌⊎◌, false, map, option_to_list, All, IsTrue, IfOk, IfErr};
ghost use Rattle.lido_base.specs.declared.value.ValueType.{ValueType as OneType};
ghost use Rattle.lido_syntax.specs.declared.fault.SpecFault.TheVariants as fault;
ghost use Rattle.lido_syntax.specs.declared.spec.Expr.{Expr as Expression};
ghost use Rattle.lido_syntax.specs.Computation.{Goal};
ghost use Rattle.lido_syntax.specs.Parts.{conditions, expressions_of};
ghost use Rattle.expr_types.specs.Scopes.{IsScope, AreThereIn, HasTypeIn};
ghost use Rattle.expr_types.specs.Wanted.{Takes, IsWantedBy, AreAllThere, IsRefusedIn, IsConditionTypedIn, IsConditionFaultIn};
ghost use Rattle.expr_types.specs.Wanted.{IsFirstInScope, IsTypedIn, IsComputationFaultIn};

use crate::expressions::{first_place, type_of};
use crate::scope::Scope;
use lido_base::ValueType;
use lido_syntax::{Comp, Expr, SpecFault, Target};
use std::alloc::Global;

/// What a goal takes.
#[derive(Clone, Copy)]
pub enum Wanted {
    /// Any type: a VOID attribute.
    Any,
    Only(ValueType),
}

impl Wanted {
    /// Whether it takes a value of that type.
    fn takes(self, ty: ValueType) -> bool
        ensures yes { IsTrue result → Takes self ty }
        ensures no { result ≡ false → Takes self ty → ⊥ }
    {
        match self {
            Wanted::Any => true,
            Wanted::Only(wanted) => ty == wanted,
        }
    }
}

/// Whether an expression has a type that is taken, or its fault.
fn check_value(alloc: Global, scope: &Scope, value: &Expr, wanted: Wanted) -> Result<(), SpecFault>
    requires scope { IsScope scope.now }
    requires there { AreThereIn scope.now value.now }
    ensures ok { IfOk result (λ done. (ty : OneType) × HasTypeIn scope.now value.now ty × Takes wanted ty) }
    ensures err { IfErr result (λ f. (f ≡ fault.Memory) ⊎ IsRefusedIn scope.now wanted value.now f) }
{
    let ty = type_of(alloc, scope, value)?;
    if wanted.takes(ty) {
        Ok(())
    } else {
        Err(SpecFault::TypeMismatch {
            at: first_place(value),
        })
    }
}

/// The condition of a message, if it has one.
pub(crate) fn condition(target: &Target) -> Option<&Expr>
    ensures { map (λ e. e.now) (option_to_list result) ≡ conditions target.now }
{
    match target {
        Target::Message(_, Some(value)) => Some(value.get()),
        _ => None,
    }
}

/// Whether a message's condition, if it has one, is a bool, or its fault.
fn check_condition(alloc: Global, scope: &Scope, target: &Target) -> Result<(), SpecFault>
    requires scope { IsScope scope.now }
    requires there { AreAllThere scope.now (conditions target.now) }
    ensures ok { IfOk result (λ done. IsConditionTypedIn scope.now target.now) }
    ensures err { IfErr result (λ f. (f ≡ fault.Memory) ⊎ IsConditionFaultIn scope.now target.now f) }
{
    match condition(target) {
        Some(value) => check_value(alloc, scope, value, Wanted::Only(ValueType::Bool)),
        None => Ok(()),
    }
}

/// Whether these expressions have types, or the fault of the first that hasn't.
fn check_after(alloc: Global, scope: &Scope, after: &[Expr]) -> Result<(), SpecFault>
    requires scope { IsScope scope.now }
    requires there { AreAllThere scope.now after.now }
    ensures ok { IfOk result (λ done. All (λ (e : Expression). (ty : OneType) × HasTypeIn scope.now e ty) after.now) }
    ensures err { IfErr result (λ f. (f ≡ fault.Memory) ⊎ IsFirstInScope scope.now after.now f) }
{
    for value in after {
        type_of(alloc, scope, value)?;
    }
    Ok(())
}

/// Whether a computation has types that its goal takes, or its first fault: of a message's condition, of the value, of what
/// stands behind the arrow. An `Err` may be want of memory too.
pub fn check_computation(
    alloc: Global,
    scope: &Scope,
    comp: &Comp,
    wanted: Wanted,
) -> Result<(), SpecFault>
    requires scope { IsScope scope.now }
    requires there { AreAllThere scope.now (expressions_of comp.now) }
    ensures ok { IfOk result (λ done. (goal : Goal) → IsWantedBy scope.now goal wanted → IsTypedIn scope.now goal comp.now) }
    ensures err { IfErr result (λ f. (f ≡ fault.Memory)
        ⊎ ((goal : Goal) → IsWantedBy scope.now goal wanted → IsComputationFaultIn scope.now goal comp.now f)) }
{
    check_condition(alloc, scope, &comp.target)?;
    check_value(alloc, scope, &comp.value, wanted)?;
    check_after(alloc, scope, comp.after.as_slice())
}
