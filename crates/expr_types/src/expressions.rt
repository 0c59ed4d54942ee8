//! The type of an expression, or its first fault.
ghost use Rattle.std.specs.Prelude.{◌≡◌, ◌⊎◌, true, length, map, Some, slice_get, IfOk, IfErr, OnOk, ◌++◌, ◌∷◌, []};
ghost use Rattle.lido_syntax.specs.declared.fault.SpecFault.TheVariants as fault;
ghost use Rattle.lido_syntax.specs.Parts.{is_leaf};
ghost use Rattle.expr_types.specs.Callees.{function_in, HasOneCount};
ghost use Rattle.expr_types.specs.Calls.{IsCallee, IsCalleeFault, IsMisfit};
ghost use Rattle.expr_types.specs.Faults.{begin_of, TakesMany};
ghost use Rattle.expr_types.specs.Scopes.{IsScope, IsThereIn, AreThereIn, HasTypeIn, IsFaultIn, texts_of};
ghost use Rattle.expr_types.specs.Typing.{Gives};

use crate::callee::Callee;
use crate::pairs::{gathered_type, pairs_type};
use crate::scope::Scope;
use lido_base::{Memory, ValueType};
use lido_syntax::{Expr, Name, SpecFault};
use std::alloc::Global;

/// The place of an expression's first token.
pub(crate) fn first_place(value: &Expr) -> u32
    ensures { result ≡ begin_of value.now }
{
    match value {
        Expr::Int(at, _)
        | Expr::Str(at, _)
        | Expr::Bool(at, _)
        | Expr::Read(at, _, _)
        | Expr::Including(at, _) => *at,
        Expr::Terminal(name, _) => name.at,
        Expr::Constituents(cons) => cons.get().at,
        Expr::Call(name, args) => match args.as_slice() {
            [first, ..] => name.at.min(first_place(first)),
            [] => name.at,
        },
    }
}

/// The type of a leaf, or its first fault.
fn leaf_type(scope: &Scope, leaf: &Expr) -> Result<ValueType, SpecFault>
    requires scope { IsScope scope.now }
    requires leaf { is_leaf leaf.now ≡ true }
    requires there { IsThereIn scope.now leaf.now }
    ensures ok { IfOk result (HasTypeIn scope.now leaf.now) }
    ensures err { IfErr result (IsFaultIn scope.now leaf.now) }
{
    match leaf {
        Expr::Int(..) => Ok(ValueType::Int),
        Expr::Str(..) => Ok(ValueType::Str),
        Expr::Bool(..) => Ok(ValueType::Bool),
        Expr::Terminal(name, index) => Ok(scope.bare_type(*name, *index)),
        Expr::Read(at, place, name) => Ok(scope.read_type(*at, *place, *name)),
        Expr::Including(_, pairs) => pairs_type(scope, pairs.as_slice()),
        Expr::Constituents(cons) => gathered_type(scope, cons.get()),
        Expr::Call(..) => unreachable!(),
    }
}

/// What a name calls with that many arguments, or the fault of the name or the number.
fn called<'a>(scope: &'a Scope, name: Name, count: usize) -> Result<Callee<'a>, SpecFault>
    requires { IsScope scope.now }
    ensures ok { IfOk result (λ callee. IsCallee (texts_of scope.now) name count (function_in callee)) }
    ensures err { IfErr result (IsCalleeFault (texts_of scope.now) name count) }
{
    match scope.functions.callee(name) {
        None => Err(SpecFault::UnknownFunction { at: name.at }),
        Some(callee) => {
            if callee.takes_many(count) {
                Ok(callee)
            } else {
                Err(SpecFault::ArgCount { at: name.at })
            }
        }
    }
}

/// What a function gives for arguments of these types, or the fault of the first argument that has another one.
fn given(callee: Callee, args: &[Expr], types: &[ValueType]) -> Result<ValueType, SpecFault>
    requires many { TakesMany (function_in callee) (length types.now) }
    requires one_count { HasOneCount (function_in callee) }
    requires each { length args.now ≡ length types.now }
    ensures ok { IfOk result (λ ty. Gives (function_in callee.entry) types.now ty) }
    ensures err { IfErr result (IsMisfit (function_in callee.entry) args.now types.now) }
{
    match callee.typed(types) {
        Ok(ty) => Ok(ty),
        Err(k) => Err(SpecFault::TypeMismatch {
            at: first_place(&args[k]),
        }),
    }
}

/// Adds a type.
fn push(types: &mut Vec<ValueType>, ty: ValueType) -> Result<(), Memory>
    ensures { OnOk result (types.new.items ≡ types.old.items ++ ty ∷ []) }
{
    types.push(ty)?;
    Ok(())
}

/// The type of an expression, or its first fault: from the inside, from the left. It goes down as deep as the expression, which
/// the reader keeps at 1,000. An `Err` may be want of memory too.
pub(crate) fn type_of(alloc: Global, scope: &Scope, value: &Expr) -> Result<ValueType, SpecFault>
    requires scope { IsScope scope.now }
    requires there { AreThereIn scope.now value.now }
    ensures ok { IfOk result (HasTypeIn scope.now value.now) }
    ensures err { IfErr result (λ f. (f ≡ fault.Memory) ⊎ IsFaultIn scope.now value.now f) }
{
    match value {
        Expr::Call(name, args) => {
            let args = args.as_slice();
            let callee = called(scope, *name, args.len())?;
            let mut types = Vec::new(alloc);
            for arg in args {
                let ty = type_of(alloc, scope, arg)?;
                push(&mut types, ty)?;
            }
            given(callee, args, &types)
        }
        Expr::Int(..)
        | Expr::Str(..)
        | Expr::Bool(..)
        | Expr::Terminal(..)
        | Expr::Read(..)
        | Expr::Including(..)
        | Expr::Constituents(_) => leaf_type(scope, value),
    }
}
