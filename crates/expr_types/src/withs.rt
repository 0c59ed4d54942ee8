//! The functions that a WITH names.
ghost use Rattle.std.specs.Prelude.{◌∷◌, [], IfOk, IfErr};
ghost use Rattle.expr_types.specs.Faults.{IsNameFault, IsWithFault};
ghost use Rattle.expr_types.specs.Functions.{environment_of, AreFunctions};
ghost use Rattle.expr_types.specs.Scopes.{HasFold};
ghost use Rattle.expr_types.specs.Typing.{IsCall};

use crate::functions::Functions;
use lido_base::ValueType;
use lido_syntax::{Name, SpecFault, With};

/// Whether the function of that name takes arguments of these types and gives that one; or its fault.
fn check_named(
    functions: &Functions,
    name: Name,
    args: &[ValueType],
    ty: ValueType,
) -> Result<(), SpecFault>
    requires { AreFunctions functions.now }
    ensures ok { IfOk result (λ done. IsCall (environment_of functions.now) name args.now ty) }
    ensures err { IfErr result (λ f. IsNameFault (environment_of functions.now) name args.now ty f) }
{
    match functions.callee(name) {
        None => Err(SpecFault::UnknownFunction { at: name.at }),
        Some(callee) => {
            if !callee.takes_many(args.len()) {
                return Err(SpecFault::ArgCount { at: name.at });
            }
            if callee.given(args) == Some(ty) {
                Ok(())
            } else {
                Err(SpecFault::TypeMismatch { at: name.at })
            }
        }
    }
}

/// Whether the functions of a WITH take sources of that type and give its own; or its first fault.
pub(crate) fn check_with(
    functions: &Functions,
    source: ValueType,
    with: &With,
) -> Result<(), SpecFault>
    requires { AreFunctions functions.now }
    ensures ok { IfOk result (λ done. HasFold (environment_of functions.now) source with.now) }
    ensures err { IfErr result (λ f. IsWithFault (environment_of functions.now) source with.now f) }
{
    check_named(functions, with.comb, &[with.ty, with.ty], with.ty)?;
    check_named(functions, with.single, &[source], with.ty)?;
    check_named(functions, with.null, &[], with.ty)
}
