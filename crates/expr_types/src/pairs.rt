//! Types of remote lists.
ghost use Rattle.std.specs.Prelude.{◌≡◌, false, All, IsTrue, IfOk, IfErr, IfNone, IfSome};
ghost use Rattle.lido_syntax.specs.Sets.{Sets};
ghost use Rattle.expr_types.specs.Faults.{IsUnequal, IsGatheredFault};
ghost use Rattle.expr_types.specs.Pairs.{IsFirstUnlike, AreAlike};
ghost use Rattle.expr_types.specs.Scopes.{IsScope, ArePairs, IsPairOf, spec_of, texts_of};
ghost use Rattle.expr_types.specs.Typing.{IsPairType, ArePairTypes, IsGathered};

use crate::scope::Scope;
use crate::withs::check_with;
use lido_base::ValueType;
use lido_syntax::{Cons, Pair, SpecFault};

/// Whether the pair's attribute has the type on its symbol, and on each nonterminal that inherits it where it is a class.
fn is_alike(scope: &Scope, pair: &Pair, ty: ValueType) -> bool
    requires scope { IsScope scope.now }
    requires pair { IsPairOf (spec_of scope.now) pair.now }
    ensures yes { IsTrue result → (sets : Sets (spec_of scope.now)) → IsPairType (spec_of scope.now) sets ty pair.now }
    ensures no { result ≡ false → (sets : Sets (spec_of scope.now)) → IsPairType (spec_of scope.now) sets ty pair.now → ⊥ }
{
    scope.types.attribute(pair.sym.id, pair.attr.id) == Some(ty)
        && !scope.types.is_uneven(pair.sym.id, pair.attr.id)
}

/// The place of the first pair that hasn't the type.
fn first_unlike(scope: &Scope, pairs: &[Pair], ty: ValueType) -> Option<u32>
    requires scope { IsScope scope.now }
    requires pairs { All (IsPairOf (spec_of scope.now)) pairs.now }
    ensures some { IfSome result (IsFirstUnlike (spec_of scope.now) ty pairs.now) }
    ensures none { IfNone result (AreAlike (spec_of scope.now) ty pairs.now) }
{
    for pair in pairs {
        if !is_alike(scope, pair, ty) {
            return Some(pair.sym.at);
        }
    }
    None
}

/// The type of the pairs of a remote list, or the fault of the first that has another one.
pub(crate) fn pairs_type(scope: &Scope, pairs: &[Pair]) -> Result<ValueType, SpecFault>
    requires scope { IsScope scope.now }
    requires pairs { ArePairs (spec_of scope.now) pairs.now }
    ensures ok { IfOk result (λ ty. (sets : Sets (spec_of scope.now)) → ArePairTypes (spec_of scope.now) sets pairs.now ty) }
    ensures err { IfErr result (λ f. (sets : Sets (spec_of scope.now)) → IsUnequal (spec_of scope.now) sets pairs.now f) }
{
    let first = &pairs[0];
    match scope.types.attribute(first.sym.id, first.attr.id) {
        None => unreachable!(),
        Some(ty) => match first_unlike(scope, pairs, ty) {
            Some(at) => Err(SpecFault::TypeMismatch { at }),
            None => Ok(ty),
        },
    }
}

/// The type of a CONSTITUENTS, or its first fault.
pub(crate) fn gathered_type(scope: &Scope, cons: &Cons) -> Result<ValueType, SpecFault>
    requires scope { IsScope scope.now }
    requires pairs { ArePairs (spec_of scope.now) cons.now.pairs }
    ensures ok { IfOk result (λ ty. (sets : Sets (spec_of scope.now)) → IsGathered (spec_of scope.now) sets (texts_of scope.now) cons.now.pairs cons.now.with ty) }
    ensures err { IfErr result (λ f. (sets : Sets (spec_of scope.now)) → IsGatheredFault (spec_of scope.now) sets (texts_of scope.now) cons.now.pairs cons.now.with f) }
{
    match &cons.with {
        None => Ok(ValueType::Void),
        Some(with) => {
            let source = pairs_type(scope, cons.pairs.as_slice())?;
            check_with(scope.functions, source, with)?;
            Ok(with.ty)
        }
    }
}
