//! What a name calls.
ghost use Rattle.std.specs.Prelude.{◌≡◌, length, false, IsTrue, IfSome, IfNone, IfOk, IfErr};
ghost use Rattle.lido_base.specs.declared.value.ValueType.{ValueType as OneType};
ghost use Rattle.expr_types.specs.Callees.{function_in, HasOneCount};
ghost use Rattle.expr_types.specs.Faults.{IsFirstMisfit, TakesMany};
ghost use Rattle.expr_types.specs.Typing.{Gives};

use crate::rows::{Row, first_misfit, given, takes_many};
use lido_base::ValueType;

/// What a name calls: a function with rows of types, or ORDER, which takes any arguments, one at least.
#[derive(Clone, Copy)]
pub(crate) enum Callee<'a> {
    Rows(&'a [Row<'a>]),
    Order,
}

impl<'a> Callee<'a> {
    /// Whether it takes that many arguments.
    pub(crate) fn takes_many(self, count: usize) -> bool
        ensures some { IsTrue result → TakesMany (function_in self.entry) count }
        ensures none { result ≡ false → TakesMany (function_in self.entry) count → ⊥ }
    {
        match self {
            Callee::Rows(rows) => takes_many(rows, count),
            Callee::Order => count > 0,
        }
    }

    /// What it gives for arguments of these types. None where it doesn't take them.
    pub(crate) fn given(self, types: &[ValueType]) -> Option<ValueType>
        ensures some { IfSome result (λ ty. Gives (function_in self.entry) types.now ty) }
        ensures none { IfNone result ((ty : OneType) → Gives (function_in self.entry) types.now ty → ⊥) }
    {
        match self {
            Callee::Rows(rows) => given(rows, types),
            Callee::Order => types.last().copied(),
        }
    }

    /// What it gives for arguments of these types, of which it takes that many. `Err` is the number of the first argument
    /// that has another type than the function takes there, behind those in front.
    pub(crate) fn typed(self, types: &[ValueType]) -> Result<ValueType, usize>
        requires many { TakesMany (function_in self) (length types.now) }
        requires one_count { HasOneCount (function_in self) }
        ensures gives { IfOk result (λ ty. Gives (function_in self.entry) types.now ty) }
        ensures misfit { IfErr result (λ k. IsFirstMisfit (function_in self.entry) types.now k) }
    {
        if let Some(ty) = self.given(types) {
            return Ok(ty);
        }
        match self {
            Callee::Rows(rows) => match first_misfit(rows, types) {
                Some(index) => Err(index),
                None => unreachable!(),
            },
            Callee::Order => unreachable!(),
        }
    }
}
