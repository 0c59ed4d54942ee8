//! Rows of the table of types.
ghost use Rattle.std.specs.Prelude.{◌≡◌, ℕ, List, map, length, false, Contains, IsTrue, IfSome, IfNone};
ghost use Rattle.lido_base.specs.declared.pattern.Pattern.{Pattern as OnePattern};
ghost use Rattle.lido_base.specs.declared.value.ValueType.{ValueType as OneType};
ghost use Rattle.lido_base.specs.Types.{Signature, of_types, signatures};
ghost use Rattle.expr_types.specs.Faults.{Begins, IsFirstMisfit, TakesMany};
ghost use Rattle.expr_types.specs.Typing.{WithRows, choices};
ghost use Rattle.expr_types.specs.Rows.{signatures_of, pattern_signature};

use lido_base::{Op, ValueType};

/// A row of the table of types: the types of the arguments in order, and the type of the result.
#[derive(Clone, Copy)]
pub(crate) struct Row<'a> {
    pub args: &'a [ValueType],
    pub gives: ValueType,
}

/// Whether a row begins with arguments of these types.
fn any_begins(rows: &[Row], front: &[ValueType]) -> bool
    ensures some { IsTrue result → Begins (signatures_of rows.now) front.now }
    ensures none { result ≡ false → Begins (signatures_of rows.now) front.now → ⊥ }
{
    for row in rows {
        if row.args.starts_with(front) {
            return true;
        }
    }
    false
}

/// Of arguments of these types, the number of the first with which no row begins. None where a row begins with all of them.
pub(crate) fn first_misfit(rows: &[Row], types: &[ValueType]) -> Option<usize>
    requires { TakesMany (WithRows (signatures_of rows.now)) (length types.now) }
    ensures first { IfSome result (λ k. IsFirstMisfit (WithRows (signatures_of rows.now)) types.now k) }
    ensures none { IfNone result (Begins (signatures_of rows.now) types.now) }
{
    for index in 0..types.len() {
        if !any_begins(rows, &types[..index + 1]) {
            return Some(index);
        }
    }
    None
}

/// What the rows give for arguments of these types. None where no row takes them.
pub(crate) fn given(rows: &[Row], types: &[ValueType]) -> Option<ValueType>
    ensures some { IfSome result (λ ty. Contains (signatures_of rows.now) (of_types types.now ty)) }
    ensures none { IfNone result ((ty : OneType) → Contains (signatures_of rows.now) (of_types types.now ty) → ⊥) }
{
    for row in rows {
        if row.args == types {
            return Some(row.gives);
        }
    }
    None
}

/// Whether a row takes that many arguments.
pub(crate) fn takes_many(rows: &[Row], count: usize) -> bool
    ensures some { IsTrue result → TakesMany (WithRows (signatures_of rows.now)) count }
    ensures none { result ≡ false → TakesMany (WithRows (signatures_of rows.now)) count → ⊥ }
{
    for row in rows {
        if row.args.len() == count {
            return true;
        }
    }
    false
}
