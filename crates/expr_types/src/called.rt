//! The functions that a computation calls.
ghost use Rattle.std.specs.Prelude.{◌≡◌, ◌++◌, flat_map, IfOk, OnOk};
ghost use Rattle.lido_syntax.specs.Parts.{expressions_of};
ghost use Rattle.expr_types.specs.Called.{called_in};
ghost use Rattle.lido_symbols.specs.Uses.{functions_of_with};

use crate::computations::condition;
use lido_base::Memory;
use lido_syntax::{Comp, Expr, Name, With};
use std::alloc::Global;

/// Adds the functions that a WITH names, if there is one.
fn push_with(names: &mut Vec<Name>, with: Option<With>) -> Result<(), Memory>
    ensures { OnOk result (names.new.items ≡ names.old.items ++ functions_of_with with) }
{
    if let Some(with) = with {
        names.push(with.comb)?;
        names.push(with.single)?;
        names.push(with.null)?;
    }
    Ok(())
}

/// Adds the functions that an expression calls, from the outside in and from the left. It goes down as deep as the expression,
/// which the reader keeps at 1,000.
fn push_called(names: &mut Vec<Name>, value: &Expr) -> Result<(), Memory>
    ensures { OnOk result (names.new.items ≡ names.old.items ++ called_in value.now) }
{
    match value {
        Expr::Call(name, args) => {
            names.push(*name)?;
            for arg in args.as_slice() {
                push_called(names, arg)?;
            }
        }
        Expr::Constituents(cons) => push_with(names, cons.get().with)?,
        Expr::Int(..)
        | Expr::Str(..)
        | Expr::Bool(..)
        | Expr::Terminal(..)
        | Expr::Read(..)
        | Expr::Including(..) => {}
    }
    Ok(())
}

/// The functions that a computation calls, by itself or in a WITH, in the order of its parts.
pub fn functions_called(alloc: Global, comp: &Comp) -> Result<Vec<Name>, Memory>
    ensures { IfOk result (λ names. names.items ≡ flat_map called_in (expressions_of comp.now)) }
{
    let mut names = Vec::new(alloc);
    if let Some(value) = condition(&comp.target) {
        push_called(&mut names, value)?;
    }
    push_called(&mut names, &comp.value)?;
    for value in comp.after.as_slice() {
        push_called(&mut names, value)?;
    }
    Ok(names)
}
