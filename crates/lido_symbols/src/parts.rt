//! What computations are made of beneath calls.
ghost use Rattle.std.specs.Prelude.{◌≡◌, ◌++◌, map, IfOk, OnOk, option_to_list};
ghost use Rattle.lido_syntax.specs.Parts.{conditions, leaves as leaves_in, leaves_of};

use lido_base::Memory;
use lido_syntax::{Comp, Expr, Target};
use std::alloc::Global;

/// Adds what the expression is made of beneath its calls, from the left.
fn push_leaves<'a>(found: &mut Vec<&'a Expr>, value: &'a Expr) -> Result<(), Memory>
    ensures { OnOk result (map (λ e. e.now) found.new.items ≡ map (λ e. e.now) found.old.items ++ leaves_in value.now) }
{
    match value {
        Expr::Call(_, args) => {
            for arg in args.as_slice() {
                push_leaves(found, arg)?;
            }
        }
        Expr::Int(..)
        | Expr::Str(..)
        | Expr::Bool(..)
        | Expr::Terminal(..)
        | Expr::Read(..)
        | Expr::Including(..)
        | Expr::Constituents(_) => found.push(value)?,
    }
    Ok(())
}

/// The condition of a message, if it has one.
fn condition(target: &Target) -> Option<&Expr>
    ensures { map (λ e. e.now) (option_to_list result) ≡ conditions target.now }
{
    match target {
        Target::Message(_, Some(value)) => Some(value.get()),
        _ => None,
    }
}

/// What a computation is made of beneath calls, in the order of the text: in a message's condition, the value, and what
/// stands behind `<-`.
pub fn leaves<'a>(alloc: Global, comp: &'a Comp) -> Result<Vec<&'a Expr>, Memory>
    ensures { IfOk result (λ found. map (λ e. e.now) found.items ≡ leaves_of comp.now) }
{
    let mut found = Vec::new(alloc);
    if let Some(value) = condition(&comp.target) {
        push_leaves(&mut found, value)?;
    }
    push_leaves(&mut found, &comp.value)?;
    for value in comp.after.as_slice() {
        push_leaves(&mut found, value)?;
    }
    Ok(found)
}
