//! Copies of written expressions.
ghost use Rattle.std.specs.Prelude.{IfOk};
ghost use Rattle.lido_syntax.specs.declared.spec.Expr.{Expr as Written};
ghost use Rattle.flat_grammar.specs.declared.flat.FlatExpr.{FlatExpr as Flat};
ghost use Rattle.flat_copies.specs.Copied.{IsCopied};

use crate::calls::call;
use crate::ops::Ops;
use flat_grammar::FlatExpr;
use lido_base::{List, Memory, Strings};
use lido_syntax::Expr;
use std::alloc::Global;

/// What stands for the parts of an expression that are no calls.
pub trait Leaves {
    ghost Gives: { Self → Written → Flat → Type 0 };

    /// What stands for a part that is no call.
    fn leaf(&self, alloc: Global, part: &Expr) -> Result<FlatExpr, Memory>
        ensures { IfOk result (Gives self.now part.now) };
}

/// An expression with other leaves, in the computation of that number. It takes time linear in the expression and what stands
/// for its leaves. It recurses on the depth of the expression, which a specification that was read has bounded.
pub fn copy<L: Leaves>(
    alloc: Global,
    strings: &Strings,
    ops: &Ops,
    leaves: &L,
    comp: u16,
    value: &Expr,
) -> Result<FlatExpr, Memory>
    ensures { IfOk result (IsCopied strings.now ops.now (L.Gives leaves.now) comp value.now) }
{
    match value {
        Expr::Call(name, args) => {
            let mut copies = Vec::new(alloc);
            for arg in args.as_slice() {
                copies.push(copy(alloc, strings, ops, leaves, comp, arg)?)?;
            }
            Ok(call(strings, ops, comp, name.id, List::from_vec(copies)))
        }
        Expr::Int(..)
        | Expr::Str(..)
        | Expr::Bool(..)
        | Expr::Terminal(..)
        | Expr::Read(..)
        | Expr::Including(..)
        | Expr::Constituents(_) => leaves.leaf(alloc, value),
    }
}
