//! What expressions read and computations depend on, without recursion.
ghost use Rattle.std.specs.Prelude.{◌≡◌, ◌↔◌, ◌++◌, suc, IfOk, OnOk, flat_map, map, sum_by, Contains};
ghost use Rattle.flat_grammar.specs.declared.flat.Occ.{Occ as Occurrence};
ghost use Rattle.flat_grammar.specs.Rules.{dependencies, reads};
ghost use Rattle.flat_grammar.specs.Expressions.{own_reads, weight};

use crate::{FlatComp, FlatExpr, Occ};
use lido_base::Memory;
use std::alloc::Global;

/// The arguments of a call, an IF or an ORDER, and none of another expression.
pub fn arguments(value: &FlatExpr) -> &[FlatExpr]
    ensures reads { reads value.now ≡ own_reads value.now ++ flat_map reads result.now }
    ensures lighter { weight value.now ≡ suc (sum_by weight result.now) }
{
    match value {
        FlatExpr::Value(_) | FlatExpr::Terminal(_) | FlatExpr::Read(_) | FlatExpr::Coord(_) => &[],
        FlatExpr::Apply { args, .. } => args.as_slice(),
        FlatExpr::If(args) => args.as_slice(),
        FlatExpr::Order(args) => args.as_slice(),
    }
}

/// Puts the arguments behind the expressions that are still to be looked at.
pub fn push_all<'a>(rest: &mut Vec<&'a FlatExpr>, args: &'a [FlatExpr]) -> Result<(), Memory>
    ensures { OnOk result (map (λ value. value.now) rest.new.items ≡ map (λ value. value.now) rest.old.items ++ args.now) }
{
    for argument in args {
        rest.push(argument)?;
    }
    Ok(())
}

/// Adds what the expression reads by itself.
fn push_own(list: &mut Vec<Occ>, value: &FlatExpr) -> Result<(), Memory>
    ensures { OnOk result (list.new.items ≡ list.old.items ++ own_reads value.now) }
{
    if let FlatExpr::Read(o) = value {
        list.push(*o)?;
    }
    Ok(())
}

/// All that the expression reads, in any order.
fn reads_of(alloc: Global, value: &FlatExpr) -> Result<Vec<Occ>, Memory>
    ensures { IfOk result (λ list. (o : Occurrence) → Contains list.items o ↔ Contains (reads value.now) o) }
{
    let mut list = Vec::new(alloc);
    let mut rest = Vec::new(alloc);
    rest.push(value)?;
    while let Some(next) = rest.pop() {
        push_own(&mut list, next)?;
        push_all(&mut rest, arguments(next))?;
    }
    Ok(list)
}

/// All that the computation depends on, in any order: what its expression reads, in both branches of an IF, and what it names
/// beside.
pub fn dependencies_of(alloc: Global, comp: &FlatComp) -> Result<Vec<Occ>, Memory>
    ensures { IfOk result (λ list. (o : Occurrence) → Contains list.items o ↔ Contains (dependencies comp.now) o) }
{
    let mut list = reads_of(alloc, &comp.value)?;
    list.extend_from_slice(comp.after.as_slice())?;
    Ok(list)
}
