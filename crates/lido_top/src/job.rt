//! The one job that the first path knows.
ghost use Rattle.std.specs.Prelude.{◌≡◌, IfOk};
ghost use Rattle.lido_base.specs.Phases.{Gives, OneOf};
ghost use Rattle.sum_trees.specs.Trees.{IsReadable};
ghost use Rattle.lido_top.specs.Job.{sum_rules, IsJob};

use lido_base::List;
use std::alloc::{AllocError, Global};
use sum_trees::{Element, FormFault, SumRule};

/// The job's text up to its tree.
pub const SUM_JOB: &[u8] =
    b"ATTR val: int;\nTERM Num: int;\nRULE rTop: Top ::= Expr COMPUTE\n  PTGOut(PTGNumb(Expr.val));\nEND;\nRULE rAdd: Expr ::= Expr '+' Expr COMPUTE\n  Expr[1].val = Expr[2].val + Expr[3].val;\nEND;\nRULE rNum: Expr ::= Num COMPUTE\n  Expr.val = Num;\nEND;\n%%PTG\n%%TREE\n";

fn rule(
    alloc: Global,
    name: &[u8],
    left: u32,
    right: &[Element],
    sum: &[u32],
) -> Result<SumRule, AllocError>
    ensures { IfOk result (λ rule. rule ≡ record { name = name.now; left = left; right = right.now; sum = sum.now }) }
{
    let name = List::from_vec(name.to_vec(alloc)?);
    let right = List::from_vec(right.to_vec(alloc)?);
    let sum = List::from_vec(sum.to_vec(alloc)?);
    Ok(SumRule {
        name,
        left,
        right,
        sum,
    })
}

/// The rules of the job.
pub fn sum_rules(alloc: Global) -> Result<List<SumRule>, AllocError>
    ensures is { IfOk result (λ rules. rules ≡ sum_rules) }
    ensures readable { IfOk result (λ rules. IsReadable rules) }
{
    let top = rule(alloc, b"rTop", 0, &[Element::Node(1)], &[1])?;
    let add = rule(
        alloc,
        b"rAdd",
        1,
        &[Element::Node(1), Element::Node(1)],
        &[1, 2],
    )?;
    let number = rule(alloc, b"rNum", 1, &[Element::Int], &[1])?;
    let mut rules = List::new(alloc);
    rules.push(top)?;
    rules.push(add)?;
    rules.push(number)?;
    Ok(rules)
}

/// The tree text of the job. `Outside` comes where the text is another job's.
pub fn tree_part(bytes: &[u8]) -> Result<&[u8], FormFault>
    ensures { Gives (λ rest. rest.now) (OneOf (IsJob bytes.now) FormFault.Outside) FormFault.Memory result }
{
    if bytes.starts_with(SUM_JOB) {
        Ok(&bytes[SUM_JOB.len()..])
    } else {
        Err(FormFault::Outside)
    }
}
