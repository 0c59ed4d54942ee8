//! Where the values of instances stand in one list.
ghost use Rattle.std.specs.Prelude.{◌≡◌, ◌<◌, ◌≤◌, ◌+◌, suc, IfOk, length};
ghost use Rattle.flat_grammar.specs.Fitting.{most_instances};
ghost use Rattle.flat_grammar.specs.declared.flat.FlatRule.{FlatRule as Rule};
ghost use Rattle.flat_grammar.specs.Rules.{attrs_of, HasRule};
ghost use Rattle.core_machine.specs.Slots.{offset, all_offsets, width};

use crate::Job;
use flat_grammar::{FlatAttr, FlatRule};
use lido_base::{Memory, NodeId, SymId};
use std::alloc::Global;

/// The rule of a node.
pub fn rule_at(job: &Job, node: u32) -> &FlatRule
    requires { node < length job.now.flat }
    ensures { HasRule job.now.rules job.now.flat node result.now }
{
    job.facts();
    let rule = job.trees().flat.rule(NodeId(node));
    &job.flat().rules.as_slice()[rule.0 as usize]
}

/// The attributes of a symbol.
pub fn attributes_of(job: &Job, symbol: SymId) -> &[FlatAttr]
    ensures { result.now ≡ attrs_of job.now.symbols symbol }
{
    match job.flat().symbols.as_slice().get(symbol.0 as usize) {
        Some(symbol) => symbol.attrs.as_slice(),
        None => &[],
    }
}

/// The attributes of a node.
pub fn attributes_at(job: &Job, node: u32) -> &[FlatAttr]
    requires { node < length job.now.flat }
    ensures { (r : Rule) → HasRule job.now.rules job.now.flat node r → result.now ≡ attrs_of job.now.symbols r.left }
{
    attributes_of(job, rule_at(job, node).left)
}

/// How many attributes a node has.
fn width_of(job: &Job, node: u32) -> u32
    requires { node < length job.now.flat }
    ensures width { result ≡ width job.now node }
    ensures few { offset job.now node + result ≤ most_instances }
{
    job.facts();
    attributes_at(job, node).len() as u32
}

/// Where the values of each node begin, and behind them where those of the last node end.
pub fn offsets_of(alloc: Global, job: &Job) -> Result<Vec<u32>, Memory>
    ensures { IfOk result (λ list. list.items ≡ all_offsets job.now) }
{
    let count = job.trees().flat.len();
    let mut list = Vec::with_capacity(alloc, count as usize + 1)?;
    let mut next = 0;
    for node in 0..count {
        list.push_reserved(next);
        next += width_of(job, node);
    }
    list.push_reserved(next);
    Ok(list)
}
