//! What a region needs beforehand: places for values, room for arguments on the stack, and space for its texts.
ghost use Rattle.std.specs.Prelude.{◌≡◌, ◌≤◌, ◌<◌, ◌==◌, ◌+◌, suc, min, map, length, sum_by, IfOk, Contains, if◌then◌else◌};
ghost use Rattle.flat_grammar.specs.declared.flat.FlatRule.{FlatRule as Rule};
ghost use Rattle.flat_grammar.specs.declared.flat.FlatComp.{FlatComp as Comp};
ghost use Rattle.flat_grammar.specs.Expressions.{weight};
ghost use Rattle.flat_grammar.specs.Fitting.{cells, most_instances};
ghost use Rattle.tree_store.specs.Regions.{region};
ghost use Rattle.core_machine.specs.Runs.{cells_at, cells_in, IsStackFor};
ghost use Rattle.flat_grammar.specs.Rules.{attrs_of, HasRule};
ghost use Rattle.core_machine.specs.Slots.{offset, width};
ghost use Rattle.region_engine.specs.Kept.{own_offsets, own_width};

use crate::sites::{region_at, rule_at};
use core_machine::Job;
use flat_grammar::{FlatAttr, FlatExpr, FlatRule, arguments, push_all};
use lido_base::{Memory, NodeId, SymId};
use std::alloc::Global;
use tree_flattener::cells_by_rule;

/// The attributes of a symbol.
fn attributes_of(job: &Job, symbol: SymId) -> &[FlatAttr]
    ensures { result.now ≡ attrs_of job.now.symbols symbol }
{
    match job.flat().symbols.as_slice().get(symbol.0 as usize) {
        Some(symbol) => symbol.attrs.as_slice(),
        None => &[],
    }
}

/// The attributes of a node.
pub fn attributes_at(job: &Job, node: u32) -> &[FlatAttr]
    requires { node < length job.now.flat }
    ensures { (r : Rule) → HasRule job.now.rules job.now.flat node r → result.now ≡ attrs_of job.now.symbols r.left }
{
    attributes_of(job, rule_at(job, node).left)
}

/// How many attributes a node has.
fn width_of(job: &Job, node: u32) -> u32
    requires { node < length job.now.flat }
    ensures width { result ≡ width job.now node }
    ensures few { offset job.now node + result ≤ most_instances }
{
    job.facts();
    attributes_at(job, node).len() as u32
}

/// How many attributes a node has, where it is of the region.
fn own_width_of(job: &Job, number: u32, node: u32) -> u32
    requires { node < length job.now.flat }
    ensures { result ≡ own_width job.now number node }
{
    if region_at(job, node) == number {
        width_of(job, node)
    } else {
        0
    }
}

/// Where the values of each node of a region begin, and behind them where those of the last node end.
pub fn own_offsets_of(alloc: Global, job: &Job, number: u32) -> Result<Vec<u32>, Memory>
    ensures { IfOk result (λ list. list.items ≡ own_offsets job.now number) }
{
    job.facts();
    let count = job.trees().flat.len();
    let mut list = Vec::with_capacity(alloc, count as usize + 1)?;
    let mut next = 0;
    for node in 0..count {
        list.push_reserved(next);
        next += own_width_of(job, number, node);
    }
    list.push_reserved(next);
    Ok(list)
}

/// How many expressions an expression is made of.
fn weight_of(alloc: Global, value: &FlatExpr) -> Result<usize, Memory>
    ensures { IfOk result (λ n. n ≡ weight value.now) }
{
    let mut rest = Vec::new(alloc);
    rest.push(value)?;
    let mut total = 0usize;
    while let Some(next) = rest.pop() {
        let Some(more) = total.checked_add(1) else {
            return Err(Memory);
        };
        total = more;
        push_all(&mut rest, arguments(next))?;
    }
    Ok(total)
}

/// The greater of two numbers.
fn greater(a: usize, b: usize) -> usize
    ensures first { a ≤ result }
    ensures second { b ≤ result }
{
    if a < b { b } else { a }
}

/// The greatest of the weights of a rule's computations and this number.
fn greatest_weight(alloc: Global, rule: &FlatRule, least: usize) -> Result<usize, Memory>
    ensures all { IfOk result (λ n. (c : Comp) → Contains rule.now.comps c → weight c.value ≤ n) }
    ensures least { IfOk result (λ n. least ≤ n) }
{
    let mut most = least;
    for comp in rule.comps.as_slice() {
        most = greater(most, weight_of(alloc, &comp.value)?);
    }
    Ok(most)
}

/// Room enough for the arguments of each computation.
pub fn stack_room(alloc: Global, job: &Job) -> Result<usize, Memory>
    ensures { IfOk result (IsStackFor job.now) }
{
    let mut most = 0;
    for rule in job.flat().rules.as_slice() {
        most = greatest_weight(alloc, rule, most)?;
    }
    Ok(most)
}

/// The text cells of the computations at a node, where those of each rule are known.
fn cells_of_node(job: &Job, known: &[u64], node: u32) -> u32
    requires node { node < length job.now.flat }
    requires known { known.now ≡ map (λ (r : Rule). min (sum_by (λ (c : Comp). cells c.value) r.comps) 16777217) job.now.rules }
    ensures { result ≡ cells_at job.now node }
{
    job.facts();
    known[job.trees().flat.rule(NodeId(node)).0 as usize] as u32
}

/// The text cells of the computations at a node, where it is in the region.
fn cells_within(job: &Job, known: &[u64], node: u32, number: u32) -> u32
    requires node { node < length job.now.flat }
    requires known { known.now ≡ map (λ (r : Rule). min (sum_by (λ (c : Comp). cells c.value) r.comps) 16777217) job.now.rules }
    ensures { result ≡ (if region job.now.flat job.now.nodes node == number then cells_at job.now node else 0) }
{
    if region_at(job, node) == number {
        cells_of_node(job, known, node)
    } else {
        0
    }
}

/// The text cells of the computations in a region.
pub fn cells_of_region(alloc: Global, job: &Job, number: u32) -> Result<u32, Memory>
    ensures { IfOk result (λ n. n ≡ cells_in job.now number) }
{
    job.facts();
    let known = cells_by_rule(alloc, job.flat())?;
    let mut total = 0;
    for node in 0..job.trees().flat.len() {
        total += cells_within(job, &known, node, number);
    }
    Ok(total)
}
