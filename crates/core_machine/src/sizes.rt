//! What a run needs beforehand: room for arguments on the stack, and space for the texts of each region.
ghost use Rattle.std.specs.Prelude.{◌≡◌, ◌≤◌, ◌<◌, ◌==◌, min, map, length, sum_by, IfOk, Contains, if◌then◌else◌};
ghost use Rattle.flat_grammar.specs.declared.flat.FlatRule.{FlatRule as Rule};
ghost use Rattle.flat_grammar.specs.declared.flat.FlatComp.{FlatComp as Comp};
ghost use Rattle.flat_grammar.specs.Expressions.{weight};
ghost use Rattle.flat_grammar.specs.Fitting.{cells};
ghost use Rattle.tree_store.specs.Regions.{region};
ghost use Rattle.core_machine.specs.Runs.{cells_at, cells_in, empty_rooms, IsStackFor};

use crate::Job;
use crate::whole::Whole;
use flat_grammar::{FlatExpr, FlatRule, arguments, push_all};
use lido_base::{Memory, NodeId};
use std::alloc::Global;
use string_librarian::Room;
use tree_flattener::cells_by_rule;

/// How many expressions an expression is made of.
fn weight_of(alloc: Global, value: &FlatExpr) -> Result<usize, Memory>
    ensures { IfOk result (λ n. n ≡ weight value.now) }
{
    let mut rest = Vec::new(alloc);
    rest.push(value)?;
    let mut total = 0usize;
    while let Some(next) = rest.pop() {
        let Some(more) = total.checked_add(1) else {
            return Err(Memory);
        };
        total = more;
        push_all(&mut rest, arguments(next))?;
    }
    Ok(total)
}

/// The greater of two numbers.
fn greater(a: usize, b: usize) -> usize
    ensures first { a ≤ result }
    ensures second { b ≤ result }
{
    if a < b { b } else { a }
}

/// The greatest of the weights of a rule's computations and this number.
fn greatest_weight(alloc: Global, rule: &FlatRule, least: usize) -> Result<usize, Memory>
    ensures all { IfOk result (λ n. (c : Comp) → Contains rule.now.comps c → weight c.value ≤ n) }
    ensures least { IfOk result (λ n. least ≤ n) }
{
    let mut most = least;
    for comp in rule.comps.as_slice() {
        most = greater(most, weight_of(alloc, &comp.value)?);
    }
    Ok(most)
}

/// Room enough for the arguments of each computation.
pub fn stack_room(alloc: Global, job: &Job) -> Result<usize, Memory>
    ensures { IfOk result (IsStackFor job.now) }
{
    let mut most = 0;
    for rule in job.flat().rules.as_slice() {
        most = greatest_weight(alloc, rule, most)?;
    }
    Ok(most)
}

/// The text cells of the computations at a node, where those of each rule are known.
fn cells_of_node(job: &Job, known: &[u64], node: u32) -> u32
    requires node { node < length job.now.flat }
    requires known { known.now ≡ map (λ (r : Rule). min (sum_by (λ (c : Comp). cells c.value) r.comps) 16777217) job.now.rules }
    ensures { result ≡ cells_at job.now node }
{
    job.facts();
    known[job.trees().flat.rule(NodeId(node)).0 as usize] as u32
}

/// The text cells of the computations at a node, where it is in the region.
fn cells_within(whole: &Whole, known: &[u64], node: u32, number: usize) -> u32
    requires node { node < length whole.now.flat }
    requires known { known.now ≡ map (λ (r : Rule). min (sum_by (λ (c : Comp). cells c.value) r.comps) 16777217) whole.now.rules }
    ensures { result ≡ (if region whole.now.flat whole.now.nodes node == number then cells_at whole.now node else 0) }
{
    if whole.region_at(node) == number {
        cells_of_node(whole.job(), known, node)
    } else {
        0
    }
}

/// The text cells of the computations in a region.
fn cells_of_region(whole: &Whole, known: &[u64], number: usize) -> u32
    requires { known.now ≡ map (λ (r : Rule). min (sum_by (λ (c : Comp). cells c.value) r.comps) 16777217) whole.now.rules }
    ensures { result ≡ cells_in whole.now number }
{
    whole.facts();
    let mut total = 0;
    for node in 0..whole.job().trees().flat.len() {
        total += cells_within(whole, known, node, number);
    }
    total
}

/// The rooms of all regions, empty, with space for all that they get.
pub fn rooms_of(alloc: Global, whole: &Whole) -> Result<Vec<Room>, Memory>
    ensures { IfOk result (λ rooms. rooms.items ≡ empty_rooms whole.now) }
{
    whole.facts();
    let known = cells_by_rule(alloc, whole.job().flat())?;
    let count = whole.regions();
    let mut rooms = Vec::with_capacity(alloc, count)?;
    for number in 0..count {
        let space = cells_of_region(whole, &known, number);
        rooms.push_reserved(Room::with_space(alloc, number as u16, space)?);
    }
    Ok(rooms)
}
