//! How many instances and text cells a flat tree has.
ghost use Rattle.std.specs.Prelude.{◌≡◌, ◌<◌, ◌≤◌, ◌+◌, ◌*◌, ◌^◌, ◌↔◌, ◌⊎◌, ℕ, suc, min, map, sum_by, All, IfOk, IfErr, OnOk, length, slice_index_or};
ghost use Rattle.flat_grammar.specs.Expressions.{weight};
ghost use Rattle.flat_grammar.specs.Fitting.{own_cells, cells, instances, text_cells, IsWithinLimits};
ghost use Rattle.flat_grammar.specs.Rules.{attrs_of};
ghost use Rattle.flat_grammar.specs.declared.flat.FlatRule.{FlatRule as AnyRule};
ghost use Rattle.flat_grammar.specs.declared.flat.FlatComp.{FlatComp};
ghost use Rattle.lido_base.specs.Tree.{Node as AnyNode};
ghost use Rattle.lido_base.specs.declared.value.Value.{Value};
ghost use Rattle.tree_store.specs.declared.fault.TreeFault.TheVariants as Fault;
ghost use Rattle.tree_flattener.specs.Limits.{HasTooMany};

use flat_grammar::{Flat, FlatExpr, FlatRule, push_all};
use lido_base::{Many, Memory, NodeId, Op};
use std::alloc::Global;
use tree_store::{Tree, TreeFault};

/// The most instances that a flat tree may have.
const MOST_INSTANCES: u64 = 4_194_304;

/// The most text cells that a flat tree may have.
const MOST_TEXT_CELLS: u64 = 16_777_216;

/// A rule counts as one more than the most where it has more.
const PLENTY: u64 = 16_777_217;

/// The text cells of an operation on so many arguments.
fn op_cells(op: Op, width: usize) -> u64
    requires { width < 2 ^ 63 }
    ensures { result ≡ own_cells op width }
{
    match op {
        Op::Numb | Op::AsIs | Op::Seq | Op::Pattern(_) => width as u64 + 1,
        _ => 0,
    }
}

/// The text cells of an expression without those of its arguments, and the arguments.
fn parts(value: &FlatExpr) -> (u64, &[FlatExpr])
    ensures cells { cells value.now ≡ result.0 + sum_by cells result.1.now }
    ensures lighter { weight value.now ≡ suc (sum_by weight result.1.now) }
{
    match value {
        FlatExpr::Value(_) | FlatExpr::Terminal(_) | FlatExpr::Read(_) | FlatExpr::Coord(_) => (
            0,
            &[],
        ),
        FlatExpr::Apply { op, args, .. } => {
            let args = args.as_slice();
            (op_cells(*op, args.len()), args)
        }
        FlatExpr::If(args) => (0, args.as_slice()),
        FlatExpr::Order(args) => (0, args.as_slice()),
    }
}

/// The expressions of a rule's computations.
fn values<'a>(alloc: Global, rule: &'a FlatRule) -> Result<Vec<&'a FlatExpr>, Memory>
    ensures { IfOk result (λ rest. sum_by cells (map (λ value. value.now) rest.items) ≡ sum_by (λ (c : FlatComp). cells c.value) rule.now.comps) }
{
    let mut rest = Vec::new(alloc);
    for comp in rule.comps.as_slice() {
        rest.push(&comp.value)?;
    }
    Ok(rest)
}

/// The text cells of a rule's computations, or `PLENTY` where there are more.
fn rule_cells(alloc: Global, rule: &FlatRule) -> Result<u64, Memory>
    ensures { IfOk result (λ n. n ≡ min (sum_by (λ (c : FlatComp). cells c.value) rule.now.comps) 16777217) }
{
    let mut rest = values(alloc, rule)?;
    let mut total = 0;
    while let Some(next) = rest.pop() {
        let (own, args) = parts(next);
        total = plus(total, own);
        push_all(&mut rest, args)?;
    }
    Ok(total)
}

/// The sum, or `PLENTY` where it is more.
fn plus(a: u64, b: u64) -> u64
    requires { a ≤ 16777217 }
    ensures { result ≡ min (a + b) 16777217 }
{
    if b < PLENTY - a { a + b } else { PLENTY }
}

/// The attributes of a rule's left side, or `PLENTY` where there are more.
fn rule_instances(flat: &Flat, rule: &FlatRule) -> u64
    ensures { result ≡ min (length (attrs_of flat.now.symbols rule.now.left)) 16777217 }
{
    match flat.symbols.as_slice().get(rule.left.0 as usize) {
        Some(symbol) => plus(0, symbol.attrs.len() as u64),
        None => 0,
    }
}

/// The instances of a node of each rule.
fn instances_by_rule(alloc: Global, flat: &Flat) -> Result<Vec<u64>, Memory>
    ensures { IfOk result (λ numbers. numbers.items ≡ map (λ (r : AnyRule). min (length (attrs_of flat.now.symbols r.left)) 16777217) flat.now.rules) }
{
    let mut numbers = Vec::new(alloc);
    for rule in flat.rules.as_slice() {
        numbers.push(rule_instances(flat, rule))?;
    }
    Ok(numbers)
}

/// The text cells of a node of each rule, or one more than the most that a tree may have where there are more. `Err` is want of memory.
pub fn cells_by_rule(alloc: Global, flat: &Flat) -> Result<Vec<u64>, Memory>
    ensures { IfOk result (λ numbers. numbers.items ≡ map (λ (r : AnyRule). min (sum_by (λ (c : FlatComp). cells c.value) r.comps) 16777217) flat.now.rules) }
{
    let mut numbers = Vec::new(alloc);
    for rule in flat.rules.as_slice() {
        let cells = rule_cells(alloc, rule)?;
        numbers.push(cells)?;
    }
    Ok(numbers)
}

/// The sum of the nodes' numbers, which their rules have.
fn total(tree: &Tree, numbers: &[u64]) -> u64
    requires { (k : ℕ) → slice_index_or numbers.now k 0 ≤ 16777217 }
    ensures { result ≡ sum_by (λ (node : AnyNode Value). slice_index_or numbers.now node.rule 0) tree.now }
{
    let mut sum = 0;
    for n in 0..tree.len() {
        sum += number_at(numbers, tree.rule(NodeId(n)).0 as usize);
    }
    sum
}

/// The number of a rule, and 0 where there is no such rule.
fn number_at(numbers: &[u64], rule: usize) -> u64
    ensures { result ≡ slice_index_or numbers.now rule 0 }
{
    if rule < numbers.len() {
        numbers[rule]
    } else {
        0
    }
}

/// Whether the flat tree is within the limits on instances and text cells. `TooMany` says of what it has too many, instances
/// first; `Memory` is want of memory.
pub fn check_limits(alloc: Global, flat: &Flat, tree: &Tree) -> Result<(), TreeFault>
    ensures within { OnOk result (IsWithinLimits flat.now.symbols flat.now.rules tree.now) }
    ensures refused { IfErr result (λ e. (e ≡ Fault.Memory) ⊎ HasTooMany flat.now.symbols flat.now.rules tree.now e) }
{
    let Ok(instances) = instances_by_rule(alloc, flat) else {
        return Err(TreeFault::Memory);
    };
    if total(tree, instances.as_slice()) > MOST_INSTANCES {
        return Err(TreeFault::TooMany {
            what: Many::Instances,
        });
    }
    let Ok(cells) = cells_by_rule(alloc, flat) else {
        return Err(TreeFault::Memory);
    };
    if total(tree, cells.as_slice()) > MOST_TEXT_CELLS {
        return Err(TreeFault::TooMany {
            what: Many::TextCells,
        });
    }
    Ok(())
}
