//! The walk along the whole order on one thread.
ghost use Rattle.std.specs.Prelude.{◌≡◌, ◌≤◌, ◌<◌, ◌+◌, ◌++◌, ◌∷◌, [], IfOk, OnOk, List, Some, length, vec_len, vec_capacity};
ghost use Rattle.flat_grammar.specs.Fitting.{cells};
ghost use Rattle.flat_grammar.specs.WholeOrder.{Instance};
ghost use Rattle.flat_grammar.specs.Instances.{instance_at};
ghost use Rattle.core_machine.specs.Instances.{IsSite};
ghost use Rattle.core_machine.specs.Core.{Computation, computation_of, outcome, instances_in_order};
ghost use Rattle.core_machine.specs.Slots.{all_offsets, found};
ghost use Rattle.core_machine.specs.Runs.{AreFinal, IsBehind, IsStackFor};

use crate::evaluation::{Here, computation, value_of};
use crate::site::node_at;
use crate::slots::rule_at;
use crate::whole::Whole;
use crate::{Cursor, Item};
use flat_grammar::Occ;
use lido_base::{Memory, Value};
use std::alloc::Global;
use string_librarian::Room;

/// What a goal's computation gives at a node, in the room of its region.
fn given(
    whole: &Whole,
    begins: &[u32],
    values: &[Value],
    node: u32,
    goal: Occ,
    room: &mut Room,
    stack: &mut Vec<Value>,
) -> Value
    requires site { let i = instance_at whole.now.flat node goal in IsSite whole.now.symbols whole.now.rules whole.now.flat i node goal }
    requires begins { begins.now ≡ all_offsets whole.now }
    requires cells { (c : Computation) → computation_of whole.now (instance_at whole.now.flat node goal) ≡ Some c → cells c.2.value ≤ room.old.space }
    requires empty { vec_len stack.old ≡ 0 }
    requires stack { IsStackFor whole.now (vec_capacity stack.old) }
    ensures exact { (c : Computation) → computation_of whole.now (instance_at whole.now.flat node goal) ≡ Some c
        → (result, room.new.deposits) ≡ outcome whole.now room.old.number (found whole.now values.now) room.old.deposits (Some c) }
    ensures space { (c : Computation) → computation_of whole.now (instance_at whole.now.flat node goal) ≡ Some c
        → room.old.space ≤ room.new.space + cells c.2.value }
    ensures number { room.new.number ≡ room.old.number }
    ensures empty { vec_len stack.new ≡ 0 }
    ensures capacity { vec_capacity stack.new ≡ vec_capacity stack.old }
{
    whole.facts();
    let job = whole.job();
    let rule = rule_at(job, node);
    let Some(comp) = computation(rule, goal) else {
        unreachable!();
    };
    let here = Here {
        job,
        begins,
        values,
        node,
        origin: node_at(job, node, comp.origin),
    };
    value_of(&here, rule, comp, stack, room)
}

/// Evaluates the next instance, a goal of a node's rule.
fn evaluate_next(
    whole: &Whole,
    begins: &[u32],
    node: u32,
    goal: Occ,
    values: &mut [Value],
    rooms: &mut [Room],
    stack: &mut Vec<Value>,
)
    requires site { let i = instance_at whole.now.flat node goal in IsSite whole.now.symbols whole.now.rules whole.now.flat i node goal }
    requires begins { begins.now ≡ all_offsets whole.now }
    requires behind { (front : List Instance) × (left : List Instance)
        × IsBehind whole.now front (instance_at whole.now.flat node goal ∷ left) values.old rooms.old }
    requires empty { vec_len stack.old ≡ 0 }
    requires stack { IsStackFor whole.now (vec_capacity stack.old) }
    ensures behind { (front left : List Instance)
        → IsBehind whole.now front (instance_at whole.now.flat node goal ∷ left) values.old rooms.old
        → IsBehind whole.now (front ++ instance_at whole.now.flat node goal ∷ []) left values.new rooms.new }
    ensures empty { vec_len stack.new ≡ 0 }
    ensures capacity { vec_capacity stack.new ≡ vec_capacity stack.old }
{
    whole.facts();
    let region = whole.region_at(node);
    let value = given(whole, begins, values, node, goal, &mut rooms[region], stack);
    let target = node_at(whole.job(), node, goal.occ);
    values[begins[target as usize] as usize + goal.attr.0 as usize] = value;
}

/// Evaluates all instances in the whole order.
pub fn evaluate_all(
    alloc: Global,
    whole: &Whole,
    begins: &[u32],
    values: &mut [Value],
    rooms: &mut [Room],
    stack: &mut Vec<Value>,
) -> Result<(), Memory>
    requires begins { begins.now ≡ all_offsets whole.now }
    requires opening { IsBehind whole.now [] (instances_in_order whole.now) values.old rooms.old }
    requires empty { vec_len stack.old ≡ 0 }
    requires stack { IsStackFor whole.now (vec_capacity stack.old) }
    ensures { OnOk result (AreFinal whole.now values.new rooms.new) }
{
    whole.facts();
    let job = whole.job();
    let mut cursor = Cursor::new(alloc, job, 0)?;
    while let Some(item) = cursor.item(job) {
        let Item::Eval { node, occ } = item else {
            unreachable!();
        };
        evaluate_next(whole, begins, node.0, occ, values, rooms, stack);
        cursor.step(job);
    }
    Ok(())
}
