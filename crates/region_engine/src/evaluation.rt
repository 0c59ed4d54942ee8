//! The evaluation of the next instance of a region.
ghost use Rattle.std.specs.Prelude.{◌≡◌, ◌<◌, ◌≤◌, ◌+◌, length, Some, vec_len, vec_capacity, OnOk, OnErr, ℕ};
ghost use Rattle.flat_grammar.specs.Rules.{dependencies};
ghost use Rattle.flat_grammar.specs.Expressions.{weight};
ghost use Rattle.flat_grammar.specs.Fitting.{cells};
ghost use Rattle.flat_grammar.specs.WholeOrder.{node_at as child_or_node};
ghost use Rattle.flat_grammar.specs.Instances.{instance_at};
ghost use Rattle.core_machine.specs.Instances.{IsSite};
ghost use Rattle.core_machine.specs.Core.{outcome};
ghost use Rattle.core_machine.specs.Keys.{contents_of};
ghost use Rattle.core_machine.specs.Runs.{IsStackFor};
ghost use Rattle.region_engine.specs.Kept.{own_offsets, stored, AreSized, IsBehind};
ghost use Rattle.region_engine.specs.Inputs.{AllAtHand, OneMissed};
ghost use Rattle.region_engine.specs.Steps.{AreGoingOn, AwaitsOther, HasInputs, IsLookedUp, IsNext};

use crate::inputs::look_all;
use crate::sites::{attribute_of, computation, kept, node_at, rule_at, terminal_at};
use crate::values::Values;
use boundary_table::{Boundary, Desk, NotYet};
use core_machine::Job;
use expression_values::{Site, evaluate};
use flat_grammar::{FlatComp, FlatRule, Occ};
use lido_base::{CoordPart, NodeId, Value};
use string_librarian::Room;

/// Where a computation is evaluated: its node, that of its origin, and the values that the region keeps.
#[derive(Clone, Copy)]
pub struct Here<'a> {
    pub job: &'a Job,
    pub values: &'a Values,
    pub node: u32,
    pub origin: u32,
    pub ghost begins: { values.now.begins.items ≡ own_offsets job.now values.now.region },
    pub ghost inside: { node < length job.now.flat },
    pub ghost origin_inside: { origin < length job.now.flat },
}

impl<'a> Site for Here<'a> {
    ghost use Rattle.std.specs.Prelude.{unwrap_or};
    ghost use Rattle.lido_base.specs.declared.value.Value.TheVariants as value;
    ghost use Rattle.lido_base.specs.Tree.{item_at, coordinate};
    ghost use Rattle.flat_grammar.specs.Instances.{instance_at};
    ghost use Rattle.core_machine.specs.Evaluation.{leaf_value};
    ghost use Rattle.region_engine.specs.Kept.{stored};

    ghost leaf = { λ here k. leaf_value (item_at here.job.now.flat here.node k) };

    ghost read = { λ here o. unwrap_or (stored here.job.now here.values.now.region here.values.now.own.items here.values.now.shared.items
        (instance_at here.job.now.flat here.node o)) value.Void };

    ghost coord = { λ here part. coordinate here.job.now.flat here.origin part };

    fn leaf_at(&self, place: u16) -> Value {
        terminal_at(self.job, self.node, place)
    }

    fn read_at(&self, o: Occ) -> Value {
        self.values.read(self.job, self.node, o)
    }

    fn coordinate_at(&self, part: CoordPart) -> u32 {
        let tree = &self.job.trees().flat;
        match part {
            CoordPart::Line => tree.line(NodeId(self.origin)),
            CoordPart::Col => tree.column(NodeId(self.origin)),
        }
    }
}

/// What an evaluation builds with: room for texts, and a stack for arguments.
#[derive(Drop)]
pub struct Bench {
    pub room: Room,
    pub stack: Vec<Value>,
}

/// The value that a computation gives, in the room of its region.
fn value_of(here: &Here, rule: &FlatRule, comp: &FlatComp, bench: &mut Bench) -> Value
    requires origin { here.now.origin ≡ child_or_node here.now.job.now.flat here.now.node comp.now.origin }
    requires cells { cells comp.now.value ≤ bench.old.room.space }
    requires empty { vec_len bench.old.stack ≡ 0 }
    requires stack { weight comp.now.value ≤ vec_capacity bench.old.stack }
    ensures exact { let v = here.now.values.now in (result, bench.new.room.deposits)
        ≡ outcome here.now.job.now bench.old.room.number (stored here.now.job.now v.region v.own.items v.shared.items) bench.old.room.deposits
        (Some (here.now.node, rule.now, comp.now)) }
    ensures empty { vec_len bench.new.stack ≡ 0 }
    ensures capacity { vec_capacity bench.new.stack ≡ vec_capacity bench.old.stack }
    ensures number { bench.new.room.number ≡ bench.old.room.number }
    ensures space { bench.old.room.space ≤ bench.new.room.space + cells comp.now.value }
{
    let job = here.job;
    let written = job.trees().node_of.as_slice()[here.origin as usize];
    let value = evaluate(
        &comp.value,
        here,
        written,
        &mut bench.stack,
        &mut bench.room,
        job.strings(),
        job.patterns(),
    );
    kept(attribute_of(job, rule, comp.goal), value)
}

/// Looks for what a computation at a node needs of other regions.
fn look_up(
    job: &Job,
    boundary: &Boundary,
    node: u32,
    comp: &FlatComp,
    values: &mut Values,
    desk: &mut Desk,
) -> Result<(), NotYet>
    requires node { node < length job.now.flat }
    requires table { desk.old.table ≡ boundary.now }
    requires contents { desk.old.view.contents ≡ contents_of job.now }
    requires sized { AreSized job.now values.old.region values.old }
    ensures looked { IsLookedUp job.now values.old values.new desk.old desk.new }
    ensures at_hand { OnOk result (AllAtHand job.now node values.new.marks.items values.new.shared.items desk.new (dependencies comp.now)) }
    ensures missed { OnErr result (OneMissed job.now node values.new.marks.items desk.old desk.new (dependencies comp.now)) }
{
    let shared = values.shared.as_mut_slice();
    look_all(
        job,
        boundary,
        node,
        comp,
        values.marks.as_slice(),
        shared,
        desk,
    )
}

/// Evaluates the next instance of a region, a goal of a node's rule, and keeps its value.
///
/// # Errors
///
/// `NotYet` where something that it needs of another region wasn't delivered, and the table doesn't have it yet.
pub fn evaluate_next(
    job: &Job,
    boundary: &Boundary,
    node: u32,
    goal: Occ,
    values: &mut Values,
    bench: &mut Bench,
    desk: &mut Desk,
) -> Result<(), NotYet>
    requires site { let i = instance_at job.now.flat node goal in IsSite job.now.symbols job.now.rules job.now.flat i node goal }
    requires next { (n : ℕ) × IsNext job.now values.old.region n values.old bench.old.room (instance_at job.now.flat node goal) }
    requires table { desk.old.table ≡ boundary.now }
    requires contents { desk.old.view.contents ≡ contents_of job.now }
    requires empty { vec_len bench.old.stack ≡ 0 }
    requires stack { IsStackFor job.now (vec_capacity bench.old.stack) }
    ensures behind { OnOk result ((n : ℕ) → IsNext job.now values.old.region n values.old bench.old.room (instance_at job.now.flat node goal)
        → IsBehind job.now values.old.region (n + 1) values.new bench.new.room) }
    ensures stays { OnErr result ((n : ℕ) → IsNext job.now values.old.region n values.old bench.old.room (instance_at job.now.flat node goal)
        → IsBehind job.now values.old.region n values.new bench.new.room) }
    ensures going_on { AreGoingOn values.old values.new desk.old desk.new }
    ensures inputs { OnOk result (HasInputs job.now (instance_at job.now.flat node goal) values.new desk.new) }
    ensures awaits { OnErr result (AwaitsOther job.now (instance_at job.now.flat node goal) values.new desk.old desk.new) }
    ensures empty { vec_len bench.new.stack ≡ 0 }
    ensures capacity { vec_capacity bench.new.stack ≡ vec_capacity bench.old.stack }
{
    job.facts();
    let rule = rule_at(job, node);
    let Some(comp) = computation(rule, goal) else {
        unreachable!();
    };
    match look_up(job, boundary, node, comp, values, desk) {
        Ok(()) => {
            let here = Here {
                job,
                values,
                node,
                origin: node_at(job, node, comp.origin),
            };
            let value = value_of(&here, rule, comp, bench);
            values.keep(job, node, goal, value);
            Ok(())
        }
        Err(not_yet) => Err(not_yet),
    }
}
