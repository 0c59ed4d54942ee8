//! The evaluation of one computation, with the values so far in one list.
ghost use Rattle.std.specs.Prelude.{◌≡◌, ◌<◌, ◌≤◌, ◌+◌, map, length, IfSome, IfNone, Some, Contains, vec_len, vec_capacity, unwrap_or};
ghost use Rattle.flat_grammar.specs.declared.flat.FlatComp.{FlatComp as Comp};
ghost use Rattle.flat_grammar.specs.Expressions.{weight};
ghost use Rattle.flat_grammar.specs.Fitting.{cells};
ghost use Rattle.flat_grammar.specs.SoundPlan.{goals_of};
ghost use Rattle.flat_grammar.specs.WellFormed.{attribute_of as attribute};
ghost use Rattle.flat_grammar.specs.WholeOrder.{node_at as child_or_node};
ghost use Rattle.core_machine.specs.Core.{outcome};
ghost use Rattle.core_machine.specs.Evaluation.{kept_value};
ghost use Rattle.core_machine.specs.Slots.{all_offsets, found};

use crate::Job;
use crate::site::{node_at, terminal_at};
use expression_values::{Site, evaluate};
use flat_grammar::{FlatAttr, FlatComp, FlatRule, Occ, symbol_at};
use lido_base::{CoordPart, NodeId, Value, ValueType};
use string_librarian::Room;

/// Where a computation is evaluated: its node, that of its origin, and the values so far with where each node's begin.
#[derive(Clone, Copy)]
pub struct Here<'a> {
    pub job: &'a Job,
    pub begins: &'a [u32],
    pub values: &'a [Value],
    pub node: u32,
    pub origin: u32,
    pub ghost offsets: { begins.now ≡ all_offsets job.now },
    pub ghost inside: { node < length job.now.flat },
    pub ghost origin_inside: { origin < length job.now.flat },
}

impl<'a> Site for Here<'a> {
    ghost use Rattle.std.specs.Prelude.{unwrap_or};
    ghost use Rattle.lido_base.specs.declared.value.Value.TheVariants as value;
    ghost use Rattle.lido_base.specs.Tree.{item_at, coordinate};
    ghost use Rattle.flat_grammar.specs.Instances.{instance_at};
    ghost use Rattle.core_machine.specs.Evaluation.{leaf_value};
    ghost use Rattle.core_machine.specs.Slots.{found as stored};

    ghost leaf = { λ here k. leaf_value (item_at here.job.now.flat here.node k) };

    ghost read = { λ here o. unwrap_or (stored here.job.now here.values.now (instance_at here.job.now.flat here.node o)) value.Void };

    ghost coord = { λ here part. coordinate here.job.now.flat here.origin part };

    fn leaf_at(&self, place: u16) -> Value {
        terminal_at(self.job, self.node, place)
    }

    fn read_at(&self, o: Occ) -> Value {
        let node = node_at(self.job, self.node, o.occ);
        let slot = self.begins[node as usize] as usize + o.attr.0 as usize;
        self.values.get(slot).copied().unwrap_or(Value::Void)
    }

    fn coordinate_at(&self, part: CoordPart) -> u32 {
        let tree = &self.job.trees().flat;
        match part {
            CoordPart::Line => tree.line(NodeId(self.origin)),
            CoordPart::Col => tree.column(NodeId(self.origin)),
        }
    }
}

/// The computation of a goal, if the rule has one.
pub fn computation(rule: &FlatRule, goal: Occ) -> Option<&FlatComp>
    ensures some { IfSome result (λ c. Contains rule.now.comps c.now × (c.now.goal ≡ goal)) }
    ensures none { IfNone result (¬ Contains (goals_of rule.now) goal) }
{
    for comp in rule.comps.as_slice() {
        if comp.goal == goal {
            return Some(comp);
        }
    }
    None
}

/// The attribute at an occurrence of a rule.
fn attribute_of(job: &Job, rule: &FlatRule, o: Occ) -> Option<FlatAttr>
    ensures { result ≡ attribute job.now.symbols rule.now o }
{
    let symbol = symbol_at(rule, o.occ)?;
    let symbol = job.flat().symbols.as_slice().get(symbol.0 as usize)?;
    symbol.attrs.as_slice().get(o.attr.0 as usize).copied()
}

/// What an attribute keeps of a value.
fn kept(attr: Option<FlatAttr>, value: Value) -> Value
    ensures { result ≡ kept_value attr value }
{
    match (attr, value) {
        (Some(attr), Value::Bad(origin)) if attr.ty == ValueType::Void => Value::Bad(origin),
        (Some(attr), _) if attr.ty == ValueType::Void => Value::Void,
        _ => value,
    }
}

/// The value that a computation gives, in the room of its region.
pub fn value_of(
    here: &Here,
    rule: &FlatRule,
    comp: &FlatComp,
    stack: &mut Vec<Value>,
    room: &mut Room,
) -> Value
    requires origin { here.now.origin ≡ child_or_node here.now.job.now.flat here.now.node comp.now.origin }
    requires cells { cells comp.now.value ≤ room.old.space }
    requires stack { vec_len stack.old + weight comp.now.value ≤ vec_capacity stack.old }
    ensures exact { (result, room.new.deposits)
        ≡ outcome here.now.job.now room.old.number (found here.now.job.now here.now.values.now) room.old.deposits
        (Some (here.now.node, rule.now, comp.now)) }
    ensures stack { stack.new.items ≡ stack.old.items }
    ensures capacity { vec_capacity stack.new ≡ vec_capacity stack.old }
    ensures number { room.new.number ≡ room.old.number }
    ensures space { room.old.space ≤ room.new.space + cells comp.now.value }
{
    let job = here.job;
    let written = job.trees().node_of.as_slice()[here.origin as usize];
    let value = evaluate(
        &comp.value,
        here,
        written,
        stack,
        room,
        job.strings(),
        job.patterns(),
    );
    kept(attribute_of(job, rule, comp.goal), value)
}
