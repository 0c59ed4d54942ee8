//! The values that a region keeps.
ghost use Rattle.std.specs.Prelude.{◌≡◌, ◌<◌, IfOk, length, unwrap_or};
ghost use Rattle.flat_grammar.specs.Instances.{instance_at};
ghost use Rattle.lido_base.specs.declared.value.Value.TheVariants as value;
ghost use Rattle.tree_store.specs.Regions.{region};
ghost use Rattle.core_machine.specs.Instances.{IsSite};
ghost use Rattle.region_engine.specs.Deliveries.{IsDeliveredTo};
ghost use Rattle.region_engine.specs.Kept.{own_offsets, stored, AreEmpty, AreSized, IsKeptFor, IsMarkedFor};

use crate::marks::Mark;
use crate::sites::{key_at, node_at};
use crate::sizes::own_offsets_of;
use core_machine::Job;
use flat_grammar::Occ;
use lido_base::{Contents, Memory, Value};
use std::alloc::Global;

/// The values that a region keeps: those of attributes of split nodes by their keys, with a mark for each key, and those of other
/// instances node by node.
#[derive(Drop)]
pub struct Values {
    pub region: u32,
    /// Where the values of each node begin.
    pub begins: Vec<u32>,
    pub own: Vec<Value>,
    pub shared: Vec<Value>,
    pub marks: Vec<Mark>,
}

impl Values {
    /// The values of a region at its opening.
    pub fn new(alloc: Global, job: &Job, region: u32) -> Result<Values, Memory>
        ensures region { IfOk result (λ values. values.region ≡ region) }
        ensures sized { IfOk result (AreSized job.now region) }
        ensures empty { IfOk result (AreEmpty) }
    {
        let begins = own_offsets_of(alloc, job, region)?;
        let count = begins[job.trees().flat.len() as usize] as usize;
        let keys = job.keys() as usize;
        let own = vec![in alloc; Value::Void; count]?;
        let shared = vec![in alloc; Value::Void; keys]?;
        let marks = vec![in alloc; Mark::Missing; keys]?;
        Ok(Values {
            region,
            begins,
            own,
            shared,
            marks,
        })
    }

    /// The value of an attribute occurrence; `Void` where nothing is kept for it.
    pub fn read(&self, job: &Job, node: u32, o: Occ) -> Value
        requires node { node < length job.now.flat }
        requires begins { self.now.begins.items ≡ own_offsets job.now self.now.region }
        ensures { result ≡ unwrap_or (stored job.now self.now.region self.now.own.items self.now.shared.items (instance_at job.now.flat node o)) value.Void }
    {
        if let Some(key) = key_at(job, node, o) {
            return self
                .shared
                .get(key as usize)
                .copied()
                .unwrap_or(Value::Void);
        }
        let target = node_at(job, node, o.occ);
        let place = self.begins[target as usize] as usize + o.attr.0 as usize;
        self.own.get(place).copied().unwrap_or(Value::Void)
    }

    /// Has the value of a key delivered.
    pub fn deliver(&mut self, key: u32, value: Value)
        requires shared { key < length self.old.shared.items }
        requires marks { key < length self.old.marks.items }
        ensures { IsDeliveredTo self.old self.new key value }
    {
        self.shared[key as usize] = value;
        self.marks[key as usize] = Mark::Delivered;
    }

    /// Keeps the value that a node's rule computes for a goal.
    pub fn keep(&mut self, job: &Job, node: u32, goal: Occ, value: Value)
        requires site { let i = instance_at job.now.flat node goal in IsSite job.now.symbols job.now.rules job.now.flat i node goal }
        requires own { region job.now.flat job.now.nodes node ≡ self.old.region }
        requires sized { AreSized job.now self.old.region self.old }
        ensures { IsKeptFor job.now self.old.region self.old self.new (instance_at job.now.flat node goal) value }
    {
        job.facts();
        let Some(key) = key_at(job, node, goal) else {
            let target = node_at(job, node, goal.occ);
            let place = self.begins[target as usize] as usize + goal.attr.0 as usize;
            self.own[place] = value;
            return;
        };
        self.shared[key as usize] = value;
        mark_evaluated(self.marks.as_mut_slice(), key);
    }
}

/// Marks a key as evaluated, where it had no mark.
fn mark_evaluated(marks: &mut [Mark], key: u32)
    requires { key < length marks.old }
    ensures { IsMarkedFor marks.old marks.new key }
{
    if let Mark::Missing = marks[key as usize] {
        marks[key as usize] = Mark::Evaluated;
    }
}
