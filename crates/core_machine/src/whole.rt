//! A job whose split is put aside, so that one cursor goes along the whole order.
ghost use Rattle.std.specs.Prelude.{◌≡◌, ◌<◌, suc, length, IfOk};
ghost use Rattle.tree_store.specs.Regions.{region};
ghost use Rattle.core_machine.specs.Core.{IsTask};
ghost use Rattle.core_machine.specs.Whole.{undivided};

use crate::Job;
use lido_base::{List, Memory};
use std::alloc::Global;
use std::marker::Model;
use tree_store::Split;

/// A job that isn't split, and how it was split. Contracts see the task of the split job.
#[derive(Drop)]
pub struct Whole {
    job: Job,
    split: Split,
}

impl Model for Whole {
    ghost use Rattle.std.specs.Prelude.{◌≡◌, [], map};
    ghost use Rattle.std.specs.Coded.{codes};
    ghost use Rattle.flat_grammar.specs.contracts.flat.FlatExpr as expression;
    ghost use Rattle.lido_base.specs.declared.ids.NodeId.{NodeId as Id};
    ghost use Rattle.tree_store.specs.Regions.{regions};
    ghost use Rattle.core_machine.specs.Core.{Task, IsTask};

    ghost Value = { Task };

    ghost coded = { Prim.hlevel (codes, expression.the_row.coded) };

    ghost view = { λ w. record w.job { nodes = map (λ (n : Id). n.0) w.split.nodes } };

    ghost invariant = { λ w. let nodes = map (λ (n : Id). n.0) w.split.nodes in
        (w.job.nodes ≡ []) × IsTask (record w.job { nodes = nodes }) × (w.split.region_of ≡ regions w.job.flat nodes) };
}

impl Whole {
    ghost use Rattle.std.specs.Prelude.{map};
    ghost use Rattle.lido_base.specs.declared.ids.NodeId.{NodeId as Id};
    ghost use Rattle.tree_store.specs.Regions.{regions};

    /// The job with its split put aside. `Err` is want of memory.
    pub fn new(alloc: Global, job: Job) -> Result<Whole, Memory>
        ensures { IfOk result (λ whole. whole ≡ job) }
    {
        job.facts();
        let count = job.trees().flat.len() as usize;
        let regions = vec![in alloc; 0u8; count]?;
        let (job, split) = job.resplit(Split {
            nodes: List::new(alloc),
            region_of: List::from_vec(regions),
        });
        Ok(Whole { job, split })
    }

    /// The job that isn't split.
    pub fn job(&self) -> &Job
        ensures { result.now ≡ undivided self.now }
    {
        &self.job
    }

    /// The job as it was split.
    pub fn back(self) -> Job
        ensures { result ≡ self }
    {
        let Whole { job, split } = self;
        job.resplit(split).0
    }

    /// The split job keeps the facts of a task. The call does nothing.
    pub fn facts(&self)
        ensures { IsTask self.now }
    {
        let _ = &self.job;
    }

    /// How the job is split.
    fn split(&self) -> &Split
        ensures nodes { map (λ (n : Id). n.0) result.now.nodes ≡ self.now.nodes }
        ensures regions { result.now.region_of ≡ regions self.now.flat self.now.nodes }
    {
        &self.split
    }

    /// The region of a node.
    pub fn region_at(&self, node: u32) -> usize
        requires { node < length self.now.flat }
        ensures { result ≡ region self.now.flat self.now.nodes node }
    {
        self.split().region_of.as_slice()[node as usize] as usize
    }

    /// How many regions there are.
    pub fn regions(&self) -> usize
        ensures { result ≡ suc (length self.now.nodes) }
    {
        self.facts();
        self.split().nodes.len() + 1
    }
}
