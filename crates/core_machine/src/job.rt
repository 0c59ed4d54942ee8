//! A job: all that an evaluation needs.
use flat_grammar::{Flat, Plan};
use lido_base::{Patterns, Strings};
use std::marker::Model;
use tree_store::{Split, Trees};

/// A grammar with a sound plan, and a tree that fits it, split into regions, with its texts and patterns.
///
/// Contracts see the task of its parts. Every job keeps the facts of a task, and its numbers are in the ranges of their types.
#[derive(Drop)]
pub struct Job {
    flat: Flat,
    plan: Plan,
    trees: Trees,
    split: Split,
    strings: Strings,
    patterns: Patterns,
}

impl Model for Job {
    ghost use Rattle.std.specs.Prelude.{◌≡◌};
    ghost use Rattle.std.specs.Coded.{codes};
    ghost use Rattle.flat_grammar.specs.contracts.flat.FlatExpr as expression;
    ghost use Rattle.tree_store.specs.Regions.{regions};
    ghost use Rattle.core_machine.specs.Core.{Task, IsTask};
    ghost use Rattle.core_machine.specs.Limits.{AreInTheirTypes};
    ghost use Rattle.core_machine.specs.Jobs.{task_of};

    ghost Value = { Task };

    ghost coded = { Prim.hlevel (codes, expression.the_row.coded) };

    ghost view = { λ j. task_of j.flat j.plan j.trees j.split j.strings j.patterns };

    ghost invariant = { λ j. let task = task_of j.flat j.plan j.trees j.split j.strings j.patterns in
        IsTask task × (j.split.region_of ≡ regions task.flat task.nodes) × AreInTheirTypes task };
}

impl Job {
    ghost use Rattle.std.specs.Prelude.{◌≡◌, ◌∷◌, map, length};
    ghost use Rattle.lido_base.specs.declared.ids.NodeId.{NodeId as Id};
    ghost use Rattle.tree_store.specs.Regions.{regions};
    ghost use Rattle.core_machine.specs.Core.{IsTask};
    ghost use Rattle.core_machine.specs.Limits.{AreInTheirTypes};
    ghost use Rattle.core_machine.specs.Jobs.{task_of};

    /// The job of these parts.
    pub fn new(
        flat: Flat,
        plan: Plan,
        trees: Trees,
        split: Split,
        strings: Strings,
        patterns: Patterns,
    ) -> Job
        requires facts { IsTask (task_of flat plan trees split strings patterns) }
        requires regions { split.region_of ≡ regions trees.flat (map (λ (n : Id). n.0) split.nodes) }
        requires numbers { AreInTheirTypes (task_of flat plan trees split strings patterns) }
        ensures { result ≡ task_of flat plan trees split strings patterns }
    {
        Job {
            flat,
            plan,
            trees,
            split,
            strings,
            patterns,
        }
    }

    /// Every job keeps the facts of a task. The call does nothing.
    pub fn facts(&self)
        ensures { IsTask self.now }
    {
        let _ = &self.flat;
    }

    /// The numbers of every job are those of their types. The call does nothing.
    pub fn numbers(&self)
        ensures { AreInTheirTypes self.now }
    {
        let _ = &self.flat;
    }

    /// The grammar.
    pub fn flat(&self) -> &Flat
        ensures symbols { result.now.symbols ≡ self.now.symbols }
        ensures rules { result.now.rules ≡ self.now.rules }
        ensures shapes { result.now.shapes ≡ self.now.shapes }
        ensures root { result.now.root ≡ self.now.root }
    {
        &self.flat
    }

    /// The plan.
    pub fn plan(&self) -> &Plan
        ensures visits { result.now.visits ≡ self.now.visits }
        ensures sequences { result.now.seqs ≡ self.now.seqs }
    {
        &self.plan
    }

    /// The written tree and its flat tree.
    pub fn trees(&self) -> &Trees
        ensures written { result.now.written ≡ self.now.written }
        ensures flat { result.now.flat ≡ self.now.flat }
        ensures nodes { result.now.node_of ≡ self.now.node_of }
    {
        &self.trees
    }

    /// Where the flat tree is split.
    pub fn split(&self) -> &Split
        ensures nodes { map (λ (n : Id). n.0) result.now.nodes ≡ self.now.nodes }
        ensures regions { result.now.region_of ≡ regions self.now.flat self.now.nodes }
    {
        &self.split
    }

    /// The texts.
    pub fn strings(&self) -> &Strings
        ensures { result.now ≡ self.now.texts }
    {
        &self.strings
    }

    /// The patterns.
    pub fn patterns(&self) -> &Patterns
        ensures { result.now.list ≡ self.now.patterns }
    {
        &self.patterns
    }

    /// The job split in another way, and how it was split before.
    pub fn resplit(self, split: Split) -> (Job, Split)
        requires facts { IsTask (record self { nodes = map (λ (n : Id). n.0) split.nodes }) }
        requires regions { split.region_of ≡ regions self.flat (map (λ (n : Id). n.0) split.nodes) }
        ensures job { result.0 ≡ record self { nodes = map (λ (n : Id). n.0) split.nodes } }
        ensures nodes { map (λ (n : Id). n.0) result.1.nodes ≡ self.nodes }
        ensures regions { result.1.region_of ≡ regions self.flat self.nodes }
    {
        let Job {
            flat,
            plan,
            trees,
            split: before,
            strings,
            patterns,
        } = self;
        let job = Job {
            flat,
            plan,
            trees,
            split,
            strings,
            patterns,
        };
        (job, before)
    }
}
