//! The job of two items, as a value.
ghost use Rattle.std.specs.Prelude.{◌≡◌, ◌∷◌, [], IfOk};
ghost use Rattle.trials_of_jobs.specs.SplitList.{job as the_job, written as three_nodes, flat as six_nodes, node_of as six_numbers};

use crate::two_items::{grammar, plan};
use crate::two_trees::{flat, written};
use core_machine::Job;
use lido_base::{List, Memory, NodeId, Patterns, Strings};
use std::alloc::Global;
use tree_store::{Split, Trees};
use trials_of_grammar::parts::{one, three};

/// The written node of each flat node.
fn written_nodes(alloc: Global) -> Result<List<u32>, Memory>
    ensures { IfOk result (λ list. list ≡ six_numbers) }
{
    let mut list = three(alloc, 0u32, 0, 1)?;
    list.push(0)?;
    list.push(2)?;
    list.push(0)?;
    Ok(list)
}

/// The region of each flat node.
fn regions(alloc: Global) -> Result<List<u8>, Memory>
    ensures { IfOk result (λ list. list ≡ 0 ∷ 0 ∷ 0 ∷ 1 ∷ 1 ∷ 1 ∷ []) }
{
    let mut list = three(alloc, 0u8, 0, 0)?;
    list.push(1)?;
    list.push(1)?;
    list.push(1)?;
    Ok(list)
}

/// The trees.
fn trees(alloc: Global) -> Result<Trees, Memory>
    ensures written { IfOk result (λ trees. trees.written ≡ three_nodes) }
    ensures flat { IfOk result (λ trees. trees.flat ≡ six_nodes) }
    ensures nodes { IfOk result (λ trees. trees.node_of ≡ six_numbers) }
{
    Ok(Trees {
        written: written(alloc)?,
        flat: flat(alloc)?,
        node_of: written_nodes(alloc)?,
    })
}

/// Where the flat tree is split: at the second cell.
fn split(alloc: Global) -> Result<Split, Memory>
    ensures nodes { IfOk result (λ split. split.nodes ≡ record { 0 = 3 } ∷ []) }
    ensures regions { IfOk result (λ split. split.region_of ≡ 0 ∷ 0 ∷ 0 ∷ 1 ∷ 1 ∷ 1 ∷ []) }
{
    Ok(Split {
        nodes: one(alloc, NodeId(3))?,
        region_of: regions(alloc)?,
    })
}

/// The job.
pub fn job(alloc: Global) -> Result<Job, Memory>
    ensures { IfOk result (λ job. job ≡ the_job) }
{
    let flat = grammar(alloc)?;
    let plan = plan(alloc)?;
    let trees = trees(alloc)?;
    let split = split(alloc)?;
    let strings = Strings::new(alloc)?;
    let patterns = Patterns {
        list: List::new(alloc),
    };
    Ok(Job::new(flat, plan, trees, split, strings, patterns))
}
