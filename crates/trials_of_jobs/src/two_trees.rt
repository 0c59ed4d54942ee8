//! The trees of the job of two items, as values.
ghost use Rattle.std.specs.Prelude.{◌≡◌, ◌<◌, [], Some, None, length, IfOk, OnOk, pos, ℤ};
ghost use Rattle.lido_base.specs.Tree.{Leaf, places, with_item, with_node};
ghost use Rattle.tree_store.specs.Growth.{IsOpen};
ghost use Rattle.trials_of_jobs.specs.SplitList.{written as three_nodes, flat as six_nodes};

use lido_base::{Memory, NodeId, RuleId, Value};
use std::alloc::Global;
use tree_store::Tree;

/// A tree of one node, of rule 0.
fn root(alloc: Global) -> Result<Tree, Memory>
    ensures { IfOk result (λ tree. tree ≡ with_node [] 0 None 1 1) }
{
    let mut tree = Tree::new(alloc)?;
    tree.add_node(RuleId(0), None, 1, 1)?;
    Ok(tree)
}

/// Adds a node.
fn add(tree: &mut Tree, rule: u16, parent: u32) -> Result<(), Memory>
    requires few { length tree.old < 100 }
    requires open { IsOpen tree.old parent }
    requires few_items { places tree.old parent < 100 }
    ensures { OnOk result (tree.new ≡ with_node tree.old rule (Some parent) 1 1) }
{
    tree.add_node(RuleId(rule), Some(NodeId(parent)), 1, 1)?;
    Ok(())
}

/// Adds a number.
fn add_number(tree: &mut Tree, parent: u32, number: i64) -> Result<(), Memory>
    requires open { IsOpen tree.old parent }
    requires few_items { places tree.old parent < 100 }
    ensures { OnOk result (tree.new ≡ with_item tree.old parent (Leaf (Value.Int number))) }
{
    tree.add_terminal(NodeId(parent), Value::Int(number))?;
    Ok(())
}

/// The written tree.
pub fn written(alloc: Global) -> Result<Tree, Memory>
    ensures { IfOk result (λ tree. tree ≡ three_nodes) }
{
    let mut tree = root(alloc)?;
    add(&mut tree, 1, 0)?;
    add_number(&mut tree, 1, 5)?;
    add(&mut tree, 1, 0)?;
    add_number(&mut tree, 2, 6)?;
    Ok(tree)
}

/// The flat tree.
pub fn flat(alloc: Global) -> Result<Tree, Memory>
    ensures { IfOk result (λ tree. tree ≡ six_nodes) }
{
    let mut tree = root(alloc)?;
    add(&mut tree, 2, 0)?;
    add(&mut tree, 1, 1)?;
    add_number(&mut tree, 2, 5)?;
    add(&mut tree, 2, 1)?;
    add(&mut tree, 1, 3)?;
    add_number(&mut tree, 4, 6)?;
    add(&mut tree, 3, 3)?;
    Ok(tree)
}
