//! A flat tree that is being made.
ghost use Rattle.std.specs.Prelude.{◌≡◌, ◌+◌, ◌-◌, ◌<◌, ◌^◌, ℕ, [], ◌∷◌, ◌++◌, IfOk, OnOk, Some, length};
ghost use Rattle.lido_base.specs.Tree.{IsTree, places, line_of, column_of, with_node};
ghost use Rattle.tree_store.specs.Growth.{IsOpen};
ghost use Rattle.tree_flattener.specs.Drafts.{Table, IsPlaced};

use lido_base::{List, Memory, NodeId, RuleId};
use tree_store::Tree;

/// The flat tree of the first nodes of a written tree.
#[derive(Debug, Drop)]
pub struct Draft {
    pub flat: Tree,
    /// The written node of each flat node.
    pub node_of: List<u32>,
    /// The flat node of each written node, which is no cell.
    pub flat_of: List<u32>,
}

/// The written node whose items are being added.
#[derive(Clone, Copy, Debug)]
pub struct Spot {
    pub node: u32,
    /// The flat node that gets its next item.
    pub tail: u32,
    /// How many of its items are there.
    pub done: u32,
}

/// Adds a flat node with this line and column that belongs to the written node `of`.
pub fn add(
    draft: &mut Draft,
    rule: RuleId,
    parent: u32,
    of: u32,
    line: u32,
    column: u32,
) -> Result<u32, Memory>
    requires few_nodes { length draft.old.flat < 2 ^ 32 - 1 }
    requires open { IsOpen draft.old.flat parent }
    requires few_items { places draft.old.flat parent < 2 ^ 32 - 1 }
    ensures number { IfOk result (λ n. n ≡ length draft.old.flat) }
    ensures added { OnOk result (draft.new.flat ≡ with_node draft.old.flat rule.0 (Some parent) line column) }
    ensures tree { OnOk result (IsTree draft.new.flat) }
    ensures nodes { OnOk result (draft.new.node_of ≡ draft.old.node_of ++ of ∷ []) }
    ensures placed { OnOk result ((W : Table) → IsPlaced W draft.old.flat draft.old.node_of → line ≡ line_of W of → column ≡ column_of W of
        → IsPlaced W draft.new.flat draft.new.node_of) }
    ensures same { draft.new.flat_of ≡ draft.old.flat_of }
{
    let number = draft
        .flat
        .add_node(rule, Some(NodeId(parent)), line, column)?;
    draft.node_of.push(of)?;
    Ok(number.0)
}
