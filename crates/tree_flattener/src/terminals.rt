//! The terminals of a plain node are its own in the flat tree.
ghost use Rattle.std.specs.Prelude.{◌≡◌, ◌+◌, ◌-◌, ◌^◌, ◌<◌, ◌≤◌, ℕ, List, OnOk, length, take};
ghost use Rattle.lido_base.specs.Tree.{IsTree, items_of, places};
ghost use Rattle.flat_grammar.specs.declared.flat.FlatSymbol.{FlatSymbol};
ghost use Rattle.flat_grammar.specs.declared.flat.FlatRule.{FlatRule};
ghost use Rattle.flat_grammar.specs.declared.flat.Shape.{Shape};
ghost use Rattle.flat_grammar.specs.FlatTrees.{AreItems};
ghost use Rattle.tree_store.specs.Growth.{IsOpen, IsTerminal};
ghost use Rattle.tree_flattener.specs.Drafts.{Fills, IsPlaced};

use crate::draft::{Draft, Spot};
use lido_base::{Memory, NodeId};
use tree_store::Tree;

/// Adds the items of the spot's node up to so many, all of them terminals.
pub fn add_terminals(written: &Tree, draft: &mut Draft, at: Spot, end: u32) -> Result<(), Memory>
    requires terminals { (k : ℕ) → at.done ≤ k → k < end → IsTerminal written.now at.node (k + 1) }
    requires tree { IsTree draft.old.flat }
    requires placed { IsPlaced written.now draft.old.flat draft.old.node_of }
    requires open { IsOpen draft.old.flat at.tail }
    requires few { places draft.old.flat at.tail ≤ at.done }
    requires room { end < 2 ^ 32 - 1 }
    requires forward { at.done ≤ end }
    requires inside { at.node < length written.now }
    ensures filled { OnOk result (Fills draft.old.flat draft.new.flat at.tail) }
    ensures placed { OnOk result (IsPlaced written.now draft.new.flat draft.new.node_of) }
    ensures nodes { draft.new.node_of ≡ draft.old.node_of }
    ensures same { draft.new.flat_of ≡ draft.old.flat_of }
    ensures items { OnOk result ((symbols : List FlatSymbol) (rules : List FlatRule) (shapes : List Shape)
        → AreItems rules shapes draft.old.flat draft.old.node_of (items_of draft.old.flat at.tail) (take at.done (items_of written.now at.node))
        → AreItems rules shapes draft.new.flat draft.new.node_of (items_of draft.new.flat at.tail) (take end (items_of written.now at.node))) }
{
    for k in at.done..end {
        let value = written.terminal(NodeId(at.node), k + 1);
        draft.flat.add_terminal(NodeId(at.tail), value)?;
    }
    Ok(())
}
