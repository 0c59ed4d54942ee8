//! The table of a tree's nodes.
ghost use Rattle.std.specs.Prelude.{◌≡◌, ◌+◌, ◌-◌, ◌<◌, ◌≤◌, ◌^◌, ◌↔◌, [], ◌∷◌, ◌++◌, length, IsNone, IsSome, IfSome, IfOk, OnOk, OnErr, Some, slice_get, vec_len, vec_capacity};
ghost use Rattle.std.specs.Option.{ForSome};
ghost use Rattle.lido_base.specs.Tree.{rule_at, parent_of, place_of, line_of, column_of, places, item_at, with_item, with_node, IsNode, IsTree, Child, Leaf};
ghost use Rattle.tree_store.specs.Growth.{IsOpen, IsNext, IsTerminal};
ghost use Rattle.tree_store.specs.Stored.{item_of, number_of, table};

use lido_base::{Memory, NodeId, RuleId, Value};
use std::alloc::Global;
use std::marker::Model;

/// What stands at a place of a node.
#[derive(Clone, Copy, Debug)]
enum StoredItem {
    Node(NodeId),
    Terminal(Value),
}

/// A node with its place among its parent's items, from 1 and 0 at the root, its line and column, and its own items.
#[derive(Debug, Drop)]
struct StoredNode {
    items: Vec<StoredItem>,
    parent: Option<NodeId>,
    place: u32,
    line: u32,
    column: u32,
    rule: RuleId,
}

/// A tree whose nodes are numbered in preorder, from 0, as they are added.
///
/// Contracts see the table of its nodes. A tree has fewer than 2^32 nodes.
#[derive(Debug, Drop)]
pub struct Tree {
    nodes: Vec<StoredNode>,
}

impl Model for Tree {
    ghost use Rattle.std.specs.Prelude.{◌<◌, ◌^◌, length};
    ghost use Rattle.lido_base.specs.Tree.{Tree as Table};
    ghost use Rattle.lido_base.specs.declared.value.Value.{Value as Terminal};
    ghost use Rattle.tree_store.specs.Growth.{IsEmptyOrTree};
    ghost use Rattle.tree_store.specs.Stored.{table};

    ghost Value = { Table Terminal };

    ghost view = { λ tree. table tree.nodes.items };

    ghost invariant = { λ tree. (length tree.nodes.items < 2 ^ 32) × IsEmptyOrTree (table tree.nodes.items) };
}

/// Puts an item behind those of a node, and gives its place. An `Err` changes nothing.
fn push_item(nodes: &mut Vec<StoredNode>, parent: NodeId, item: StoredItem) -> Result<u32, Memory>
    requires stored { parent.0 < vec_len nodes.old }
    requires few_items { places (table nodes.old.items) parent.0 < 2 ^ 32 - 1 }
    ensures added { OnOk result (table nodes.new.items ≡ with_item (table nodes.old.items) parent.0 (item_of item)) }
    ensures place { IfOk result (λ place. place ≡ places (table nodes.old.items) parent.0 + 1) }
    ensures refused { OnErr result (table nodes.new.items ≡ table nodes.old.items) }
    ensures room { vec_capacity nodes.old ≤ vec_capacity nodes.new }
    ensures len { vec_len nodes.new ≡ vec_len nodes.old }
{
    let node = &mut nodes[parent.0 as usize];
    let place = node.items.len() as u32 + 1;
    node.items.push(item)?;
    Ok(place)
}

impl Tree {
    /// A tree without nodes. It takes no memory, and answers no `Err` today.
    pub fn new(alloc: Global) -> Result<Tree, Memory>
        ensures { IfOk result (λ tree. tree ≡ []) }
    {
        Ok(Tree {
            nodes: Vec::new(alloc),
        })
    }

    /// Adds a node with this rule, line and column, behind the items of its parent, and gives its number: how many nodes
    /// there were. The first node has no parent; the parent of a later one is the node added last or one of its ancestors.
    /// `Err` is want of memory, and the tree is then as before.
    pub fn add_node(
        &mut self,
        rule: RuleId,
        parent: Option<NodeId>,
        line: u32,
        column: u32,
    ) -> Result<NodeId, Memory>
        requires few_nodes { length self.old < 2 ^ 32 - 1 }
        requires in_preorder { IsNext self.old (number_of parent) }
        requires few_items { ForSome parent (λ p. places self.old p.0 < 2 ^ 32 - 1) }
        ensures number { IfOk result (λ n. n.0 ≡ length self.old) }
        ensures added { OnOk result (self.new ≡ with_node self.old rule.0 (number_of parent) line column) }
        ensures tree { OnOk result (IsTree self.new) }
        ensures refused { OnErr result (self.new ≡ self.old) }
    {
        self.nodes.reserve(1)?;
        let number = NodeId(self.nodes.len() as u32);
        let place = match parent {
            Some(p) => push_item(&mut self.nodes, p, StoredItem::Node(number))?,
            None => 0,
        };
        self.nodes.push_reserved(StoredNode {
            items: Vec::new(*self.nodes.allocator()),
            parent,
            place,
            line,
            column,
            rule,
        });
        Ok(number)
    }

    /// Adds a terminal behind the items of its parent, which is the node added last or one of its ancestors. `Err` is want of
    /// memory, and the tree is then as before.
    pub fn add_terminal(&mut self, parent: NodeId, value: Value) -> Result<(), Memory>
        requires in_preorder { IsOpen self.old parent.0 }
        requires few_items { places self.old parent.0 < 2 ^ 32 - 1 }
        ensures added { OnOk result (self.new ≡ with_item self.old parent.0 (Leaf value)) }
        ensures tree { OnOk result (IsTree self.new) }
        ensures refused { OnErr result (self.new ≡ self.old) }
    {
        push_item(&mut self.nodes, parent, StoredItem::Terminal(value))?;
        Ok(())
    }

    /// How many nodes there are. With one at least it is a tree: parents, children, places and preorder agree.
    pub fn len(&self) -> u32
        ensures count { result ≡ length self.now }
        ensures tree { 0 < result → IsTree self.now }
    {
        self.nodes.len() as u32
    }

    /// The rule of a node.
    pub fn rule(&self, n: NodeId) -> RuleId
        requires { n.0 < length self.now }
        ensures { rule_at self.now n.0 ≡ Some result.0 }
    {
        self.nodes[n.0 as usize].rule
    }

    /// The parent of a node, which stands before it; node 0 alone has none.
    pub fn parent(&self, n: NodeId) -> Option<NodeId>
        requires { n.0 < length self.now }
        ensures parent { number_of result ≡ parent_of self.now n.0 }
        ensures root { IsNone result ↔ (n.0 ≡ 0) }
        ensures before { IfSome result (λ p. p.0 < n.0) }
    {
        self.nodes[n.0 as usize].parent
    }

    /// The place of a node among its parent's items, from 1. It is 0 at node 0 alone.
    pub fn place(&self, n: NodeId) -> u32
        requires { n.0 < length self.now }
        ensures place { result ≡ place_of self.now n.0 }
        ensures root { (result ≡ 0) ↔ (n.0 ≡ 0) }
    {
        self.nodes[n.0 as usize].place
    }

    /// The line of a node.
    pub fn line(&self, n: NodeId) -> u32
        requires { n.0 < length self.now }
        ensures { result ≡ line_of self.now n.0 }
    {
        self.nodes[n.0 as usize].line
    }

    /// The column of a node.
    pub fn column(&self, n: NodeId) -> u32
        requires { n.0 < length self.now }
        ensures { result ≡ column_of self.now n.0 }
    {
        self.nodes[n.0 as usize].column
    }

    /// The child node at a place of a node, which counts from 1. It stands behind the node.
    pub fn child(&self, n: NodeId, place: u32) -> NodeId
        requires { IsNode self.now n.0 place }
        ensures child { item_at self.now n.0 place ≡ Some (Child result.0) }
        ensures behind { n.0 < result.0 }
        ensures inside { result.0 < length self.now }
    {
        match self.item(n, place) {
            StoredItem::Node(c) => c,
            StoredItem::Terminal(_) => unreachable!(),
        }
    }

    /// The terminal at a place of a node, which counts from 1.
    pub fn terminal(&self, n: NodeId, place: u32) -> Value
        requires { IsTerminal self.now n.0 place }
        ensures { item_at self.now n.0 place ≡ Some (Leaf result) }
    {
        match self.item(n, place) {
            StoredItem::Terminal(value) => value,
            StoredItem::Node(_) => unreachable!(),
        }
    }

    /// What stands at a place of a node, which counts from 1.
    fn item(&self, n: NodeId, place: u32) -> StoredItem
        requires { IsSome (item_at self.now n.0 place) }
        ensures item { item_at self.now n.0 place ≡ Some (item_of result) }
        ensures tree { IsTree self.now }
    {
        self.nodes[n.0 as usize].items[place as usize - 1]
    }
}
