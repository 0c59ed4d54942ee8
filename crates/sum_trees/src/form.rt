//! Rules whose one attribute is a sum, and the trees of their nodes.
ghost use Rattle.std.specs.Prelude.{◌≡◌};
ghost use Rattle.sum_trees.specs.declared.form.FormFault.TheVariants.{Memory};

use lido_base::List;
use std::alloc::AllocError;

/// A rule whose attribute is the sum of some of its right side's.
#[derive(Drop)]
pub struct SumRule {
    /// The rule's name, as trees have it.
    pub name: List<u8>,
    /// The number of the nonterminal on the left side.
    pub left: u32,
    /// What stands on the right side, without its literals.
    pub right: List<Element>,
    /// The places of the right side, from 1, that are added, from the left.
    pub sum: List<u32>,
}

/// What stands at a place of a rule's right side.
#[derive(Clone, Copy, Debug, PartialEq, Eq)]
pub enum Element {
    /// The nonterminal of this number.
    Node(u32),
    /// A terminal, whose value is a number.
    Int,
}

/// A node of a tree whose nodes are listed in preorder.
#[derive(Drop)]
pub struct TreeNode {
    /// The number of the node's rule.
    pub rule: u32,
    /// The number of the node above, where there is one.
    pub parent: Option<u32>,
    /// The place under the parent, from 1, and 0 where there is no parent.
    pub place: u32,
    /// What the right side of the rule has, in its order.
    pub children: List<Child>,
}

/// What a node has at a place of its rule's right side.
#[derive(Clone, Copy, Debug, PartialEq, Eq)]
pub enum Child {
    /// The node of this number.
    Node(u32),
    /// The value of a terminal.
    Int(i64),
}

/// Why a job has no answer on the first path.
#[derive(Clone, Copy, Debug, PartialEq, Eq)]
pub enum FormFault {
    /// The job is outside the form of the first path.
    Outside,
    /// No memory was found.
    Memory,
}

impl From<AllocError> for FormFault {
    ghost from_gives = { λ _ e. e ≡ Memory };

    fn from(_: AllocError) -> Self {
        FormFault::Memory
    }
}
