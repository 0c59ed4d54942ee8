//! A written tree beside its flat tree, and how a flat tree is split.
ghost use Rattle.std.specs.Prelude.{◌≡◌, ◌<◌, length, All};
ghost use Rattle.lido_base.specs.Tree.{IsTree};

use crate::Tree;
use lido_base::{List, NodeId};

/// A written tree, its flat tree, and the written node of each flat node: a cell's is its list's.
#[derive(Debug, Drop)]
pub struct Trees {
    pub written: Tree,
    pub flat: Tree,
    pub node_of: List<u32>,
    pub ghost written_tree: { IsTree written },
    pub ghost flat_tree: { IsTree flat },
    pub ghost each_node: { length node_of ≡ length flat },
    pub ghost in_range: { All (λ n. n < length written) node_of },
}

/// Where a flat tree is split: the nodes at which new regions begin, and each flat node's region.
///
/// Region 0 has the root. The region that begins at the node with index k, from 0, is k + 1.
#[derive(Clone, Debug, Drop)]
pub struct Split {
    pub nodes: List<NodeId>,
    pub region_of: List<u8>,
}
