//! The sizes of subtrees.
ghost use Rattle.std.specs.Prelude.{◌≡◌, ◌<◌, ℕ, length, IfOk, vec_len, replicate, slice_index};
ghost use Rattle.lido_base.specs.Tree.{IsTree};
ghost use Rattle.subtree_split.specs.SplitNodes.{subtree_size};

use lido_base::NodeId;
use std::alloc::{AllocError, Global};
use tree_store::Tree;

/// So many ones.
fn ones(alloc: Global, count: u32) -> Result<Vec<u32>, AllocError>
    ensures { IfOk result (λ sizes. sizes.items ≡ replicate count 1) }
{
    vec![in alloc; 1u32; count as usize]
}

/// How many nodes the subtree of each node has. Children stand behind their parents: each node gives its sum to its parent,
/// the last one first.
pub fn subtree_sizes(alloc: Global, tree: &Tree) -> Result<Vec<u32>, AllocError>
    requires { IsTree tree.now }
    ensures each { IfOk result (λ sizes. vec_len sizes ≡ length tree.now) }
    ensures sizes { IfOk result (λ sizes. (n : ℕ) → n < length tree.now → slice_index sizes.items n ≡ subtree_size tree.now n) }
{
    let mut sizes = ones(alloc, tree.len())?;
    for n in (1..tree.len()).rev() {
        if let Some(parent) = tree.parent(NodeId(n)) {
            sizes[parent.0 as usize] += sizes[n as usize];
        }
    }
    Ok(sizes)
}
