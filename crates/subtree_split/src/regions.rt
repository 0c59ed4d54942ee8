//! The region of each node.
ghost use Rattle.std.specs.Prelude.{◌≡◌, ◌≢◌, ◌<◌, ℕ, Some, length, map, IfOk, slice_index};
ghost use Rattle.lido_base.specs.Tree.{IsTree, parent_of};
ghost use Rattle.lido_base.specs.declared.ids.NodeId.{NodeId as Id};
ghost use Rattle.tree_store.specs.Regions.{number_among, regions};

use lido_base::NodeId;
use std::alloc::{AllocError, Global};
use tree_store::Tree;

/// Gives node n this number, if it has none yet and is one of these.
fn give_number(numbers: &mut Vec<u8>, n: usize, number: u8)
    ensures each { length numbers.new.items ≡ length numbers.old.items }
    ensures here { n < length numbers.old.items → slice_index numbers.old.items n ≡ 0
        → slice_index numbers.new.items n ≡ number }
    ensures kept { slice_index numbers.old.items n ≢ 0
        → slice_index numbers.new.items n ≡ slice_index numbers.old.items n }
    ensures others { (m : ℕ) → m ≢ n → slice_index numbers.new.items m ≡ slice_index numbers.old.items m }
{
    if n < numbers.len() && numbers[n] == 0 {
        numbers[n] = number;
    }
}

/// The number of each split node among these, from 1, and 0 for each other node.
fn numbers(alloc: Global, count: u32, nodes: &[NodeId]) -> Result<Vec<u8>, AllocError>
    requires few { length nodes.now < 256 }
    ensures each { IfOk result (λ numbers. length numbers.items ≡ count) }
    ensures numbers { IfOk result (λ numbers. (n : ℕ) → n < count
        → slice_index numbers.items n ≡ number_among (map (λ (m : Id). m.0) nodes.now) n) }
{
    let mut numbers = vec![in alloc; 0u8; count as usize]?;
    for (k, node) in nodes.iter().enumerate() {
        give_number(&mut numbers, node.0 as usize, k as u8 + 1);
    }
    Ok(numbers)
}

/// The region of node n, where the nodes before it have theirs, and it has its number.
fn region_at(numbers: &[u8], tree: &Tree, n: NodeId) -> u8
    requires node { n.0 < length tree.now }
    requires each { length numbers.now ≡ length tree.now }
    ensures own { slice_index numbers.now n.0 ≢ 0 → result ≡ slice_index numbers.now n.0 }
    ensures above { (p : ℕ) → slice_index numbers.now n.0 ≡ 0 → parent_of tree.now n.0 ≡ Some p
        → result ≡ slice_index numbers.now p }
{
    let own = numbers[n.0 as usize];
    if own != 0 {
        return own;
    }
    match tree.parent(n) {
        Some(parent) => numbers[parent.0 as usize],
        None => 0,
    }
}

/// The region of each node of a tree that is split at these nodes.
pub fn regions_of(alloc: Global, tree: &Tree, nodes: &[NodeId]) -> Result<Vec<u8>, AllocError>
    requires tree { IsTree tree.now }
    requires few { length nodes.now < 256 }
    ensures { IfOk result (λ numbers. numbers.items ≡ regions tree.now (map (λ (m : Id). m.0) nodes.now)) }
{
    let mut regions = numbers(alloc, tree.len(), nodes)?;
    for n in 1..tree.len() {
        let region = region_at(&regions, tree, NodeId(n));
        regions[n as usize] = region;
    }
    Ok(regions)
}
