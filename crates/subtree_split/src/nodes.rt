//! The split nodes of a tree.
ghost use Rattle.std.specs.Prelude.{◌≡◌, ◌<◌, ℕ, Bool, Some, length, map, IfOk, slice_get, slice_index};
ghost use Rattle.lido_base.specs.declared.ids.NodeId.{NodeId as Id};
ghost use Rattle.tree_store.specs.Regions.{regions};
ghost use Rattle.subtree_split.specs.SplitNodes.{is_split_symbol, is_splittable, split_nodes, subtree_size};

use crate::regions::regions_of;
use crate::sizes::subtree_sizes;
use crate::symbols::{is_split, split_symbols};
use flat_grammar::Flat;
use lido_base::{List, Memory, NodeId, SymId};
use std::alloc::Global;
use tree_store::{Split, Trees};

/// At most so many nodes are split nodes.
const MOST_SPLIT_NODES: usize = 63;

/// Whether a flat node can be split: it stands for a written node of a named symbol, whose subtree has `min` written nodes at
/// least. `splits` says of each symbol whether its nodes can be split, `sizes` of each written node how many nodes its
/// subtree has.
fn can_split(
    flat: &Flat,
    names: &[SymId],
    splits: &[bool],
    trees: &Trees,
    sizes: &[u32],
    min: u32,
    n: NodeId,
) -> bool
    requires node { n.0 < length trees.now.flat }
    requires splits { (s : ℕ) (splits_s : Bool) → slice_get splits.now s ≡ Some splits_s
        → splits_s ≡ is_split_symbol flat.now.symbols flat.now.rules flat.now.shapes names.now (record { 0 = s }) }
    requires each { length sizes.now ≡ length trees.now.written }
    requires sizes { (w : ℕ) → w < length trees.now.written → slice_index sizes.now w ≡ subtree_size trees.now.written w }
    ensures { result ≡ is_splittable flat.now.symbols flat.now.rules flat.now.shapes names.now min trees.now.written trees.now.flat trees.now.node_of n.0 }
{
    let named = match flat.rules.as_slice().get(trees.flat.rule(n).0 as usize) {
        Some(rule) => splits_at(flat, names, splits, rule.left),
        None => false,
    };
    let written = trees.node_of.as_slice()[n.0 as usize];
    named && min <= sizes[written as usize]
}

/// Whether nodes of the symbol can be split, by the table of the symbols or, where that has no such symbol, anew.
fn splits_at(flat: &Flat, names: &[SymId], splits: &[bool], symbol: SymId) -> bool
    requires { (s : ℕ) (splits_s : Bool) → slice_get splits.now s ≡ Some splits_s
        → splits_s ≡ is_split_symbol flat.now.symbols flat.now.rules flat.now.shapes names.now (record { 0 = s }) }
    ensures { result ≡ is_split_symbol flat.now.symbols flat.now.rules flat.now.shapes names.now symbol }
{
    match splits.get(symbol.0 as usize) {
        Some(splits) => *splits,
        None => is_split(flat, names, symbol),
    }
}

/// Where to split the trees: at the first 63 flat nodes in preorder, without the root, that stand for a written node of a
/// symbol among `names` whose subtree has `min` written nodes at least. Each flat node is then in the region of the nearest
/// split node among it and its ancestors. `Err` is want of memory.
pub fn split(
    alloc: Global,
    trees: &Trees,
    flat: &Flat,
    names: &[SymId],
    min: u32,
) -> Result<Split, Memory>
    ensures nodes { IfOk result (λ split. map (λ (n : Id). n.0) split.nodes ≡ split_nodes flat.now.symbols flat.now.rules flat.now.shapes names.now min trees.now.written trees.now.flat trees.now.node_of) }
    ensures regions { IfOk result (λ split. split.region_of ≡ regions trees.now.flat (map (λ (n : Id). n.0) split.nodes)) }
{
    let splits = split_symbols(alloc, flat, names)?;
    let sizes = subtree_sizes(alloc, &trees.written)?;
    let mut nodes = Vec::new(alloc);
    for n in 1..trees.flat.len() {
        if nodes.len() < MOST_SPLIT_NODES
            && can_split(flat, names, &splits, trees, &sizes, min, NodeId(n))
        {
            nodes.push(NodeId(n))?;
        }
    }
    let region_of = regions_of(alloc, &trees.flat, &nodes)?;
    Ok(Split {
        nodes: List::from_vec(nodes),
        region_of: List::from_vec(region_of),
    })
}
