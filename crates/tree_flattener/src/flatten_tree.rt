//! The flat tree of a written tree that fits the grammar.
ghost use Rattle.std.specs.Prelude.{◌≡◌, ◌<◌, ◌≤◌, ◌+◌, ℕ, List, IfOk, OnOk, IfErr, All, length};
ghost use Rattle.lido_base.specs.Tree.{IsTree};
ghost use Rattle.lido_base.specs.Plain.{plain_tree};
ghost use Rattle.flat_grammar.specs.Fitting.{IsFitting, IsWithinLimits};
ghost use Rattle.flat_grammar.specs.FlatTrees.{IsFlatTree};
ghost use Rattle.tree_flattener.specs.Drafts.{Suits, IsPlaced, IsWalk, most_nodes};
ghost use Rattle.tree_flattener.specs.Limits.{IsRefused};
ghost use Rattle.tree_flattener.specs.Forms.{AreForms};

use crate::counts::check_limits;
use crate::draft::{Draft, Spot};
use crate::forms::{Form, forms};
use crate::walk::{climb, close, go_down};
use flat_grammar::Flat;
use lido_base::{List as Sequence, Memory, NodeId};
use std::alloc::Global;
use tree_store::{Tree, TreeFault, Trees};

/// The flat tree of the root alone.
fn first(alloc: Global, flat: &Flat, written: &Tree) -> Result<Draft, Memory>
    requires suits { Suits flat.now.symbols flat.now.rules flat.now.shapes written.now }
    requires few { length written.now ≤ most_nodes }
    ensures walk { IfOk result (λ draft. IsWalk flat.now.symbols flat.now.rules flat.now.shapes written.now draft (record { node = 0; tail = 0; done = 0 })) }
    ensures placed { IfOk result (λ draft. IsPlaced written.now draft.flat draft.node_of) }
    ensures one { IfOk result (λ draft. length draft.flat_of ≡ 1) }
{
    let mut tree = Tree::new(alloc)?;
    let root = NodeId(0);
    tree.add_node(
        written.rule(root),
        None,
        written.line(root),
        written.column(root),
    )?;
    let node_of = Sequence::from_vec(vec![in alloc; 0]?);
    let flat_of = Sequence::from_vec(vec![in alloc; 0]?);
    Ok(Draft {
        flat: tree,
        node_of,
        flat_of,
    })
}

/// All nodes are attached, and the spot is at the last one.
fn attach_all(
    flat: &Flat,
    forms: &[Form],
    written: &Tree,
    draft: &mut Draft,
) -> Result<Spot, Memory>
    requires walk { IsWalk flat.now.symbols flat.now.rules flat.now.shapes written.now draft.old (record { node = 0; tail = 0; done = 0 }) }
    requires placed { IsPlaced written.now draft.old.flat draft.old.node_of }
    requires forms { AreForms flat.now.symbols flat.now.rules flat.now.shapes forms.now }
    requires one { length draft.old.flat_of ≡ 1 }
    ensures walk { IfOk result (λ at. IsWalk flat.now.symbols flat.now.rules flat.now.shapes written.now draft.new at) }
    ensures placed { OnOk result (IsPlaced written.now draft.new.flat draft.new.node_of) }
    ensures all { IfOk result (λ at. length draft.new.flat_of ≡ length written.now) }
{
    let mut at = Spot {
        node: 0,
        tail: 0,
        done: 0,
    };
    for n in 1..written.len() {
        let Some(parent) = written.parent(NodeId(n)) else {
            unreachable!();
        };
        at = climb(flat, forms, written, draft, at, parent.0)?;
        at = go_down(flat, forms, written, draft, at, n)?;
    }
    Ok(at)
}

/// The flat tree of a written tree that suits the grammar. An `Err` is want of memory.
pub fn flat_tree(alloc: Global, flat: &Flat, written: &Tree) -> Result<Draft, Memory>
    requires suits { Suits flat.now.symbols flat.now.rules flat.now.shapes written.now }
    requires few { length written.now ≤ most_nodes }
    ensures flat { IfOk result (λ draft. IsFlatTree flat.now.rules flat.now.shapes written.now draft.flat draft.node_of) }
    ensures inside { IfOk result (λ draft. All (λ n. n < length written.now) draft.node_of) }
{
    let forms = forms(alloc, flat)?;
    let forms = forms.as_slice();
    let mut draft = first(alloc, flat, written)?;
    let last = attach_all(flat, forms, written, &mut draft)?;
    let root = climb(flat, forms, written, &mut draft, last, 0)?;
    close(flat, forms, written, &mut draft, root)?;
    Ok(draft)
}

/// Makes the flat tree of a written tree that fits the grammar: under each list node a chain of cells, each with one element
/// and the next cell, the last with nothing. `node_of` gives the written node of each flat node, a cell's being its list's.
///
/// `written` has at most 1,048,576 nodes. `TooMany` comes where the flat tree has more than 4,194,304 instances, and else where
/// it has more than 16,777,216 text cells; `Memory` is want of memory.
pub fn flatten(alloc: Global, flat: &Flat, written: Tree) -> Result<Trees, TreeFault>
    requires fits { (texts : List (List ℕ)) × IsFitting flat.now.symbols flat.now.rules flat.now.shapes flat.now.root (plain_tree texts written) }
    requires few { length written ≤ 1048576 }
    ensures written { IfOk result (λ trees. trees.written ≡ written) }
    ensures flat { IfOk result (λ trees. IsFlatTree flat.now.rules flat.now.shapes written trees.flat trees.node_of) }
    ensures within { IfOk result (λ trees. IsWithinLimits flat.now.symbols flat.now.rules trees.flat) }
    ensures refused { IfErr result (λ e. IsRefused flat.now.symbols flat.now.rules flat.now.shapes written e) }
{
    let Ok(draft) = flat_tree(alloc, flat, &written) else {
        return Err(TreeFault::Memory);
    };
    let Draft {
        flat: tree,
        node_of,
        ..
    } = draft;
    match check_limits(alloc, flat, &tree) {
        Ok(()) => {}
        Err(e) => return Err(e),
    }
    Ok(Trees {
        written,
        flat: tree,
        node_of,
    })
}
