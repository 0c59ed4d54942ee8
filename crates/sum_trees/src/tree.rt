//! A tree is read from the left, each open node asking for its rule's next element.
ghost use Rattle.std.specs.Prelude.{◌≡◌, ◌≢◌, ◌+◌, ◌-◌, ◌<◌, ◌≤◌, ℕ, ◌^◌, List, [], ◌∷◌, ◌++◌, length, Option, Some, None, slice_get, IfOk, OnOk, OnErr, IfErr};
ghost use Rattle.sum_trees.specs.declared.form.TreeNode.{TreeNode};
ghost use Rattle.sum_trees.specs.Trees.{rule_at, node_at, most_nodes, IsTree, IsPreorder, IsRuled, HasDistinctNames, IsReadable};
ghost use Rattle.lido_base.specs.Phases.{Gives, OneOf};
ghost use Rattle.sum_trees.specs.Steps.{Frame, IsPath, Reaches, Leads, AsksFor, LeadsNowhere, HasFewElements, IsReading};

use crate::form::{Child, Element, FormFault, SumRule, TreeNode};
use crate::marks::{take_begin, take_end, take_number};
use crate::scan::skip_white;
use lido_base::List;
use std::alloc::{AllocError, Global};

const MOST_NODES: usize = 1_048_576;

/// Gives a node one child more. An `Err` changes nothing.
fn push_child(nodes: &mut List<TreeNode>, at: usize, child: Child) -> Result<(), AllocError>
    requires { at < length nodes.old }
    ensures same_len { length nodes.new ≡ length nodes.old }
    ensures ok { OnOk result (node_at nodes.new at ≡ record (node_at nodes.old at) { children = (node_at nodes.old at).children ++ child ∷ [] }) }
    ensures others { (i : ℕ) → i ≢ at → node_at nodes.new i ≡ node_at nodes.old i }
{
    let node = &mut nodes.items[at];
    node.children.push(child)?;
    Ok(())
}

/// Gives a node a number more.
fn push_number(nodes: &mut List<TreeNode>, at: usize, z: i64) -> Result<(), AllocError>
    requires { at < length nodes.old }
    ensures same_len { length nodes.new ≡ length nodes.old }
    ensures ok { OnOk result (node_at nodes.new at ≡ record (node_at nodes.old at) { children = (node_at nodes.old at).children ++ Child.Int z ∷ [] }) }
    ensures others { (i : ℕ) → i ≢ at → node_at nodes.new i ≡ node_at nodes.old i }
{
    push_child(nodes, at, Child::Int(z))
}

/// The open node asks for a number.
fn step_number<'a>(
    nodes: &mut List<TreeNode>,
    at: u32,
    rest: &'a [u8],
    rules: &[SumRule],
) -> Result<&'a [u8], FormFault>
    requires there { at < length nodes.old }
    requires asks { AsksFor rules.now nodes.old at (Some Element.Int) }
    ensures leads { IfOk result (λ behind. (frames : List Frame) → IsPath rules.now nodes.old (length nodes.old) (Some at) frames → Leads rules.now frames nodes.old rest.now nodes.new (Some at) behind.now) }
    ensures outside { IfErr result (λ e. e ≡ FormFault.Outside → LeadsNowhere rules.now nodes.old at rest.now) }
    ensures shorter { IfOk result (λ behind. length behind.now < length rest.now) }
    ensures same_len { length nodes.new ≡ length nodes.old }
{
    let Some((z, behind)) = take_number(rest) else {
        return Err(FormFault::Outside);
    };
    push_number(nodes, at as usize, z)?;
    Ok(behind)
}

/// The open node asks for a node of this left side.
fn step_node<'a>(
    alloc: Global,
    nodes: &mut List<TreeNode>,
    at: u32,
    rest: &'a [u8],
    rules: &[SumRule],
    left: u32,
) -> Result<(u32, &'a [u8]), FormFault>
    requires there { at < length nodes.old }
    requires asks { AsksFor rules.now nodes.old at (Some (Element.Node left)) }
    requires small { length rules.now < 2 ^ 32 }
    requires few { length (node_at nodes.old at).children < 2 ^ 32 - 1 }
    requires distinct { HasDistinctNames rules.now }
    ensures leads { IfOk result (λ x. (frames : List Frame) → IsPath rules.now nodes.old (length nodes.old) (Some at) frames → Leads rules.now frames nodes.old rest.now nodes.new (Some x.0) x.1.now) }
    ensures outside { IfErr result (λ e. e ≡ FormFault.Outside → LeadsNowhere rules.now nodes.old at rest.now) }
    ensures shorter { IfOk result (λ x. length x.1.now < length rest.now) }
    ensures number { IfOk result (λ x. x.0 ≡ length nodes.old) }
    ensures one_more { OnOk result (length nodes.new ≡ length nodes.old + 1) }
    ensures bound { OnOk result (length nodes.new ≤ most_nodes) }
{
    let Some((rule, behind)) = take_begin(rules, rest) else {
        return Err(FormFault::Outside);
    };
    if rules[rule as usize].left != left || nodes.len() >= MOST_NODES {
        return Err(FormFault::Outside);
    }
    let number = nodes.len() as u32;
    let place = nodes.as_slice()[at as usize].children.len() as u32 + 1;
    push_child(nodes, at as usize, Child::Node(number))?;
    nodes.push(TreeNode {
        rule,
        parent: Some(at),
        place,
        children: List::new(alloc),
    })?;
    Ok((number, behind))
}

/// The open node asks for nothing more.
fn step_end<'a>(
    nodes: &[TreeNode],
    at: u32,
    rest: &'a [u8],
    rules: &[SumRule],
) -> Result<&'a [u8], FormFault>
    requires there { at < length nodes.now }
    requires asks { AsksFor rules.now nodes.now at None }
    ensures leads { IfOk result (λ behind. (frames : List Frame) → IsPath rules.now nodes.now (length nodes.now) (Some at) frames → Leads rules.now frames nodes.now rest.now nodes.now (node_at nodes.now at).parent behind.now) }
    ensures outside { IfErr result (λ e. e ≡ FormFault.Outside → LeadsNowhere rules.now nodes.now at rest.now) }
    ensures shorter { IfOk result (λ behind. length behind.now < length rest.now) }
{
    match take_end(rest) {
        Some(behind) => Ok(behind),
        None => Err(FormFault::Outside),
    }
}

/// What the open node asks for.
fn asked(nodes: &[TreeNode], at: u32, rules: &[SumRule]) -> Option<Element>
    requires there { at < length nodes.now }
    requires rule { (node_at nodes.now at).rule < length rules.now }
    ensures { AsksFor rules.now nodes.now at result }
{
    let node = &nodes[at as usize];
    rules[node.rule as usize]
        .right
        .as_slice()
        .get(node.children.len())
        .copied()
}

/// Reads what the open node asks for.
fn step<'a>(
    alloc: Global,
    nodes: &mut List<TreeNode>,
    at: u32,
    rest: &'a [u8],
    rules: &[SumRule],
) -> Result<(Option<u32>, &'a [u8]), FormFault>
    requires there { at < length nodes.old }
    requires rule { (node_at nodes.old at).rule < length rules.now }
    requires small { length rules.now < 2 ^ 32 }
    requires few { HasFewElements rules.now }
    requires distinct { HasDistinctNames rules.now }
    ensures leads { IfOk result (λ x. (frames : List Frame) → IsPath rules.now nodes.old (length nodes.old) (Some at) frames → Leads rules.now frames nodes.old rest.now nodes.new x.0 x.1.now) }
    ensures outside { IfErr result (λ e. e ≡ FormFault.Outside → LeadsNowhere rules.now nodes.old at rest.now) }
    ensures shorter { IfOk result (λ x. length x.1.now < length rest.now) }
    ensures bound { OnOk result (length nodes.old ≤ most_nodes → length nodes.new ≤ most_nodes) }
{
    match asked(nodes.as_slice(), at, rules) {
        Some(Element::Int) => match step_number(nodes, at, rest, rules) {
            Ok(behind) => Ok((Some(at), behind)),
            Err(e) => Err(e),
        },
        Some(Element::Node(left)) => match step_node(alloc, nodes, at, rest, rules, left) {
            Ok((number, behind)) => Ok((Some(number), behind)),
            Err(e) => Err(e),
        },
        None => {
            let parent = nodes.as_slice()[at as usize].parent;
            match step_end(nodes.as_slice(), at, rest, rules) {
                Ok(behind) => Ok((parent, behind)),
                Err(e) => Err(e),
            }
        }
    }
}

/// The nodes of the text's tree. `Outside` comes where the text is no tree of the rules.
fn tree_of(alloc: Global, text: &[u8], rules: &[SumRule]) -> Result<List<TreeNode>, FormFault>
    requires some { 0 < length rules.now }
    requires small { length rules.now < 2 ^ 32 }
    requires few { HasFewElements rules.now }
    requires distinct { HasDistinctNames rules.now }
    ensures tree { IfOk result (λ nodes. IsTree rules.now text.now nodes) }
    ensures only { IfOk result (λ nodes. (others : List TreeNode) → IsTree rules.now text.now others → others ≡ nodes) }
    ensures preorder { IfOk result (λ nodes. IsPreorder nodes) }
    ensures ruled { IfOk result (λ nodes. IsRuled rules.now nodes) }
    ensures outside { IfErr result (λ e. e ≡ FormFault.Outside → (nodes : List TreeNode) → IsTree rules.now text.now nodes → ⊥) }
{
    let Some((rule, mut rest)) = take_begin(rules, text) else {
        return Err(FormFault::Outside);
    };
    if rule != 0 {
        return Err(FormFault::Outside);
    }
    let mut nodes = List::new(alloc);
    nodes.push(TreeNode {
        rule: 0,
        parent: None,
        place: 0,
        children: List::new(alloc),
    })?;
    let mut current = Some(0u32);
    while let Some(at) = current {
        match step(alloc, &mut nodes, at, rest, rules) {
            Ok((next, behind)) => {
                current = next;
                rest = behind;
            }
            Err(e) => return Err(e),
        }
    }
    if !skip_white(rest).is_empty() {
        return Err(FormFault::Outside);
    }
    Ok(nodes)
}

/// Reads a bracketed tree: the nodes of `text`'s tree by `rules`, in preorder, of which the first has rule 0.
///
/// A node is a `(`, the name of its rule, what the rule's right side has, and a `)`; a terminal is a decimal number of 64 bits.
/// White space may stand anywhere but inside a name or a number. `Outside` comes exactly where the text is no such tree,
/// or one of more than 1,048,576 nodes; `Memory` where memory ran out.
pub fn read_sum_tree(
    alloc: Global,
    text: &[u8],
    rules: &[SumRule],
) -> Result<List<TreeNode>, FormFault>
    requires { IsReadable rules.now }
    ensures gives { Gives (λ nodes. nodes) (OneOf (IsTree rules.now text.now) FormFault.Outside) FormFault.Memory result }
    ensures preorder { IfOk result (λ nodes. IsPreorder nodes) }
    ensures ruled { IfOk result (λ nodes. IsRuled rules.now nodes) }
    ensures some { IfOk result (λ nodes. 0 < length nodes) }
{
    tree_of(alloc, text, rules)
}
