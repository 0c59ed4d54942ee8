//! What stands around a node: children and terminals.
ghost use Rattle.std.specs.Prelude.{◌≡◌, ◌<◌, length, option_map};
ghost use Rattle.lido_base.specs.Tree.{item_at};
ghost use Rattle.flat_grammar.specs.WholeOrder.{node_at as child_or_node};
ghost use Rattle.core_machine.specs.Evaluation.{leaf_value};
ghost use Rattle.core_machine.specs.Standings.{is_terminal_symbol, item_of};

use crate::Job;
use crate::slots::rule_at;
use flat_grammar::symbol_at;
use lido_base::{NodeId, SymId, Value};

/// What stands at an occurrence of the right side of a node's rule.
#[derive(Clone, Copy)]
enum Standing {
    Node(NodeId),
    Terminal(Value),
}

/// Whether a symbol is a terminal.
fn is_terminal(job: &Job, symbol: SymId) -> bool
    ensures { result ≡ is_terminal_symbol job.now.symbols symbol }
{
    match job.flat().symbols.as_slice().get(symbol.0 as usize) {
        Some(symbol) => symbol.terminal.is_some(),
        None => false,
    }
}

/// What stands at an occurrence of a node's rule, but for the left side.
fn stands_at(job: &Job, node: u32, occ: u16) -> Option<Standing>
    requires { node < length job.now.flat }
    ensures { option_map item_of result ≡ item_at job.now.flat node occ }
{
    if occ == 0 {
        return None;
    }
    job.facts();
    let tree = &job.trees().flat;
    match symbol_at(rule_at(job, node), occ) {
        None => None,
        Some(symbol) if is_terminal(job, symbol) => Some(Standing::Terminal(tree.terminal(
            NodeId(node),
            occ as u32,
        ))),
        Some(_) => Some(Standing::Node(tree.child(NodeId(node), occ as u32))),
    }
}

/// The node at an occurrence of a node's rule; where no node stands, the node itself.
pub fn node_at(job: &Job, node: u32, occ: u16) -> u32
    requires { node < length job.now.flat }
    ensures node { result ≡ child_or_node job.now.flat node occ }
    ensures inside { result < length job.now.flat }
{
    job.facts();
    match stands_at(job, node, occ) {
        Some(Standing::Node(child)) => child.0,
        _ => node,
    }
}

/// The terminal at an occurrence of a node's rule; where none stands, `Void`.
pub fn terminal_at(job: &Job, node: u32, occ: u16) -> Value
    requires { node < length job.now.flat }
    ensures { result ≡ leaf_value (item_at job.now.flat node occ) }
{
    match stands_at(job, node, occ) {
        Some(Standing::Terminal(value)) => value,
        _ => Value::Void,
    }
}
