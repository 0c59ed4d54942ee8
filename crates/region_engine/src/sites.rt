//! What stands around a node: its rule, children and terminals.
ghost use Rattle.std.specs.Prelude.{◌≡◌, ◌<◌, true, false, length, option_map, Contains, IfSome, IfNone, MatchOption};
ghost use Rattle.lido_base.specs.Tree.{contains, item_at};
ghost use Rattle.tree_store.specs.Regions.{number_among, region};
ghost use Rattle.flat_grammar.specs.Instances.{instance_at};
ghost use Rattle.flat_grammar.specs.Rules.{HasRule};
ghost use Rattle.flat_grammar.specs.SoundPlan.{goals_of};
ghost use Rattle.flat_grammar.specs.WellFormed.{attribute_of as attribute};
ghost use Rattle.flat_grammar.specs.WholeOrder.{node_at as child_or_node};
ghost use Rattle.core_machine.specs.Evaluation.{kept_value, leaf_value};
ghost use Rattle.core_machine.specs.Keys.{key_of};
ghost use Rattle.core_machine.specs.Standings.{is_terminal_symbol};
ghost use Rattle.region_engine.specs.Standing.{item_of};

use core_machine::Job;
use flat_grammar::{FlatAttr, FlatComp, FlatRule, Occ, symbol_at};
use lido_base::{NodeId, SymId, Value, ValueType};

/// What stands at an occurrence of the right side of a node's rule.
#[derive(Clone, Copy)]
enum Standing {
    Node(NodeId),
    Terminal(Value),
}

/// The rule of a node.
pub fn rule_at(job: &Job, node: u32) -> &FlatRule
    requires { node < length job.now.flat }
    ensures { HasRule job.now.rules job.now.flat node result.now }
{
    job.facts();
    let rule = job.trees().flat.rule(NodeId(node));
    &job.flat().rules.as_slice()[rule.0 as usize]
}

/// Whether a symbol is a terminal.
fn is_terminal(job: &Job, symbol: SymId) -> bool
    ensures { result ≡ is_terminal_symbol job.now.symbols symbol }
{
    match job.flat().symbols.as_slice().get(symbol.0 as usize) {
        Some(symbol) => symbol.terminal.is_some(),
        None => false,
    }
}

/// What stands at an occurrence of a node's rule, but for the left side.
fn stands_at(job: &Job, node: u32, occ: u16) -> Option<Standing>
    requires { node < length job.now.flat }
    ensures { option_map item_of result ≡ item_at job.now.flat node occ }
{
    if occ == 0 {
        return None;
    }
    job.facts();
    let tree = &job.trees().flat;
    match symbol_at(rule_at(job, node), occ) {
        None => None,
        Some(symbol) if is_terminal(job, symbol) => Some(Standing::Terminal(tree.terminal(
            NodeId(node),
            occ as u32,
        ))),
        Some(_) => Some(Standing::Node(tree.child(NodeId(node), occ as u32))),
    }
}

/// The node at an occurrence of a node's rule; where no node stands, the node itself.
pub fn node_at(job: &Job, node: u32, occ: u16) -> u32
    requires { node < length job.now.flat }
    ensures node { result ≡ child_or_node job.now.flat node occ }
    ensures inside { result < length job.now.flat }
{
    job.facts();
    match stands_at(job, node, occ) {
        Some(Standing::Node(child)) => child.0,
        _ => node,
    }
}

/// The terminal at an occurrence of a node's rule; where none stands, `Void`.
pub fn terminal_at(job: &Job, node: u32, occ: u16) -> Value
    requires { node < length job.now.flat }
    ensures { result ≡ leaf_value (item_at job.now.flat node occ) }
{
    match stands_at(job, node, occ) {
        Some(Standing::Terminal(value)) => value,
        _ => Value::Void,
    }
}

/// The region of a node.
pub fn region_at(job: &Job, node: u32) -> u32
    requires { node < length job.now.flat }
    ensures region { result ≡ region job.now.flat job.now.nodes node }
    ensures small { result < 256 }
{
    job.split().region_of.as_slice()[node as usize] as u32
}

/// The region that begins at a node; `None` where it is no split node.
fn begun_at(job: &Job, node: u32) -> Option<u32>
    requires { node < length job.now.flat }
    ensures { MatchOption result (contains node job.now.nodes ≡ false)
        (λ r. (contains node job.now.nodes ≡ true) × (r ≡ number_among job.now.nodes node) × (0 < r) × (r < 256)) }
{
    job.facts();
    let region = region_at(job, node);
    if region > 0 && job.split().nodes.as_slice()[region as usize - 1].0 == node {
        Some(region)
    } else {
        None
    }
}

/// The key of an attribute occurrence, where a split node stands there.
pub fn key_at(job: &Job, node: u32, o: Occ) -> Option<u32>
    requires { node < length job.now.flat }
    ensures { MatchOption result (contains (child_or_node job.now.flat node o.occ) job.now.nodes ≡ false)
        (λ key. (contains (child_or_node job.now.flat node o.occ) job.now.nodes ≡ true) × (key ≡ key_of job.now (instance_at job.now.flat node o))) }
{
    let region = begun_at(job, node_at(job, node, o.occ))?;
    Some((region - 1) * 256 + o.attr.0 as u32)
}

/// The computation of a goal, if the rule has one.
pub fn computation(rule: &FlatRule, goal: Occ) -> Option<&FlatComp>
    ensures some { IfSome result (λ c. Contains rule.now.comps c.now × (c.now.goal ≡ goal)) }
    ensures none { IfNone result (¬ Contains (goals_of rule.now) goal) }
{
    for comp in rule.comps.as_slice() {
        if comp.goal == goal {
            return Some(comp);
        }
    }
    None
}

/// The attribute at an occurrence of a rule.
pub fn attribute_of(job: &Job, rule: &FlatRule, o: Occ) -> Option<FlatAttr>
    ensures { result ≡ attribute job.now.symbols rule.now o }
{
    let symbol = symbol_at(rule, o.occ)?;
    let symbol = job.flat().symbols.as_slice().get(symbol.0 as usize)?;
    symbol.attrs.as_slice().get(o.attr.0 as usize).copied()
}

/// What an attribute keeps of a value.
pub fn kept(attr: Option<FlatAttr>, value: Value) -> Value
    ensures { result ≡ kept_value attr value }
{
    match (attr, value) {
        (Some(attr), Value::Bad(origin)) if attr.ty == ValueType::Void => Value::Bad(origin),
        (Some(attr), _) if attr.ty == ValueType::Void => Value::Void,
        _ => value,
    }
}
