//! The graph of the rules that aren't closed.
ghost use Rattle.std.specs.Prelude.{◌≡◌, ◌<◌, ◌↔◌, ◌⊎◌, ℕ, IsTrue, Some, map, length, slice_get, Contains, IfOk};
ghost use Rattle.lido_base.specs.declared.ids.SymId.{SymId as Symbol};
ghost use Rattle.flat_grammar.specs.declared.flat.FlatRule.{FlatRule as Rule};
ghost use Rattle.least_paths.specs.Graph.{IsGraph, IsEdge, has_edge};
ghost use Rattle.rule_graphs.specs.Children.{IsRuleEdge};

use flat_grammar::FlatRule;
use least_paths::bare;
use lido_base::List;
use std::alloc::{AllocError, Global};

/// Adds the edges of a rule.
fn add_rule(graph: &mut Vec<List<usize>>, rule: &FlatRule) -> Result<(), AllocError>
    requires { rule.now.left.0 < length graph.old.items }
    ensures count { IfOk result (λ _. length graph.new.items ≡ length graph.old.items) }
    ensures edges { IfOk result (λ _. (x y : ℕ) → IsEdge graph.new.items x y
        ↔ (IsEdge graph.old.items x y ⊎ ((rule.now.left.0 ≡ x) × Contains (map (λ (s : Symbol). s.0) rule.now.right) y))) }
{
    let left = rule.left.0 as usize;
    let right = rule.right.as_slice();
    for s in right {
        graph[left].push(s.0 as usize)?;
    }
    Ok(())
}

/// The graph of the rules that aren't closed: an edge leads from a rule's left side to each symbol of its right side. Symbols
/// are named by their numbers. It takes time linear in the rules. An `Err` is want of memory.
pub fn rule_graph(
    alloc: Global,
    count: usize,
    rules: &[FlatRule],
    closed: &[bool],
) -> Result<Vec<List<usize>>, AllocError>
    requires left { (r : Rule) → Contains rules.now r → r.left.0 < count }
    requires right { (r : Rule) (s : Symbol) → Contains rules.now r → Contains r.right s → s.0 < count }
    requires each { length closed.now ≡ length rules.now }
    ensures count { IfOk result (λ graph. length graph.items ≡ count) }
    ensures graph { IfOk result (λ graph. IsGraph graph.items) }
    ensures edges { IfOk result (λ graph. (x y : ℕ) → IsTrue (has_edge graph.items x y)
        ↔ IsRuleEdge rules.now closed.now (length rules.now) x y) }
{
    let mut graph = bare(alloc, count)?;
    for i in 0..rules.len() {
        if !closed[i] {
            add_rule(&mut graph, &rules[i])?;
        }
    }
    Ok(graph)
}
