//! The graph of all plain rules of a specification.
ghost use Rattle.std.specs.Prelude.{◌≡◌, ◌↔◌, ℕ, IsTrue, length, IfOk};
ghost use Rattle.lido_base.specs.Environment.{Environment};
ghost use Rattle.least_paths.specs.Graph.{IsGraph, has_edge, is_in};
ghost use Rattle.rule_tables.specs.PlainRules.{is_child, plain_rules};
ghost use Rattle.rule_tables.specs.TablesOf.{AreTablesOf, named_symbols};

use lido_base::{List, Memory};
use rule_graphs::rule_graph;
use rule_tables::Tables;
use std::alloc::Global;

/// The set without members, for so many.
pub fn none_of(alloc: Global, count: usize) -> Result<Vec<bool>, Memory>
    ensures count { IfOk result (λ set. length set.items ≡ count) }
    ensures empty { IfOk result (λ set. (x : ℕ) → ¬ IsTrue (is_in set.items x)) }
{
    let set = vec![in alloc; false; count]?;
    Ok(set)
}

/// The graph of the plain rules of a specification: an edge leads from a symbol or cell to each one that stands on the right
/// side of one of its rules. They are named by their numbers. It takes time linear in the rules. An `Err` is want of memory.
pub fn child_graph(alloc: Global, tables: &Tables) -> Result<Vec<List<usize>>, Memory>
    requires { (env : Environment) × AreTablesOf env tables.now }
    ensures count { IfOk result (λ graph. length graph.items ≡ length tables.now.symbols) }
    ensures graph { IfOk result (λ graph. IsGraph graph.items) }
    ensures edges { IfOk result (λ graph. (x y : ℕ) → IsTrue (has_edge graph.items x y)
        ↔ IsTrue (is_child (plain_rules tables.now.spec (named_symbols tables.now)) x y)) }
{
    let plain = tables.plain.as_slice();
    let closed = none_of(alloc, plain.len())?;
    let graph = rule_graph(alloc, tables.symbols.len(), plain, &closed)?;
    Ok(graph)
}
