//! Which symbols inherit which classes.
ghost use Rattle.std.specs.Prelude.{◌≡◌, map, IfOk};
ghost use Rattle.lido_base.specs.Tree.{contains};
ghost use Rattle.least_paths.specs.Graph.{IsGraph};
ghost use Rattle.symbol_inherit.specs.Classes.{inherits_by, is_set, graph_of, edges_of, AreReaching, HasReaching};

use least_paths::reaching;
use lido_base::{List, Memory};
use rule_tables::SymbolRow;
use std::alloc::Global;

/// For each symbol which ones inherit it, directly or through classes.
#[derive(Drop)]
pub struct Classes {
    /// By the class, then by the heir.
    pub heirs: Vec<Vec<bool>>,
}

/// Whether the number is set.
fn is_among(row: &[bool], x: usize) -> bool
    ensures { result ≡ is_set row.now x }
{
    match row.get(x) {
        Some(set) => *set,
        None => false,
    }
}

impl Classes {
    /// Whether symbol `x` inherits class `y`.
    pub fn inherits(&self, x: usize, y: usize) -> bool
        ensures { result ≡ inherits_by self.now x y }
    {
        match self.heirs.get(y) {
            Some(row) => is_among(row, x),
            None => false,
        }
    }
}

/// The classes that a symbol's items name behind INHERITS.
fn edges(alloc: Global, row: &SymbolRow) -> Result<List<usize>, Memory>
    ensures { IfOk result (λ next. next ≡ edges_of row.now) }
{
    let mut next = Vec::new(alloc);
    for class in row.classes.as_slice() {
        next.push(class.0 as usize)?;
    }
    Ok(List::from_vec(next))
}

/// The graph of symbols, with an edge to each class that a symbol's items name behind INHERITS.
pub fn heirs_graph(alloc: Global, rows: &[SymbolRow]) -> Result<Vec<List<usize>>, Memory>
    ensures { IfOk result (λ graph. graph.items ≡ graph_of rows.now) }
{
    let mut graph = Vec::new(alloc);
    for row in rows {
        graph.push(edges(alloc, row)?)?;
    }
    Ok(graph)
}

/// Whether the vertex is among these.
fn has(next: &[usize], y: usize) -> bool
    ensures { result ≡ contains y next.now }
{
    next.iter().any(|x| y == *x)
}

/// Which vertices have this one among their next ones.
fn named_by(alloc: Global, graph: &[List<usize>], y: usize) -> Result<Vec<bool>, Memory>
    ensures { IfOk result (λ set. set.items ≡ map (λ next. contains y next) graph.now) }
{
    let mut set = Vec::new(alloc);
    for next in graph {
        set.push(has(next.as_slice(), y))?;
    }
    Ok(set)
}

/// The symbols that inherit class `y`.
fn heirs_of(alloc: Global, graph: &[List<usize>], y: usize) -> Result<Vec<bool>, Memory>
    requires { IsGraph graph.now }
    ensures { IfOk result (λ set. AreReaching graph.now y set.items) }
{
    let sources = named_by(alloc, graph, y)?;
    Ok(reaching(alloc, graph, &sources)?)
}

impl Classes {
    /// The inheritance of the symbols of tables.
    pub fn of(alloc: Global, rows: &[SymbolRow]) -> Result<Classes, Memory>
        requires { IsGraph (graph_of rows.now) }
        ensures { IfOk result (HasReaching (graph_of rows.now)) }
    {
        let graph = heirs_graph(alloc, rows)?;
        let mut heirs = Vec::new(alloc);
        for y in 0..graph.len() {
            heirs.push(heirs_of(alloc, &graph, y)?)?;
        }
        Ok(Classes { heirs })
    }
}
