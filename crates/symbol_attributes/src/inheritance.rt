//! Which symbols inherit which classes.
ghost use Rattle.std.specs.Prelude.{◌≡◌, ◌<◌, ◌↔◌, ◌⊎◌, ℕ, map, length, Contains, IfOk};
ghost use Rattle.lido_base.specs.Tree.{contains};
ghost use Rattle.lido_syntax.specs.declared.spec.Name.{Name as Named};
ghost use Rattle.lido_syntax.specs.Production.{name_of};
ghost use Rattle.least_paths.specs.Graph.{IsGraph, IsEdge, is_in};
ghost use Rattle.symbol_attributes.specs.Inheritance.{number, numbers_of, is_heir};
ghost use Rattle.symbol_attributes.specs.Inheritance.{AreNumberedIn, IsItemEdge, IsDirectEdge, AreHeirs, AreRows, IsInheritance};

use least_paths::{bare, reaching};
use lido_base::{List, Memory};
use lido_symbols::Names;
use lido_syntax::{Name, Spec, SymbolItem};
use std::alloc::{AllocError, Global};

/// For each class which symbols inherit it, directly or through classes.
#[derive(Drop)]
pub struct Inheritance {
    /// By the number of the class, then by that of the heir.
    pub heirs: Vec<Vec<bool>>,
}

/// The numbers of the symbols that are named.
fn numbers_of_names(
    alloc: Global,
    numbers: &Names,
    names: &[Name],
) -> Result<Vec<usize>, AllocError>
    ensures { IfOk result (λ list. list.items ≡ numbers_of numbers.now names.now) }
{
    let mut list = Vec::new(alloc);
    for name in names {
        list.push(numbers.number(name.id))?;
    }
    Ok(list)
}

/// Adds an edge from each of these vertices to one.
fn add_edges(graph: &mut Vec<List<usize>>, row: &[usize], x: usize) -> Result<(), AllocError>
    requires { (y : ℕ) → Contains row.now y → y < length graph.old.items }
    ensures count { IfOk result (λ _. length graph.new.items ≡ length graph.old.items) }
    ensures edges { IfOk result (λ _. (u v : ℕ) → IsEdge graph.new.items u v
        ↔ (IsEdge graph.old.items u v ⊎ (Contains row.now u × (v ≡ x)))) }
{
    for y in row {
        graph[*y].push(x)?;
    }
    Ok(())
}

/// Adds an edge from each of some vertices to each of others.
fn join(graph: &mut Vec<List<usize>>, from: &[usize], to: &[usize]) -> Result<(), AllocError>
    requires { (y : ℕ) → Contains from.now y → y < length graph.old.items }
    ensures count { IfOk result (λ _. length graph.new.items ≡ length graph.old.items) }
    ensures edges { IfOk result (λ _. (u v : ℕ) → IsEdge graph.new.items u v
        ↔ (IsEdge graph.old.items u v ⊎ (Contains from.now u × Contains to.now v))) }
{
    for x in to {
        add_edges(graph, from, *x)?;
    }
    Ok(())
}

/// Adds an edge from each symbol of an item to each class that it names behind INHERITS.
fn add_item(
    alloc: Global,
    graph: &mut Vec<List<usize>>,
    numbers: &Names,
    item: &SymbolItem,
) -> Result<(), AllocError>
    requires { (y : ℕ) → Contains (numbers_of numbers.now item.now.names) y → y < length graph.old.items }
    ensures count { IfOk result (λ _. length graph.new.items ≡ length graph.old.items) }
    ensures edges { IfOk result (λ _. (u v : ℕ) → IsEdge graph.new.items u v
        ↔ (IsEdge graph.old.items u v ⊎ IsItemEdge numbers.now item.now u v)) }
{
    let from = numbers_of_names(alloc, numbers, item.names.as_slice())?;
    let to = numbers_of_names(alloc, numbers, item.inherits.as_slice())?;
    join(graph, &from, &to)?;
    Ok(())
}

/// The graph of symbols, with an edge to each class that a symbol's items name behind INHERITS.
fn direct(
    alloc: Global,
    numbers: &Names,
    items: &[SymbolItem],
) -> Result<Vec<List<usize>>, AllocError>
    requires { AreNumberedIn numbers.now items.now }
    ensures count { IfOk result (λ graph. length graph.items ≡ length numbers.now) }
    ensures edges { IfOk result (λ graph. (u v : ℕ) → IsEdge graph.items u v ↔ IsDirectEdge numbers.now items.now u v) }
{
    let mut graph = bare(alloc, numbers.len())?;
    for item in items {
        add_item(alloc, &mut graph, numbers, item)?;
    }
    Ok(graph)
}

/// Whether the vertex is among these.
fn has(next: &[usize], y: usize) -> bool
    ensures { result ≡ contains y next.now }
{
    next.iter().any(|x| y == *x)
}

/// Which vertices have this one among their next ones.
fn named_by(alloc: Global, graph: &[List<usize>], y: usize) -> Result<Vec<bool>, AllocError>
    ensures { IfOk result (λ set. set.items ≡ map (λ next. contains y next) graph.now) }
{
    let mut set = Vec::new(alloc);
    for next in graph {
        set.push(has(next.as_slice(), y))?;
    }
    Ok(set)
}

/// The symbols that inherit class `y`.
fn heirs_of(alloc: Global, graph: &[List<usize>], y: usize) -> Result<Vec<bool>, AllocError>
    requires { IsGraph graph.now }
    ensures { IfOk result (λ set. AreHeirs graph.now y set.items) }
{
    let sources = named_by(alloc, graph, y)?;
    Ok(reaching(alloc, graph, &sources)?)
}

/// For each symbol those that inherit it.
fn rows(alloc: Global, graph: &[List<usize>]) -> Result<Vec<Vec<bool>>, AllocError>
    requires { IsGraph graph.now }
    ensures { IfOk result (λ rows. AreRows graph.now (length graph.now) rows.items) }
{
    let mut rows = Vec::new(alloc);
    for y in 0..graph.len() {
        rows.push(heirs_of(alloc, graph, y)?)?;
    }
    Ok(rows)
}

/// Whether the number is in the set.
fn is_among(row: &[bool], x: usize) -> bool
    ensures { result ≡ is_in row.now x }
{
    match row.get(x) {
        Some(set) => *set,
        None => false,
    }
}

impl Inheritance {
    /// The inheritance of a specification whose SYMBOL items name numbered symbols alone. An `Err` is want of memory.
    pub fn of(alloc: Global, spec: &Spec, numbers: &Names) -> Result<Inheritance, Memory>
        requires { AreNumberedIn numbers.now spec.now.symbols }
        ensures { IfOk result (IsInheritance spec.now numbers.now) }
    {
        let graph = direct(alloc, numbers, spec.symbols.as_slice())?;
        let heirs = rows(alloc, &graph)?;
        Ok(Inheritance { heirs })
    }

    /// Whether the symbol with number `x` inherits the class with number `y`, directly or through classes. A number from the
    /// count of symbols on is that of none: it gives false.
    pub fn inherits(&self, x: usize, y: usize) -> bool
        ensures { result ≡ is_heir self.now x y }
    {
        match self.heirs.get(y) {
            Some(row) => is_among(row, x),
            None => false,
        }
    }
}
