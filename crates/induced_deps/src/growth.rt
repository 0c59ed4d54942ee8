//! The induced dependencies of all symbols.
ghost use Rattle.std.specs.Prelude.{◌≡◌, ◌<◌, ◌≤◌, ◌⊎◌, ℕ, IfOk, IsTrue, IsFalse, All, Contains, map, length};
ghost use Rattle.flat_grammar.specs.Dependencies.{AreInducedRows};
ghost use Rattle.induced_deps.specs.Due.{IsDone, IsUser, in_turn};
ghost use Rattle.induced_deps.specs.Graphs.{AreDue, AreGraphs, AreSettled, AreSoundRows, AreUsers, HaveRows, IsGraph, IsSettled};
ghost use Rattle.induced_deps.specs.Rows.{Gains, IsTransitive};
ghost use Rattle.induced_deps.specs.Rounds.{HasRow, IsBit, IsProjected, IsReady, OfPlaces, Tells, room_of_all, rows_of};
ghost use Rattle.induced_deps.specs.Vertices.{AreWithin};

use crate::closure::Closure;
use crate::direct::add_comps;
use crate::due::{Due, add_user};
use crate::graph::{Place, places_of};
use crate::rounds::{add_induced, project};
use flat_grammar::{Bits, Deps, Flat, FlatRule};
use lido_base::{List, Memory};
use std::alloc::Global;

/// The edges of a rule while they grow.
#[derive(Drop)]
pub struct Graph {
    places: Vec<Place>,
    closure: Closure,
}

/// The graph of a rule with its direct dependencies.
fn graph_of(alloc: Global, flat: &Flat, rule: &FlatRule) -> Result<Graph, Memory>
    requires { Contains flat.now.rules rule.now }
    ensures { IfOk result (λ g. IsGraph flat.now.symbols flat.now.rules rule.now g.places.items g.closure.rows.items) }
{
    let (places, count) = places_of(alloc, flat, rule)?;
    let mut closure = Closure::new(alloc, count)?;
    add_comps(alloc, &places, rule.comps.as_slice(), &mut closure)?;
    Ok(Graph { places, closure })
}

/// Lets the edges of a rule and the rows of the symbols feed each other once, and tells whether a row grew.
fn step(graph: &mut Graph, ids: &mut [List<Bits>], due: &mut Due) -> bool
    requires rows { All (HasRow ids.old) graph.old.places.items }
    requires within { AreWithin graph.old.places.items (length graph.old.closure.rows.items) }
    requires few { length graph.old.closure.rows.items ≤ 1024 }
    requires transitive { IsTransitive graph.old.closure.rows.items }
    requires ready { IsReady ids.old due.old }
    ensures places { graph.new.places ≡ graph.old.places }
    ensures size { length graph.new.closure.rows.items ≡ length graph.old.closure.rows.items }
    ensures transitive { IsTransitive graph.new.closure.rows.items }
    ensures edges { Gains graph.old.closure.rows.items graph.new.closure.rows.items (OfPlaces ids.old graph.old.places.items) }
    ensures sizes { map length ids.new ≡ map length ids.old }
    ensures sound { (x a b : ℕ) → IsBit (rows_of ids.new x) a b
        → IsBit (rows_of ids.old x) a b ⊎ IsProjected graph.old.places.items graph.new.closure.rows.items x a b }
    ensures tells { Tells due.old due.new ids.old ids.new }
    ensures same { IsFalse result → ids.new ≡ ids.old }
    ensures still { IsFalse result → due.new ≡ due.old }
    ensures settled { IsFalse result → IsSettled ids.new graph.new }
    ensures lighter { room_of_all ids.new ≤ room_of_all ids.old }
    ensures less { IsTrue result → room_of_all ids.new < room_of_all ids.old }
{
    add_induced(&graph.places, ids, &mut graph.closure);
    project(&graph.places, &graph.closure, ids, due)
}

/// Visits a rule if it is to be visited, and tells whether a row grew.
fn visit(
    flat: &Flat,
    rule: usize,
    graphs: &mut [Graph],
    ids: &mut [List<Bits>],
    due: &mut Due,
) -> bool
    requires rule { rule < length flat.now.rules }
    requires graphs { AreGraphs flat.now.symbols flat.now.rules graphs.old }
    requires rows { HaveRows flat.now.symbols ids.old }
    requires sound { AreSoundRows flat.now.symbols flat.now.rules ids.old }
    requires due { AreDue graphs.old ids.old due.old }
    ensures graphs { AreGraphs flat.now.symbols flat.now.rules graphs.new }
    ensures rows { HaveRows flat.now.symbols ids.new }
    ensures sound { AreSoundRows flat.now.symbols flat.now.rules ids.new }
    ensures due { AreDue graphs.new ids.new due.new }
    ensures quiet { IsFalse result → (j : ℕ) → (j ≡ rule) ⊎ IsDone due.old.flags.items j → IsDone due.new.flags.items j }
    ensures lighter { room_of_all ids.new ≤ room_of_all ids.old }
    ensures less { IsTrue result → room_of_all ids.new < room_of_all ids.old }
{
    if !due.has(rule) {
        return false;
    }
    if step(&mut graphs[rule], ids, due) {
        return true;
    }
    due.clear(rule);
    false
}

/// The rule that comes in turn.
fn in_turn(back: bool, count: usize, i: usize) -> usize
    requires { i < count }
    ensures { result ≡ in_turn back count i }
{
    if back { count - 1 - i } else { i }
}

/// Goes over all rules once, or goes back over them, and tells whether a row grew.
fn round(
    flat: &Flat,
    back: bool,
    graphs: &mut [Graph],
    ids: &mut [List<Bits>],
    due: &mut Due,
) -> bool
    requires graphs { AreGraphs flat.now.symbols flat.now.rules graphs.old }
    requires rows { HaveRows flat.now.symbols ids.old }
    requires sound { AreSoundRows flat.now.symbols flat.now.rules ids.old }
    requires due { AreDue graphs.old ids.old due.old }
    ensures graphs { AreGraphs flat.now.symbols flat.now.rules graphs.new }
    ensures rows { HaveRows flat.now.symbols ids.new }
    ensures sound { AreSoundRows flat.now.symbols flat.now.rules ids.new }
    ensures due { AreDue graphs.new ids.new due.new }
    ensures settled { IsFalse result → AreSettled ids.new graphs.new }
    ensures less { IsTrue result → room_of_all ids.new < room_of_all ids.old }
{
    let mut grew = false;
    let count = flat.rules.len();
    for i in 0..count {
        if visit(flat, in_turn(back, count, i), graphs, ids, due) {
            grew = true;
        }
    }
    grew
}

/// Goes over all rules, to and fro, until no row grows.
fn grow(flat: &Flat, graphs: &mut [Graph], ids: &mut [List<Bits>], due: &mut Due)
    requires graphs { AreGraphs flat.now.symbols flat.now.rules graphs.old }
    requires rows { HaveRows flat.now.symbols ids.old }
    requires sound { AreSoundRows flat.now.symbols flat.now.rules ids.old }
    requires due { AreDue graphs.old ids.old due.old }
    ensures { AreInducedRows flat.now.symbols flat.now.rules ids.new }
{
    let mut back = false;
    while round(flat, back, graphs, ids, due) {
        back = !back;
    }
}

/// The graphs of all rules.
fn graphs_of(alloc: Global, flat: &Flat) -> Result<Vec<Graph>, Memory>
    ensures { IfOk result (λ graphs. AreGraphs flat.now.symbols flat.now.rules graphs.items) }
{
    let mut graphs = Vec::new(alloc);
    for rule in flat.rules.as_slice() {
        graphs.push(graph_of(alloc, flat, rule)?)?;
    }
    Ok(graphs)
}

/// So many rows without bits.
fn zeros(alloc: Global, count: usize) -> Result<Vec<Bits>, Memory>
    ensures size { IfOk result (λ rows. length rows.items ≡ count) }
    ensures zero { IfOk result (λ rows. All (λ row. row ≡ 0) rows.items) }
{
    let mut rows = Vec::new(alloc);
    rows.resize(count, Bits::empty())?;
    Ok(rows)
}

/// Rows without bits, one for each attribute of each symbol.
fn empty_rows(alloc: Global, flat: &Flat) -> Result<Vec<List<Bits>>, Memory>
    ensures rows { IfOk result (λ ids. HaveRows flat.now.symbols ids.items) }
    ensures none { IfOk result (λ ids. (x a b : ℕ) → IsBit (rows_of ids.items x) a b → ⊥) }
{
    let mut ids = Vec::new(alloc);
    for symbol in flat.symbols.as_slice() {
        let rows = zeros(alloc, symbol.attrs.len())?;
        ids.push(List::from_vec(rows))?;
    }
    Ok(ids)
}

/// So many lists without items.
fn empty_lists(alloc: Global, count: usize) -> Result<Vec<List<usize>>, Memory>
    ensures size { IfOk result (λ lists. length lists.items ≡ count) }
    ensures none { IfOk result (λ lists. (x k : ℕ) → IsUser lists.items x k → ⊥) }
{
    let mut lists = Vec::new(alloc);
    for _ in 0..count {
        lists.push(List::new(alloc))?;
    }
    Ok(lists)
}

/// For each symbol the rules that have it.
fn users_of(alloc: Global, flat: &Flat, graphs: &[Graph]) -> Result<Vec<List<usize>>, Memory>
    requires { AreGraphs flat.now.symbols flat.now.rules graphs.now }
    ensures size { IfOk result (λ users. length users.items ≡ length flat.now.symbols) }
    ensures users { IfOk result (λ users. AreUsers graphs.now users.items) }
{
    let mut users = empty_lists(alloc, flat.symbols.len())?;
    for (k, graph) in graphs.iter().enumerate() {
        add_user(k, &graph.places, &mut users)?;
    }
    Ok(users)
}

/// The induced dependencies between the attributes of each symbol, exactly: each bit is an edge of the least relation, and each
/// edge is a bit (Kastens 1980).
///
/// The direct dependencies of a rule and the rows of its symbols feed each other, until no row grows. A rule is visited again only
/// where a row of one of its symbols grew. `Memory` is want of memory.
pub fn induce(alloc: Global, flat: &Flat) -> Result<Deps, Memory>
    ensures { IfOk result (λ deps. AreInducedRows flat.now.symbols flat.now.rules deps.ids) }
{
    let mut ids = empty_rows(alloc, flat)?;
    let mut graphs = graphs_of(alloc, flat)?;
    let users = users_of(alloc, flat, &graphs)?;
    let mut due = Due::all(alloc, users, graphs.len())?;
    grow(flat, &mut graphs, &mut ids, &mut due);
    Ok(Deps {
        ids: List::from_vec(ids),
    })
}
