//! An order of a graph's vertices, or a cycle. A graph is given by the predecessors of each vertex.
ghost use Rattle.std.specs.Prelude.{◌≡◌, ◌<◌, ◌≤◌, ◌+◌, ◌*◌, ◌↔◌, ℕ, suc, ◌^◌, List as Sequence, IsTrue, [], Some, slice_get, length, vec_len, sum_by, IfOk, IfErr, IfSome, IfNone};
ghost use Rattle.partitions.specs.Graph.{IsEdge, IsGraph, IsOrdered, IsGraphCycle};
ghost use Rattle.partitions.specs.Search.{IsClosed, IsSearch, IsBack, IsLater, IsTurnedPlace, weight};

use crate::cycle::cycle_on;
use lido_base::List;
use std::alloc::{AllocError, Global};

/// What a search knows of a vertex.
#[derive(Clone, Copy)]
pub enum Mark {
    Fresh,
    /// It stands on the path.
    Entered,
    /// All its predecessors were closed before. Its number tells how many were closed before it.
    Closed(usize),
}

/// A search for an order.
#[derive(Drop)]
struct Search {
    marks: Vec<Mark>,
    /// For each vertex, how many of its first predecessors are known to be closed.
    tried: Vec<usize>,
    /// From a root on, behind each vertex a predecessor of it.
    path: Vec<usize>,
    /// How many vertices are closed.
    count: usize,
}

/// Whether the vertex is closed.
fn is_closed(marks: &[Mark], v: usize) -> bool
    requires { v < length marks.now }
    ensures { IsTrue result ↔ IsClosed marks.now v }
{
    matches!(marks[v], Mark::Closed(_))
}

/// Whether the vertex is fresh.
fn is_fresh(marks: &[Mark], v: usize) -> bool
    requires { v < length marks.now }
    ensures { IsTrue result ↔ (slice_get marks.now v ≡ Some Mark.Fresh) }
{
    matches!(marks[v], Mark::Fresh)
}

/// The place of the first predecessor that isn't closed, from a place on, or the number of predecessors.
fn next_open(row: &[usize], marks: &[Mark], from: usize) -> usize
    requires vertices { (j u : ℕ) → slice_get row.now j ≡ Some u → u < length marks.now }
    requires before { (j u : ℕ) → j < from → slice_get row.now j ≡ Some u → IsClosed marks.now u }
    ensures closed { (j u : ℕ) → j < result → slice_get row.now j ≡ Some u → IsClosed marks.now u }
    ensures unclosed { (u : ℕ) → slice_get row.now result ≡ Some u → ¬ IsClosed marks.now u }
{
    for place in from..row.len() {
        if !is_closed(marks, row[place]) {
            return place;
        }
    }
    row.len()
}

/// Puts a fresh vertex on the path.
fn enter(search: &mut Search, preds: &[List<usize>], v: usize) -> Result<(), AllocError>
    requires search { IsSearch preds.now search.old.marks.items search.old.tried.items search.old.path.items search.old.count }
    requires fresh { slice_get search.old.marks.items v ≡ Some Mark.Fresh }
    requires edge { (j w : ℕ) → suc j ≡ length search.old.path.items → slice_get search.old.path.items j ≡ Some w → IsEdge preds.now v w }
    ensures search { IfOk result
        (λ _. IsSearch preds.now search.new.marks.items search.new.tried.items search.new.path.items search.new.count) }
    ensures later { IfOk result (λ _. IsLater search.old.marks.items search.new.marks.items) }
    ensures entered { IfOk result (λ _. slice_get search.new.marks.items v ≡ Some Mark.Entered) }
    ensures nearer { IfOk result (λ _. sum_by weight search.new.marks.items < sum_by weight search.old.marks.items) }
{
    search.path.push(v)?;
    search.marks[v] = Mark::Entered;
    Ok(())
}

/// Takes the path's last vertex off, whose predecessors are all closed, and closes it.
fn close(search: &mut Search, preds: &[List<usize>], v: usize)
    requires small { length preds.now < 2 ^ 32 }
    requires search { IsSearch preds.now search.old.marks.items search.old.tried.items search.old.path.items search.old.count }
    requires last { (j : ℕ) → suc j ≡ length search.old.path.items → slice_get search.old.path.items j ≡ Some v }
    requires some { 0 < length search.old.path.items }
    requires closed { (u : ℕ) → IsEdge preds.now u v → IsClosed search.old.marks.items u }
    ensures search { IsSearch preds.now search.new.marks.items search.new.tried.items search.new.path.items search.new.count }
    ensures later { IsLater search.old.marks.items search.new.marks.items }
    ensures nearer { sum_by weight search.new.marks.items < sum_by weight search.old.marks.items }
{
    search.path.pop();
    search.marks[v] = Mark::Closed(search.count);
    search.count += 1;
}

/// Remembers that the first predecessors of a vertex are closed.
fn remember(search: &mut Search, preds: &[List<usize>], v: usize, place: usize)
    requires search { IsSearch preds.now search.old.marks.items search.old.tried.items search.old.path.items search.old.count }
    requires vertex { v < length preds.now }
    requires closed { (j u : ℕ) (row : Sequence ℕ) → slice_get preds.now v ≡ Some row → j < place → slice_get row j ≡ Some u
        → IsClosed search.old.marks.items u }
    ensures search { IsSearch preds.now search.new.marks.items search.new.tried.items search.new.path.items search.new.count }
    ensures marks { search.new.marks.items ≡ search.old.marks.items }
    ensures path { search.new.path.items ≡ search.old.path.items }
{
    search.tried[v] = place;
}

/// Goes on at the path's last vertex: closes it, or enters a predecessor. `Some` is a predecessor that stands on the path.
fn step(search: &mut Search, preds: &[List<usize>], v: usize) -> Result<Option<usize>, AllocError>
    requires small { length preds.now < 2 ^ 32 }
    requires graph { IsGraph preds.now }
    requires search { IsSearch preds.now search.old.marks.items search.old.tried.items search.old.path.items search.old.count }
    requires last { (j : ℕ) → suc j ≡ length search.old.path.items → slice_get search.old.path.items j ≡ Some v }
    requires some { 0 < length search.old.path.items }
    ensures search { IfOk result
        (λ _. IsSearch preds.now search.new.marks.items search.new.tried.items search.new.path.items search.new.count) }
    ensures later { IfOk result (λ _. IsLater search.old.marks.items search.new.marks.items) }
    ensures nearer { IfOk result (λ found. IfNone found (sum_by weight search.new.marks.items < sum_by weight search.old.marks.items)) }
    ensures back { IfOk result (λ found. IfSome found (λ u. IsBack preds.now search.new.path.items u)) }
{
    let row = preds[v].as_slice();
    let place = next_open(row, &search.marks, search.tried[v]);
    remember(search, preds, v, place);
    if place >= row.len() {
        close(search, preds, v);
        return Ok(None);
    }
    let next = row[place];
    if !is_fresh(&search.marks, next) {
        return Ok(Some(next));
    }
    enter(search, preds, next)?;
    Ok(None)
}

/// Closes a root and all from which a path leads to it. `Some` is a predecessor of the path's last vertex that stands on the
/// path.
fn close_from(
    search: &mut Search,
    preds: &[List<usize>],
    root: usize,
) -> Result<Option<usize>, AllocError>
    requires small { length preds.now < 2 ^ 32 }
    requires graph { IsGraph preds.now }
    requires search { IsSearch preds.now search.old.marks.items search.old.tried.items search.old.path.items search.old.count }
    requires path { search.old.path.items ≡ [] }
    requires root { root < length preds.now }
    ensures search { IfOk result
        (λ _. IsSearch preds.now search.new.marks.items search.new.tried.items search.new.path.items search.new.count) }
    ensures later { IfOk result (λ _. IsLater search.old.marks.items search.new.marks.items) }
    ensures done { IfOk result (λ found. IfNone found ((search.new.path.items ≡ [])
        × ¬ (slice_get search.new.marks.items root ≡ Some Mark.Fresh))) }
    ensures back { IfOk result (λ found. IfSome found (λ u. IsBack preds.now search.new.path.items u)) }
{
    if !is_fresh(&search.marks, root) {
        return Ok(None);
    }
    enter(search, preds, root)?;
    while let Some(v) = search.path.last().copied() {
        if let Some(u) = step(search, preds, v)? {
            return Ok(Some(u));
        }
    }
    Ok(None)
}

/// The search of which nothing is known.
fn new_search(alloc: Global, preds: &[List<usize>]) -> Result<Search, AllocError>
    ensures search { IfOk result (λ search. IsSearch preds.now search.marks.items search.tried.items search.path.items search.count) }
    ensures path { IfOk result (λ search. search.path.items ≡ []) }
{
    Ok(Search {
        marks: vec![in alloc; Mark::Fresh; preds.len()]?,
        tried: vec![in alloc; 0usize; preds.len()]?,
        path: Vec::new(alloc),
        count: 0,
    })
}

/// Whether the vertices can be put in an order in which each edge goes forward. `Some` is a cycle.
pub fn find_cycle(alloc: Global, preds: &[List<usize>]) -> Result<Option<Vec<usize>>, AllocError>
    requires small { length preds.now < 2 ^ 32 }
    requires graph { IsGraph preds.now }
    ensures ordered { IfOk result (λ found. IfNone found (IsOrdered preds.now)) }
    ensures cycle { IfOk result (λ found. IfSome found (λ cycle. IsGraphCycle preds.now cycle.items)) }
{
    let mut search = new_search(alloc, preds)?;
    for root in 0..preds.len() {
        if let Some(u) = close_from(&mut search, preds, root)? {
            let cycle = cycle_on(alloc, &search.path, u)?;
            return Ok(Some(cycle));
        }
    }
    Ok(None)
}
