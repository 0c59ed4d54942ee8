//! A relation between the vertices of a rule, and all that follows from it.
ghost use Rattle.std.specs.Prelude.{◌≡◌, ◌<◌, ◌≤◌, ◌↔◌, ◌⊎◌, ℕ, IsTrue, IfOk, length};
ghost use Rattle.induced_deps.specs.Rows.{IsIn, Has, IsTransitive, IsClosedAt, ArePassed, Follows, Nothing, Gains, FromOne, IsBehind, ComesTo};
ghost use Rattle.induced_deps.specs.Rounds.{room};

use crate::row::Row;
use lido_base::Memory;
use std::alloc::Global;

/// For each vertex those that come behind it. Once it is closed, a path of two edges is an edge.
#[derive(Drop)]
pub struct Closure {
    pub rows: Vec<Row>,
}

impl Closure {
    /// The relation without edges, on so many vertices.
    pub fn new(alloc: Global, vertices: usize) -> Result<Closure, Memory>
        ensures size { IfOk result (λ closure. length closure.rows.items ≡ vertices) }
        ensures none { IfOk result (λ closure. (v w : ℕ) → Has closure.rows.items v w → ⊥) }
    {
        let mut rows = Vec::new(alloc);
        for _ in 0..vertices {
            rows.push(Row::new())?;
        }
        Ok(Closure { rows })
    }

    /// Whether an edge leads from the one vertex to the other.
    pub fn has(&self, from: usize, to: usize) -> bool
        requires vertex { from < length self.now.rows.items }
        requires small { to < 1024 }
        ensures { IsTrue result ↔ Has self.now.rows.items from to }
    {
        self.rows[from].has(to)
    }

    /// Adds edges from a vertex to all vertices of the set. What follows from them isn't added.
    pub fn add(&mut self, from: usize, set: &Row)
        requires { from < length self.old.rows.items }
        ensures size { length self.new.rows.items ≡ length self.old.rows.items }
        ensures edges { Gains self.old.rows.items self.new.rows.items (FromOne from set.now.words) }
    {
        self.rows[from].join(set);
    }

    /// The row of a vertex, without numbers where there is no such vertex.
    fn row_of(&self, v: usize) -> Row
        ensures { (w : ℕ) → IsIn result.words w ↔ Has self.now.rows.items v w }
    {
        match self.rows.get(v) {
            Some(row) => *row,
            None => Row::new(),
        }
    }

    /// Passes a vertex: all that its row has is put into the set, and the vertex among the passed ones. A row that has all that comes
    /// behind its vertex is passed as a whole.
    fn pass(&self, v: usize, whole: bool, all: &mut Row, passed: &mut Row)
        requires small { v < 1024 }
        requires closed { IsTrue whole → IsClosedAt self.now.rows.items v }
        requires passed { ArePassed self.now.rows.items passed.old.words all.old.words }
        ensures all { (w : ℕ) → IsIn all.new.words w ↔ (IsIn all.old.words w ⊎ Has self.now.rows.items v w) }
        ensures passed { ArePassed self.now.rows.items passed.new.words all.new.words }
        ensures less { (IsIn passed.old.words v → ⊥) → room passed.new.words < room passed.old.words }
    {
        let row = self.row_of(v);
        all.join(&row);
        passed.add(v);
        if whole {
            passed.join(&row);
        }
    }

    /// All vertices that come behind one, where the rows of those greater than it have all that comes behind them.
    fn behind(&self, from: usize) -> Row
        requires vertex { from < length self.now.rows.items }
        requires closed { (u : ℕ) → from < u → IsClosedAt self.now.rows.items u }
        ensures own { (w : ℕ) → Has self.now.rows.items from w → IsIn result.words w }
        ensures closed { ArePassed self.now.rows.items result.words result.words }
        ensures follow { (w : ℕ) → IsIn result.words w → Follows self.now.rows.items Nothing from w }
    {
        let mut all = self.rows[from];
        let mut passed = Row::new();
        while let Some(v) = all.first_beside(&passed) {
            self.pass(v, v > from, &mut all, &mut passed);
        }
        all
    }

    /// The set with all that comes behind its vertices, where a path of two edges is an edge.
    fn with_behind(&self, set: &Row) -> Row
        requires { IsTransitive self.now.rows.items }
        ensures own { (w : ℕ) → IsIn set.now.words w → IsIn result.words w }
        ensures closed { ArePassed self.now.rows.items result.words result.words }
        ensures only { (w : ℕ) → IsIn result.words w → IsBehind self.now.rows.items set.now.words w }
    {
        let mut all = *set;
        let mut passed = Row::new();
        while let Some(v) = set.first_beside(&passed) {
            self.pass(v, true, &mut all, &mut passed);
        }
        all
    }

    /// Puts the set into the row of a vertex and into those of all vertices that come before it.
    fn join_before(&mut self, from: usize, set: &Row)
        requires vertex { from < length self.old.rows.items }
        requires small { from < 1024 }
        ensures size { length self.new.rows.items ≡ length self.old.rows.items }
        ensures edges { (v w : ℕ)
            → Has self.new.rows.items v w ↔ (Has self.old.rows.items v w ⊎ ComesTo self.old.rows.items from set.now.words v w) }
    {
        for v in 0..self.rows.len() {
            if v == from || self.rows[v].has(from) {
                self.rows[v].join(set);
            }
        }
    }

    /// Adds edges from a vertex to all vertices of the set, and all that follow, where a path of two edges is an edge and stays one:
    /// what comes behind the set goes into the row of the vertex and into those of all that come before it.
    fn add_closed(&mut self, from: usize, set: &Row)
        requires vertex { from < length self.old.rows.items }
        requires small { from < 1024 }
        requires transitive { IsTransitive self.old.rows.items }
        ensures size { length self.new.rows.items ≡ length self.old.rows.items }
        ensures transitive { IsTransitive self.new.rows.items }
        ensures edges { Gains self.old.rows.items self.new.rows.items (FromOne from set.now.words) }
    {
        let all = self.with_behind(set);
        self.join_before(from, &all);
    }

    /// Adds edges from a vertex to all vertices of the set, and where `closed` all that follow.
    pub fn join(&mut self, from: usize, set: &Row, closed: bool)
        requires vertex { from < length self.old.rows.items }
        requires small { from < 1024 }
        requires transitive { IsTrue closed → IsTransitive self.old.rows.items }
        ensures size { length self.new.rows.items ≡ length self.old.rows.items }
        ensures transitive { IsTrue closed → IsTransitive self.new.rows.items }
        ensures edges { Gains self.old.rows.items self.new.rows.items (FromOne from set.now.words) }
    {
        if closed {
            self.add_closed(from, set);
        } else {
            self.add(from, set);
        }
    }

    /// Adds all edges that follow: then a path of two edges is an edge. The vertices are taken from the last to the first, each with
    /// the whole rows of those behind it, so that few rows are joined where most edges lead to greater vertices.
    pub fn close(&mut self)
        ensures size { length self.new.rows.items ≡ length self.old.rows.items }
        ensures transitive { IsTransitive self.new.rows.items }
        ensures edges { Gains self.old.rows.items self.new.rows.items Nothing }
    {
        for k in 0..self.rows.len() {
            let from = self.rows.len() - 1 - k;
            let row = self.behind(from);
            self.rows[from] = row;
        }
    }
}
