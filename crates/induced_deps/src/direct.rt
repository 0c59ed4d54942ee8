//! The direct dependencies of a rule as edges between its vertices.
ghost use Rattle.std.specs.Prelude.{◌≡◌, ◌+◌, ◌<◌, ◌≤◌, ◌↔◌, ℕ, OnOk, IsBitSet, Contains, length};
ghost use Rattle.flat_grammar.specs.Rules.{dependencies};
ghost use Rattle.flat_grammar.specs.declared.flat.Occ.{Occ as Occurrence};
ghost use Rattle.flat_grammar.specs.declared.flat.FlatComp.{FlatComp as Computation};
ghost use Rattle.induced_deps.specs.Rows.{IsIn, IsTransitive, Gains};
ghost use Rattle.induced_deps.specs.Vertices.{AreWithin, HasPlaces, IsAtPlace, IsPlaced, OfComps, ToGoal, number_in};

use crate::closure::Closure;
use crate::graph::Place;
use crate::row::Row;
use crate::shifts::first_bits;
use flat_grammar::{Bits, FlatComp, Occ, dependencies_of};
use lido_base::Memory;
use std::alloc::Global;

/// The vertices at a place whose attributes are in the set.
pub fn vertices_of(bits: Bits, place: Place) -> Row
    requires { place.offset + place.width ≤ 1024 }
    ensures { (w : ℕ) → IsIn result.words w ↔ IsAtPlace place bits w }
{
    Row::from_bits(first_bits(bits, place.width), place.offset)
}

/// The attributes at a place whose vertices are in the row.
pub fn attributes_of(row: &Row, place: Place) -> Bits
    requires within { place.offset + place.width ≤ 1024 }
    requires few { place.width ≤ 256 }
    ensures { (b : ℕ) → IsBitSet result b ↔ ((b < place.width) × IsIn row.now.words (place.offset + b)) }
{
    first_bits(row.bits_from(place.offset), place.width)
}

/// The number of a vertex.
fn number(places: &[Place], o: Occ) -> usize
    requires placed { IsPlaced places.now o }
    requires within { AreWithin places.now 1024 }
    ensures { result ≡ number_in places.now o }
{
    places[o.occ as usize].offset + o.attr.0 as usize
}

/// The set of one vertex.
fn only(vertex: usize) -> Row
    requires { vertex < 1024 }
    ensures { (w : ℕ) → IsIn result.words w ↔ (w ≡ vertex) }
{
    let mut row = Row::new();
    row.add(vertex);
    row
}

/// Adds edges from what a vertex depends on.
fn add_edges(places: &[Place], before: &[Occ], goal: Occ, closure: &mut Closure)
    requires before { (u : Occurrence) → Contains before.now u → IsPlaced places.now u }
    requires goal { IsPlaced places.now goal }
    requires within { AreWithin places.now (length closure.old.rows.items) }
    requires few { length closure.old.rows.items ≤ 1024 }
    ensures size { length closure.new.rows.items ≡ length closure.old.rows.items }
    ensures edges { Gains closure.old.rows.items closure.new.rows.items (ToGoal places.now before.now goal) }
{
    let goal = only(number(places, goal));
    for u in before {
        closure.add(number(places, *u), &goal);
    }
}

/// Adds the direct dependencies of a computation.
fn add_comp(
    alloc: Global,
    places: &[Place],
    comp: &FlatComp,
    closure: &mut Closure,
) -> Result<(), Memory>
    requires placed { HasPlaces places.now comp.now }
    requires within { AreWithin places.now (length closure.old.rows.items) }
    requires few { length closure.old.rows.items ≤ 1024 }
    ensures size { length closure.new.rows.items ≡ length closure.old.rows.items }
    ensures edges { OnOk result
        (Gains closure.old.rows.items closure.new.rows.items (ToGoal places.now (dependencies comp.now) comp.now.goal)) }
{
    let before = dependencies_of(alloc, comp)?;
    add_edges(places, before.as_slice(), comp.goal, closure);
    Ok(())
}

/// Adds the direct dependencies of these computations.
fn join_comps(
    alloc: Global,
    places: &[Place],
    comps: &[FlatComp],
    closure: &mut Closure,
) -> Result<(), Memory>
    requires placed { (c : Computation) → Contains comps.now c → HasPlaces places.now c }
    requires within { AreWithin places.now (length closure.old.rows.items) }
    requires few { length closure.old.rows.items ≤ 1024 }
    ensures size { length closure.new.rows.items ≡ length closure.old.rows.items }
    ensures edges { OnOk result (Gains closure.old.rows.items closure.new.rows.items (OfComps places.now comps.now)) }
{
    for comp in comps {
        add_comp(alloc, places, comp, closure)?;
    }
    Ok(())
}

/// Adds the direct dependencies of all computations of a rule, and what follows from them.
pub fn add_comps(
    alloc: Global,
    places: &[Place],
    comps: &[FlatComp],
    closure: &mut Closure,
) -> Result<(), Memory>
    requires placed { (c : Computation) → Contains comps.now c → HasPlaces places.now c }
    requires within { AreWithin places.now (length closure.old.rows.items) }
    requires few { length closure.old.rows.items ≤ 1024 }
    ensures size { length closure.new.rows.items ≡ length closure.old.rows.items }
    ensures transitive { OnOk result (IsTransitive closure.new.rows.items) }
    ensures edges { OnOk result (Gains closure.old.rows.items closure.new.rows.items (OfComps places.now comps.now)) }
{
    join_comps(alloc, places, comps, closure)?;
    closure.close();
    Ok(())
}
