//! How the induced dependencies of symbols and the edges of rules feed each other.
ghost use Rattle.std.specs.Prelude.{◌≡◌, ◌+◌, ◌<◌, ◌≤◌, ◌↔◌, ◌⊎◌, ◌≢◌, ℕ, IsTrue, IsFalse, IsBitSet, All, length, map};
ghost use Rattle.induced_deps.specs.Rows.{Gains, Has, IsTransitive};
ghost use Rattle.induced_deps.specs.Rounds.{HasRow, IsAtSymbol, IsBit, IsProjected, IsReady, OfPlaces, OfRow, OfRows, Tells, room_of_rows, room_of_all, rows_of};
ghost use Rattle.induced_deps.specs.Vertices.{AreWithin};

use crate::closure::Closure;
use crate::direct::{attributes_of, vertices_of};
use crate::due::Due;
use crate::graph::Place;
use flat_grammar::Bits;
use lido_base::List;

/// How many rows of a rule's symbols are joined one by one at a visit. Where more have something new, all edges are closed at once,
/// which then costs less.
const FEW: usize = 16;

/// Adds edges from a vertex of a place, by the row of its attribute, and where `closed` what follows from them. It tells whether any
/// was new.
fn join_row(place: Place, a: usize, row: Bits, closed: bool, closure: &mut Closure) -> bool
    requires attribute { a < place.width }
    requires wide { place.width ≤ 256 }
    requires within { place.offset + place.width ≤ length closure.old.rows.items }
    requires few { length closure.old.rows.items ≤ 1024 }
    requires transitive { IsTrue closed → IsTransitive closure.old.rows.items }
    ensures size { length closure.new.rows.items ≡ length closure.old.rows.items }
    ensures transitive { IsTrue closed → IsTransitive closure.new.rows.items }
    ensures edges { Gains closure.old.rows.items closure.new.rows.items (OfRow place (place.offset + a) row) }
{
    let from = place.offset + a;
    let known = attributes_of(&closure.rows[from], place);
    if row.is_within(known) {
        return false;
    }
    closure.join(from, &vertices_of(row.without(known), place), closed);
    true
}

/// Adds edges between the vertices of a place, by the rows of its symbol. What follows from them is added for so many rows with
/// something new, and it tells how many more it may still be. Where it is none, something may be missing.
fn join_rows(place: Place, rows: &[Bits], most: usize, closure: &mut Closure) -> usize
    requires size { length rows.now ≡ place.width }
    requires wide { place.width ≤ 256 }
    requires within { place.offset + place.width ≤ length closure.old.rows.items }
    requires few { length closure.old.rows.items ≤ 1024 }
    requires transitive { 0 < most → IsTransitive closure.old.rows.items }
    ensures size { length closure.new.rows.items ≡ length closure.old.rows.items }
    ensures transitive { 0 < result → IsTransitive closure.new.rows.items }
    ensures edges { Gains closure.old.rows.items closure.new.rows.items (OfRows place rows.now place.width) }
{
    let mut left = most;
    for (a, row) in rows.iter().enumerate() {
        if join_row(place, a, *row, left > 0, closure) {
            left = left.saturating_sub(1);
        }
    }
    left
}

/// Adds edges between the vertices of each place, by the rows of its symbol, and tells as `join_rows` does whether all that follows
/// is there.
fn join_induced(places: &[Place], ids: &[List<Bits>], closure: &mut Closure) -> usize
    requires rows { All (HasRow ids.now) places.now }
    requires within { AreWithin places.now (length closure.old.rows.items) }
    requires few { length closure.old.rows.items ≤ 1024 }
    requires transitive { IsTransitive closure.old.rows.items }
    ensures size { length closure.new.rows.items ≡ length closure.old.rows.items }
    ensures transitive { 0 < result → IsTransitive closure.new.rows.items }
    ensures edges { Gains closure.old.rows.items closure.new.rows.items (OfPlaces ids.now places.now) }
{
    let mut left = FEW;
    for place in places {
        let rows = ids[place.symbol.0 as usize].as_slice();
        left = join_rows(*place, rows, left, closure);
    }
    left
}

/// Adds edges between the vertices of each place, by the rows of its symbol, and what follows from them.
pub fn add_induced(places: &[Place], ids: &[List<Bits>], closure: &mut Closure)
    requires rows { All (HasRow ids.now) places.now }
    requires within { AreWithin places.now (length closure.old.rows.items) }
    requires few { length closure.old.rows.items ≤ 1024 }
    requires transitive { IsTransitive closure.old.rows.items }
    ensures size { length closure.new.rows.items ≡ length closure.old.rows.items }
    ensures transitive { IsTransitive closure.new.rows.items }
    ensures edges { Gains closure.old.rows.items closure.new.rows.items (OfPlaces ids.now places.now) }
{
    if join_induced(places, ids, closure) == 0 {
        closure.close();
    }
}

/// Puts the attributes of the set into a row, and tells whether any was new.
fn put(rows: &mut [Bits], a: usize, set: Bits) -> bool
    requires { a < length rows.old }
    ensures size { length rows.new ≡ length rows.old }
    ensures bits { (k b : ℕ) → IsBit rows.new k b ↔ (IsBit rows.old k b ⊎ ((k ≡ a) × IsBitSet set b)) }
    ensures same { IsFalse result → rows.new ≡ rows.old }
    ensures less { IsTrue result → room_of_rows rows.new < room_of_rows rows.old }
{
    if set.is_within(rows[a]) {
        return false;
    }
    rows[a] = rows[a].union(set);
    true
}

/// Puts the edges between the vertices of a place into the rows of its symbol, and tells whether any was new.
fn project_at(place: Place, closure: &Closure, rows: &mut [Bits]) -> bool
    requires size { length rows.old ≡ place.width }
    requires few { place.width ≤ 256 }
    requires within { place.offset + place.width ≤ length closure.now.rows.items }
    requires small { length closure.now.rows.items ≤ 1024 }
    ensures size { length rows.new ≡ length rows.old }
    ensures bits { (a b : ℕ)
        → IsBit rows.new a b ↔ (IsBit rows.old a b
        ⊎ ((a < place.width) × (b < place.width) × Has closure.now.rows.items (place.offset + a) (place.offset + b))) }
    ensures same { IsFalse result → rows.new ≡ rows.old }
    ensures lighter { room_of_rows rows.new ≤ room_of_rows rows.old }
    ensures less { IsTrue result → room_of_rows rows.new < room_of_rows rows.old }
{
    let mut grew = false;
    for a in 0..place.width {
        let set = attributes_of(&closure.rows[place.offset + a], place);
        if put(rows, a, set) {
            grew = true;
        }
    }
    grew
}

/// Puts the edges between the vertices of a place into the rows of its symbol, among those of all symbols.
fn project_place(place: Place, closure: &Closure, ids: &mut [List<Bits>]) -> bool
    requires rows { HasRow ids.old place }
    requires within { place.offset + place.width ≤ length closure.now.rows.items }
    requires small { length closure.now.rows.items ≤ 1024 }
    ensures sizes { map length ids.new ≡ map length ids.old }
    ensures bits { (x a b : ℕ)
        → IsBit (rows_of ids.new x) a b ↔ (IsBit (rows_of ids.old x) a b ⊎ IsAtSymbol place closure.now.rows.items x a b) }
    ensures others { (x : ℕ) → x ≢ place.symbol.0 → rows_of ids.new x ≡ rows_of ids.old x }
    ensures same { IsFalse result → ids.new ≡ ids.old }
    ensures lighter { room_of_all ids.new ≤ room_of_all ids.old }
    ensures less { IsTrue result → room_of_all ids.new < room_of_all ids.old }
{
    let rows = &mut ids[place.symbol.0 as usize];
    project_at(place, closure, rows.items.as_mut_slice())
}

/// Puts the edges between the vertices of a place into the rows of its symbol. Where any was new, all rules that have the symbol
/// are to be visited.
fn feed(place: Place, closure: &Closure, ids: &mut [List<Bits>], due: &mut Due) -> bool
    requires rows { HasRow ids.old place }
    requires within { place.offset + place.width ≤ length closure.now.rows.items }
    requires small { length closure.now.rows.items ≤ 1024 }
    requires ready { IsReady ids.old due.old }
    ensures sizes { map length ids.new ≡ map length ids.old }
    ensures bits { (x a b : ℕ)
        → IsBit (rows_of ids.new x) a b ↔ (IsBit (rows_of ids.old x) a b ⊎ IsAtSymbol place closure.now.rows.items x a b) }
    ensures tells { Tells due.old due.new ids.old ids.new }
    ensures same { IsFalse result → ids.new ≡ ids.old }
    ensures still { IsFalse result → due.new ≡ due.old }
    ensures lighter { room_of_all ids.new ≤ room_of_all ids.old }
    ensures less { IsTrue result → room_of_all ids.new < room_of_all ids.old }
{
    if !project_place(place, closure, ids) {
        return false;
    }
    due.grown(place.symbol);
    true
}

/// Puts the edges between vertices of one place into the rows of the symbols, and tells whether any was new. All rules that have
/// a symbol whose rows grew are to be visited.
pub fn project(places: &[Place], closure: &Closure, ids: &mut [List<Bits>], due: &mut Due) -> bool
    requires rows { All (HasRow ids.old) places.now }
    requires within { AreWithin places.now (length closure.now.rows.items) }
    requires small { length closure.now.rows.items ≤ 1024 }
    requires ready { IsReady ids.old due.old }
    ensures sizes { map length ids.new ≡ map length ids.old }
    ensures sound { (x a b : ℕ) → IsBit (rows_of ids.new x) a b
        → IsBit (rows_of ids.old x) a b ⊎ IsProjected places.now closure.now.rows.items x a b }
    ensures tells { Tells due.old due.new ids.old ids.new }
    ensures same { IsFalse result → ids.new ≡ ids.old }
    ensures still { IsFalse result → due.new ≡ due.old }
    ensures all { IsFalse result → (x a b : ℕ) → IsProjected places.now closure.now.rows.items x a b → IsBit (rows_of ids.new x) a b }
    ensures lighter { room_of_all ids.new ≤ room_of_all ids.old }
    ensures less { IsTrue result → room_of_all ids.new < room_of_all ids.old }
{
    let mut grew = false;
    for place in places {
        if feed(*place, closure, ids, due) {
            grew = true;
        }
    }
    grew
}
