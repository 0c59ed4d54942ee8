//! What a CONSTITUENTS joins in a plain rule.
ghost use Rattle.std.specs.Prelude.{◌≡◌, ◌≤◌, ℕ, map, Contains, IfOk};
ghost use Rattle.lido_syntax.specs.Computation.{Holder};
ghost use Rattle.lido_base.specs.declared.ids.SymId.{SymId as Symbol};
ghost use Rattle.flat_grammar.specs.declared.flat.FlatExpr.{FlatExpr as Flat};
ghost use Rattle.rule_tables.specs.PlainRules.{PlainRule};
ghost use Rattle.rule_tables.specs.Slots.{Con};
ghost use Rattle.rule_tables.specs.Shares.{places as places_of};
ghost use Rattle.flat_slots.specs.Slots.{slots_in};
ghost use Rattle.flat_terms.specs.Scene.{Scene, constituents};
ghost use Rattle.flat_terms.specs.Sites.{IsSiteOf, IsKnownWith, IsGathered, is_among};
ghost use Rattle.flat_terms.specs.Folds.{single_at, comb_at, null_at, con_at, folded_at, joined_at};

use crate::site::{Role, Site, narrow};
use flat_copies::call;
use flat_grammar::FlatExpr;
use flat_slots::Slot;
use lido_base::{List, Memory, Value};
use lido_syntax::{Cons, With};
use std::alloc::Global;

/// The children that have the attribute of the CONSTITUENTS of that number: they count from 1.
pub fn givers(alloc: Global, site: &Site, number: u32) -> Result<Vec<usize>, Memory>
    ensures { IfOk result (λ found. (p : PlainRule) → map (λ (x : Symbol). x.0) site.now.plain.now.right ≡ p.right
        → found.items ≡ places_of (λ x. is_among (Con number) (slots_in site.now.slots.now x)) p) }
{
    let mut found = Vec::new(alloc);
    let right = site.plain.right.as_slice();
    for (j, symbol) in right.iter().enumerate() {
        if site.has_con(*symbol, number) {
            found.push(j + 1)?;
        }
    }
    Ok(found)
}

/// The value of a child's attribute.
fn con(site: &Site, number: u32, j: usize) -> FlatExpr
    ensures { (scene : Scene) → IsSiteOf scene site.now → j ≤ 65535 → result ≡ con_at scene number j }
{
    site.get(narrow(j), Slot::Con(number))
}

/// The value where there is no source.
pub fn null(alloc: Global, site: &Site, number: u32, with: With) -> FlatExpr
    ensures { (scene : Scene) → IsSiteOf scene site.now → IsKnownWith scene site.now with → number ≤ 65535 → result ≡ null_at scene number with }
{
    let comp = narrow(number as usize);
    call(site.strings, site.ops, comp, with.null.id, List::new(alloc))
}

/// What becomes of a source's attribute.
pub fn single(
    alloc: Global,
    site: &Site,
    number: u32,
    with: With,
    value: FlatExpr,
) -> Result<FlatExpr, Memory>
    ensures { IfOk result (λ made. (scene : Scene) → IsSiteOf scene site.now → IsKnownWith scene site.now with → number ≤ 65535
        → made ≡ single_at scene number with value) }
{
    let comp = narrow(number as usize);
    let args = List::from_vec(vec![in alloc; value]?);
    Ok(call(site.strings, site.ops, comp, with.single.id, args))
}

/// Two values, joined.
pub fn comb(
    alloc: Global,
    site: &Site,
    number: u32,
    with: With,
    one: FlatExpr,
    other: FlatExpr,
) -> Result<FlatExpr, Memory>
    ensures { IfOk result (λ made. (scene : Scene) → IsSiteOf scene site.now → IsKnownWith scene site.now with → number ≤ 65535
        → made ≡ comb_at scene number with one other) }
{
    let comp = narrow(number as usize);
    let args = List::from_vec(vec![in alloc; one, other]?);
    Ok(call(site.strings, site.ops, comp, with.comb.id, args))
}

/// The values of these children, joined from the right, with null behind them.
fn folded(
    alloc: Global,
    site: &Site,
    number: u32,
    with: With,
    mut places: Vec<usize>,
) -> Result<FlatExpr, Memory>
    ensures { IfOk result (λ made. (scene : Scene) → IsSiteOf scene site.now → IsKnownWith scene site.now with → number ≤ 65535
        → ((j : ℕ) → Contains places.items j → j ≤ 65535) → made ≡ folded_at scene number with places.items) }
{
    let mut made = null(alloc, site, number, with);
    while let Some(j) = places.pop() {
        made = comb(alloc, site, number, with, con(site, number, j), made)?;
    }
    Ok(made)
}

/// The values of these children, joined as the rule's role has it.
fn below_by(
    alloc: Global,
    site: &Site,
    number: u32,
    with: With,
    places: Vec<usize>,
) -> Result<FlatExpr, Memory>
    ensures { IfOk result (λ made. (scene : Scene) → IsSiteOf scene site.now → IsKnownWith scene site.now with → number ≤ 65535
        → ((j : ℕ) → Contains places.items j → j ≤ 65535) → made ≡ joined_at scene number site.now.role with places.items) }
{
    match (site.role, places.as_slice()) {
        (Role::Whole, _) => folded(alloc, site, number, with, places),
        (Role::Listing, [j, ..]) => Ok(con(site, number, *j)),
        (Role::Link, [j]) => Ok(con(site, number, *j)),
        (Role::Link, [i, j, ..]) => {
            let (one, other) = (con(site, number, *i), con(site, number, *j));
            comb(alloc, site, number, with, one, other)
        }
        _ => Ok(null(alloc, site, number, with)),
    }
}

/// What a CONSTITUENTS gives at the left side. Without a WITH it has no value.
pub fn below(alloc: Global, site: &Site, cons: &Cons) -> Result<FlatExpr, Memory>
    ensures { IfOk result (λ made. (scene : Scene) → IsSiteOf scene site.now → IsGathered scene site.now cons.now
        → (tail : ℕ → Flat) (holder : Holder) (context : ℕ) → made ≡ constituents scene tail holder context cons.now) }
{
    match cons.with {
        None => Ok(FlatExpr::Value(Value::Void)),
        Some(with) => {
            let places = givers(alloc, site, cons.number)?;
            below_by(alloc, site, cons.number, with, places)
        }
    }
}
