//! The children behind which a chain comes to a child.
ghost use Rattle.std.specs.Prelude.{◌≡◌, ◌<◌, ◌^◌, ℕ, Some, map, length, slice_get, if◌then◌else◌, IfOk};
ghost use Rattle.lido_base.specs.declared.ids.SymId.{SymId as Symbol};
ghost use Rattle.least_paths.specs.Graph.{is_in};
ghost use Rattle.rule_tables.specs.PlainRules.{PlainRule};
ghost use Rattle.rule_tables.specs.Shares.{last_of, places};
ghost use Rattle.chain_expand.specs.Walks.{front_source, if_needed as if_needed_from};

use crate::walk::{Source, if_needed, origin};
use lido_base::{List, Memory, SymId};
use std::alloc::Global;

/// Whether the symbol needs the chain.
pub fn is_needed(needs: &[bool], symbol: SymId) -> bool
    ensures { result ≡ is_in needs.now symbol.0 }
{
    match needs.get(symbol.0 as usize) {
        Some(needed) => *needed,
        None => false,
    }
}

/// The last place that the chain comes by, with this one.
fn last_with(needed: bool, place: u16, last: Option<u16>) -> Option<u16>
    ensures { result ≡ (if needed then Some place else last) }
{
    if needed { Some(place) } else { last }
}

/// For each child of a plain rule from where comes what it has in front, if it needs the chain. `needs` tells which symbols need
/// the chain, and `start` is the number of what starts it.
pub fn front_sources(
    alloc: Global,
    needs: &[bool],
    start: Option<u32>,
    right: &[SymId],
) -> Result<List<Option<Source>>, Memory>
    requires { length right.now < 2 ^ 16 }
    ensures count { IfOk result (λ fronts. length fronts ≡ length right.now) }
    ensures each { IfOk result (λ fronts. (j : ℕ) (s : Symbol) → slice_get right.now j ≡ Some s
        → slice_get fronts j ≡ Some (if_needed_from (is_in needs.now s.0) (front_source needs.now start right.now j))) }
{
    let mut fronts = Vec::new(alloc);
    let mut last = None;
    for (k, symbol) in right.iter().enumerate() {
        let needed = is_needed(needs, *symbol);
        fronts.push(if_needed(needed, origin(start, last)))?;
        last = last_with(needed, (k + 1) as u16, last);
    }
    Ok(List::from_vec(fronts))
}

/// The last child of a plain rule that needs the chain: children count from 1. `needs` tells which symbols need the chain.
pub fn last_child(needs: &[bool], right: &[SymId]) -> Option<u16>
    requires { length right.now < 2 ^ 16 }
    ensures { (p : PlainRule) → map (λ (s : Symbol). s.0) right.now ≡ p.right → result ≡ last_of (places (is_in needs.now) p) }
{
    let mut last = None;
    for (k, symbol) in right.iter().enumerate() {
        last = last_with(is_needed(needs, *symbol), (k + 1) as u16, last);
    }
    last
}
