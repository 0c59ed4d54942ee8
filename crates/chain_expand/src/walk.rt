//! The walk of a chain over the children of a plain rule.
ghost use Rattle.std.specs.Prelude.{◌≡◌, ◌<◌, ◌^◌, option_map, length, IfOk};
ghost use Rattle.chain_expand.specs.Walks.{starts_at as is_start_of, assigns_at as is_assignment_of, number_of, is_node_class, is_node_in, has_node_in, source_of, behind_source as source_behind, if_needed as if_needed_from, IsWalk};

use crate::children::{front_sources, is_needed, last_child};
use flat_grammar::FlatRule;
use lido_base::{List, Memory, SymId};
use rule_tables::{Force, Goal, SymbolClass, SymbolRow};
use std::alloc::Global;

/// From where comes what a chain has at an occurrence.
#[derive(Clone, Copy, Debug, PartialEq, Eq)]
pub enum Source {
    /// From the written computation of this number.
    Written(u32),
    /// From what the left side has in front.
    Front,
    /// From what this child has behind. Children count from 1.
    Child(u16),
}

/// The walk of a chain over the children of a plain rule.
#[derive(Drop)]
pub struct Walk {
    /// From where comes what the left side has behind, if it needs the chain.
    pub behind: Option<Source>,
    /// For each child from where comes what it has in front, if it needs the chain.
    pub fronts: List<Option<Source>>,
}

/// From where comes what is behind this child. Behind none it is what starts the chain, or what the left side has in front.
pub fn origin(start: Option<u32>, last: Option<u16>) -> Source
    ensures { result ≡ source_of start last }
{
    match (last, start) {
        (Some(child), _) => Source::Child(child),
        (None, Some(number)) => Source::Written(number),
        (None, None) => Source::Front,
    }
}

/// The source, if it is needed.
pub fn if_needed(needed: bool, source: Source) -> Option<Source>
    ensures { result ≡ if_needed_from needed source }
{
    if needed { Some(source) } else { None }
}

/// Whether the computation starts the chain that is declared at the place.
fn starts_at(place: u32, force: &Force) -> bool
    ensures { result ≡ is_start_of place force.now }
{
    match force.goal {
        Goal::Start(other) => force.occ == 0 && other == place,
        Goal::Attr(_) | Goal::Behind(_) | Goal::Out | Goal::Message(_) => false,
    }
}

/// Whether the computation gives a value to what is behind the left side in the chain that is declared at the place.
fn assigns_at(place: u32, force: &Force) -> bool
    ensures { result ≡ is_assignment_of place force.now }
{
    match force.goal {
        Goal::Behind(other) => force.occ == 0 && other == place,
        Goal::Attr(_) | Goal::Start(_) | Goal::Out | Goal::Message(_) => false,
    }
}

/// The number of the computation that starts the chain.
fn start_number(place: u32, forces: &[Force]) -> Option<u32>
    ensures { result ≡ number_of (is_start_of place) forces.now }
{
    forces
        .iter()
        .find(|force| starts_at(place, force))
        .map(|force| force.number)
}

/// The number of the computation that gives a value to what is behind the left side.
fn assigned_number(place: u32, forces: &[Force]) -> Option<u32>
    ensures { result ≡ number_of (is_assignment_of place) forces.now }
{
    forces
        .iter()
        .find(|force| assigns_at(place, force))
        .map(|force| force.number)
}

/// Whether a symbol of this class can be a node.
fn is_node(class: SymbolClass) -> bool
    ensures { result ≡ is_node_class class }
{
    match class {
        SymbolClass::Nonterminal | SymbolClass::Cell => true,
        SymbolClass::Terminal(_) | SymbolClass::Class => false,
    }
}

/// Whether the symbol can be a node.
fn is_node_symbol(rows: &[SymbolRow], symbol: SymId) -> bool
    ensures { result ≡ is_node_in rows.now symbol.0 }
{
    match rows.get(symbol.0 as usize) {
        Some(row) => is_node(row.class),
        None => true,
    }
}

/// Whether one of the children can be a node.
pub fn has_node(rows: &[SymbolRow], right: &[SymId]) -> bool
    ensures { result ≡ has_node_in rows.now right.now }
{
    right.iter().any(|symbol| is_node_symbol(rows, *symbol))
}

/// From where comes what the left side has behind. `inner` tells whether one of the children can be a node.
fn behind_source(
    inner: bool,
    start: Option<u32>,
    assigned: Option<u32>,
    last: Option<u16>,
) -> Source
    ensures { result ≡ source_behind inner start assigned last }
{
    if let Some(number) = assigned {
        return Source::Written(number);
    }
    if !inner || start.is_some() {
        return Source::Front;
    }
    origin(start, last)
}

/// The walk of the chain that is declared at the place over the children of a plain rule. `needs` tells which symbols need the
/// chain, and `inner` whether one of the children can be a node.
pub fn chain_walk(
    alloc: Global,
    inner: bool,
    place: u32,
    needs: &[bool],
    rule: &FlatRule,
    forces: &[Force],
) -> Result<Walk, Memory>
    requires { length rule.now.right < 2 ^ 16 }
    ensures { IfOk result (IsWalk inner place needs.now rule.now forces.now) }
{
    let right = rule.right.as_slice();
    let start = start_number(place, forces);
    let assigned = assigned_number(place, forces);
    let behind = behind_source(inner, start, assigned, last_child(needs, right));
    Ok(Walk {
        behind: if_needed(is_needed(needs, rule.left), behind),
        fronts: front_sources(alloc, needs, start, right)?,
    })
}
