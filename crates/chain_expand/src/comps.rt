//! The computations of what chains have in plain rules.
ghost use Rattle.std.specs.Prelude.{◌≡◌, ◌<◌, ◌≤◌, ◌^◌, ◌++◌, ℕ, length, IfOk, OnOk};
ghost use Rattle.need_graphs.specs.Clear.{AreFew};
ghost use Rattle.chain_expand.specs.Comps.{term_of, front_in, behind_comps, front_comps, rule_comps, walks_at as walks_of, all_comps as all_of};

use crate::walk::{Source, Walk};
use flat_grammar::FlatRule;
use lido_base::{List, Memory, RuleId};
use rule_tables::{ExtraComp, Slot, SlotAt, Term};
use std::alloc::Global;

/// What comes from there, in the chain that is declared at the place.
fn term(place: u32, source: Source) -> Term
    ensures { result ≡ term_of place source }
{
    match source {
        Source::Written(number) => Term::Copied(number),
        Source::Front => Term::Read(SlotAt {
            occ: 0,
            slot: Slot::Front(place),
        }),
        Source::Child(child) => Term::Read(SlotAt {
            occ: child,
            slot: Slot::Behind(place),
        }),
    }
}

/// From where comes what that child has in front, if it needs the chain.
fn front(walk: &Walk, j: usize) -> Option<Source>
    ensures { result ≡ front_in walk.now j }
{
    match walk.fronts.as_slice().get(j) {
        Some(front) => *front,
        None => None,
    }
}

/// Adds what the left side has behind, in each chain that it needs.
fn push_behind(comps: &mut Vec<ExtraComp>, rule: RuleId, walks: &[Walk]) -> Result<(), Memory>
    requires { length walks.now ≤ 2 ^ 32 }
    ensures { OnOk result (comps.new.items ≡ comps.old.items ++ behind_comps rule.0 walks.now) }
{
    for (i, walk) in walks.iter().enumerate() {
        let place = i as u32;
        if let Some(source) = walk.behind {
            comps.push(ExtraComp {
                rule,
                occ: 0,
                slot: Slot::Behind(place),
                value: term(place, source),
            })?;
        }
    }
    Ok(())
}

/// Adds what a child has in front, in each chain that it needs. Here children count from 0.
fn push_fronts(
    comps: &mut Vec<ExtraComp>,
    rule: RuleId,
    walks: &[Walk],
    j: usize,
) -> Result<(), Memory>
    requires few { length walks.now ≤ 2 ^ 32 }
    requires child { j < 1024 }
    ensures { OnOk result (comps.new.items ≡ comps.old.items ++ front_comps rule.0 walks.now j) }
{
    for (i, walk) in walks.iter().enumerate() {
        let place = i as u32;
        if let Some(source) = front(walk, j) {
            comps.push(ExtraComp {
                rule,
                occ: (j + 1) as u16,
                slot: Slot::Front(place),
                value: term(place, source),
            })?;
        }
    }
    Ok(())
}

/// Adds the computations in the plain rule of that number.
fn push_rule(
    comps: &mut Vec<ExtraComp>,
    number: u16,
    rule: &FlatRule,
    walks: &[Walk],
) -> Result<(), Memory>
    requires few { length walks.now ≤ 2 ^ 32 }
    requires right { length rule.now.right ≤ 1024 }
    ensures { OnOk result (comps.new.items ≡ comps.old.items ++ rule_comps walks.now (number, rule.now)) }
{
    push_behind(comps, RuleId(number), walks)?;
    for j in 0..rule.right.len() {
        push_fronts(comps, RuleId(number), walks, j)?;
    }
    Ok(())
}

/// The walks of the chains over the children of the plain rule of that number.
fn walks_at(walks: &[List<Walk>], k: usize) -> &[Walk]
    ensures { result.now ≡ walks_of walks.now k }
{
    match walks.get(k) {
        Some(row) => row.as_slice(),
        None => &[],
    }
}

/// The computations of what chains have in all plain rules, by the walks of the chains over the children of each.
pub fn all_comps(
    alloc: Global,
    plain: &[FlatRule],
    walks: &[List<Walk>],
) -> Result<Vec<ExtraComp>, Memory>
    requires few { AreFew plain.now }
    requires chains { (k : ℕ) → length (walks_of walks.now k) ≤ 2 ^ 32 }
    ensures { IfOk result (λ comps. comps.items ≡ all_of walks.now plain.now) }
{
    let mut comps = Vec::new(alloc);
    for (k, rule) in plain.iter().enumerate() {
        push_rule(&mut comps, k as u16, rule, walks_at(walks, k))?;
    }
    Ok(comps)
}
