//! Which symbols use a chain.
ghost use Rattle.std.specs.Prelude.{◌≡◌, ◌<◌, ◌++◌, ◌||◌, ◌↔◌, ℕ, IsTrue, Contains, length, option_map, slice_get, OnOk, IfOk};
ghost use Rattle.std.specs.List.{list_any};
ghost use Rattle.lido_base.specs.Environment.{Environment};
ghost use Rattle.lido_base.specs.declared.ids.SymId.{SymId as Symbol};
ghost use Rattle.least_paths.specs.Graph.{is_in};
ghost use Rattle.rule_tables.specs.ForcedOf.{AreForcedOf, AreNumbersOf};
ghost use Rattle.rule_tables.specs.Needs.{Tables as Numbered, uses_chain};
ghost use Rattle.need_graphs.specs.Starts.{starts};
ghost use Rattle.need_graphs.specs.Users.{is_behind, reads_by, symbol_in, user_by, entries_at, rule_users, all_users, TellComputations};

use crate::chains::{has_start, is_declared};
use crate::children::none_of;
use crate::readers::Readers;
use flat_grammar::FlatRule;
use lido_base::{List, Memory, StrId, SymId};
use lido_syntax::Typed1;
use rule_tables::{Force, Forced, Goal};
use std::alloc::Global;

/// Whether the goal is what is behind the left side in the chain.
fn is_behind_of(chains: &[Typed1], chain: StrId, goal: Goal) -> bool
    ensures { result ≡ is_behind chains.now chain.0 goal }
{
    match goal {
        Goal::Behind(place) => is_declared(chains, chain, place as usize),
        Goal::Attr(_) | Goal::Start(_) | Goal::Out | Goal::Message(_) => false,
    }
}

/// The symbol of that place on a right side.
fn right_symbol(right: &[SymId], k: usize) -> Option<usize>
    ensures { result ≡ option_map (λ (s : Symbol). s.0) (slice_get right.now k) }
{
    match right.get(k) {
        Some(symbol) => Some(symbol.0 as usize),
        None => None,
    }
}

/// The symbol at an occurrence of a plain rule.
pub fn symbol_at(rule: &FlatRule, occ: usize) -> Option<usize>
    ensures { result ≡ symbol_in rule.now occ }
{
    if occ == 0 {
        return Some(rule.left.0 as usize);
    }
    right_symbol(rule.right.as_slice(), occ - 1)
}

/// The symbol of the context of a computation in force, if it uses the chain.
fn user(
    chains: &[Typed1],
    chain: StrId,
    readers: &Readers,
    starts: bool,
    rule: &FlatRule,
    force: &Force,
) -> Option<usize>
    ensures { result ≡ user_by chains.now chain.0 readers.now starts rule.now force.now }
{
    if is_behind_of(chains, chain, force.goal) || readers.read(starts, force.number) {
        symbol_at(rule, force.context as usize)
    } else {
        None
    }
}

/// What is in force in the plain rule of this number.
pub fn forces_at(comps: &[List<Force>], k: usize) -> &[Force]
    ensures { result.now ≡ entries_at comps.now k }
{
    match comps.get(k) {
        Some(forces) => forces.as_slice(),
        None => &[],
    }
}

/// Notes the symbols that use the chain in a plain rule.
fn note_users(
    found: &mut Vec<usize>,
    chains: &[Typed1],
    chain: StrId,
    readers: &Readers,
    rule: &FlatRule,
    forces: &[Force],
) -> Result<(), Memory>
    ensures { OnOk result (found.new.items ≡ found.old.items ++ rule_users chains.now chain.0 readers.now rule.now forces.now) }
{
    let starts = has_start(chains, chain, forces);
    for force in forces {
        if let Some(symbol) = user(chains, chain, readers, starts, rule, force) {
            found.push(symbol)?;
        }
    }
    Ok(())
}

/// The symbols that use the chain in the plain rules.
fn users(
    alloc: Global,
    chains: &[Typed1],
    chain: StrId,
    readers: &Readers,
    plain: &[FlatRule],
    comps: &[List<Force>],
) -> Result<Vec<usize>, Memory>
    ensures { IfOk result (λ found. found.items ≡ all_users chains.now chain.0 readers.now plain.now comps.now) }
{
    let mut found = Vec::new(alloc);
    for (k, rule) in plain.iter().enumerate() {
        note_users(
            &mut found,
            chains,
            chain,
            readers,
            rule,
            forces_at(comps, k),
        )?;
    }
    Ok(found)
}

/// The set of these numbers, each below the count.
pub fn set_of(alloc: Global, count: usize, numbers: &[usize]) -> Result<Vec<bool>, Memory>
    requires { (x : ℕ) → Contains numbers.now x → x < count }
    ensures count { IfOk result (λ set. length set.items ≡ count) }
    ensures exactly { IfOk result (λ set. (x : ℕ) → IsTrue (is_in set.items x) ↔ Contains numbers.now x) }
{
    let mut set = none_of(alloc, count)?;
    for x in numbers {
        set[*x] = true;
    }
    Ok(set)
}

/// Which symbols and cells use the chain, by number: a computation in force at one of their nodes reads it, or gives a value to
/// what is behind. It takes time linear in the text and in the computations in force. An `Err` is want of memory.
pub fn chain_users(alloc: Global, forced: &Forced, chain: StrId) -> Result<Vec<bool>, Memory>
    requires { (env : Environment) × AreForcedOf env forced.now }
    ensures count { IfOk result (λ users. length users.items ≡ length forced.now.tables.symbols) }
    ensures exactly { IfOk result (λ users. (env : Environment) (T : Numbered forced.now.tables.spec) → AreForcedOf env forced.now
        → AreNumbersOf env forced.now T → TellComputations forced.now.tables.spec
        → (x : ℕ) → IsTrue (is_in users.items x) ↔ IsTrue (uses_chain forced.now.tables.spec T chain.0 x)) }
{
    let tables = &forced.tables;
    let readers = Readers::of(alloc, &tables.spec, chain)?;
    let found = users(
        alloc,
        tables.spec.chains.as_slice(),
        chain,
        &readers,
        tables.plain.as_slice(),
        forced.comps.as_slice(),
    )?;
    let set = set_of(alloc, tables.symbols.len(), &found)?;
    Ok(set)
}
