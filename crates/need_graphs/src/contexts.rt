//! At the nodes of which symbols computations are in force.
ghost use Rattle.std.specs.Prelude.{◌≡◌, ◌++◌, ◌↔◌, ℕ, Bool, IsTrue, Contains, length, OnOk, IfOk};
ghost use Rattle.lido_base.specs.Environment.{Environment};
ghost use Rattle.lido_syntax.specs.declared.spec.Comp.{Comp as Computation};
ghost use Rattle.lido_symbols.specs.Uses.{computations};
ghost use Rattle.least_paths.specs.Graph.{is_in};
ghost use Rattle.rule_tables.specs.ForcedOf.{AreForcedOf, AreNumbersOf};
ghost use Rattle.rule_tables.specs.Needs.{Tables as Numbered, in_force_at};
ghost use Rattle.need_graphs.specs.Contexts.{context_by, rule_contexts, all_contexts};

use crate::numbers::Numbers;
use crate::users::{forces_at, set_of, symbol_at};
use flat_grammar::FlatRule;
use lido_base::{List, Memory};
use rule_tables::{Force, Forced};
use std::alloc::Global;

/// The symbol of the context of a computation in force, if its number is in the set.
fn context(numbers: &Numbers, rule: &FlatRule, force: &Force) -> Option<usize>
    ensures { result ≡ context_by numbers.now rule.now force.now }
{
    if numbers.has(force.number) {
        symbol_at(rule, force.context as usize)
    } else {
        None
    }
}

/// Notes the symbols of the contexts in a plain rule.
fn note_contexts(
    found: &mut Vec<usize>,
    numbers: &Numbers,
    rule: &FlatRule,
    forces: &[Force],
) -> Result<(), Memory>
    ensures { OnOk result (found.new.items ≡ found.old.items ++ rule_contexts numbers.now rule.now forces.now) }
{
    for force in forces {
        if let Some(symbol) = context(numbers, rule, force) {
            found.push(symbol)?;
        }
    }
    Ok(())
}

/// The symbols of the contexts in the plain rules.
fn contexts(
    alloc: Global,
    numbers: &Numbers,
    plain: &[FlatRule],
    comps: &[List<Force>],
) -> Result<Vec<usize>, Memory>
    ensures { IfOk result (λ found. found.items ≡ all_contexts numbers.now plain.now comps.now) }
{
    let mut found = Vec::new(alloc);
    for (k, rule) in plain.iter().enumerate() {
        note_contexts(&mut found, numbers, rule, forces_at(comps, k))?;
    }
    Ok(found)
}

/// At the nodes of which symbols and cells, by number, computations with these numbers are in force. It takes time linear in the
/// numbers and in the computations in force. An `Err` is want of memory.
pub fn context_symbols(alloc: Global, forced: &Forced, numbers: &[u32]) -> Result<Vec<bool>, Memory>
    requires { (env : Environment) × AreForcedOf env forced.now }
    ensures count { IfOk result (λ set. length set.items ≡ length forced.now.tables.symbols) }
    ensures exactly { IfOk result (λ set. (env : Environment) (T : Numbered forced.now.tables.spec) → AreForcedOf env forced.now
        → AreNumbersOf env forced.now T → (test : Computation → Bool)
        → ((k : Computation) → Contains (computations forced.now.tables.spec) k → IsTrue (test k) ↔ Contains numbers.now k.number)
        → (x : ℕ) → IsTrue (is_in set.items x) ↔ IsTrue (in_force_at forced.now.tables.spec T (λ fs f. test f.comp) x)) }
{
    let tables = &forced.tables;
    let wanted = Numbers::of(alloc, numbers)?;
    let found = contexts(
        alloc,
        &wanted,
        tables.plain.as_slice(),
        forced.comps.as_slice(),
    )?;
    let set = set_of(alloc, tables.symbols.len(), &found)?;
    Ok(set)
}
