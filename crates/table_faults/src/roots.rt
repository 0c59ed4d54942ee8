//! Nonterminals that stand on no right side.
ghost use Rattle.std.specs.Prelude.{◌≡◌, ◌≤◌, ◌+◌, ℕ, List, length, Contains, IfOk, OnOk};
ghost use Rattle.lido_base.specs.Environment.{Environment};
ghost use Rattle.kind_clashes.specs.Names.{IsSetOf};
ghost use Rattle.kind_clashes.specs.Sets.{AreNameSets};
ghost use Rattle.table_faults.specs.Faults.{AreRoots};
ghost use Rattle.table_faults.specs.Roots.{IsWith, IsRootOf, AreRootsOf};

use kind_clashes::{NameSets, Names};
use lido_base::{Memory, StrId};
use lido_syntax::{RuleItem, Spec};
use std::alloc::Global;

/// Adds a name, unless it is among them.
fn note(seen: &mut Names, names: &mut Vec<u32>, id: StrId) -> Result<(), Memory>
    requires { IsSetOf (λ s. Contains names.old.items s) seen.old }
    ensures set { OnOk result (IsSetOf (λ s. Contains names.new.items s) seen.new) }
    ensures more { OnOk result (IsWith id.0 names.old.items names.new.items) }
    ensures few { OnOk result (length names.new.items ≤ length names.old.items + 1) }
{
    if seen.has(id) {
        return Ok(());
    }
    seen.add(id)?;
    names.push(id.0)?;
    Ok(())
}

fn note_root(
    sets: &NameSets,
    seen: &mut Names,
    names: &mut Vec<u32>,
    id: StrId,
) -> Result<(), Memory>
    requires { IsSetOf (λ s. Contains names.old.items s) seen.old }
    ensures set { OnOk result (IsSetOf (λ s. Contains names.new.items s) seen.new) }
    ensures more { OnOk result (IsRootOf sets.now id.0 names.old.items names.new.items) }
    ensures few { OnOk result (length names.new.items ≤ length names.old.items + 1) }
{
    if sets.right_sides.has(id) {
        return Ok(());
    }
    note(seen, names, id)?;
    Ok(())
}

/// The left sides that stand on no right side, each once.
fn roots(alloc: Global, sets: &NameSets, rules: &[RuleItem]) -> Result<Vec<u32>, Memory>
    ensures roots { IfOk result (λ names. AreRootsOf sets.now rules.now names.items) }
    ensures few { IfOk result (λ names. length names.items ≤ length rules.now) }
{
    let mut seen = Names::new(alloc);
    let mut names = Vec::new(alloc);
    for rule in rules {
        note_root(sets, &mut seen, &mut names, rule.left.id)?;
    }
    Ok(names)
}

/// How many nonterminals stand on no right side.
pub fn root_count(alloc: Global, spec: &Spec, sets: &NameSets) -> Result<usize, Memory>
    requires { AreNameSets spec.now sets.now }
    ensures roots { IfOk result (λ count. (env : Environment) → (roots : List ℕ) × AreRoots spec.now env roots × (length roots ≡ count)) }
    ensures few { IfOk result (λ count. count ≤ length spec.now.rules) }
{
    let names = roots(alloc, sets, spec.rules.as_slice())?;
    Ok(names.len())
}
