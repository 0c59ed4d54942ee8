//! The first fault of the tables.
ghost use Rattle.std.specs.Prelude.{◌≡◌, ◌⊎◌, IfOk, IfErr};
ghost use Rattle.lido_base.specs.Environment.{Environment};
ghost use Rattle.lido_base.specs.Faults.{HasNone, First};
ghost use Rattle.kind_clashes.specs.Sets.{AreNameSets};
ghost use Rattle.lido_syntax.specs.declared.fault.SpecFault.TheVariants as fault;
ghost use Rattle.table_faults.specs.Faults.{table_faults};
ghost use Rattle.table_faults.specs.Phases.{name_faults, kind_faults, place_faults};
ghost use Rattle.lido_symbols.specs.FromText.{IsFromText};
ghost use Rattle.table_faults.specs.Limits.{limit_faults};

use crate::doubles::least_double;
use crate::duplicates::least_duplicate;
use crate::indices::least_bad_index;
use crate::limits::too_many;
use crate::outputs::least_bad_out;
use crate::roots::root_count;
use crate::unknown::least_unknown;
use clash_pairs::least_kind_clash;
use kind_clashes::NameSets;
use lido_base::Strings;
use lido_syntax::{Spec, SpecFault};
use std::alloc::Global;

/// Whether names mean something, rules have different names, and one nonterminal is the root; or the first fault of these.
fn check_names(
    alloc: Global,
    spec: &Spec,
    sets: &NameSets,
    strings: &Strings,
) -> Result<(), SpecFault>
    requires sets { AreNameSets spec.now sets.now }
    requires text { IsFromText spec.now }
    ensures ok { IfOk result (λ done. (env : Environment) → env.texts ≡ strings.now → HasNone (name_faults spec.now env)) }
    ensures err { IfErr result (λ f. (f ≡ fault.Memory) ⊎ ((env : Environment) → env.texts ≡ strings.now → First (name_faults spec.now env) f)) }
{
    if let Some(at) = least_unknown(alloc, spec, sets, strings)? {
        return Err(SpecFault::UnknownSymbol { at });
    }
    if let Some(at) = least_duplicate(alloc, spec)? {
        return Err(SpecFault::DuplicateRule { at });
    }
    let count = root_count(alloc, spec, sets)?;
    if count != 1 {
        return Err(SpecFault::RootNotOne {
            count: count as u32,
        });
    }
    Ok(())
}

/// Whether indices, targets and outputs stand where they may; or the first fault of these.
fn check_places(
    alloc: Global,
    spec: &Spec,
    sets: &NameSets,
    strings: &Strings,
) -> Result<(), SpecFault>
    requires sets { AreNameSets spec.now sets.now }
    ensures ok { IfOk result (λ done. (env : Environment) → env.texts ≡ strings.now → HasNone (place_faults spec.now env)) }
    ensures err { IfErr result (λ f. (f ≡ fault.Memory) ⊎ ((env : Environment) → env.texts ≡ strings.now → First (place_faults spec.now env) f)) }
{
    if let Some(at) = least_bad_index(alloc, spec, strings)? {
        return Err(SpecFault::BadIndex { at });
    }
    if let Some(at) = least_double(alloc, spec)? {
        return Err(SpecFault::DoubleComputation { at });
    }
    if let Some(at) = least_bad_out(spec, sets) {
        return Err(SpecFault::BadOut { at });
    }
    Ok(())
}

/// Whether the specification keeps within the limits, or the first that it passes.
fn check_limits(alloc: Global, spec: &Spec, strings: &Strings) -> Result<(), SpecFault>
    ensures ok { IfOk result (λ done. (env : Environment) → env.texts ≡ strings.now → HasNone (limit_faults spec.now env)) }
    ensures err { IfErr result (λ f. (f ≡ fault.Memory) ⊎ ((env : Environment) → env.texts ≡ strings.now → First (limit_faults spec.now env) f)) }
{
    match too_many(alloc, spec, strings)? {
        Some(what) => Err(SpecFault::TooMany { what }),
        None => Ok(()),
    }
}

/// Whether nothing is used as what it is not, or declared as two things.
fn check_kinds(alloc: Global, spec: &Spec, strings: &Strings) -> Result<(), SpecFault>
    requires { IsFromText spec.now }
    ensures ok { IfOk result (λ done. (env : Environment) → env.texts ≡ strings.now → HasNone (kind_faults spec.now env)) }
    ensures err { IfErr result (λ f. (f ≡ fault.Memory) ⊎ ((env : Environment) → env.texts ≡ strings.now → First (kind_faults spec.now env) f)) }
{
    match least_kind_clash(alloc, spec, strings)? {
        Some(at) => Err(SpecFault::KindClash { at }),
        None => Ok(()),
    }
}

/// Whether a specification that was read from a text has no fault of its tables; or the first: UnknownSymbol, DuplicateRule,
/// RootNotOne, KindClash, BadIndex, DoubleComputation, BadOut or TooMany, in this order, each at its least place.
pub fn check(alloc: Global, spec: &Spec, strings: &Strings) -> Result<(), SpecFault>
    requires text { IsFromText spec.now }
    ensures ok { IfOk result (λ done. (env : Environment) → env.texts ≡ strings.now → HasNone (table_faults spec.now env)) }
    ensures err { IfErr result (λ f. (f ≡ fault.Memory) ⊎ ((env : Environment) → env.texts ≡ strings.now → First (table_faults spec.now env) f)) }
{
    let sets = NameSets::of(alloc, spec)?;
    check_names(alloc, spec, &sets, strings)?;
    check_kinds(alloc, spec, strings)?;
    check_places(alloc, spec, &sets, strings)?;
    check_limits(alloc, spec, strings)
}
