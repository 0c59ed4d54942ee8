//! Numbers by first place.
ghost use Rattle.std.specs.Prelude.{◌≡◌, ◌∷◌, [], nat_eq, map, length, IfOk, OnOk, Contains};
ghost use Rattle.std.specs.List.Sorted.{IsNonDecreasingBy};
ghost use Rattle.lido_syntax.specs.declared.spec.Name.{Name as Named};
ghost use Rattle.lido_symbols.specs.Numbers.{AreNumbered};
ghost use Rattle.lido_symbols.specs.Uses.{attribute_uses, symbol_uses, with_place};
ghost use Rattle.lido_symbols.specs.FromText.{IsFromText};
ghost use Rattle.lido_base.specs.Environment.{Environment};

use crate::{Names, attribute_names, symbol_names};
use lido_base::{Memory, Strings};
use lido_syntax::{Name, Spec};
use std::alloc::Global;

/// The names of the uses, in their order, each once.
fn in_order(alloc: Global, uses: &[Name]) -> Result<Names, Memory>
    requires told { (x y : Named) → Contains uses.now x → Contains uses.now y → x.at ≡ y.at → x ≡ y }
    requires sorted { IsNonDecreasingBy (λ (x : Named). x.at) uses.now }
    ensures { IfOk result (AreNumbered nat_eq (map with_place uses.now)) }
{
    let mut names = Names::new(alloc);
    for name in uses {
        names.add(name.id)?;
    }
    Ok(names)
}

/// The names that are used, each once, by the places where they first stand. A place tells its name.
pub fn numbered(alloc: Global, mut uses: Vec<Name>) -> Result<Names, Memory>
    requires { (x y : Named) → Contains uses.items x → Contains uses.items y → x.at ≡ y.at → x ≡ y }
    ensures { IfOk result (AreNumbered nat_eq (map with_place uses.items)) }
{
    uses.sort_by_key(|name| name.at)?;
    in_order(alloc, &uses)
}

/// The symbols of a specification that was read from a text, by the places where their names first stand as symbols.
pub fn symbol_numbers(alloc: Global, spec: &Spec, strings: &Strings) -> Result<Names, Memory>
    requires { IsFromText spec.now }
    ensures { IfOk result (λ names. (env : Environment) → env.texts ≡ strings.now → AreNumbered nat_eq (symbol_uses spec.now env) names) }
{
    let uses = symbol_names(alloc, spec, strings)?;
    numbered(alloc, uses)
}

/// The attributes and chains of a specification that was read from a text, by the places where their names first stand as
/// such.
pub fn attribute_numbers(alloc: Global, spec: &Spec) -> Result<Names, Memory>
    requires { IsFromText spec.now }
    ensures { IfOk result (AreNumbered nat_eq (attribute_uses spec.now)) }
{
    let uses = attribute_names(alloc, spec)?;
    numbered(alloc, uses)
}
