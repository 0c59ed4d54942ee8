//! The least place of any clash.
ghost use Rattle.std.specs.Prelude.{◌≡◌, IsTrue, IfOk, OnOk};
ghost use Rattle.std.specs.List.{list_any};
ghost use Rattle.lido_base.specs.Environment.{Environment};
ghost use Rattle.lido_symbols.specs.FromText.{IsFromText};
ghost use Rattle.lido_syntax.specs.declared.spec.Spec.{Spec as Specification};
ghost use Rattle.kind_clashes.specs.KindClash.{IsKindClash};
ghost use Rattle.kind_clashes.specs.Least.{IsFirst, Among};
ghost use Rattle.kind_clashes.specs.Names.{HasMore};
ghost use Rattle.symbol_attributes.specs.Inheritance.{number};
ghost use Rattle.symbol_attributes.specs.declared.named.SymbolAttribute.{SymbolAttribute as Attribute};
ghost use Rattle.clash_pairs.specs.Bearers.{is_owning_class, has_owning_class, AreBearers};

use crate::pairs::twofold;
use kind_clashes::{NameSets, Names as Set, earlier, plain_clash};
use lido_base::{Memory, StrId, Strings};
use lido_symbols::{Names, symbol_numbers};
use lido_syntax::Spec;
use std::alloc::Global;
use symbol_attributes::{Inheritance, SymbolAttribute, named_attributes};

/// Adds the symbols on which attributes are named.
fn add_owners(owners: &mut Set, named: &[SymbolAttribute]) -> Result<(), Memory>
    ensures { OnOk result (HasMore (Among (λ (one : Attribute) s. one.symbol.0 ≡ s) named.now) owners.old owners.new) }
{
    for one in named {
        owners.add(one.symbol)?;
    }
    Ok(())
}

/// Whether an attribute is named on the class, and symbol `u` inherits it.
fn is_owning(
    owners: &Set,
    numbers: &Names,
    inheritance: &Inheritance,
    u: usize,
    class: StrId,
) -> bool
    ensures { result ≡ is_owning_class owners.now numbers.now inheritance.now u class.0 }
{
    owners.has(class) && inheritance.inherits(u, numbers.number(class))
}

/// Whether symbol `u` inherits a class on which an attribute is named.
fn has_owning(owners: &Set, numbers: &Names, inheritance: &Inheritance, u: usize) -> bool
    ensures { result ≡ has_owning_class owners.now numbers.now inheritance.now u }
{
    numbers.as_slice().iter().any(|class| is_owning(owners, numbers, inheritance, u, StrId(*class)))
}

fn add_if(set: &mut Set, added: bool, symbol: StrId) -> Result<(), Memory>
    ensures { OnOk result (HasMore (λ s. IsTrue added × (symbol.0 ≡ s)) set.old set.new) }
{
    if !added {
        return Ok(());
    }
    set.add(symbol)
}

/// Adds the symbols that inherit a class on which an attribute is named.
fn add_heirs(
    set: &mut Set,
    owners: &Set,
    numbers: &Names,
    inheritance: &Inheritance,
) -> Result<(), Memory>
    ensures { OnOk result (HasMore
        (Among (λ x s. IsTrue (has_owning_class owners.now numbers.now inheritance.now (number numbers.now x)) × (x ≡ s)) numbers.now)
        set.old set.new) }
{
    for symbol in numbers.as_slice() {
        let id = StrId(*symbol);
        let added = has_owning(owners, numbers, inheritance, numbers.number(id));
        add_if(set, added, id)?;
    }
    Ok(())
}

/// The symbols and classes that have an attribute. (`named` are all attributes that the specification names.)
fn bearers(
    alloc: Global,
    named: &[SymbolAttribute],
    numbers: &Names,
    inheritance: &Inheritance,
) -> Result<Set, Memory>
    ensures { IfOk result (AreBearers named.now numbers.now inheritance.now) }
{
    let mut owners = Set::new(alloc);
    add_owners(&mut owners, named)?;
    let mut all = Set::new(alloc);
    add_owners(&mut all, named)?;
    add_heirs(&mut all, &owners, numbers, inheritance)?;
    Ok(all)
}

/// The least place in a specification that was read from a text at which a symbol, an attribute or a chain is used as what it is
/// not, or is declared as two things; none where there is no such place. An `Err` is want of memory.
pub fn least_kind_clash(
    alloc: Global,
    spec: &Spec,
    strings: &Strings,
) -> Result<Option<u32>, Memory>
    requires { IsFromText spec.now }
    ensures { IfOk result (λ found. (env : Environment) → env.texts ≡ strings.now → IsFirst (IsKindClash spec.now env) found) }
{
    let sets = NameSets::of(alloc, spec)?;
    let numbers = symbol_numbers(alloc, spec, strings)?;
    let inheritance = Inheritance::of(alloc, spec, &numbers)?;
    let named = named_attributes(alloc, spec, &sets)?;
    let with_attributes = bearers(alloc, &named, &numbers, &inheritance)?;
    let of_pairs = twofold(alloc, spec, &sets, &numbers, &inheritance)?;
    let plain = plain_clash(alloc, spec, strings, &sets, &with_attributes)?;
    Ok(earlier(of_pairs, plain))
}
