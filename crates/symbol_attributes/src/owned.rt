//! The attributes that a symbol has.
ghost use Rattle.std.specs.Prelude.{◌≡◌, IsTrue, IfOk, OnOk};
ghost use Rattle.kind_clashes.specs.Least.{Among};
ghost use Rattle.kind_clashes.specs.Names.{HasMore};
ghost use Rattle.symbol_attributes.specs.Owned.{is_passed, IsPassed, AreAttributes};

use crate::inheritance::Inheritance;
use crate::named::SymbolAttribute;
use kind_clashes::Names as Attributes;
use lido_base::{Memory, StrId};
use lido_symbols::Names;
use std::alloc::Global;

/// Whether what is named on the other symbol is an attribute of this one too.
fn is_passed_on(inheritance: &Inheritance, numbers: &Names, symbol: StrId, other: StrId) -> bool
    ensures { result ≡ is_passed inheritance.now numbers.now symbol.0 other.0 }
{
    symbol.0 == other.0 || inheritance.inherits(numbers.number(symbol), numbers.number(other))
}

/// Adds the attribute where it is one of the symbol.
fn add_where(set: &mut Attributes, passed: bool, attribute: StrId) -> Result<(), Memory>
    ensures { OnOk result (HasMore (λ a. IsTrue passed × (attribute.0 ≡ a)) set.old set.new) }
{
    if !passed {
        return Ok(());
    }
    set.add(attribute)
}

/// Adds the symbol's attributes.
fn add_passed(
    set: &mut Attributes,
    named: &[SymbolAttribute],
    numbers: &Names,
    inheritance: &Inheritance,
    symbol: StrId,
) -> Result<(), Memory>
    ensures { OnOk result (HasMore (Among (IsPassed inheritance.now numbers.now symbol.0) named.now) set.old set.new) }
{
    for one in named {
        add_where(
            set,
            is_passed_on(inheritance, numbers, symbol, one.symbol),
            one.attribute,
        )?;
    }
    Ok(())
}

/// The attributes that a symbol has: those that the specification names on it or on a class that it inherits. (`named` are all
/// that it names, and `inheritance` goes by these numbers.) An `Err` is want of memory.
pub fn attributes_of(
    alloc: Global,
    named: &[SymbolAttribute],
    numbers: &Names,
    inheritance: &Inheritance,
    symbol: StrId,
) -> Result<Attributes, Memory>
    ensures { IfOk result (AreAttributes named.now numbers.now inheritance.now symbol.0) }
{
    let mut set = Attributes::new(alloc);
    add_passed(&mut set, named, numbers, inheritance, symbol)?;
    Ok(set)
}
