//! Which symbols inherit which classes, by name.
ghost use Rattle.std.specs.Prelude.{◌≡◌, IfOk};
ghost use Rattle.lido_symbols.specs.FromText.{IsFromText};
ghost use Rattle.leaf_types.specs.Heirs.{inherits, AreHeirsOf};

use lido_base::{Memory, StrId, Strings};
use lido_symbols::{Names, symbol_numbers};
use lido_syntax::Spec;
use std::alloc::Global;
use symbol_attributes::Inheritance;

/// The inheritance of a specification's symbols, with their numbers.
#[derive(Drop)]
pub(crate) struct Heirs {
    numbers: Names,
    inheritance: Inheritance,
}

impl Heirs {
    /// The inheritance of a specification that was read from a text. An `Err` is want of memory.
    pub(crate) fn of(alloc: Global, spec: &Spec, strings: &Strings) -> Result<Heirs, Memory>
        requires { IsFromText spec.now }
        ensures { IfOk result (AreHeirsOf spec.now) }
    {
        let numbers = symbol_numbers(alloc, spec, strings)?;
        let inheritance = Inheritance::of(alloc, spec, &numbers)?;
        Ok(Heirs {
            numbers,
            inheritance,
        })
    }

    /// Whether the symbol inherits the class.
    pub(crate) fn inherits(&self, symbol: StrId, class: StrId) -> bool
        ensures { result ≡ inherits self.now symbol.0 class.0 }
    {
        self.inheritance
            .inherits(self.numbers.number(symbol), self.numbers.number(class))
    }
}
