//! Laws of the definitions. Each function does nothing; what is proved is its contract.
ghost use Rattle.std.specs.Prelude.{ℕ, nat_eq, List as Sequence};
ghost use Rattle.lido_base.specs.Environment.{Environment};
ghost use Rattle.lido_syntax.specs.declared.spec.Spec.{Spec as Specification};
ghost use Rattle.lido_symbols.specs.Numbers.{AreNumbered};
ghost use Rattle.lido_symbols.specs.Uses.{symbol_uses};
ghost use Rattle.symbol_attributes.specs.Inheritance.{AreNumberedIn};

/// Where the symbols of a text are numbered by their first places, each that a SYMBOL item is about or inherits has a number.
pub fn symbols_of_items_are_numbered()
    ensures { (spec : Specification) (env : Environment) (names : Sequence ℕ) → AreNumbered nat_eq (symbol_uses spec env) names
        → AreNumberedIn names spec.symbols }
{}
