//! Laws of the definitions. Each function does nothing; what is proved is its contract.
ghost use Rattle.std.specs.Prelude.{◌≡◌, ℕ};
ghost use Rattle.std.specs.List.{AllZip};
ghost use Rattle.lido_base.specs.Environment.{Environment};
ghost use Rattle.lido_syntax.specs.Symbols.{IsRoot};
ghost use Rattle.lido_symbols.specs.Numbers.{enumerated};
ghost use Rattle.rule_tables.specs.declared.forced.Forced.{Forced as ForcedTables};
ghost use Rattle.rule_tables.specs.ForcedOf.{AreForcedOf, AreNumbersOf};
ghost use Rattle.rule_tables.specs.Needs.{Tables as Numbered};
ghost use Rattle.rule_tables.specs.PlainRules.{number, IsShapeOf};

/// The shapes of the tables are those of the flat grammar, and their root is its root.
pub fn shapes_and_root()
    ensures shapes { (env : Environment) (forced : ForcedTables) (T : Numbered forced.tables.spec)
        → AreForcedOf env forced → AreNumbersOf env forced T
        → AllZip (IsShapeOf forced.tables.spec T.symbols) (enumerated 0 forced.tables.spec.rules) forced.tables.shapes }
    ensures root { (env : Environment) (forced : ForcedTables) (T : Numbered forced.tables.spec)
        → AreForcedOf env forced → AreNumbersOf env forced T
        → (s : ℕ) × IsRoot forced.tables.spec s × (forced.tables.root.0 ≡ number forced.tables.spec T.symbols s) }
{}
