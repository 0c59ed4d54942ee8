//! Laws of the numbers of tables.
ghost use Rattle.lido_base.specs.Environment.{Environment};
ghost use Rattle.lido_base.specs.Faults.{HasNone};
ghost use Rattle.lido_symbols.specs.FromText.{IsFromText};
ghost use Rattle.table_faults.specs.Faults.{table_faults};
ghost use Rattle.rule_tables.specs.declared.forced.Forced.{Forced as Held};
ghost use Rattle.rule_tables.specs.ForcedOf.{AreForcedOf, AreNumbersOf};
ghost use Rattle.rule_tables.specs.Needs.{Tables as Numbered};

/// Where a specification was read from a text and has no fault of its tables, its tables, with what is in force in them, have numbers:
/// there are sets of classes, and numbers of symbols, attributes, INCLUDINGs and CONSTITUENTS, that are those of the definitions. So
/// what is stated for all numbers of tables is stated of some.
pub fn tables_have_numbers()
    ensures { (env texts : Environment) (forced : Held) → IsFromText forced.tables.spec → HasNone (table_faults forced.tables.spec texts)
        → AreForcedOf env forced → (T : Numbered forced.tables.spec) × AreNumbersOf env forced T }
{}
