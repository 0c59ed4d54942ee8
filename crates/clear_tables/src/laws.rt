//! Laws of specifications without a fault of their tables.
ghost use Rattle.lido_base.specs.Environment.{Environment};
ghost use Rattle.lido_base.specs.Faults.{HasNone};
ghost use Rattle.lido_base.specs.Texts.{Gains};
ghost use Rattle.lido_syntax.specs.declared.spec.Spec.{Spec as Specification};
ghost use Rattle.lido_symbols.specs.FromText.{IsFromText};
ghost use Rattle.table_faults.specs.Faults.{table_faults};
ghost use Rattle.rule_tables.specs.declared.table.Tables.{Tables as Rows};
ghost use Rattle.rule_tables.specs.RuleNames.{HasIds};
ghost use Rattle.rule_tables.specs.TablesOf.{AreTablesOf};
ghost use Rattle.need_graphs.specs.Clear.{AreClear, AreWithin};

/// Where a specification that was read from a text has no fault of its tables, numbers tell its computations, names its chains, no class
/// is a nonterminal, and there is one root.
pub fn clear_specifications()
    ensures { (spec : Specification) (env : Environment) → IsFromText spec → HasNone (table_faults spec env) → AreClear spec }
{}

/// Where a specification that was read from a text has no fault of its tables over texts of which its names are ids, its tables over
/// these texts, and maybe more behind them, keep within the limits.
pub fn tables_within_limits()
    ensures { (env later : Environment) (t : Rows) → IsFromText t.spec → HasIds env.texts t.spec → Gains env.texts later.texts
        → HasNone (table_faults t.spec env) → AreTablesOf later t → AreWithin t }
{}

/// Where a specification has no fault of its tables over texts of which its names are ids, it has none over these texts and more behind
/// them.
pub fn no_later_faults()
    ensures { (spec : Specification) (env later : Environment) → HasIds env.texts spec → Gains env.texts later.texts
        → HasNone (table_faults spec env) → HasNone (table_faults spec later) }
{}
