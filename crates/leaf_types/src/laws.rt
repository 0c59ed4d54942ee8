//! Laws of the definitions. Each function does nothing; what is proved is its contract.
ghost use Rattle.lido_base.specs.Environment.{Environment};
ghost use Rattle.lido_base.specs.Faults.{HasNone};
ghost use Rattle.lido_syntax.specs.declared.spec.Spec.{Spec as Specification};
ghost use Rattle.lido_symbols.specs.FromText.{IsFromText};
ghost use Rattle.table_faults.specs.Faults.{table_faults};
ghost use Rattle.leaf_types.specs.Single.{AreSingleTypes};

/// In a specification that was read from a text and has no fault of the tables, attributes, terminals and chains have one type at
/// most.
pub fn types_are_single()
    ensures { (spec : Specification) (env : Environment) → IsFromText spec → HasNone (table_faults spec env) → AreSingleTypes spec }
{}
