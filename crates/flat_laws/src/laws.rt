//! Laws of the definitions. Each function does nothing; what is proved is its contract.
ghost use Rattle.std.specs.Prelude.{ℕ, List};
ghost use Rattle.lido_base.specs.Environment.{Environment};
ghost use Rattle.lido_base.specs.declared.ids.SymId.{SymId as SymbolId};
ghost use Rattle.lido_syntax.specs.declared.spec.Spec.{Spec as Specification};
ghost use Rattle.flat_grammar.specs.WellFormed.{IsWellFormed};
ghost use Rattle.flat_grammar.specs.declared.flat.FlatRule.{FlatRule as Rule};
ghost use Rattle.flat_grammar.specs.declared.flat.FlatSymbol.{FlatSymbol as Symbol};
ghost use Rattle.flat_grammar.specs.declared.flat.Shape.{Shape as WrittenShape};
ghost use Rattle.rule_tables.specs.Needs.{Needs, Tables as Numbered};
ghost use Rattle.rule_tables.specs.Slots.{Slot};
ghost use Rattle.flat_laws.specs.Accepted.{IsFlattened};

/// The flat grammar of an accepted specification is well formed: each rule computes what it has to, once and nothing else, and all
/// that it names is there; lists are chains of cells, names differ, and all numbers are in range.
pub fn flat_grammars_are_well_formed()
    ensures { (spec : Specification) (early env : Environment) (T : Numbered spec) (needs : Needs spec T) (slots : ℕ → List Slot)
        (symbols : List Symbol) (rules : List Rule) (shapes : List WrittenShape) (root : SymbolId)
        → IsFlattened spec early env T needs slots symbols rules shapes root → IsWellFormed symbols rules shapes root }
{}
