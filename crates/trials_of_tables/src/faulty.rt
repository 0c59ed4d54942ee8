//! Specifications with one fault each, and the place of the fault.
ghost use Rattle.std.specs.Prelude.{nat_eq, ◌∷◌, []};
ghost use Rattle.lido_base.specs.Faults.{First, AtPlace};
ghost use Rattle.lido_syntax.specs.declared.fault.SpecFault.TheVariants as fault;
ghost use Rattle.table_faults.specs.Faults.{table_faults, IsDuplicate, IsRootNotOne, IsBadIndex, IsDouble, IsBadOut};
ghost use Rattle.lido_syntax.specs.Sets.{Sets};
ghost use Rattle.rule_tables.specs.InForceFaults.{in_force_faults, IsMissingComputation};
ghost use Rattle.kind_clashes.specs.KindClash.{IsKindClash};
ghost use Rattle.lido_symbols.specs.Numbers.{AreNumbered};
ghost use Rattle.lido_symbols.specs.Uses.{symbol_uses};
ghost use Rattle.trials_of_tables.specs.Faulty as specification;
ghost use Rattle.trials_of_tables.specs.Faulty.{env};

/// A place that names no symbol is the first fault of the tables.
pub fn unknown_symbol()
    ensures { First (table_faults specification.unknown_symbol env) (fault.UnknownSymbol 24) }
{}

/// A second rule of one name stands at its name.
pub fn duplicate_rule()
    ensures { AtPlace (λ at. fault.DuplicateRule at) (IsDuplicate specification.duplicate_rule env)
        (fault.DuplicateRule 26) }
{}

/// Two nonterminals stand on no right side.
pub fn root_not_one()
    ensures { IsRootNotOne specification.two_roots env (fault.RootNotOne 2) }
{}

/// A class in a production stands at its name there.
pub fn kind_clash()
    ensures { AtPlace (λ at. fault.KindClash at) (IsKindClash specification.kind_clash env) (fault.KindClash 34) }
{}

/// A bare name without an index whose symbol stands twice in the production.
pub fn bad_index()
    ensures { AtPlace (λ at. fault.BadIndex at) (IsBadIndex specification.bad_index env) (fault.BadIndex 32) }
{}

/// The second computation of an attribute in a rule.
pub fn double_computation()
    ensures { AtPlace (λ at. fault.DoubleComputation at) (IsDouble specification.double_computation env)
        (fault.DoubleComputation 31) }
{}

/// The second PTGOut of a rule.
pub fn bad_out()
    ensures { AtPlace (λ at. fault.BadOut at) (IsBadOut specification.bad_out env) (fault.BadOut 41) }
{}

/// Of two classes that inherit each other the second inherits itself too, which is the shorter way though its number is greater.
pub fn class_cycle()
    ensures numbers { AreNumbered nat_eq (symbol_uses specification.class_cycle env)
        (specification.X ∷ specification.Y ∷ []) }
    ensures fault { (sets : Sets specification.class_cycle)
        → First (in_force_faults specification.class_cycle (specification.tables_of_cycle sets))
        (fault.ClassCycle (record { 0 = specification.Y } ∷ record { 0 = specification.Y } ∷ [])) }
{}

/// Nothing computes the attribute that the symbol of the left side declares.
pub fn missing_computation()
    ensures { (sets : Sets specification.missing_computation)
        → IsMissingComputation specification.missing_computation (specification.tables_of_missing sets)
        (fault.MissingComputation (record { 0 = specification.r }) 0 (record { 0 = specification.a })) }
{}
