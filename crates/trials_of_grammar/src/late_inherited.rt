//! An inherited attribute that nothing uses is evaluated first and handed on last.
ghost use Rattle.std.specs.Prelude.{◌≡◌, [], ◌∷◌};
ghost use Rattle.flat_grammar.specs.WellFormed.{IsWellFormed};
ghost use Rattle.flat_grammar.specs.Dependencies.{AreInducedRows};
ghost use Rattle.flat_grammar.specs.Partition.{AreAllVisits};
ghost use Rattle.flat_grammar.specs.Construction.{AreConstructed};
ghost use Rattle.flat_grammar.specs.SoundPlan.{IsSound, IsUnsound};
ghost use Rattle.flat_grammar.specs.WholeOrder.{whole_order};
ghost use Rattle.trials_of_grammar.specs.ListOfItems.{symbol};
ghost use Rattle.trials_of_grammar.specs.LateInherited.{symbols, rules, shapes, induced_rows, empty_rows, visits, visits_of_S, visits_of_B, sequences, tree, with_sequence, no_such_child, evaluated_twice, visited_twice, visited_too_early, evaluated_too_early, left_too_early, last_visit_missing};

/// The grammar is well formed.
pub fn well_formed_grammar()
    ensures { IsWellFormed symbols rules shapes (symbol 0) }
{}

/// S.v comes before S.$out, and nothing else is induced between two attributes of one symbol.
pub fn rows_of_induced_dependencies()
    ensures met { AreInducedRows symbols rules induced_rows }
    ensures bit_missing { ¬ AreInducedRows symbols rules empty_rows }
{}

/// Each symbol has one visit: S gives v and $out, A takes i, B gives v.
pub fn peeled_visits()
    ensures { AreAllVisits symbols rules visits }
{}

/// The construction gives the plan.
pub fn constructed_plan()
    ensures { AreConstructed symbols rules visits sequences }
{}

/// The plan is sound.
pub fn sound_plan()
    ensures { IsSound symbols rules visits sequences }
{}

/// Over `(rS (rA) (rB))` it evaluates A.i, then B.v in the visit of B, S.v and S.$out.
pub fn whole_order_of_the_tree()
    ensures { whole_order tree sequences visits (symbol 0) ≡ (1, 0) ∷ (2, 0) ∷ (0, 0) ∷ (0, 1) ∷ [] }
{}

/// Plans that break one clause have it as their first fault, by rule, place and clause.
pub fn first_faults()
    ensures row_missing { IsUnsound symbols rules (visits_of_S ∷ [] ∷ visits_of_B ∷ []) sequences 0 0 0 }
    ensures no_such_child { IsUnsound symbols rules visits (with_sequence no_such_child) 0 0 0 }
    ensures evaluated_twice { IsUnsound symbols rules visits (with_sequence evaluated_twice) 0 1 1 }
    ensures visited_twice { IsUnsound symbols rules visits (with_sequence visited_twice) 0 1 2 }
    ensures last_visit_missing { IsUnsound symbols rules visits (with_sequence last_visit_missing) 0 5 2 }
    ensures visited_too_early { IsUnsound symbols rules visits (with_sequence visited_too_early) 0 0 3 }
    ensures evaluated_too_early { IsUnsound symbols rules visits (with_sequence evaluated_too_early) 0 0 4 }
    ensures left_too_early { IsUnsound symbols rules visits (with_sequence left_too_early) 0 1 5 }
{}
