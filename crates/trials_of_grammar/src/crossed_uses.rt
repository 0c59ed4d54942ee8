//! Two children whose attributes cross: the partition makes a cycle.
ghost use Rattle.flat_grammar.specs.WellFormed.{IsWellFormed};
ghost use Rattle.flat_grammar.specs.Cycles.{IsCycle, IsCircular, IsOrderedGrammar};
ghost use Rattle.trials_of_grammar.specs.ListOfItems.{symbol};
ghost use Rattle.trials_of_grammar.specs.CrossedUses.{symbols, rules, shapes, S_rule, circle, wrong_label, wrong_start};

/// The grammar is well formed.
pub fn well_formed_grammar()
    ensures { IsWellFormed symbols rules shapes (symbol 0) }
{}

/// `X[1].i partition X[1].s direct X[2].i partition X[2].s direct X[1].i` is a cycle of the first rule. It is none with an edge
/// of the partition labelled as induced, nor when it begins at another vertex than the least one.
pub fn cycle_with_its_labels()
    ensures met { IsCircular symbols rules 0 circle }
    ensures not_ordered { ¬ IsOrderedGrammar symbols rules }
    ensures wrong_label { ¬ IsCycle symbols rules S_rule wrong_label }
    ensures wrong_start { ¬ IsCycle symbols rules S_rule wrong_start }
{}
