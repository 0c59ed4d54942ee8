//! The law of the construction: functions that do nothing, whose contracts are the laws.
ghost use Rattle.std.specs.Prelude.{List};
ghost use Rattle.lido_base.specs.declared.ids.SymId.{SymId as Symbol};
ghost use Rattle.flat_grammar.specs.declared.flat.FlatSymbol.{FlatSymbol};
ghost use Rattle.flat_grammar.specs.declared.flat.FlatRule.{FlatRule};
ghost use Rattle.flat_grammar.specs.declared.flat.Shape.{Shape};
ghost use Rattle.flat_grammar.specs.declared.plan.PlanItem.{PlanItem};
ghost use Rattle.flat_grammar.specs.declared.plan.VisitClass.{VisitClass};
ghost use Rattle.flat_grammar.specs.Construction.{AreConstructed};
ghost use Rattle.flat_grammar.specs.Cycles.{IsOrderedGrammar};
ghost use Rattle.flat_grammar.specs.Partition.{AreAllVisits};
ghost use Rattle.flat_grammar.specs.SoundPlan.{IsSound};
ghost use Rattle.flat_grammar.specs.WellFormed.{IsWellFormed};

/// Where no rule has a cycle and the visits are those of the partition, the constructed sequences are a sound plan.
pub fn constructed_plan_is_sound()
    ensures { (symbols : List FlatSymbol) (rules : List FlatRule) (shapes : List Shape) (root : Symbol) (visits : List (List VisitClass)) (seqs : List (List PlanItem))
        → IsWellFormed symbols rules shapes root → IsOrderedGrammar symbols rules → AreAllVisits symbols rules visits
        → AreConstructed symbols rules visits seqs
        → IsSound symbols rules visits seqs }
{}
