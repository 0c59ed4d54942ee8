//! Laws of flattenings: functions that do nothing, whose contracts are the laws.
ghost use Rattle.std.specs.Prelude.{◌≡◌, ℕ, List};
ghost use Rattle.lido_base.specs.Plain.{Plain};
ghost use Rattle.lido_base.specs.Tree.{Tree as Table};
ghost use Rattle.lido_syntax.specs.declared.spec.RuleItem.{RuleItem};
ghost use Rattle.lido_syntax.specs.Assignment.{Assignment};
ghost use Rattle.lido_syntax.specs.Completeness.{IsComplete};
ghost use Rattle.lido_syntax.specs.Fitting as written;
ghost use Rattle.flat_grammar.specs.Fitting as flat;
ghost use Rattle.flat_grammar.specs.FlatTrees.{IsNodeOf};
ghost use Rattle.tree_flattener.specs.Roles.{IsCellOfList};
ghost use Rattle.rule_tables.specs.PlainRules.{PlainRule};
ghost use Rattle.rule_tables.specs.Forced.{Force};
ghost use Rattle.rule_tables.specs.Slots.{Slot};
ghost use Rattle.rule_tables.specs.Shares.{Term, IncludingShare};
ghost use Rattle.carried_trees.specs.Flattening.{Flattening, IsFlattening, Trees, AreTrees};
ghost use Rattle.carried_trees.specs.Carry.{at_node, at_cell, carried, carry};
ghost use Rattle.carried_trees.specs.Holds.{IsRuleAt, Holds};

/// An accepted specification is complete: each attribute has one kind, one type and one computation.
pub fn accepted_specifications_are_complete()
    ensures { (f : Flattening) → IsFlattening f → IsComplete f.spec }
{}

/// A tree that fits an accepted specification fits its flat grammar.
pub fn fitting_trees_fit_the_flat_grammar()
    ensures { (f : Flattening) → IsFlattening f → (t : Table Plain) → written.IsFitting f.spec t
        → flat.IsFitting f.symbols f.rules f.shapes f.root t }
{}

/// What is carried to the flat node of a written node is what the written node has, and to a cell what the list's elements from
/// there on make.
pub fn flat_nodes_carry_what_they_stand_for()
    ensures node { (f : Flattening) → IsFlattening f → (x : Trees) → AreTrees f x → (A : Assignment) (n w : ℕ) (s : Slot)
        → IsNodeOf f.rules f.shapes x.flat x.node_of n w → carried f x A n s ≡ at_node f x A w s }
    ensures cell { (f : Flattening) → IsFlattening f → (x : Trees) → AreTrees f x → (A : Assignment) (n w : ℕ) (s : Slot)
        → (is : IsCellOfList f.rules f.shapes x.written x.flat x.node_of n w) → carried f x A n s ≡ at_cell f x A w is.rest s }
{}

/// What is carried meets the equations of INCLUDING: each flat node hands down to its children what INCLUDING finds from its
/// written node on.
pub fn including_is_handed_down()
    ensures { (f : Flattening) → IsFlattening f → (x : Trees) → AreTrees f x → (A : Assignment)
        → (n : ℕ) (r : RuleItem) (p : PlainRule) (fs : List Force) → IsRuleAt f x n r p fs
        → (k : ℕ) (s : Slot) (e : Term) → IncludingShare f.spec f.tables f.needs p fs k s e
        → Holds f x (carry f x A) n r p fs k s e }
{}
