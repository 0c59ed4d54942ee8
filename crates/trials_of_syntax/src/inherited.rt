//! An attribute that is handed down: by rules, and by a class that a symbol inherits.
ghost use Rattle.std.specs.Prelude.{◌≡◌, ℕ, pos, Some, Err};
ghost use Rattle.lido_base.specs.declared.kinds.Kind.TheVariants as kind;
ghost use Rattle.lido_base.specs.Plain.{Int};
ghost use Rattle.lido_syntax.specs.declared.spec.Comp.{Comp};
ghost use Rattle.lido_syntax.specs.Attributes.{HasKind};
ghost use Rattle.lido_syntax.specs.Attribution.{IsAttribution};
ghost use Rattle.lido_syntax.specs.Completeness.{IsComplete};
ghost use Rattle.lido_syntax.specs.Computation.{Holder, by_rule, by_symbol};
ghost use Rattle.lido_syntax.specs.Constituents.{constituents_at};
ghost use Rattle.lido_syntax.specs.Including.{up};
ghost use Rattle.lido_syntax.specs.Nodes.{Computes};
ghost use Rattle.lido_syntax.specs.Output.{IsResult};
ghost use Rattle.lido_syntax.specs.Sets.{Sets};
ghost use Rattle.trials_of_syntax.specs.HandedDown.{Left, Right, i, three, five, quotient, fives, spec, pairs, tree, zero_divisor, handed, of_the_sibling, of_the_child};
ghost use Rattle.trials_of_syntax.specs.Writing.{env};

/// A rule's computation has the rule's node as its context, that of a class the node whose symbol inherits it.
pub fn computing_nodes()
    ensures rule { Computes spec tree 1 i 0 by_rule three }
    ensures rule_below { Computes spec tree 3 i 2 by_rule quotient }
    ensures class { Computes spec tree 2 i 2 by_symbol five }
    ensures no_other { (context : ℕ) (h : Holder) (c : Comp) → Computes spec tree 2 i context h c
        → (context ≡ 2) × (h ≡ by_symbol) × (c ≡ five) }
{}

/// A target on the right side tells that an attribute is inherited, and so does INH in a class.
pub fn inherited_kinds()
    ensures side { HasKind spec Left i kind.Inherited }
    ensures class { HasKind spec Right i kind.Inherited }
{}

/// The specification is complete: each place of a right side has a computation for the attribute.
pub fn complete_right_sides()
    ensures { IsComplete spec }
{}

/// The values are 3, 5, and a fault at the node of the rule; 5 for 3 is wrong, and so is a fault at the child's node.
pub fn values_handed_down()
    ensures attribution { (sets : Sets spec) → IsAttribution spec sets env tree handed }
    ensures sibling { (sets : Sets spec) → ¬ IsAttribution spec sets env tree of_the_sibling }
    ensures child { (sets : Sets spec) → ¬ IsAttribution spec sets env tree of_the_child }
    ensures result { (sets : Sets spec) → IsResult spec sets env tree handed (Err (zero_divisor 0 2)) }
{}

/// A class stands for the symbols that inherit it: as a source and a shield, and above a node.
pub fn listed_class()
    ensures sum { (sets : Sets spec) → constituents_at spec sets env tree handed fives 0 fives.with ≡ Int (pos 5) }
    ensures found { (sets : Sets spec) → up spec sets tree pairs 3 ≡ Some (2, i) }
{}
