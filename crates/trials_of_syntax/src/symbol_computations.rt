//! Which computation is in force.
ghost use Rattle.std.specs.Prelude.{◌≡◌};
ghost use Rattle.lido_base.specs.declared.kinds.Kind.TheVariants as kind;
ghost use Rattle.lido_base.specs.declared.value.ValueType.TheVariants as type_of;
ghost use Rattle.lido_syntax.specs.Attributes.{Has, HasKind, HasType};
ghost use Rattle.lido_syntax.specs.Computation.{Holder, by_rule, by_symbol, InForce, IsLeft, Synthesized, Inherited, Start, Behind};
ghost use Rattle.lido_syntax.specs.declared.spec.Comp.{Comp};
ghost use Rattle.trials_of_syntax.specs.HandedDown as handed;
ghost use Rattle.trials_of_syntax.specs.Classes.{X, Y, Z, C, D, v, no, top_rule, Forces, three, synt, start, next, x_rule, y_rule, z_rule, class_symbol_rule, class_of_class, two_classes, chain_in_symbols};

/// The rule's own computation is in force at X, the symbol's own at Y, and that of the class at Z.
pub fn class_symbol_rule()
    ensures rule { Forces class_symbol_rule x_rule by_rule three }
    ensures symbol { Forces class_symbol_rule y_rule by_symbol (synt 2 2) }
    ensures class { Forces class_symbol_rule z_rule by_symbol (synt 0 1) }
    ensures no_other { (h : Holder) (c : Comp) → Forces class_symbol_rule z_rule h c → c ≡ synt 0 1 }
{}

/// Of two classes that compute an attribute the one that inherits the other is left.
pub fn class_of_a_class()
    ensures left { Forces class_of_class z_rule by_symbol (synt 1 2) }
    ensures dropped { ¬ IsLeft class_of_class Z (Synthesized v) C }
{}

/// Where two classes are left, no computation is in force.
pub fn two_classes_left()
    ensures first { IsLeft two_classes Z (Synthesized v) C }
    ensures second { IsLeft two_classes Z (Synthesized v) D }
    ensures none { (h : Holder) (c : Comp) → ¬ Forces two_classes z_rule h c }
{}

/// A symbol has the attributes of its classes, with the kind that the class tells.
pub fn attribute_of_a_class()
    ensures has { Has class_symbol_rule Z v }
    ensures kind { HasKind class_symbol_rule Z v kind.Synthesized }
    ensures type_ { HasType class_symbol_rule Z v type_of.Int }
{}

/// A class starts a chain at the symbols that inherit it, and by THIS a symbol says what stands behind it.
pub fn chain_of_a_symbol()
    ensures start { InForce chain_in_symbols z_rule 0 Z (Start no) by_symbol start }
    ensures this { InForce chain_in_symbols y_rule 0 Y (Behind no) by_symbol next }
    ensures no_start { (h : Holder) (c : Comp) → ¬ InForce chain_in_symbols y_rule 0 Y (Start no) h c }
{}

/// Nothing is in force for what is no goal of an occurrence: an INH computation at the left side, a SYNT computation at a
/// right side, and any at an occurrence that the rule doesn't have.
pub fn goals_of_an_occurrence()
    ensures left { (h : Holder) (c : Comp)
        → ¬ InForce handed.spec handed.right_rule 0 handed.Right (Inherited handed.i) h c }
    ensures right { (h : Holder) (c : Comp) → ¬ InForce class_symbol_rule top_rule 2 Y (Synthesized v) h c }
    ensures beyond { (h : Holder) (c : Comp)
        → ¬ InForce handed.spec handed.top_rule 7 handed.Right (Inherited handed.i) h c }
    ensures there { InForce handed.spec handed.top_rule 2 handed.Right (Inherited handed.i) by_symbol handed.five }
{}
