//! A small specification in whole: its attributes, the trees that fit it, its only values and its output.
ghost use Rattle.std.specs.Prelude.{◌≡◌, ℕ, pos, codes, Ok, []};
ghost use Rattle.lido_base.specs.Plain.{Int};
ghost use Rattle.lido_base.specs.declared.kinds.Kind.TheVariants as kind;
ghost use Rattle.lido_base.specs.declared.value.ValueType.TheVariants as type_of;
ghost use Rattle.lido_syntax.specs.Assignment.{Assignment};
ghost use Rattle.lido_syntax.specs.Attributes.{Has, HasKind, HasType};
ghost use Rattle.lido_syntax.specs.Attribution.{IsAttribution, HasOneAttribution};
ghost use Rattle.lido_syntax.specs.Completeness.{IsComplete};
ghost use Rattle.lido_syntax.specs.Constituents.{constituents_at};
ghost use Rattle.lido_syntax.specs.Fitting.{IsFitting};
ghost use Rattle.lido_syntax.specs.Output.{IsResult};
ghost use Rattle.lido_syntax.specs.Sets.{Sets};
ghost use Rattle.trials_of_syntax.specs.SumOfItems.{Item, n, sum, spec, undeclared, without_a_number, tree, empty_tree, number_in_a_list, item_at_the_root, item_without_a_number, numbers, wrong_numbers, too_many_numbers};
ghost use Rattle.trials_of_syntax.specs.OneAttribution as one;
ghost use Rattle.trials_of_syntax.specs.TwoSides as two;
ghost use Rattle.trials_of_syntax.specs.Writing.{env};

/// An item has its number alone: an int, as ATTR says, else VOID, and synthesized by the side of its target.
pub fn attribute_of_an_item()
    ensures has { Has spec Item n }
    ensures no_other { (s a : ℕ) → Has spec s a → (s ≡ Item) × (a ≡ n) }
    ensures kind { HasKind spec Item n kind.Synthesized }
    ensures declared_type { HasType spec Item n type_of.Int }
    ensures default_type { HasType undeclared Item n type_of.Void }
{}

/// The specification is complete.
pub fn complete_specification()
    ensures { IsComplete spec }
{}

/// Without the computation of the items' numbers it isn't.
pub fn incomplete_specification()
    ensures { ¬ IsComplete without_a_number }
{}

/// Nor is one whose rules compute an attribute on both sides; no values meet its equations.
pub fn two_sides()
    ensures not_complete { ¬ IsComplete two.spec }
    ensures no_values { (sets : Sets two.spec) (A : Assignment) → ¬ IsAttribution two.spec sets env two.tree A }
{}

/// A list of two items fits, and an empty one; a number in the list doesn't, nor an item at the root, nor one without a number.
pub fn fitting_trees()
    ensures items { IsFitting spec tree }
    ensures empty { IsFitting spec empty_tree }
    ensures number { ¬ IsFitting spec number_in_a_list }
    ensures root { ¬ IsFitting spec item_at_the_root }
    ensures missing { ¬ IsFitting spec item_without_a_number }
{}

/// Items of 5 and 6 have these values and no others, and the output is 11.
pub fn sum_of_items()
    ensures attribution { (sets : Sets spec) → IsAttribution spec sets env tree numbers }
    ensures wrong { (sets : Sets spec) → ¬ IsAttribution spec sets env tree wrong_numbers }
    ensures too_many { (sets : Sets spec) → ¬ IsAttribution spec sets env tree too_many_numbers }
    ensures result { (sets : Sets spec) → IsResult spec sets env tree numbers (Ok (codes "11", [])) }
    ensures empty { (sets : Sets spec)
        → constituents_at spec sets env empty_tree numbers sum 0 sum.with ≡ Int (pos 0) }
{}

/// A chain through two children has one attribution and no other. The fault in the chain alone is none, and without a PTGOut
/// the output is empty.
pub fn only_attribution()
    ensures attribution { (sets : Sets one.spec) → IsAttribution one.spec sets env one.tree one.A }
    ensures only { (sets : Sets one.spec) → HasOneAttribution one.spec sets env one.tree }
    ensures result { (sets : Sets one.spec) → IsResult one.spec sets env one.tree one.A (Ok ([], [])) }
{}
