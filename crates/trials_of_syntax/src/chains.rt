//! A chain through a list, with a start inside.
ghost use Rattle.std.specs.Prelude.{◌≡◌, pos, [], ◌∷◌, ◌++◌, codes};
ghost use Rattle.lido_base.specs.Plain.{Int, Text, Void};
ghost use Rattle.lido_base.specs.declared.value.ValueType.TheVariants as type_of;
ghost use Rattle.lido_syntax.specs.Chains.{IsThreaded, IsTail};
ghost use Rattle.lido_syntax.specs.Computation.{by_rule};
ghost use Rattle.lido_syntax.specs.Constituents.{constituents_at};
ghost use Rattle.lido_syntax.specs.Sets.{Sets};
ghost use Rattle.lido_syntax.specs.Value.{value};
ghost use Rattle.trials_of_syntax.specs.NestedStart.{env, spec, tree, counted, leaked, empty_tree, lines, of_line, no, item_rule, line, all_lines, group_lines};
ghost use Rattle.trials_of_syntax.specs.NumberedList.{tree as three_lines, counted as three_counted, stuck as three_stuck, lines as three_texts};

/// A start counts for the nodes below it alone: the lines have the numbers 1, 10, 11 and 2, and the output is their lines.
pub fn nested_start()
    ensures threaded { (sets : Sets spec) → IsThreaded spec sets env tree counted no type_of.Int }
    ensures no_leak { (sets : Sets spec) → ¬ IsThreaded spec sets env tree leaked no type_of.Int }
    ensures first { (sets : Sets spec)
        → value spec sets env tree counted by_rule item_rule 3 1 (λ c. Void) line.value ≡ of_line (codes "1 a") }
    ensures inner { (sets : Sets spec)
        → value spec sets env tree counted by_rule item_rule 3 4 (λ c. Void) line.value ≡ of_line (codes "10 x") }
    ensures inner_next { (sets : Sets spec)
        → value spec sets env tree counted by_rule item_rule 3 5 (λ c. Void) line.value ≡ of_line (codes "11 y") }
    ensures behind { (sets : Sets spec)
        → value spec sets env tree counted by_rule item_rule 3 6 (λ c. Void) line.value ≡ of_line (codes "2 b") }
    ensures group { (sets : Sets spec) → constituents_at spec sets env tree lines group_lines 3 group_lines.with
        ≡ Text (codes "10 x" ++ 10 ∷ codes "11 y" ++ 10 ∷ []) }
    ensures output { (sets : Sets spec) → constituents_at spec sets env tree lines all_lines 0 all_lines.with
        ≡ Text (codes "1 a" ++ 10 ∷ codes "10 x" ++ 10 ∷ codes "11 y" ++ 10 ∷ codes "2 b" ++ 10 ∷ []) }
{}

/// `TAIL` is what stands behind the last nonterminal child; without one it is the start's value, or what stands in front.
pub fn tails()
    ensures behind_the_last { (sets : Sets spec) → IsTail spec sets env tree counted no 3 (Int (pos 12)) }
    ensures behind_the_group { (sets : Sets spec) → IsTail spec sets env tree counted no 2 (Int (pos 2)) }
    ensures in_front { (sets : Sets spec) → IsTail spec sets env tree counted no 1 (Int (pos 1)) }
    ensures started { (sets : Sets spec) → IsTail spec sets env empty_tree counted no 0 (Int (pos 1)) }
{}

/// A chain numbers the lines of a list from its start on: 1, 2 and 3, and the output is the three lines. A VOID chain keeps
/// no numbers.
pub fn numbered_list()
    ensures threaded { (sets : Sets spec) → IsThreaded spec sets env three_lines three_counted no type_of.Int }
    ensures no_repeat { (sets : Sets spec) → ¬ IsThreaded spec sets env three_lines three_stuck no type_of.Int }
    ensures void { (sets : Sets spec) → ¬ IsThreaded spec sets env three_lines three_counted no type_of.Void }
    ensures first { (sets : Sets spec)
        → value spec sets env three_lines three_counted by_rule item_rule 3 1 (λ c. Void) line.value ≡ of_line (codes "1 a") }
    ensures second { (sets : Sets spec)
        → value spec sets env three_lines three_counted by_rule item_rule 3 2 (λ c. Void) line.value ≡ of_line (codes "2 b") }
    ensures third { (sets : Sets spec)
        → value spec sets env three_lines three_counted by_rule item_rule 3 3 (λ c. Void) line.value ≡ of_line (codes "3 c") }
    ensures output { (sets : Sets spec) → constituents_at spec sets env three_lines three_texts all_lines 0 all_lines.with
        ≡ Text (codes "1 a" ++ 10 ∷ codes "2 b" ++ 10 ∷ codes "3 c" ++ 10 ∷ []) }
{}
