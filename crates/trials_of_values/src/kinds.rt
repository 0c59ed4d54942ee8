// The rows of the table of types, and the first of several kinds of faults.
ghost use Rattle.std.specs.Prelude.{◌≡◌, [], ◌∷◌, ◌+◌, ℕ, List};
ghost use Rattle.lido_base.specs.Faults.{First, HasNone, AtPlace, IsLeastPlace};
ghost use Rattle.lido_base.specs.Types.{Takes};
ghost use Rattle.lido_base.specs.declared.operation.Op.TheVariants as op;
ghost use Rattle.lido_base.specs.declared.value.ValueType.{ValueType};
ghost use Rattle.lido_base.specs.declared.value.ValueType.TheVariants.{Int, Str, Bool, Text, Void};
ghost use Rattle.trials_of_values.specs.Kinds.{line, nothing, spots, nine};

/// Operations take what their rows say: `==` two of one type, `IDENTICAL` any, a pattern's function its insertion points. No
/// row has an int beside a string, nor has a pattern that isn't there.
pub fn rows_of_types()
    ensures sum { Takes [] op.Add (Int ∷ Int ∷ []) Int }
    ensures strings { Takes [] op.Eq (Str ∷ Str ∷ []) Bool }
    ensures not_mixed { ¬ Takes [] op.Eq (Int ∷ Str ∷ []) Bool }
    ensures handed_on { Takes [] op.Identical (Void ∷ []) Void }
    ensures pattern { Takes (line ∷ []) (op.Pattern 0) (Int ∷ Str ∷ []) Text }
    ensures no_pattern { (args : List ValueType) (gives : ValueType) → ¬ Takes [] (op.Pattern 0) args gives }
{}

/// Of three kinds, of which the first has no fault, the second answers, at the least of its two places.
pub fn the_first_of_three_kinds()
    ensures none { HasNone (nothing ∷ []) }
    ensures least { IsLeastPlace spots 5 }
    ensures not_least { ¬ IsLeastPlace spots 7 }
    ensures first { First (nothing ∷ AtPlace (λ at. at + 100) spots ∷ nine ∷ []) 105 }
    ensures not_the_third { ¬ First (nothing ∷ AtPlace (λ at. at + 100) spots ∷ nine ∷ []) 9 }
{}
